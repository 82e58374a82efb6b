// What the notes on all codes say is forced.
ghost use Rattle.std.specs.Prelude.{◌≡◌, ◌≤◌, ◌<◌, length};
ghost use Rattle.meaning.specs.Codes.{code_of};
ghost use Rattle.meaning.specs.Sizes.{max_choices, over};
ghost use Rattle.moves.specs.Layout.{spare};
ghost use Rattle.rounds.specs.Rounds.{byte_of, forced_of};

use lessons::notes::FAILS;
use meaning::{Choice, Code};
use moves::reading::View;

// The note of the code that says that choice v has this value.
fn note_of(tables: View<'_>, v: usize, value: u8) -> u16
    requires { (v < tables.n) × (tables.n ≤ max_choices) × (value ≤ 1) }
    ensures { result ≡ spare tables.entry.n tables.entry.words.now (code_of v value) }
{
    tables.spare(Code::of(Choice(v as u16), value))
}

// The byte of a choice, by the notes of its late code and its early code: a number, and no enum, since the promise and the C header fix it.
fn byte_of(late: u16, early: u16) -> u8
    ensures { result ≡ byte_of late early }
{
    if early == FAILS {
        return 1;
    }
    if late == FAILS { 0 } else { 2 }
}

// Writes the bytes.
pub fn put_forced(tables: View<'_>, area: &mut [u8])
    requires { (tables.n ≤ max_choices) × (tables.n ≤ length area.old) }
    ensures { area.new ≡ over (forced_of tables.entry.n tables.entry.words.now) area.old }
{
    for (v, byte) in area[..tables.n].iter_mut().enumerate() {
        *byte = byte_of(note_of(tables, v, 1), note_of(tables, v, 0));
    }
}
