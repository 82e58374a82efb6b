// The rota that the set says, once every choice is settled.
ghost use Rattle.std.specs.Prelude.{◌≡◌, ◌≤◌, min, length};
ghost use Rattle.meaning.specs.Sizes.{over};
ghost use Rattle.search.specs.State.{rota_of};

use meaning::{Choice, Code};
use moves::reading::View;

// 1 where there is a mark.
fn value_of(mark: u16) -> u8
    ensures { result ≡ min 1 mark }
{
    if mark == 0 { 0 } else { 1 }
}

// Writes the values that the set says. `put_forced` and `put_ties` have this loop for other items: over a closure, the clause would have to say
// what it gives for each choice.
pub fn put_rota(tables: View<'_>, rota: &mut [u8])
    requires { (tables.n ≤ 32767) × (tables.n ≤ length rota.old) }
    ensures { rota.new ≡ over (rota_of tables.entry.n tables.entry.words.now) rota.old }
{
    for (v, value) in rota[..tables.n].iter_mut().enumerate() {
        let late = Code::of(Choice(v as u16), 1);
        *value = value_of(tables.mark(late));
    }
}
