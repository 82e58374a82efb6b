// Which ends hold a code: a list for each code, linked through the work area. Ends are put in front of their lists from the
// last to the first, so each list goes up, and building it is one pass over the words. These functions make what a `Work` holds: so
// they take its parts.
ghost use Rattle.std.specs.Prelude.{◌≡◌, ℕ, ◌+◌, ◌*◌, ◌<◌, length};
ghost use Rattle.moves.specs.Layout.{Sizes, head, next_at};
ghost use Rattle.moves.specs.Area.{Prepared};
ghost use Rattle.moves.specs.Lists.{linked, Indexed};

use crate::clear::clear;
use crate::ends::code_at;
use crate::layout::{head_word, set_head, set_next, tables_end};
use meaning::Code;

// The end e is put in front of the list of its code.
fn link(n: usize, work: &mut [u16], c: Code, e: usize)
    requires { (c.0 < 2 * n) × (e < 65535) × (next_at n e < length work.old) }
    ensures { work.new ≡ linked n work.old c.0 e }
{
    let first = head_word(n, work, c);
    set_next(n, work, e, first);
    set_head(n, work, c, (e + 1) as u16);
}

// The lists of all ends. The heads are 0 before.
pub fn index(n: usize, words: &[u16], work: &mut [u16])
    requires sizes { Sizes n words.now work.old }
    requires by_index { (c : ℕ) → c < 2 * n → head n work.old c ≡ 0 }
    ensures { Indexed n words.now work.old work.new }
{
    for e in (0..words.len()).rev() {
        let c = code_at(words, e);
        link(n, work, c, e);
    }
}

// Any words may stand in the area before: the tables that a move reads before it writes them are cleared.
pub fn prepare(n: usize, words: &[u16], work: &mut [u16])
    requires { Sizes n words.now work.old }
    ensures { Prepared n words.now work.old work.new }
{
    clear(work, tables_end(n));
    index(n, words, work);
}
