// What a failed trial teaches. A rota has b or its opposite, so what both lead to is in every allowed rota: the opposite of
// such a code leads to the code. Two walks and what they share settle whole families of later trials at once, with no
// table beyond the spare one: what the first walk met is shaded there. It pays only after a failure that walked far.
// `shadow` and `share` have one shape, as have `shade` and `note`, but leave shades and notes: one function over a closure would have to
// say so in a clause of its own.
ghost use Rattle.std.specs.Prelude.{◌≡◌, ◌*◌, ◌≤◌, ◌<◌};
ghost use Rattle.moves.specs.Layout.{mark};
ghost use Rattle.lessons.specs.Learning.{Notes, Shades, Flags, NotesDown, Unshades, Shadows, Shares, Learns};
ghost use Rattle.moves.specs.Area.{Free, Holds};

use crate::notes::{FAILS, SHADE};
use meaning::Code;
use moves::work::Work;

// Shades the codes of the trail from `from` on.
fn shade(work: &mut Work<'_>, from: usize)
    requires { from ≤ work.old.tail }
    ensures { Shades work.old from work.new }
{
    for i in from..work.tail() {
        let x = work.trail(i);
        let s = work.spare(x);
        work.set_spare(x, s % SHADE + SHADE);
    }
}

// Notes that the opposite of x leads to x, where x is shaded.
fn flag(work: &mut Work<'_>, x: Code)
    requires { x.0 < 2 * work.old.n }
    ensures { Flags work.old x.0 work.new }
{
    if work.spare(x) < SHADE {
        return;
    }
    let o = x.opposite();
    let s = work.spare(o);
    work.set_spare(o, s - s % SHADE + FAILS);
}

// The same for the codes of the trail from `from` on.
fn note(work: &mut Work<'_>, from: usize)
    requires { from ≤ work.old.tail }
    ensures { NotesDown work.old from work.new }
{
    for i in from..work.tail() {
        let x = work.trail(i);
        flag(work, x);
    }
}

// Takes the shades away.
fn unshade(work: &mut Work<'_>)
    ensures { Unshades work.old work.new }
{
    for c in 0..work.codes() {
        let s = work.spare(Code(c));
        work.set_spare(Code(c), s % SHADE);
    }
}

// Shades what b reaches outside the set.
fn shadow(work: &mut Work<'_>, b: Code)
    requires holding { Holds work.old }
    requires notes { Notes work.old.n work.old.rules work.old.words }
    requires b_bound { (b.0 < 2 * work.old.n) × (mark work.old.n work.old.words b.0 ≡ 0) }
    ensures { Shadows work.old b.0 work.new }
{
    let tail = work.tail();
    work.spread(b);
    shade(work, tail);
    work.undo_to(tail);
}

// Notes what b reaches outside the set and what is shaded.
fn share(work: &mut Work<'_>, b: Code)
    requires holding { Holds work.old }
    requires b_bound { (b.0 < 2 * work.old.n) × (mark work.old.n work.old.words b.0 ≡ 0) }
    ensures { Shares work.old b.0 work.new }
{
    let tail = work.tail();
    work.spread(b);
    note(work, tail);
    work.undo_to(tail);
}

// Notes, of each code outside the set that b and its opposite both reach, that its opposite leads to it.
pub fn learn(work: &mut Work<'_>, b: Code)
    requires holding { Holds work.old }
    requires notes { Notes work.old.n work.old.rules work.old.words }
    requires b_bound { Free work.old b.0 }
    ensures { Learns work.old work.new }
{
    shadow(work, b);
    share(work, b.opposite());
    unshade(work);
}
