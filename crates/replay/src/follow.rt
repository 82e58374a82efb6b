// The given rota is replayed, choice by choice, as far as the rules let it. The spare table remembers, at the late code of each replayed choice, how long
// the trail was before it.
ghost use Rattle.std.specs.Prelude.{◌*◌, ◌<◌, take};
ghost use Rattle.moves.specs.Area.{Holds};
ghost use Rattle.replay.specs.Replay.{Begins, Replays, Joins};

use meaning::{Choice, Code};
use moves::work::Work;

// Takes c into the set, if it can be, and tells whether it could.
pub(crate) fn join(work: &mut Work<'_>, c: Code) -> bool
    requires holding { Holds work.old × (c.0 < 2 * work.old.n) }
    ensures { Joins work.old c.0 work.new result }
{
    if work.mark(c) != 0 {
        return true;
    }
    if work.mark(c.opposite()) != 0 {
        return false;
    }
    work.attempt(c).is_ok()
}

// Replays the rota until a choice cannot follow, and tells how many choices it replayed, the one that could not follow included.
pub(crate) fn replay(work: &mut Work<'_>, rota: &[u8]) -> usize
    requires by_index { Begins work.old rota.now }
    ensures { Replays work.old (take work.old.n rota.now) work.new result }
{
    let n = work.choices();
    for (i, value) in rota[..n].iter().enumerate() {
        let choice = Choice(i as u16);
        work.set_spare(Code::of(choice, 1), work.tail() as u16);
        if !join(work, Code::of(choice, *value)) {
            return i + 1;
        }
    }
    n
}
