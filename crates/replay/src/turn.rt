// The next rota: the given one is replayed and taken back to the choice that is raised, and the search goes on from there.
ghost use Rattle.std.specs.Prelude.{take};
ghost use Rattle.replay.specs.Replay.{Begins, Forgets, Finds};

use crate::follow::replay;
use crate::retreat::retreat;
use meaning::{Code, Moved};
use moves::work::Work;
use search::first::search;

// Clears the spare table: the search keeps notes of its own there. (`unshade` of lessons goes the same way, and leaves the notes.)
fn forget(work: &mut Work<'_>)
    ensures { Forgets work.old work.new }
{
    for c in 0..work.codes() {
        work.set_spare(Code(c), 0);
    }
}

// Finds the first allowed rota after the given one, and leaves its codes in the set.
pub fn find_next(work: &mut Work<'_>, rota: &[u8]) -> Moved
    requires by_index { Begins work.old rota.now }
    ensures { Finds work.old (take work.old.n rota.now) work.new result }
{
    let top = replay(work, rota);
    let raised = retreat(work, rota, top);
    forget(work);
    if let Some(v) = raised {
        return match search(work, usize::from(v) + 1) {
            Ok(()) => Moved::Moved,
            Err(_) => Moved::Impossible,
        };
    }
    work.undo_to(0);
    match search(work, 0) {
        Ok(()) => Moved::Ended,
        Err(_) => Moved::Impossible,
    }
}
