// The replay is taken back from choice to choice, to the last early choice that can be late. So no candidate is tried from scratch.
ghost use Rattle.std.specs.Prelude.{◌≤◌, ◌<◌, take};
ghost use Rattle.meaning.specs.Rotas.{Rota};
ghost use Rattle.moves.specs.Area.{IsSound};
ghost use Rattle.replay.specs.Replay.{Past, SpansOn, Remembers, Lifts, Retreats};

use crate::follow::join;
use meaning::{Choice, Code};
use moves::work::Work;

// Makes choice v late, where the rota has it early and the set allows it, and tells whether it is.
fn lift(work: &mut Work<'_>, rota: &[u8], v: Choice) -> bool
    requires sound { IsSound work.old }
    requires rota { Rota work.old.n (take work.old.n rota.now) × (v.0 < work.old.n) }
    requires stands { SpansOn work.old (Past (take work.old.n rota.now) v.0) }
    ensures { Lifts work.old (take work.old.n rota.now) v.0 work.new result }
{
    if rota[usize::from(v)] != 0 {
        return false;
    }
    join(work, Code::of(v, 1))
}

// Goes back from choice to choice, to the last one that can be raised.
pub(crate) fn retreat(work: &mut Work<'_>, rota: &[u8], top: usize) -> Option<Choice>
    requires sound { IsSound work.old }
    requires rota { Rota work.old.n (take work.old.n rota.now) × (top ≤ work.old.n) }
    requires levels { Remembers work.old (take work.old.n rota.now) top }
    ensures { Retreats work.old (take work.old.n rota.now) work.new result }
{
    for v in (0..top).rev() {
        let choice = Choice(v as u16);
        let before = work.spare(Code::of(choice, 1));
        work.undo_to(usize::from(before));
        if lift(work, rota, choice) {
            return Some(choice);
        }
    }
    None
}
