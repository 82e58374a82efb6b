// The whole move: the walk from the code, the chain, and the walk taken back, so that another chain can follow at once.
ghost use Rattle.std.specs.Prelude.{◌*◌, ◌≤◌, ◌<◌, length};
ghost use Rattle.meaning.specs.Chains.{Reach};
ghost use Rattle.meaning.specs.Codes.{opposite};
ghost use Rattle.chains.specs.Traces.{Unmarked, Chained};

use crate::trace::trace;
use meaning::Code;
use moves::work::Work;

// Writes the shortest chain from c to its opposite at the front of the area, and returns its length.
pub fn chain(work: &mut Work<'_>, c: Code, area: &mut [u16]) -> usize
    requires unmarked { Unmarked work.old.n work.old.words }
    requires c_bound { (c.0 < 2 * work.old.n) × Reach work.old.rules c.0 (opposite c.0) × (2 * work.old.n ≤ length area.old) }
    ensures { Chained work.old c.0 work.new area.old area.new result }
{
    work.spread(c);
    let length = trace(work, c, area);
    work.undo_to(0);
    length
}
