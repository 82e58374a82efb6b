// The chain itself, once the walk has told how far each code is: at each code it goes by the lowest rule that leads one nearer.
ghost use Rattle.std.specs.Prelude.{◌*◌, ◌≤◌, ◌<◌, length};
ghost use Rattle.meaning.specs.Codes.{opposite};
ghost use Rattle.moves.specs.Layout.{mark};
ghost use Rattle.chains.specs.Traces.{Away, Traced};

use crate::follow::follow;
use crate::nearer::lowest;
use meaning::Code;
use moves::work::Work;

// Writes the chain from c to its opposite at the front of the area, and returns its length.
pub fn trace(work: &Work<'_>, c: Code, area: &mut [u16]) -> usize
    requires away { Away work.now.n work.now.rules c.0 work.now.words }
    requires c_bound { (c.0 < 2 * work.now.n) × (0 < mark work.now.n work.now.words (opposite c.0)) × (2 * work.now.n ≤ length area.old) }
    ensures { Traced work.now.rules c.0 area.old area.new result }
{
    let len = usize::from(work.mark(c.opposite()) - 1);
    let mut a = c;
    for (i, item) in area[..len].iter_mut().enumerate() {
        let rule = lowest(work, a, (len - i) as u16);
        *item = rule.0;
        a = follow(work.rules(), a, rule);
    }
    len
}
