// How a chain goes on: by the lowest rule that leads one nearer to its end. The ends that hold a code are listed upward, so
// the first that fits is the lowest.
ghost use Rattle.std.specs.Prelude.{◌≡◌, ◌*◌, ◌<◌, length};
ghost use Rattle.moves.specs.Layout.{Sizes};
ghost use Rattle.chains.specs.Traces.{LeadsTo, LowestTo, across};

use crate::follow::rule_of;
use meaning::{Code, RuleNo};
use moves::work::Work;

// The mark that tells how far from the chain's end the step by this end leads.
fn mark_across(work: &Work<'_>, end: usize) -> u16
    requires sizes { Sizes work.now.n work.now.rules work.now.words }
    requires e_in_bounds { end < length work.now.rules }
    ensures { result ≡ across work.now.n work.now.rules work.now.words end }
{
    let b = work.across(end);
    let far = b.opposite();
    work.mark(far)
}

// The lowest rule that leads from a to a code whose opposite has the mark d. The first find is kept: nothing but this function
// knows which way the lists go.
pub fn lowest(work: &Work<'_>, a: Code, d: u16) -> RuleNo
    requires a_bound { (a.0 < 2 * work.now.n) × LeadsTo work.now a.0 d }
    ensures { LowestTo work.now.n work.now.rules work.now.words a.0 d result.0 }
{
    let mut found = None;
    // The ends are linked through the area: there is no slice to go over.
    let mut at = work.first_end(a.opposite());
    while let Some(end) = at {
        if found.is_none() && mark_across(work, end) == d {
            found = Some(rule_of(end));
        }
        at = work.next_end(end);
    }
    // Some rule leads there, so that 0 does not come.
    found.unwrap_or(RuleNo(0))
}
