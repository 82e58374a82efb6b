// The first allowed rota: the choices are settled in turn. A choice is late only where a chain from an earlier choice or from its own early code
// makes it so; hence the rota is the first.
ghost use Rattle.std.specs.Prelude.{◌≤◌};
ghost use Rattle.search.specs.State.{Stands};
ghost use Rattle.search.specs.Search.{Searches};

use crate::settle::settle;
use meaning::Choice;
use moves::work::Work;

// Settles the choices in turn, of which the first `from` are settled, or tells which is stuck.
pub fn search(work: &mut Work<'_>, from: usize) -> Result<(), Choice>
    requires state { Stands work.old }
    requires from_le_n { from ≤ work.old.n }
    ensures { Searches work.old from work.new result }
{
    let n = work.choices();
    for v in from..n {
        settle(work, Choice(v as u16))?;
    }
    Ok(())
}
