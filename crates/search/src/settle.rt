// One choice is settled: early if that can be kept, else late, else it is stuck. A failure that walked far is learnt from, so that the same
// walk is not done again for the next choice; a short one is just turned over. Its steps are written out where they are made (`inline`): a trial
// of a code that leads to little costs less than a call.
ghost use Rattle.std.specs.Prelude.{◌*◌, ◌<◌};
ghost use Rattle.meaning.specs.Chains.{Reach};
ghost use Rattle.meaning.specs.Codes.{opposite, late, early};
ghost use Rattle.search.specs.State.{Open, Stands};
ghost use Rattle.search.specs.Search.{Teaches, Settled};

use lessons::learn::learn;
use lessons::notes::FAILS;
use meaning::{Choice, Code};
use moves::attempt::Failure;
use moves::work::Work;

// How many codes a failed trial has to have walked for its lesson to be worth two more walks.
const FAR: usize = 24;

// Notes that c leads to its opposite, and learns from the failure of its trial, if that walked far and the set does not tell of its code yet.
pub fn teach(work: &mut Work<'_>, c: Code, failure: Failure)
    requires state { Stands work.old }
    requires c_bound { (c.0 < 2 * work.old.n) × Reach work.old.rules c.0 (opposite c.0) × (failure.code.0 < 2 * work.old.n) }
    ensures { Teaches work.old c.0 work.new }
{
    work.set_spare(c, FAILS);
    if failure.walked < FAR {
        return;
    }
    let b = failure.code;
    if work.mark(b) != 0 {
        return;
    }
    if work.mark(b.opposite()) != 0 {
        return;
    }
    learn(work, b)
}

// Tries late where early is known to fail.
#[inline(always)]
fn turn_over(work: &mut Work<'_>, v: Choice) -> Result<(), Choice>
    requires state { Stands work.old }
    requires v_lt_n { Open work.old v.0 }
    requires reach { Reach work.old.rules (early v.0) (late v.0) }
    ensures { Settled work.old v.0 work.new result }
{
    let tried = work.attempt(Code::of(v, 1));
    match tried {
        Ok(()) => Ok(()),
        Err(_) => Err(v),
    }
}

// Tries early where nothing is known of it. Late is tried before the failure is learnt from: if it fails too, there is nothing left to learn for.
#[inline(always)]
fn try_both(work: &mut Work<'_>, v: Choice) -> Result<(), Choice>
    requires state { Stands work.old }
    requires v_lt_n { Open work.old v.0 }
    ensures { Settled work.old v.0 work.new result }
{
    let first = Code::of(v, 0);
    let Err(failure) = work.attempt(first) else {
        return Ok(());
    };
    turn_over(work, v)?;
    teach(work, first, failure);
    Ok(())
}

// Settles choice v, as early as can be, or finds that it cannot be.
#[inline(always)]
pub fn settle(work: &mut Work<'_>, v: Choice) -> Result<(), Choice>
    requires state { Stands work.old }
    requires v_lt_n { v.0 < work.old.n }
    ensures { Settled work.old v.0 work.new result }
{
    let early = Code::of(v, 0);
    if work.mark(Code::of(v, 1)) != 0 {
        return Ok(());
    }
    if work.mark(early) != 0 {
        return Ok(());
    }
    if work.spare(early) == FAILS {
        return turn_over(work, v);
    }
    try_both(work, v)
}
