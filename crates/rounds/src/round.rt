// What is noted of each code: possible where it is in a set that was kept, failing where it leads to its opposite. A trial is kept on top of
// those before it, so that one round settles many codes; what a round leaves open is asked in a round of its own. What is asked of a noted code is
// written out in the round, and a trial is a call (`inline`): most codes are noted, and a round is to keep its registers for them.
ghost use Rattle.std.specs.Prelude.{◌≡◌, ◌*◌, ◌<◌};
ghost use Rattle.moves.specs.Area.{Free};
ghost use Rattle.search.specs.State.{Stands};
ghost use Rattle.rounds.specs.Rounds.{Considers, Goes, FindsOut, Sweeps};

use lessons::notes::POSSIBLE;
use meaning::Code;
use moves::work::Work;
use search::settle::teach;

// Tries c, of which nothing is known yet, and notes what came of it.
#[inline(never)]
fn try_and_note(work: &mut Work<'_>, c: Code)
    requires state { Stands work.old }
    requires c_bound { Free work.old c.0 }
    ensures { Considers work.old c.0 work.new }
{
    let tried = work.attempt(c);
    match tried {
        Ok(()) => work.set_spare(c, POSSIBLE),
        Err(failure) => teach(work, c, failure),
    }
}

// Finds out about code c on top of the set, unless its opposite is in the set.
#[inline(always)]
fn consider(work: &mut Work<'_>, c: Code)
    requires state { Stands work.old }
    requires c_bound { c.0 < 2 * work.old.n }
    ensures { Considers work.old c.0 work.new }
{
    if work.spare(c) != 0 {
        return;
    }
    if work.mark(c) != 0 {
        work.set_spare(c, POSSIBLE);
        return;
    }
    if work.mark(c.opposite()) != 0 {
        return;
    }
    try_and_note(work, c)
}

// One round over the codes from `from` on, on top of the set; then it is all taken back.
#[inline(never)]
fn round(work: &mut Work<'_>, from: u16)
    requires { Stands work.old }
    ensures { Goes work.old work.new }
{
    for c in from..work.codes() {
        consider(work, Code(c));
    }
    work.undo_to(0);
}

// Finds out about code c, by a round where nothing is noted of it yet. The round starts with c, on top of nothing: so c is tried.
fn ask(work: &mut Work<'_>, c: Code)
    requires state { Stands work.old }
    requires empty { work.old.tail ≡ 0 }
    requires c_bound { c.0 < 2 * work.old.n }
    ensures { FindsOut work.old c.0 work.new }
{
    if work.spare(c) != 0 {
        return;
    }
    consider(work, c);
    round(work, c.0 + 1);
}

// Finds out about all codes. The first round is on top of the set that is there: the codes of a whole rota are possible as they stand.
pub fn sweep(work: &mut Work<'_>)
    requires { Stands work.old }
    ensures { Sweeps work.old work.new }
{
    round(work, 0);
    for c in 0..work.codes() {
        ask(work, Code(c));
    }
}
