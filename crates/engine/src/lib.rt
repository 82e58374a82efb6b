// The calls on a list. Each accepts its input or refuses it, makes its moves in the front of the lent work area, writes its answer, and clears that front.
// The choices and the rules stay two parameters, as every caller has them, C too. And each call has its frame written out: over a closure, the frame's clause
// would have to say what the closure leaves in the area of the answer.
#![tactic(auto)]

ghost use Rattle.std.specs.Prelude.{◌≡◌, length, replicate};
ghost use Rattle.meaning.specs.Promises.{Clashes, Decides, Forces, Moves, TiesUp};

mod visit; // every rota, one after the other

use chains::chain::chain;
use checks::accept::{accept, accept_next, chains_need};
use components::ties::Ranks;
use components::walk::components;
use meaning::{Clashed, Code, Decided, Listed, Moved, Refusal};
use moves::index::prepare;
use moves::work::Work;
use replay::turn::find_next;
use rounds::bytes::put_forced;
use rounds::round::sweep;
use search::first::search;
use search::rota::put_rota;
pub use visit::each_rota;

// The first allowed rota; or the lowest choice that clashes.
pub fn decide(
    n: usize,
    words: &[u16],
    rota: &mut [u8],
    work: &mut [u16],
) -> Result<Decided, Refusal>
    ensures { Decides n words.now rota.old work.old result rota.new work.new }
{
    let used = accept(n, words, rota.len(), n, work.len())?;
    let front = &mut work[..used];
    let mut state = Work::new(n, words, front);
    let answer = match search(&mut state, 0) {
        Ok(()) => {
            put_rota(state.view(), rota);
            Decided::Possible
        }
        Err(choice) => Decided::Impossible(choice),
    };
    finish(front);
    Ok(answer)
}

// For each choice 0 or 1 where every allowed rota has that value, 2 where they differ.
pub fn forced(n: usize, words: &[u16], area: &mut [u8], work: &mut [u16]) -> Result<Listed, Refusal>
    ensures { Forces n words.now area.old work.old result area.new work.new }
{
    let used = accept(n, words, area.len(), n, work.len())?;
    let front = &mut work[..used];
    let mut state = Work::new(n, words, front);
    let answer = match search(&mut state, 0) {
        Ok(()) => {
            sweep(&mut state);
            put_forced(state.view(), area);
            Listed::Done
        }
        Err(_) => Listed::Impossible,
    };
    finish(front);
    Ok(answer)
}

// The two chains of the choice that Decide names: from late to early, and right behind it from early to late.
pub fn clash(
    n: usize,
    words: &[u16],
    chains: &mut [u16],
    work: &mut [u16],
) -> Result<Clashed, Refusal>
    ensures { Clashes n words.now chains.old work.old result chains.new work.new }
{
    let used = accept(n, words, chains.len(), chains_need(n), work.len())?;
    let front = &mut work[..used];
    let mut state = Work::new(n, words, front);
    let answer = match search(&mut state, 0) {
        Ok(()) => Clashed::Possible,
        Err(choice) => {
            state.undo_to(0);
            let there = chain(&mut state, Code::of(choice, 1), chains);
            let back = chain(&mut state, Code::of(choice, 0), &mut chains[there..]);
            Clashed::Chains {
                choice,
                late_early: there,
                early_late: back,
            }
        }
    };
    finish(front);
    Ok(answer)
}

// For each choice the smallest code that late of it reaches and that reaches it.
pub fn ties(n: usize, words: &[u16], area: &mut [u16], work: &mut [u16]) -> Result<Listed, Refusal>
    ensures { TiesUp n words.now area.old work.old result area.new work.new }
{
    let used = accept(n, words, area.len(), n, work.len())?;
    let tables = &mut work[..used];
    prepare(n, words, tables);
    components(n, words, tables);
    let ranks = Ranks::new(n, tables);
    let answer = if ranks.some_clash() {
        Listed::Impossible
    } else {
        ranks.put_ties(area);
        Listed::Done
    };
    finish(tables);
    Ok(answer)
}

// The first allowed rota strictly after the given one, which need not be allowed.
pub fn next(n: usize, words: &[u16], rota: &mut [u8], work: &mut [u16]) -> Result<Moved, Refusal>
    ensures { Moves n words.now rota.old work.old result rota.new work.new }
{
    let used = accept_next(n, words, rota, work.len())?;
    let front = &mut work[..used];
    let mut state = Work::new(n, words, front);
    let answer = match find_next(&mut state, rota) {
        Moved::Moved => {
            put_rota(state.view(), rota);
            Moved::Moved
        }
        none => none,
    };
    finish(front);
    Ok(answer)
}

// The front of the work area that a call used is left as zeros.
fn finish(front: &mut [u16])
    ensures { front.new ≡ replicate (length front.old) 0 }
{
    front.fill(0);
}
