// The inner moves over an area that a caller lends as a slice, and goes on with: each says what the slice holds afterwards. A `Work` is made of the slice,
// the move is called, and `finish` gives the slice back. That takes two functions: what a `Work` leaves in a slice is known once it was given back, as
// the answer of a function. The engine has no need of them, since it fills its part of the area with zeros; `spread` and `attempt` of moves, and
// `components`, are over the slice themselves.
#![tactic(auto)]

ghost use Rattle.std.specs.Prelude.{◌≡◌, ℕ, ◌*◌, ◌≤◌, ◌<◌, length, take};
ghost use Rattle.meaning.specs.Chains.{Reach};
ghost use Rattle.meaning.specs.Codes.{opposite};
ghost use Rattle.meaning.specs.Rotas.{Rota};
ghost use Rattle.moves.specs.Layout.{mark, Apart};
ghost use Rattle.moves.specs.Lists.{Ready};
ghost use Rattle.moves.specs.Walks.{Holding};
ghost use Rattle.lessons.specs.Learning.{Notes, Learnt};
ghost use Rattle.chains.specs.Traces.{Unmarked, Traced};
ghost use Rattle.search.specs.State.{Around, State};
ghost use Rattle.search.specs.Search.{Taught, SettleSays, SearchSays};
ghost use Rattle.rounds.specs.Rounds.{Swept};
ghost use Rattle.replay.specs.Replay.{TurnSays};

use chains::chain::chain;
use lessons::learn::learn;
use meaning::{Choice, Code, Moved};
use moves::attempt::Failure;
use moves::work::Work;
use replay::turn::find_next;
use rounds::round::sweep;
use search::first::search;
use search::settle::{settle, teach};

fn sweep_lent<'a>(n: usize, rules: &'a [u16], words: &'a mut [u16], tail: usize) -> &'a mut [u16]
    requires { State n rules.now words.old tail }
    ensures lent { result.ghost_name ≡ words.entry.ghost_name }
    ensures swept { Swept n rules.now (2 * n) words.old result.now }
{
    let mut state = Work::resume(n, rules, words, tail);
    sweep(&mut state);
    state.finish()
}

// Finds out about all codes, on top of the set that is there.
pub fn sweep_in(n: usize, rules: &[u16], words: &mut [u16], tail: usize)
    requires { State n rules.now words.old tail }
    ensures around { Around n words.old words.new }
    ensures swept { Swept n rules.now (2 * n) words.old words.new }
{
    let _words = sweep_lent(n, rules, words, tail);
}

fn find_next_lent<'a>(
    n: usize,
    rules: &'a [u16],
    words: &'a mut [u16],
    rota: &[u8],
) -> (Moved, &'a mut [u16])
    requires ready { Ready n rules.now words.old }
    requires by_index { ((x : ℕ) → x < 2 * n → mark n words.old x ≡ 0) × Rota n (take n rota.now) }
    ensures lent { result.1.ghost_name ≡ words.entry.ghost_name }
    ensures says { TurnSays n rules.now (take n rota.now) words.old result.1.now result.0 }
{
    let mut state = Work::resume(n, rules, words, 0);
    let answer = find_next(&mut state, rota);
    (answer, state.finish())
}

// Finds the first allowed rota after the given one, and leaves its codes in the set.
pub fn find_next_in(n: usize, rules: &[u16], words: &mut [u16], rota: &[u8]) -> Moved
    requires ready { Ready n rules.now words.old }
    requires by_index { ((x : ℕ) → x < 2 * n → mark n words.old x ≡ 0) × Rota n (take n rota.now) }
    ensures { TurnSays n rules.now (take n rota.now) words.old words.new result }
{
    let (answer, _words) = find_next_lent(n, rules, words, rota);
    answer
}

fn search_lent<'a>(
    n: usize,
    rules: &'a [u16],
    words: &'a mut [u16],
    from: usize,
    tail: usize,
) -> (Result<(), Choice>, usize, &'a mut [u16])
    requires state { State n rules.now words.old tail }
    requires from_le_n { from ≤ n }
    ensures lent { result.2.ghost_name ≡ words.entry.ghost_name }
    ensures says { SearchSays n rules.now from words.old result.2.now result.1 result.0 }
{
    let mut state = Work::resume(n, rules, words, tail);
    let answer = search(&mut state, from);
    let end = state.tail();
    (answer, end, state.finish())
}

// Settles the choices in turn, of which the first `from` are settled, or tells which is stuck; and how many places of the trail are taken.
pub fn search_in(
    n: usize,
    rules: &[u16],
    words: &mut [u16],
    from: usize,
    tail: usize,
) -> (Result<(), Choice>, usize)
    requires state { State n rules.now words.old tail }
    requires from_le_n { from ≤ n }
    ensures { SearchSays n rules.now from words.old words.new result.1 result.0 }
{
    let (answer, end, _words) = search_lent(n, rules, words, from, tail);
    (answer, end)
}

fn settle_lent<'a>(
    n: usize,
    rules: &'a [u16],
    words: &'a mut [u16],
    v: Choice,
    tail: usize,
) -> (Result<(), Choice>, usize, &'a mut [u16])
    requires state { State n rules.now words.old tail }
    requires v_lt_n { v.0 < n }
    ensures lent { result.2.ghost_name ≡ words.entry.ghost_name }
    ensures says { SettleSays n rules.now v.0 tail words.old result.2.now result.1 result.0 }
{
    let mut state = Work::resume(n, rules, words, tail);
    let answer = settle(&mut state, v);
    let end = state.tail();
    (answer, end, state.finish())
}

// Settles choice v, as early as can be, or finds that it cannot be; and how many places of the trail are taken.
pub fn settle_in(
    n: usize,
    rules: &[u16],
    words: &mut [u16],
    v: Choice,
    tail: usize,
) -> (Result<(), Choice>, usize)
    requires state { State n rules.now words.old tail }
    requires v_lt_n { v.0 < n }
    ensures { SettleSays n rules.now v.0 tail words.old words.new result.1 result.0 }
{
    let (answer, end, _words) = settle_lent(n, rules, words, v, tail);
    (answer, end)
}

fn teach_lent<'a>(
    n: usize,
    rules: &'a [u16],
    words: &'a mut [u16],
    c: Code,
    failure: Failure,
    tail: usize,
) -> &'a mut [u16]
    requires state { State n rules.now words.old tail }
    requires c_bound { (c.0 < 2 * n) × Reach rules.now c.0 (opposite c.0) × (failure.code.0 < 2 * n) }
    ensures lent { result.ghost_name ≡ words.entry.ghost_name }
    ensures taught { Taught n rules.now c.0 tail words.old result.now }
{
    let mut state = Work::resume(n, rules, words, tail);
    teach(&mut state, c, failure);
    state.finish()
}

// Notes that c leads to its opposite, and learns from the failure of its trial.
pub fn teach_in(n: usize, rules: &[u16], words: &mut [u16], c: Code, failure: Failure, tail: usize)
    requires state { State n rules.now words.old tail }
    requires c_bound { (c.0 < 2 * n) × Reach rules.now c.0 (opposite c.0) × (failure.code.0 < 2 * n) }
    ensures { Taught n rules.now c.0 tail words.old words.new }
{
    let _words = teach_lent(n, rules, words, c, failure, tail);
}

fn learn_lent<'a>(
    n: usize,
    rules: &'a [u16],
    words: &'a mut [u16],
    b: Code,
    tail: usize,
) -> &'a mut [u16]
    requires ready { Ready n rules.now words.old }
    requires holding { Holding n rules.now words.old tail }
    requires notes { Notes n rules.now words.old }
    requires b_bound { (b.0 < 2 * n) × (mark n words.old b.0 ≡ 0) × (mark n words.old (opposite b.0) ≡ 0) }
    ensures lent { result.ghost_name ≡ words.entry.ghost_name }
    ensures learnt { Learnt n rules.now tail words.old result.now }
{
    let mut state = Work::resume(n, rules, words, tail);
    learn(&mut state, b);
    state.finish()
}

// Notes, of each code outside the set that b and its opposite both reach, that its opposite leads to it.
pub fn learn_in(n: usize, rules: &[u16], words: &mut [u16], b: Code, tail: usize)
    requires ready { Ready n rules.now words.old }
    requires holding { Holding n rules.now words.old tail }
    requires notes { Notes n rules.now words.old }
    requires b_bound { (b.0 < 2 * n) × (mark n words.old b.0 ≡ 0) × (mark n words.old (opposite b.0) ≡ 0) }
    ensures { Learnt n rules.now tail words.old words.new }
{
    let _words = learn_lent(n, rules, words, b, tail);
}

fn chain_lent<'a>(
    n: usize,
    rules: &'a [u16],
    words: &'a mut [u16],
    c: Code,
    area: &mut [u16],
) -> (usize, &'a mut [u16])
    requires ready { Ready n rules.now words.old }
    requires unmarked { Unmarked n words.old }
    requires c_bound { (c.0 < 2 * n) × Reach rules.now c.0 (opposite c.0) × (2 * n ≤ length area.old) }
    ensures lent { result.1.ghost_name ≡ words.entry.ghost_name }
    ensures traced { Traced rules.now c.0 area.old area.new result.0 }
    ensures apart { Apart n words.old result.1.now }
    ensures unmarked { Unmarked n result.1.now }
{
    let mut state = Work::resume(n, rules, words, 0);
    let length = chain(&mut state, c, area);
    (length, state.finish())
}

// Writes the shortest chain from c to its opposite at the front of the area, and tells its length.
pub fn chain_in(n: usize, rules: &[u16], words: &mut [u16], c: Code, area: &mut [u16]) -> usize
    requires ready { Ready n rules.now words.old }
    requires unmarked { Unmarked n words.old }
    requires c_bound { (c.0 < 2 * n) × Reach rules.now c.0 (opposite c.0) × (2 * n ≤ length area.old) }
    ensures traced { Traced rules.now c.0 area.old area.new result }
    ensures apart { Apart n words.old words.new }
    ensures unmarked { Unmarked n words.new }
{
    let (length, _words) = chain_lent(n, rules, words, c, area);
    length
}
