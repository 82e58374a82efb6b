// Refusals come before anything is written, in the order that the promises name. Codes are checked in one pass for the highest, which is
// cheap, and only a list that is refused is searched for the place.
ghost use Rattle.std.specs.Prelude.{◌≡◌, IfOk, ◌≤◌, ◌<◌, length, take};
ghost use Rattle.checks.specs.Highest.{Highest};
ghost use Rattle.meaning.specs.Refusals.{due_of, first_over, list_due, next_due};
ghost use Rattle.meaning.specs.Rules.{rules};
ghost use Rattle.meaning.specs.Sizes.{max_choices, max_rules, chains_need, work_needs};

use meaning::{Choice, Refusal, RuleNo};

// The highest word, or 0 where there is none.
fn highest(words: &[u16]) -> u16
    ensures { Highest words.now result }
{
    let mut top = 0;
    for word in words {
        top = top.max(*word);
    }
    top
}

// The place of the first word that is limit or more, or the length: a number and no Option, as the promises' `first_over` has it. It is a call of its
// own (`inline`): written out in each engine call, how fast it went hung on where it came to lie.
#[inline(never)]
fn first_over(words: &[u16], limit: usize) -> usize
    ensures { result ≡ first_over limit words.now }
{
    for (i, word) in words.iter().enumerate() {
        if limit <= usize::from(*word) {
            return i;
        }
    }
    words.len()
}

fn code_too_high(words: &[u16], limit: usize) -> usize
    ensures { result ≡ first_over limit words.now }
{
    if usize::from(highest(words)) < limit {
        return words.len();
    }
    first_over(words, limit)
}

// The highest value of a rota's bytes.
const LATE: u8 = 1;

// The place of the first byte that is no value among the first n, or n. One `first_over` for both kinds of item would speak in
// its clause of a map from items to numbers: longer than the two loops.
fn value_too_high(n: usize, rota: &[u8]) -> usize
    requires { n ≤ length rota.now }
    ensures { result ≡ first_over 2 (take n rota.now) }
{
    for (i, value) in rota[..n].iter().enumerate() {
        if LATE < *value {
            return i;
        }
    }
    n
}

// The words of work that a call needs.
pub fn work_needs(n: usize, words: &[u16]) -> usize
    requires { (n ≤ max_choices) × (rules words.now ≤ max_rules) }
    ensures { result ≡ work_needs n words.now }
{
    8 * n + 6 * (words.len() / 2) + 16
}

// The words that two chains need. Where there are too many choices for a list, that is refused before the need is looked at, and 0 is answered.
pub fn chains_need(n: usize) -> usize
    ensures need { n ≤ max_choices → result ≡ chains_need n }
    ensures past { max_choices < n → result ≡ 0 }
{
    if Choice::LIMIT < n { 0 } else { 4 * n }
}

// Accepts a call that has `area` items for its answer, of which it needs `needs`, and `work` words of work, or refuses what is due.
// The words of work that the call uses are answered.
#[tactic(auto, unfolding(meaning::specs::Refusals::list_due))]
pub fn accept(
    n: usize,
    words: &[u16],
    area: usize,
    needs: usize,
    work: usize,
) -> Result<usize, Refusal>
    ensures due { due_of result ≡ list_due n words.now area needs work }
    ensures used { IfOk result (λ used. (used ≡ work_needs n words.now) × (used ≤ work)) }
{
    let count = words.len();
    if Choice::LIMIT < n {
        return Err(Refusal::TooManyChoices(0));
    }
    if count % 2 == 1 {
        return Err(Refusal::OddWords(0));
    }
    if RuleNo::LIMIT < count / 2 {
        return Err(Refusal::TooManyRules(0));
    }
    if area < needs {
        return Err(Refusal::AnswerTooShort(0));
    }
    let used = work_needs(n, words);
    if work < used {
        return Err(Refusal::WorkTooShort(0));
    }
    let at = code_too_high(words, 2 * n);
    if at < count {
        return Err(Refusal::CodeTooHigh(at));
    }
    Ok(used)
}

// Next reads its rota before it writes one: a byte over 1 is refused, after all that every call refuses.
pub fn accept_next(n: usize, words: &[u16], rota: &[u8], work: usize) -> Result<usize, Refusal>
    ensures due { due_of result ≡ next_due n words.now rota.now work }
    ensures used { IfOk result (λ used. (used ≡ work_needs n words.now) × (used ≤ work)) }
{
    let used = accept(n, words, rota.len(), n, work)?;
    let at = value_too_high(n, rota);
    if at < n {
        return Err(Refusal::ValueTooHigh(at));
    }
    Ok(used)
}
