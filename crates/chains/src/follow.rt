// A rule's number and its ends: an end is a place in the words, and rule k has the ends 2k and 2k + 1.
ghost use Rattle.std.specs.Prelude.{◌≡◌, ℕ, ◌/◌, ◌<◌};
ghost use Rattle.meaning.specs.Chains.{Step};
ghost use Rattle.meaning.specs.Sizes.{max_rules};

use meaning::{Code, RuleNo};
use moves::ends::code_at;

// The rule that has the end e.
pub fn rule_of(e: usize) -> RuleNo
    requires { e / 2 < max_rules }
    ensures { result.0 ≡ e / 2 }
{
    RuleNo((e / 2) as u16)
}

// The code that the rule leads to from a.
pub fn follow(words: &[u16], a: Code, rule: RuleNo) -> Code
    requires { (b : ℕ) × Step words.now a.0 rule.0 b }
    ensures { Step words.now a.0 rule.0 result.0 }
{
    let e = 2 * usize::from(rule);
    let held = code_at(words, e);
    let other = code_at(words, e + 1);
    if held == a.opposite() {
        return other;
    }
    held
}
