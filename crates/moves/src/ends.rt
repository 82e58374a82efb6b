// An end is a place in the words: rule k has the ends 2k and 2k + 1. A step of the engine goes from one end of a rule to
// the other, so a rule's number need not be known to take it. Words become codes here.
ghost use Rattle.std.specs.Prelude.{◌≡◌, ◌<◌, length, get_or};
ghost use Rattle.meaning.specs.Rules.{other_end};

use meaning::Code;

// The other end of the same rule. The number is reckoned as that of a code's opposite, but an end is no code.
pub fn other_end(e: usize) -> usize
    ensures { result ≡ other_end e }
{
    (e - e % 2) + (1 - e % 2)
}

// The code at the end e.
pub fn code_at(words: &[u16], e: usize) -> Code
    requires { e < length words.now }
    ensures { result.0 ≡ get_or words.now e 0 }
{
    Code(words[e])
}
