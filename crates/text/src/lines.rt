// The lines of each answer. A line is a fixed word, its fields, and LF.
ghost use Rattle.std.specs.Prelude.{[], ◌∷◌, ◌≤◌, length};
ghost use Rattle.meaning.specs.Refusals.{number_of, place_of};
ghost use Rattle.text.specs.Text.{text_needs, numbers_line, values_line, possible_text, impossible_text, refusal_text};
ghost use Rattle.text.specs.Inner.{Room, Puts, Fits, Grows};

use crate::fields::Text;
use meaning::{Choice, Refusal};

impl Text<'_> {
    // A line of a word and two numbers.
    #[tactic(auto, unfolding(crate::specs::Text::numbers_line))]
    fn push_pair(&mut self, word: &[u8], a: usize, b: usize)
        requires { Fits (numbers_line word.now (a ∷ b ∷ [])) self.old }
        ensures { Grows (numbers_line word.now (a ∷ b ∷ [])) self.old self.new }
    {
        self.push(word);
        self.push_field(a);
        self.push_field(b);
        self.push(b"\n");
    }

    // A line of a word and any count of numbers.
    #[tactic(auto, unfolding(crate::specs::Text::numbers_line))]
    fn push_numbers(&mut self, word: &[u8], numbers: &[u16])
        requires { Fits (numbers_line word.now numbers.now) self.old }
        ensures { Grows (numbers_line word.now numbers.now) self.old self.new }
    {
        self.push(word);
        self.push_fields(numbers);
        self.push(b"\n");
    }

    // A line of a word and the values of all choices: not `push_numbers`, since values have no spaces between.
    #[tactic(auto, unfolding(crate::specs::Text::values_line))]
    fn push_row(&mut self, word: &[u8], bytes: &[u8])
        requires { Fits (values_line word.now bytes.now) self.old }
        ensures { Grows (values_line word.now bytes.now) self.old self.new }
    {
        self.push(word);
        self.push_values(bytes);
        self.push(b"\n");
    }
}

pub fn put_possible(out: &mut [u8], n: usize, m: usize, rota: &[u8], forced: &[u8]) -> usize
    requires { Room (possible_text n m rota.now forced.now) 0 out.old }
    ensures { Puts (possible_text n m rota.now forced.now) out.old 0 result out.new }
{
    let mut text = Text { out, len: 0 };
    text.push_pair(b"possible", n, m);
    text.push_row(b"rota", rota);
    text.push_row(b"forced", forced);
    text.len
}

pub fn put_impossible(
    out: &mut [u8],
    n: usize,
    m: usize,
    choice: Choice,
    late_early: &[u16],
    early_late: &[u16],
) -> usize
    requires { Room (impossible_text n m choice.0 late_early.now early_late.now) 0 out.old }
    ensures { Puts (impossible_text n m choice.0 late_early.now early_late.now) out.old 0 result out.new }
{
    let mut text = Text { out, len: 0 };
    text.push_pair(b"impossible", n, m);
    text.push_numbers(b"choice", &[choice.0]);
    text.push_numbers(b"late-early", late_early);
    text.push_numbers(b"early-late", early_late);
    text.len
}

pub fn put_refusal(out: &mut [u8], refusal: Refusal) -> usize
    requires { text_needs ≤ length out.old }
    ensures { Puts (refusal_text (number_of refusal) (place_of refusal)) out.old 0 result out.new }
{
    let mut text = Text { out, len: 0 };
    // A cast, since a `u32` has no From to a `usize`: it fits.
    text.push_pair(b"refused", refusal.number() as usize, refusal.place());
    text.len
}
