// Why a call refuses its input, and where: each case carries its place.
ghost use Rattle.std.specs.Prelude.{◌≡◌};
ghost use Rattle.meaning.specs.Refusals.{number_of, place_of};

use std::error::Error;
use std::fmt;

#[derive(Clone, Copy, Debug, PartialEq, Eq)]
pub enum Refusal {
    TooManyChoices(usize),
    OddWords(usize),
    TooManyRules(usize),
    CodeTooHigh(usize),
    WorkTooShort(usize),
    AnswerTooShort(usize),
    BookEnds(usize),
    NumberTooLong(usize),
    NumberPadded(usize),
    BytesLeft(usize),
    ValueTooHigh(usize),
}

impl Refusal {
    // The number that the rules and the C header give the refusal.
    pub fn number(self) -> u32
        ensures { result ≡ number_of self }
    {
        match self {
            Refusal::TooManyChoices(_) => 1,
            Refusal::OddWords(_) => 2,
            Refusal::TooManyRules(_) => 3,
            Refusal::CodeTooHigh(_) => 4,
            Refusal::WorkTooShort(_) => 5,
            Refusal::AnswerTooShort(_) => 6,
            Refusal::BookEnds(_) => 7,
            Refusal::NumberTooLong(_) => 8,
            Refusal::NumberPadded(_) => 9,
            Refusal::BytesLeft(_) => 10,
            Refusal::ValueTooHigh(_) => 11,
        }
    }

    pub fn place(self) -> usize
        ensures { result ≡ place_of self }
    {
        match self {
            Refusal::TooManyChoices(p)
            | Refusal::OddWords(p)
            | Refusal::TooManyRules(p)
            | Refusal::CodeTooHigh(p)
            | Refusal::WorkTooShort(p)
            | Refusal::AnswerTooShort(p)
            | Refusal::BookEnds(p)
            | Refusal::NumberTooLong(p)
            | Refusal::NumberPadded(p)
            | Refusal::BytesLeft(p)
            | Refusal::ValueTooHigh(p) => p,
        }
    }
}

impl fmt::Display for Refusal {
    fn fmt<W: fmt::Write>(&self, f: &mut fmt::Formatter<W>) -> fmt::Result {
        write!(f, "refused {} at {}", self.number(), self.place())
    }
}

impl Error for Refusal {}
