// What the calls on a list answer where they do not refuse it. Enums of their own, and no Option or Result: that a list is
// impossible is an answer and no failure, and the C face has a number for each case.
use crate::codes::Choice;

// Decide: the first rota is written, or this choice clashes.
#[derive(Clone, Copy, Debug, PartialEq, Eq)]
pub enum Decided {
    Possible,
    Impossible(Choice),
}

// Forced and Ties: an item for each choice is written.
#[derive(Clone, Copy, Debug, PartialEq, Eq)]
pub enum Listed {
    Done,
    Impossible,
}

// Clash: the two chains of the choice are written one after the other, of these lengths.
#[derive(Clone, Copy, Debug, PartialEq, Eq)]
pub enum Clashed {
    Chains {
        choice: Choice,
        late_early: usize,
        early_late: usize,
    },
    Possible,
}

// Next: the next rota is written, or none comes after, or none exists.
#[derive(Clone, Copy, Debug, PartialEq, Eq)]
pub enum Moved {
    Moved,
    Ended,
    Impossible,
}

// A visit of every rota: all were given, or the visitor stopped it with a value of its own, or none exists, since this choice clashes.
#[derive(Clone, Copy, Debug, PartialEq, Eq)]
pub enum Visited<B> {
    All,
    Stopped(B),
    Impossible(Choice),
}
