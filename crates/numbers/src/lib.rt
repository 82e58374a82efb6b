// The answers as C gets them. For the C face only: its functions ask for an `out` that has room.
#![tactic(auto)]

pub mod tell; // each answer as a number, and as values in `out`
