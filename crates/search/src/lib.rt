// The search for the first rota, choice by choice. For the crates above only: its functions ask their callers for what specs/ calls `Stands`. That is a fact of the set, which a `Work` does
// not always have: so it is no invariant of the type.
#![tactic(auto)]

pub mod first; // all choices in turn
pub mod rota; // the rota that is found
pub mod settle; // one choice, and what is learnt from its failure
