// What is forced, by rounds of trials that are kept. For the crates above only: its functions ask their callers for what specs/ of the search calls `Stands`. That is a fact of the set, which a `Work` does
// not always have: so it is no invariant of the type.
#![tactic(auto)]

pub mod bytes; // what the notes say is forced
pub mod round; // what is noted of each code
