// What a failed trial teaches. For the crates above only: its functions ask their callers for what specs/ of the moves calls `Holds`. That is a fact of the set, which a `Work` does
// not always have: so it is no invariant of the type.
#![tactic(auto)]

pub mod learn; // what both ends of a failure lead to is noted
pub mod notes; // what is noted of a code
