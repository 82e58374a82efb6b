// What the words of the rules mean: choices, codes and rule numbers, refusals, and the answers of the calls.
// Each type's meaning stands in specs/, and the laws about it in proofs/.
#![tactic(auto)]

mod answers; // what each call on a list answers
mod codes; // the three kinds of count, and the code's own functions
mod refusal; // what went wrong, and where
mod rooms; // the areas of those who bring their own

pub use answers::{Clashed, Decided, Listed, Moved, Visited};
pub use codes::{Choice, Code, RuleNo};
pub use refusal::Refusal;
pub use rooms::{CHAINS_ROOM, ROTA_ROOM, WORDS_ROOM, WORK_ROOM};
