// The next rota, from a given one. For the crates above only: it asks that no code has a mark, and that the given bytes are a rota.
#![tactic(auto)]

mod follow; // the given rota, replayed as far as the rules let it
mod retreat; // back to the last early choice that can be late
pub mod turn; // the whole move: replay, retreat, search
