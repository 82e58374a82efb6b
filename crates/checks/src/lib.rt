// Which refusal is due, before anything is written. For the crates above only.
#![tactic(auto)]

pub mod accept; // what every call on a list refuses, and what Next refuses besides
