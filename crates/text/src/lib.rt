// The lines of each answer as bytes. For the printing library only: its functions ask for an area in which the text has room.
#![tactic(auto)]

mod fields; // a text that grows, and the writers of its bytes, numbers and values
pub mod lines; // the lines of each answer
