// The shortest chain from a code to its opposite, first in dictionary order of rule numbers. One walk from the code serves:
// a chain turned round leads between the opposites, so the distance from a to the opposite of c is the distance from c to
// the opposite of a. For the crates above only: it asks that no code has a mark.
#![tactic(auto)]

pub mod chain; // the walk, the chain, and the walk taken back
mod follow; // a rule's number, and the code that the rule leads to
mod nearer; // the lowest rule that leads one nearer
mod trace; // the chain, rule by rule
