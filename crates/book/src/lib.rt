// The rule book's reader. What a book is stands in specs/, apart from the reader, and the laws about it in proofs/.
#![tactic(auto)]

mod answer; // what the reader gives
mod codes; // the codes, checked and then written
mod number; // a place in a book, and the number there
mod reader; // the whole book

pub use answer::Sizes;
pub use reader::read;
