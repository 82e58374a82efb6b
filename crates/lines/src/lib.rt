// The printing library: from a book's bytes to the lines that answer it. What the text is stands in specs/, apart from
// the writers.
#![tactic(auto)]

mod answer; // the book read, the list answered

pub use answer::show;

// The least length of the area that the text is written to: no text is longer.
pub const ROOM: usize = 5200;
