// The moves of the engine, over one lent work area: occurrence lists, breadth-first walks, and trials.
// `Work` is the area with the rules that it is lent for; in clauses it is an `Area` (specs/Area: name, n, rules, words, tail).
//   Work::new(n, rules, words)                  the area cleared and the lists built: `Begun`
//   Work::resume(n, rules, words, tail)         the area as it stands, where it is `Sound`
//   choices(), codes(), rules(), tail()         each also says that the area is `Sound`
//   mark(x), spare(x), set_spare(x, v)          `Writes`
//   view()                                      a `View` of the tables, for what is read off at the end
//   finish()                                    the lent area, given back as it stands
//   trail(i)                                    the code at a place below the tail
//   first_end(c), next_end(end) -> Option       along the ends that hold a code, `while let Some(end) = at`
//   across(end)                                 the code at the other end of the same rule
//   spread(source), undo_to(end)                `Spreads`, `Undoes`
//   attempt(c) -> Result<(), Failure>           `Tries`
// `spread::touch`, `undo` and `spread` and `attempt::attempt`, on which these stand, are functions over the area itself and the trail's length: who lends
// them a slice knows what they leave in it. A `Work` tells the same of the slice that it was lent, by `finish`: it is still that slice (`name`).
// Each such record but `Begun` has `same : Same before after` (the same slice, n and rules, and a sound area) beside what the move does.
#![tactic(auto)]

pub mod attempt; // trials that are kept, or undone
pub mod clear; // words become 0
pub mod ends; // the ends of the rules, in the words
pub mod index; // which ends hold a code
pub mod layout; // where each table stands in the work area
pub mod reading; // the tables, to be read off at the end
pub mod spread; // breadth-first marks, and taking them back
pub mod work; // the rules and the area, as every move takes them
