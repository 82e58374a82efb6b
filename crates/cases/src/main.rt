// Runs the marked books and lists, and prints what the calls give for each, a line an answer. What they have to give
// stands in stdout, written from the marked table.
#![tactic(auto)]

mod books; // the reader, book by book
mod calls; // the calls on a list, each with a function that prints its answer
mod row; // items of a line

use std::io;

// (Program walks has the first ten too: a library for a table would be more.) Each case of the table: its name, the number of choices, the rules' words, and whether Next is asked again, after the rota with choice 1 late.
const CASES: [(&str, usize, &[u16], bool); 11] = [
    ("A", 0, &[], false),
    ("B", 1, &[], false),
    ("C", 1, &[0, 0], false),
    ("D", 1, &[0, 0, 1, 1], false),
    ("E", 2, &[0, 2, 0, 3], false),
    ("F", 2, &[1, 2, 3, 0], false),
    ("G", 2, &[0, 2, 0, 3, 1, 2, 1, 3], false),
    ("H", 1, &[0, 1], false),
    ("I", 3, &[1, 2, 3, 4], true),
    ("J", 3, &[0, 2, 3, 4, 1, 4], false),
    ("K", 2, &[0, 4], false),
];

fn main(rt: HostRuntime) -> io::Result<()> {
    books::all(&rt)?;
    for (name, n, words, again) in CASES {
        calls::decide(&rt, name, n, words)?;
        calls::forced(&rt, name, n, words)?;
        calls::clash(&rt, name, n, words)?;
        calls::next(&rt, name, n, words, 0)?;
        calls::ties(&rt, name, n, words)?;
        if again {
            calls::next(&rt, name, n, words, 1)?;
        }
    }
    Ok(())
}
