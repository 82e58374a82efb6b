// Lists all rotas of the marked cases A to J, and of a list of twelve choices.
#![tactic(auto)]

use engine::each_rota;
use meaning::Visited;
use std::ops::ControlFlow;
use std::{fmt, io};

// No list here has more choices, or needs more words of work.
const CHOICES: usize = 12;

const WORK: usize = 400;

// Each list: its name, the number of choices, and the rules' words.
const LISTS: [(&str, usize, &[u16]); 11] = [
    ("case A", 0, &[]),
    ("case B", 1, &[]),
    ("case C", 1, &[0, 0]),
    ("case D", 1, &[0, 0, 1, 1]),
    ("case E", 2, &[0, 2, 0, 3]),
    ("case F", 2, &[1, 2, 3, 0]),
    ("case G", 2, &[0, 2, 0, 3, 1, 2, 1, 3]),
    ("case H", 1, &[0, 1]),
    ("case I", 3, &[1, 2, 3, 4]),
    ("case J", 3, &[0, 2, 3, 4, 1, 4]),
    (
        "twelve choices",
        12,
        &[0, 7, 3, 9, 5, 14, 12, 20, 1, 22, 17, 8, 11, 19],
    ),
];

// A rota's values, one behind the other. Program cases shows rows of items in a like way: a library for one loop would be more.
#[derive(Drop)]
struct Rota<'a>(&'a [u8]);

impl fmt::Display for Rota<'_> {
    fn fmt<W: fmt::Write>(&self, f: &mut fmt::Formatter<W>) -> fmt::Result {
        for value in self.0 {
            write!(f, "{value}")?;
        }
        Ok(())
    }
}

// Prints each rota, and then how that ended.
fn walk(
    rt: &impl Print,
    n: usize,
    words: &[u16],
    rota: &mut [u8],
    work: &mut [u16],
) -> io::Result<()> {
    let mut show = |rota: &[u8]| match println!(rt; "{}", Rota(rota)) {
        Ok(()) => ControlFlow::Continue(()),
        Err(error) => ControlFlow::Break(error),
    };
    match each_rota(n, words, rota, work, &mut show) {
        Ok(Visited::All) => println!(rt; "ended"),
        Ok(Visited::Stopped(error)) => Err(error),
        Ok(Visited::Impossible(choice)) => println!(rt; "impossible {}", choice.0),
        Err(_) => println!(rt; "refused"),
    }
}

fn main(rt: HostRuntime) -> io::Result<()> {
    let mut work = [0u16; WORK];
    for (name, n, words) in LISTS {
        println!(rt; "{name}")?;
        let mut rotas = [0u8; CHOICES];
        let (rota, _) = rotas.split_at_mut(n.min(CHOICES));
        walk(&rt, n, words, rota, &mut work)?;
    }
    Ok(())
}
