// One function for each call on a list: it lends the areas, calls, and prints the answer. Each answer has its own words.
use crate::row::Row;
use meaning::{Clashed, Decided, Listed, Moved};
use std::io;

pub(crate) fn decide(rt: &impl Print, name: &str, n: usize, words: &[u16]) -> io::Result<()> {
    let mut rota = [7u8; 8];
    let mut work = [7u16; 128];
    print!(rt; "{name} decide: ")?;
    match engine::decide(n, words, &mut rota, &mut work) {
        Ok(Decided::Possible) => println!(rt; "possible, rota{}", Row::new(&rota, 0, n)),
        Ok(Decided::Impossible(choice)) => println!(rt; "impossible, choice {}", choice.0),
        Err(refusal) => println!(rt; "{refusal}"),
    }
}

pub(crate) fn forced(rt: &impl Print, name: &str, n: usize, words: &[u16]) -> io::Result<()> {
    let mut area = [7u8; 8];
    let mut work = [7u16; 128];
    print!(rt; "{name} forced: ")?;
    match engine::forced(n, words, &mut area, &mut work) {
        Ok(Listed::Done) => println!(rt; "done, values{}", Row::new(&area, 0, n)),
        Ok(Listed::Impossible) => println!(rt; "impossible"),
        Err(refusal) => println!(rt; "{refusal}"),
    }
}

pub(crate) fn clash(rt: &impl Print, name: &str, n: usize, words: &[u16]) -> io::Result<()> {
    let mut chains = [7u16; 32];
    let mut work = [7u16; 128];
    print!(rt; "{name} clash: ")?;
    match engine::clash(n, words, &mut chains, &mut work) {
        Ok(
            Clashed::Chains {
                choice,
                late_early,
                early_late,
            },
        ) => {
            print!(rt; "choice {}", choice.0)?;
            print!(rt; ", late-early{}", Row::new(&chains, 0, late_early))?;
            println!(rt; ", early-late{}", Row::new(&chains, late_early, early_late))
        }
        Ok(Clashed::Possible) => println!(rt; "possible"),
        Err(refusal) => println!(rt; "{refusal}"),
    }
}

// After the rota that is early everywhere but, where `middle` is 1, at choice 1.
pub(crate) fn next(
    rt: &impl Print,
    name: &str,
    n: usize,
    words: &[u16],
    middle: u8,
) -> io::Result<()> {
    let mut rota = [0u8; 8];
    let mut work = [7u16; 128];
    rota[1] = middle;
    print!(rt; "{name} next after{}: ", Row::new(&rota, 0, n))?;
    match engine::next(n, words, &mut rota, &mut work) {
        Ok(Moved::Moved) => println!(rt; "moved, rota{}", Row::new(&rota, 0, n)),
        Ok(Moved::Ended) => println!(rt; "ended"),
        Ok(Moved::Impossible) => println!(rt; "impossible"),
        Err(refusal) => println!(rt; "{refusal}"),
    }
}

pub(crate) fn ties(rt: &impl Print, name: &str, n: usize, words: &[u16]) -> io::Result<()> {
    let mut area = [7u16; 8];
    let mut work = [7u16; 128];
    print!(rt; "{name} ties: ")?;
    match engine::ties(n, words, &mut area, &mut work) {
        Ok(Listed::Done) => println!(rt; "done, codes{}", Row::new(&area, 0, n)),
        Ok(Listed::Impossible) => println!(rt; "impossible"),
        Err(refusal) => println!(rt; "{refusal}"),
    }
}
