// The calls of the C face: what include/thwartpin.h declares and crate thwartpin_c exports. Each call is thin over the engine's or the book's, and no caller has to
// prove anything: whatever lies in the areas, the answer is the one that specs/ leaves open. A function for each
// call, as C sees them: one frame over a closure would have to say in its clause what the closure leaves in the areas.
#![tactic(auto)]

ghost use Rattle.thwartpin.specs.Lists.{areas, TellsDecided, TellsForced, TellsClash, TellsMoved, TellsTies, TellsRead};
ghost use Rattle.thwartpin.specs.Hosts.{HostDecides, HostMoves};

use book::Sizes;
use meaning::{WORDS_ROOM, WORK_ROOM};
use numbers::tell::{host_decided, host_moved, tell};

// The least length of `out`, and the answer where it is shorter.
const OUT_NEEDS: usize = 3;

const OUT_SHORT: u32 = 200;

pub fn thwartpin_list_decide(
    n: usize,
    words: &[u16],
    rota: &mut [u8],
    work: &mut [u16],
    out: &mut [u64],
) -> u32
    ensures { TellsDecided n words.now rota.old work.old out.old result (areas rota.new work.new) out.new }
{
    if out.len() < OUT_NEEDS {
        return OUT_SHORT;
    }
    tell(engine::decide(n, words, rota, work), out)
}

pub fn thwartpin_list_forced(
    n: usize,
    words: &[u16],
    forced: &mut [u8],
    work: &mut [u16],
    out: &mut [u64],
) -> u32
    ensures { TellsForced n words.now forced.old work.old out.old result (areas forced.new work.new) out.new }
{
    if out.len() < OUT_NEEDS {
        return OUT_SHORT;
    }
    tell(engine::forced(n, words, forced, work), out)
}

pub fn thwartpin_list_clash(
    n: usize,
    words: &[u16],
    chain: &mut [u16],
    work: &mut [u16],
    out: &mut [u64],
) -> u32
    ensures { TellsClash n words.now chain.old work.old out.old result (areas chain.new work.new) out.new }
{
    if out.len() < OUT_NEEDS {
        return OUT_SHORT;
    }
    tell(engine::clash(n, words, chain, work), out)
}

pub fn thwartpin_list_next(
    n: usize,
    words: &[u16],
    rota: &mut [u8],
    work: &mut [u16],
    out: &mut [u64],
) -> u32
    ensures { TellsMoved n words.now rota.old work.old out.old result (areas rota.new work.new) out.new }
{
    if out.len() < OUT_NEEDS {
        return OUT_SHORT;
    }
    tell(engine::next(n, words, rota, work), out)
}

pub fn thwartpin_list_ties(
    n: usize,
    words: &[u16],
    ties: &mut [u16],
    work: &mut [u16],
    out: &mut [u64],
) -> u32
    ensures { TellsTies n words.now ties.old work.old out.old result (areas ties.new work.new) out.new }
{
    if out.len() < OUT_NEEDS {
        return OUT_SHORT;
    }
    tell(engine::ties(n, words, ties, work), out)
}

pub fn thwartpin_read_book(book: &[u8], words: &mut [u16], out: &mut [u64]) -> u32
    ensures { TellsRead book.now words.old out.old result words.new out.new }
{
    if out.len() < OUT_NEEDS {
        return OUT_SHORT;
    }
    tell(book::read(book, words), out)
}

// The host's calls. What they work in is their own, at full size, so that a host lends the book and the rota alone. They have one shape:
// over a closure, a clause would have to say what the closure leaves in the rota.
pub fn thwartpin_decide(book: &[u8], rota: &mut [u8]) -> u32
    ensures { HostDecides book.now rota.old result rota.new }
{
    let mut words = [0u16; WORDS_ROOM];
    let mut work = [0u16; WORK_ROOM];
    match book::read(book, &mut words) {
        Err(refusal) => refusal.number(),
        Ok(Sizes { n, m }) => {
            let count = 2 * m;
            host_decided(engine::decide(n, &words[..count], rota, &mut work))
        }
    }
}

pub fn thwartpin_next(book: &[u8], rota: &mut [u8]) -> u32
    ensures { HostMoves book.now rota.old result rota.new }
{
    let mut words = [0u16; WORDS_ROOM];
    let mut work = [0u16; WORK_ROOM];
    match book::read(book, &mut words) {
        Err(refusal) => refusal.number(),
        Ok(Sizes { n, m }) => {
            let count = 2 * m;
            host_moved(engine::next(n, &words[..count], rota, &mut work))
        }
    }
}
