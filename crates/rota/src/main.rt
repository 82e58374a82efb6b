// Reads a book from standard input and writes the lines that answer it.
#![tactic(auto)]

ghost use Rattle.std.specs.Prelude.{◌≤◌, length, take, IfOk, OnOk, IfSome};
ghost use Rattle.rota.specs.Answer.{IsFront, Answers};

use std::io;
use std::io::{Read, Write};

// One byte more than the longest legal book has, so that a longer one is refused as such.
const BOOK_ROOM: usize = 8197;

// Fills the area from its front, until it is full or the reader has no more. It returns how many bytes it read.
fn read_full<R: Read>(reader: &mut R, area: &mut [u8]) -> io::Result<usize>
    ensures within { IfOk result (λ n. n ≤ length area.new) }
    ensures first { IfOk result (λ n. IsFront (R.remaining reader.old) (length area.new) (take n area.new)) }
{
    let mut at = 0;
    // Only a read tells that there is no more: so no `for`.
    while at < area.len() {
        let count = reader.read(&mut area[at..])?;
        if count == 0 {
            break;
        }
        at += count;
    }
    Ok(at)
}

// Reads the book, and writes the lines that answer it and nothing else.
fn answer<R: Read, W: Write>(reader: &mut R, writer: &mut W) -> io::Result<()>
    ensures { OnOk result (IfSome (R.remaining reader.old) (λ given. Answers given (W.contents writer.old) (W.contents writer.new))) }
{
    let mut book = [0u8; BOOK_ROOM];
    let count = read_full(reader, &mut book)?;
    let mut out = [0u8; lines::ROOM];
    match lines::show(&book[..count], &mut out) {
        Some(size) => writer.write_all(&out[..size]),
        // This does not come: the area has the room that `show` asks for.
        None => Ok(()),
    }
}

fn main(rt: HostRuntime) -> io::Result<()> {
    answer(&mut rt.stdin(), &mut rt.stdout())
}
