// The marked books.
use crate::row::Row;
use book::Sizes;
use std::io;

// Each book: its name, its bytes, and how many words the area has that it is read into.
const BOOKS: [(&str, &[u8], usize); 11] = [
    ("80 02 00", b"\x80\x02\x00", 8),
    ("81 02", b"\x81\x02", 8),
    ("empty", b"", 8),
    ("80", b"\x80", 8),
    ("80 80", b"\x80\x80", 8),
    ("80 00", b"\x80\x00", 8),
    ("00 81 10", b"\x00\x81\x10", 8),
    ("00 00 00", b"\x00\x00\x00", 8),
    ("01 01 00 02", b"\x01\x01\x00\x02", 8),
    ("01 01 00 00 into one word", b"\x01\x01\x00\x00", 1),
    (
        "03 03 00 02 03 04 01 04",
        b"\x03\x03\x00\x02\x03\x04\x01\x04",
        8,
    ),
];

fn read(rt: &impl Print, name: &str, bytes: &[u8], words: &mut [u16]) -> io::Result<()> {
    match book::read(bytes, words) {
        Ok(Sizes { n, m: 0 }) => println!(rt; "book {name}: n {n}, m 0"),
        Ok(Sizes { n, m }) => println!(rt;
            "book {name}: n {n}, m {m}, words{}",
            Row::new(words, 0, 2 * m)
        ),
        Err(refusal) => println!(rt; "book {name}: {refusal}"),
    }
}

pub(crate) fn all(rt: &impl Print) -> io::Result<()> {
    for (name, bytes, room) in BOOKS {
        let mut words = [7u16; 8];
        let (area, _) = words.split_at_mut(room.min(8));
        read(rt, name, bytes, area)?;
    }
    Ok(())
}
