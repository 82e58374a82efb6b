// The codes of a book, which come after n and m. All are checked before the first is written: a book that is refused,
// however late, leaves the words as they were.
ghost use Rattle.std.specs.Prelude.{◌≡◌, length};
ghost use Rattle.book.specs.Checks.{numbers_in};
ghost use Rattle.book.specs.Inner.{Inside, left, CodesSay, Formed};

use crate::number::Reader;
use meaning::Refusal;

impl Reader<'_> {
    // Whether the rest of the book is `count` codes below the limit, and no more. A copy of the reader goes over them, so that
    // they can be read again.
    pub fn check_codes(&self, count: usize, limit: usize) -> Result<(), Refusal>
        requires { Inside self.now }
        ensures { CodesSay count limit self.now result }
    {
        let mut reader = *self;
        for _ in 0..count {
            let too_high = Refusal::CodeTooHigh(reader.place());
            reader.number_below(limit, too_high)?;
        }
        if reader.at < reader.book.len() {
            return Err(Refusal::BytesLeft(reader.from + reader.at));
        }
        Ok(())
    }

    // Writes as many codes as there are words. Their forms were checked.
    pub fn write_codes(&self, words: &mut [u16])
        requires { Formed (length words.old) (left self.now) }
        ensures { words.new ≡ numbers_in (length words.old) (left self.now) }
    {
        let mut reader = *self;
        for word in words.iter_mut() {
            *word = reader.formed_number() as u16;
        }
    }
}
