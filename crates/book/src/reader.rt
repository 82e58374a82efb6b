// The whole book: n, then m, then the 2m codes.
ghost use Rattle.book.specs.Promise.{Reads};

use crate::answer::Sizes;
use crate::number::Reader;
use meaning::{Choice, Refusal, RuleNo};

pub fn read(book: &[u8], words: &mut [u16]) -> Result<Sizes, Refusal>
    ensures { Reads book.now words.old result words.new }
{
    let mut reader = Reader {
        book,
        from: 0,
        at: 0,
    };
    let n = reader.number_below(Choice::LIMIT + 1, Refusal::TooManyChoices(0))?;
    let too_many = Refusal::TooManyRules(reader.place());
    let m = reader.number_below(RuleNo::LIMIT + 1, too_many)?;
    let count = 2 * m;
    if words.len() < count {
        return Err(Refusal::AnswerTooShort(0));
    }
    let codes = reader.rest();
    codes.check_codes(count, 2 * n)?;
    codes.write_codes(&mut words[..count]);
    Ok(Sizes { n, m })
}
