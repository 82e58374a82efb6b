// The reader of a book's numbers, one after the other.
ghost use Rattle.std.specs.Prelude.{◌≡◌, ◌^◌, ◌≤◌, ◌<◌, length};
ghost use Rattle.meaning.specs.Refusals.{number_of, place_of, none, first_of};
ghost use Rattle.book.specs.Number.{number_checks};
ghost use Rattle.book.specs.Inner.{Inside, left, place, RestOf, NumberAt, NumberBelow, Gets};

use meaning::Refusal;

// A part of a book, the place where it begins, and a place in it: the bytes before `at` were read.
#[derive(Clone, Copy, Debug, PartialEq, Eq)]
pub(crate) struct Reader<'a> {
    pub book: &'a [u8],
    pub from: usize,
    pub at: usize,
}

// A byte with its top bit set is this or more.
const TOP: usize = 128;

impl<'a> Reader<'a> {
    // The place in the whole book.
    pub fn place(&self) -> usize
        requires { Inside self.now }
        ensures { result ≡ place self.now }
    {
        self.from + self.at
    }

    // What is left, lent on as a part that starts in the middle of the book.
    pub fn rest(&self) -> Reader<'a>
        requires { Inside self.now }
        ensures { RestOf self.now result }
    {
        Reader {
            book: &self.book[self.at..],
            from: self.from + self.at,
            at: 0,
        }
    }

    // The next number, its form checked byte by byte. A reader that refuses stands where it stood.
    pub fn number(&mut self) -> Result<usize, Refusal>
        requires { Inside self.old }
        ensures { NumberAt self.old result self.new }
    {
        if self.book.len() <= self.at {
            return Err(Refusal::BookEnds(self.from + self.at));
        }
        let low = usize::from(self.book[self.at]);
        let second = self.at + 1;
        if low < TOP {
            self.at = second;
            return Ok(low);
        }
        if self.book.len() <= second {
            return Err(Refusal::BookEnds(self.from + second));
        }
        let high = usize::from(self.book[second]);
        if TOP <= high {
            return Err(Refusal::NumberTooLong(self.from + second));
        }
        // A last group of 0 adds nothing: the form without it is shorter.
        if high == 0 {
            return Err(Refusal::NumberPadded(self.from + second));
        }
        self.at = second + 1;
        Ok(low - TOP + TOP * high)
    }

    // The next number, which has to be below a limit: where it is not, `over` is the answer.
    pub fn number_below(&mut self, limit: usize, over: Refusal) -> Result<usize, Refusal>
        requires { Inside self.old × (place_of over ≡ place self.old) }
        ensures { NumberBelow limit (number_of over) self.old result self.new }
    {
        let mut next = *self;
        let value = next.number()?;
        if limit <= value {
            return Err(over);
        }
        *self = next;
        Ok(value)
    }

    // The next number, of which the form was checked. It is `number` without the checks: with them a full book took up to twice as long.
    pub fn formed_number(&mut self) -> usize
        requires { first_of (number_checks 0 (left self.old)) ≡ none }
        ensures { Gets self.old result self.new × (result < 2 ^ 16) }
    {
        let low = usize::from(self.book[self.at]);
        let second = self.at + 1;
        if low < TOP {
            self.at = second;
            return low;
        }
        let high = usize::from(self.book[second]);
        self.at = second + 1;
        low - TOP + TOP * high
    }
}
