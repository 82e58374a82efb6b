// Choice numbers, codes and rule numbers are three kinds of count: no function takes one for another.
ghost use Rattle.std.specs.Prelude.{◌≡◌, min};
ghost use Rattle.meaning.specs.Codes.{opposite, choice_of, value_of, code_of, last_choice};

#[derive(Clone, Copy, Debug, PartialEq, Eq, PartialOrd, Ord, Hash)]
pub struct Choice(pub u16);

#[derive(Clone, Copy, Debug, PartialEq, Eq, PartialOrd, Ord, Hash)]
pub struct Code(pub u16);

#[derive(Clone, Copy, Debug, PartialEq, Eq, PartialOrd, Ord, Hash)]
pub struct RuleNo(pub u16);

impl Choice {
    // A list has at most this many choices.
    pub const LIMIT: usize = 256;

    // The last choice whose codes fit 16 bits.
    const LAST: u16 = 32767;

    // The number itself, or `LAST` where it is past that.
    fn held(self) -> u16
        ensures { result ≡ min last_choice self.0 }
    {
        self.0.min(Choice::LAST)
    }
}

impl RuleNo {
    // A list has at most this many rules.
    pub const LIMIT: usize = 2048;
}

impl Code {
    // Each code of a list is below this.
    pub const LIMIT: usize = 512;

    // Without a branch, since every step of a walk takes it.
    #[tactic(auto, unfolding(crate::specs::Codes::opposite))]
    pub fn opposite(self) -> Code
        ensures { result.0 ≡ opposite self.0 }
    {
        let c = self.0;
        Code((c - c % 2) + (1 - c % 2))
    }

    pub fn choice(self) -> Choice
        ensures { result.0 ≡ choice_of self.0 }
    {
        Choice(self.0 / 2)
    }

    // The value that the code says its choice has: 1 is late, 0 is early.
    pub fn value(self) -> u8
        ensures { result ≡ value_of self.0 }
    {
        if self.0 % 2 == 0 { 1 } else { 0 }
    }

    // The code that says that the choice has this value. A value over 1 is taken for 1, and a choice whose codes do not
    // fit 16 bits for the last one whose codes do: no list that is accepted has such a choice.
    pub fn of(choice: Choice, value: u8) -> Code
        ensures { result.0 ≡ code_of (min last_choice choice.0) (min 1 value) }
    {
        let late = choice.held() * 2;
        if value == 0 {
            Code(late + 1)
        } else {
            Code(late)
        }
    }
}

// As an index or a count, each widens without loss.
impl From<Choice> for usize {
    ghost from_gives = { λ choice place. place ≡ choice.0 };

    fn from(choice: Choice) -> usize {
        usize::from(choice.0)
    }
}

impl From<Code> for usize {
    ghost from_gives = { λ code place. place ≡ code.0 };

    fn from(code: Code) -> usize {
        usize::from(code.0)
    }
}

impl From<RuleNo> for usize {
    ghost from_gives = { λ rule place. place ≡ rule.0 };

    fn from(rule: RuleNo) -> usize {
        usize::from(rule.0)
    }
}
