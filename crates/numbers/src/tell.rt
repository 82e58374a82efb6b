// Answers as C gets them: a number, and values at the front of `out`. The numbers are those of the C header.
ghost use Rattle.std.specs.Prelude.{List, ℕ, ◌≡◌, ◌≤◌, length};
ghost use Rattle.meaning.specs.Sizes.{over};
ghost use Rattle.numbers.specs.Numbers.{out_needs, decided_number, decided_values, listed_number, listed_values, clashed_number, clashed_values, moved_number, moved_values, read_number, read_values, number_or, values_or, host_decided, host_moved};

use book::Sizes;
use meaning::{Clashed, Decided, Listed, Moved, Refusal};

// What a call answers where it does not refuse.
pub trait Answer {
    ghost number: { Self → ℕ };

    ghost values: { Self → List ℕ };

    fn tell(self, out: &mut [u64]) -> u32
        requires { out_needs ≤ length out.old }
        ensures { (result ≡ number self) × (out.new ≡ over (values self) out.old) };
}

// A refusal has its own number, and its place as its value. A cast, since a `usize` has no From to a `u64`: it fits.
pub fn tell<A: Answer>(answer: Result<A, Refusal>, out: &mut [u64]) -> u32
    requires { out_needs ≤ length out.old }
    ensures { (result ≡ number_or A.number answer) × (out.new ≡ over (values_or A.values answer) out.old) }
{
    match answer {
        Ok(answer) => answer.tell(out),
        Err(refusal) => {
            out[0] = refusal.place() as u64;
            refusal.number()
        }
    }
}

impl Answer for Decided {
    ghost number = { decided_number };

    ghost values = { decided_values };

    fn tell(self, out: &mut [u64]) -> u32 {
        match self {
            Decided::Possible => 0,
            Decided::Impossible(v) => {
                out[0] = u64::from(v.0);
                100
            }
        }
    }
}

impl Answer for Listed {
    ghost number = { listed_number };

    ghost values = { listed_values };

    fn tell(self, _out: &mut [u64]) -> u32 {
        match self {
            Listed::Done => 0,
            Listed::Impossible => 100,
        }
    }
}

impl Answer for Clashed {
    ghost number = { clashed_number };

    ghost values = { clashed_values };

    fn tell(self, out: &mut [u64]) -> u32 {
        match self {
            Clashed::Chains {
                choice,
                late_early,
                early_late,
            } => {
                out[0] = u64::from(choice.0);
                out[1] = late_early as u64;
                out[2] = early_late as u64;
                100
            }
            Clashed::Possible => 0,
        }
    }
}

impl Answer for Moved {
    ghost number = { moved_number };

    ghost values = { moved_values };

    fn tell(self, _out: &mut [u64]) -> u32 {
        match self {
            Moved::Moved => 0,
            Moved::Ended => 101,
            Moved::Impossible => 100,
        }
    }
}

impl Answer for Sizes {
    ghost number = { read_number };

    ghost values = { read_values };

    fn tell(self, out: &mut [u64]) -> u32 {
        out[0] = self.n as u64;
        out[1] = self.m as u64;
        0
    }
}

// The host gets the number alone. Two functions, and no trait: with an impl for each answer it would be longer than the two.
pub fn host_decided(answer: Result<Decided, Refusal>) -> u32
    ensures { result ≡ number_or host_decided answer }
{
    match answer {
        Ok(Decided::Possible) => 0,
        Ok(Decided::Impossible(_)) => 20,
        Err(refusal) => refusal.number(),
    }
}

pub fn host_moved(answer: Result<Moved, Refusal>) -> u32
    ensures { result ≡ number_or host_moved answer }
{
    match answer {
        Ok(Moved::Moved) => 0,
        Ok(Moved::Ended) => 21,
        Ok(Moved::Impossible) => 20,
        Err(refusal) => refusal.number(),
    }
}
