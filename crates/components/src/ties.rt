// What is read off once every code is settled: two codes are tied exactly if they have one mark. The contracts hold for any list
// whose leads the marks tell, so that the words need not be handed over again. It is no view of the moves: n has to be within its limit.
ghost use Rattle.std.specs.Prelude.{◌≡◌, List, ℕ, ◌*◌, ◌≤◌, ◌<◌, length};
ghost use Rattle.meaning.specs.Sizes.{max_choices, ties_need};
ghost use Rattle.moves.specs.Layout.{Tables, mark};
ghost use Rattle.components.specs.Leads.{Leads, AllSettled, SomeClash, TiesPut};

use crate::tables::settled_rank;
use meaning::{Choice, Code};
use moves::layout::mark_of;
use std::marker::Model;

// The ranks as the walk leaves them.
#[derive(Drop)]
pub struct Ranks<'a> {
    n: usize,
    tables: &'a [u16],
}

impl<'a> Model for Ranks<'a> {
    ghost use Rattle.std.specs.Prelude.{◌*◌, ◌≤◌};
    ghost use Rattle.meaning.specs.Sizes.{max_choices};
    ghost use Rattle.moves.specs.Layout.{Tables};
    ghost use Rattle.components.specs.Leads.{Marked};

    ghost Value = { Marked };

    ghost view = { λ w. record { n = w.n; tables = w.tables.now } };

    ghost invariant = { λ w. (w.n ≤ max_choices) × Tables w.n w.tables.now };
}

impl<'a> Ranks<'a> {
    pub fn new(n: usize, tables: &'a [u16]) -> Ranks<'a>
        requires { (n ≤ max_choices) × Tables n tables.now }
        ensures { result ≡ record { n = n; tables = tables.now } }
    {
        Ranks { n, tables }
    }

    // The rank of x: two codes are tied exactly if they have one.
    pub fn mark(&self, x: Code) -> u16
        requires { x.0 < 2 * self.now.n }
        ensures { result ≡ mark self.now.n self.now.tables x.0 }
    {
        mark_of(self.n, self.tables, x)
    }

    // Does some choice clash?
    pub fn some_clash(&self) -> bool
        ensures { (ws : List ℕ) → Leads self.now.n ws self.now.tables → SomeClash self.now.n ws result }
    {
        for v in 0..self.n {
            let late = Code::of(Choice(v as u16), 1);
            if self.mark(late) == self.mark(late.opposite()) {
                return true;
            }
        }
        false
    }

    // The tie of each choice is written at the front of the area.
    pub fn put_ties(&self, area: &mut [u16])
        requires settled { AllSettled self.now.n self.now.tables }
        requires room { ties_need self.now.n ≤ length area.old }
        ensures { TiesPut self.now.n self.now.tables area.old area.new }
    {
        let first = settled_rank(self.n, Code(0)) as u16;
        for (v, item) in area[..self.n].iter_mut().enumerate() {
            let late = Code::of(Choice(v as u16), 1);
            *item = self.mark(late) - first;
        }
    }
}
