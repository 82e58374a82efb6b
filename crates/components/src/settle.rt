// A component is found: the codes on the stack from a place on. Each gets for its rank 2n + 1 more than the smallest of them.
// Chains turn round, so the opposites are a component too. Where none of them was met yet they are settled here, unwalked, which
// nearly halves the work.
ghost use Rattle.std.specs.Prelude.{◌≡◌, ◌*◌, ◌≤◌, ◌<◌};
ghost use Rattle.moves.specs.Layout.{trail};
ghost use Rattle.components.specs.Leads.{settled_rank};
ghost use Rattle.components.specs.Walk.{Stacked, Least, Settled, codes_of, turned, or_zero, Lone, Closes, retabled, walking};

use crate::tables::Walk;
use meaning::Code;

// The codes of a component as they stand on the stack, or their opposites.
#[derive(Clone, Copy, Debug, PartialEq, Eq)]
pub enum Side {
    Own,
    Opposite,
}

impl Side {
    fn of(self, x: Code) -> Code
        ensures { result.0 ≡ turned self x.0 }
    {
        match self {
            Side::Own => x,
            Side::Opposite => x.opposite(),
        }
    }
}

impl Walk<'_> {
    // The smallest of the codes on the stack from a place on.
    fn least(&self, from: usize) -> Code
        requires { (from < self.now.top) × (self.now.top ≤ 2 * self.now.n) }
        ensures { Least (trail self.now.n self.now.tables.now) from self.now.top result.0 }
    {
        let top = self.top();
        let mut l = self.stacked(from);
        for p in from + 1..top {
            l = l.min(self.stacked(p));
        }
        l
    }

    // The smallest of their opposites, where none of these was met yet. It is no `least` of the other side: one function for
    // both would have to say in its clause what either says.
    fn lone(&self, from: usize) -> Option<Code>
        requires { (from < self.now.top) × Stacked self.now.n self.now.tables.now self.now.top }
        ensures { Lone self.now.n from self.now.top self.now.tables.now (or_zero result) }
    {
        let mut l = self.stacked(from).opposite();
        for p in from..self.top() {
            let y = self.stacked(p).opposite();
            if self.rank_of(y) != 0 {
                return None;
            }
            l = l.min(y);
        }
        Some(l)
    }

    // The codes of this side get the rank that names their smallest.
    fn settle(&mut self, side: Side, from: usize, lead: Code)
        requires { (from ≤ self.old.top) × (lead.0 < 2 * self.old.n) × Stacked self.old.n self.old.tables.now self.old.top }
        ensures same { self.new.tables.ghost_name ≡ self.old.tables.ghost_name }
        ensures retabled { walking self.new ≡ retabled (walking self.old) self.new.tables.now }
        ensures settled { Settled self.old.n (codes_of side self.old.n self.old.tables.now) from self.old.top (settled_rank self.old.n lead.0) self.old.tables.now self.new.tables.now }
    {
        let rank = self.settled_rank(lead);
        for p in from..self.top() {
            let x = side.of(self.stacked(p));
            self.set_rank(x, rank);
        }
    }

    // The codes on the stack from this place on are a component, and so are their opposites.
    pub(crate) fn close(&mut self, from: usize)
        requires { (from < self.old.top) × Stacked self.old.n self.old.tables.now self.old.top }
        ensures same { self.new.tables.ghost_name ≡ self.old.tables.ghost_name }
        ensures closes { Closes (walking self.old) from (walking self.new) }
    {
        let l = self.least(from);
        self.settle(Side::Own, from, l);
        if let Some(m) = self.lone(from) {
            self.settle(Side::Opposite, from, m);
        }
    }
}
