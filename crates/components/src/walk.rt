// The walk over all codes, depth first, with one rank a code in place of Tarjan's two numbers, as Pearce has it. It keeps its own
// stack and path in the work area, so that its depth costs no recursion.
ghost use Rattle.std.specs.Prelude.{◌≡◌, ℕ, ◌*◌, ◌<◌};
ghost use Rattle.moves.specs.Layout.{mark};
ghost use Rattle.moves.specs.Lists.{Ready};
ghost use Rattle.components.specs.Leads.{Leads, Side};
ghost use Rattle.components.specs.Walk.{Linked, Running, Turns, Searches, Lifted, retabled, walking};

use crate::tables::Walk;
use meaning::Code;

impl Walk<'_> {
    // The code b gets the rank low, where that is less.
    fn lower(&mut self, b: Code, low: usize)
        requires { (b.0 < 2 * self.old.n) × (low < 65536) }
        ensures same { self.new.tables.ghost_name ≡ self.old.tables.ghost_name }
        ensures retabled { walking self.new ≡ retabled (walking self.old) self.new.tables.now }
        ensures lifted { Lifted self.old.n b.0 low self.old.tables.now self.new.tables.now }
    {
        if low < self.rank_of(b) {
            self.set_rank(b, low);
        }
    }

    // One turn at the end of the path: a code more, or a code less, or a component less.
    fn turn(&mut self)
        requires linked { Linked (walking self.old) }
        requires running { (0 < self.old.depth) × Running (walking self.old) }
        ensures same { self.new.tables.ghost_name ≡ self.old.tables.ghost_name }
        ensures turns { Turns (walking self.old) (walking self.new) }
    {
        let place = self.path_end(1);
        let a = self.stacked(place);
        let found = self.scan(a);
        self.note(a, found.cursor, found.low);
        if let Some(z) = found.down {
            self.push(z);
            return;
        }
        if found.low == place + 1 {
            self.close(place);
            self.back_to(place);
            return;
        }
        let b = self.stacked(self.path_end(2));
        self.lower(b, found.low);
        self.back_to(self.top());
    }

    // Walks from root until the stack is empty.
    fn search(&mut self, root: Code)
        requires linked { Linked (walking self.old) }
        requires running { (self.old.top ≡ 0) × (self.old.depth ≡ 0) × Running (walking self.old) }
        requires root { (root.0 < 2 * self.old.n) × (mark self.old.n self.old.tables.now root.0 ≡ 0) }
        ensures same { self.new.tables.ghost_name ≡ self.old.tables.ghost_name }
        ensures searches { Searches (walking self.old) root.0 (walking self.new) }
    {
        self.push(root);
        // The path is a stack, which each turn changes: so no `for`.
        while 0 < self.depth() {
            self.turn();
        }
    }
}

// Settles every code: its mark becomes 2n + 1 more than the smallest code that it is tied to. The heads are used up.
// It stays a call (`inline`): written out in the engine's, the walk would share its registers with what the call keeps.
#[inline(never)]
pub fn components(n: usize, words: &[u16], work: &mut [u16])
    requires ready { Ready n words.now work.old }
    requires by_index { (x : ℕ) → x < 2 * n → mark n work.old x ≡ 0 }
    ensures side { Side n work.old work.new }
    ensures leads { Leads n words.now work.new }
{
    let mut walk = Walk::new(n, words, work);
    for x in 0..(2 * n) as u16 {
        let root = Code(x);
        if walk.rank_of(root) == 0 {
            walk.search(root);
        }
    }
}
