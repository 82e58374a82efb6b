// A breadth-first walk on top of a closed set: what it reaches is marked and put on the trail, and the trail is its queue.
// From no marks a mark is one more than the least length of a chain. The count of marks is the trail's length, so the trail
// never overflows, and taking a walk back costs what the walk cost.
// They are functions over the area and the trail's length, as they are promised: a caller knows what they leave in the slice that it lends, and
// `touch` and `undo` ask for the tables and the trail alone. A `Work` hands its parts to them; so the trail's length need not be loaded at each step.
ghost use Rattle.std.specs.Prelude.{◌≡◌, ◌*◌, ◌≤◌, ◌<◌};
ghost use Rattle.meaning.proofs.Sets.{Closed};
ghost use Rattle.moves.specs.Layout.{Tables, Apart, mark, trail};
ghost use Rattle.moves.specs.Lists.{Ready};
ghost use Rattle.moves.specs.Walks.{Listed, Held, Touched, Visited, SpreadFrom, Undone};
ghost use Rattle.moves.specs.Area.{Spreads, Undoes};

use crate::ends::{code_at, other_end};
use crate::layout::{first_link, mark_of, next_link, set_mark, set_trail, trail_code};
use crate::work::Work;
use meaning::Code;

// Marks b with v and puts it on the trail, where it has no mark, and returns the trail's new end.
pub fn touch(n: usize, work: &mut [u16], b: Code, v: u16, tail: usize) -> usize
    requires { (b.0 < 2 * n) × Tables n work.old × Listed n work.old tail }
    ensures { Touched n work.old b.0 v tail work.new result }
{
    if mark_of(n, work, b) != 0 {
        return tail;
    }
    set_mark(n, work, b, v);
    set_trail(n, work, tail, b);
    tail + 1
}

// Marks with v what the code a leads to, and returns the trail's new end.
fn visit(n: usize, words: &[u16], work: &mut [u16], a: Code, v: u16, tail: usize) -> usize
    requires ready { Ready n words.now work.old }
    requires a_bound { (a.0 < 2 * n) × (0 < v) × Listed n work.old tail }
    ensures { Apart n work.old work.new × Visited (2 * n) words.now a.0 v (mark n work.old) (trail n work.old) tail (mark n work.new) (trail n work.new) result }
{
    let mut t = tail;
    // The ends are linked through the area: there is no slice to go over.
    let mut at = first_link(n, work, a.opposite());
    while let Some(end) = at {
        let b = code_at(words, other_end(end));
        t = touch(n, work, b, v, t);
        at = next_link(n, work, end);
    }
    t
}

// Marks what source reaches, on top of a closed set, and returns the trail's new end.
pub fn spread(n: usize, words: &[u16], work: &mut [u16], source: Code, tail: usize) -> usize
    requires ready { Ready n words.now work.old }
    requires source_bound { (source.0 < 2 * n) × (mark n work.old source.0 ≡ 0) }
    requires listed { Listed n work.old tail × Closed words.now (Held n work.old) }
    ensures { SpreadFrom n words.now source.0 tail work.old work.new result }
{
    // The trail is the queue, and grows while it is gone through: so no `for`.
    let mut t = touch(n, work, source, 1, tail);
    let mut h = tail;
    while h < t {
        let a = trail_code(n, work, h);
        let v = mark_of(n, work, a) + 1;
        t = visit(n, words, work, a, v, t);
        h += 1;
    }
    t
}

// Unmarks the codes of the trail from `to` on.
pub fn undo(n: usize, work: &mut [u16], to: usize, tail: usize)
    requires { Tables n work.old × (to ≤ tail) × Listed n work.old tail }
    ensures { Undone n to work.old work.new }
{
    for i in (to..tail).rev() {
        let x = trail_code(n, work, i);
        set_mark(n, work, x, 0);
    }
}

impl<'a> Work<'a> {
    // Marks what source reaches, on top of a closed set.
    pub fn spread(&mut self, source: Code)
        requires source_bound { (source.0 < 2 * self.old.n) × (mark self.old.n self.old.words source.0 ≡ 0) }
        requires closed { Closed self.old.rules (Held self.old.n self.old.words) }
        ensures { Spreads self.old source.0 self.new }
    {
        self.tail = spread(self.n, self.rules, self.words, source, self.tail);
    }

    // Takes the trail back to `end` places.
    pub fn undo_to(&mut self, end: usize)
        requires { end ≤ self.old.tail }
        ensures { Undoes self.old end self.new }
    {
        undo(self.n, self.words, end, self.tail);
        self.tail = end;
    }
}
