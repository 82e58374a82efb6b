// The walk's own names for the tables of the work area, in another use than that of the moves' `Work`, which it would leave without lists. Ranks stand in the marks, and the stack in the trail. The path is the
// spare table: each of its places holds a place of the stack. A code's cursor is the head of the list of its opposite, whose
// ends lead on from the code: the walk uses the heads up, so that it needs no cursors besides. Each store has an exact contract:
// what it means for the walk is said over the ranks, the stack, the path and the cursors as functions, and never sees a store.
ghost use Rattle.std.specs.Prelude.{◌≡◌, ℕ, ◌+◌, ◌-◌, ◌*◌, ◌≤◌, ◌<◌, length, get_or};
ghost use Rattle.meaning.specs.Rules.{other_end};
ghost use Rattle.meaning.specs.Sizes.{max_choices};
ghost use Rattle.moves.specs.Layout.{Tables, mark, trail, spare, next, next_at};
ghost use Rattle.components.specs.Leads.{settled_rank};

use meaning::Code;
use moves::ends::{code_at, other_end};
use moves::layout::{
    head_of, mark_of, next_of, set_head, set_mark, set_spare_word, set_trail, spare_word,
    trail_code,
};

// The list, the lent area, and how many codes stand on the stack and how many of its places on the path. It is no model: whoever
// lends the area is to know what the walk left in it, so that each method that stores says that it is the same area.
#[derive(Drop)]
pub(crate) struct Walk<'a> {
    n: usize,
    words: &'a [u16],
    tables: &'a mut [u16],
    top: usize,
    depth: usize,
    ghost few: { n ≤ max_choices },
    ghost fits: { Tables n tables.now },
}

// The rank of a settled code whose component has this smallest code.
pub(crate) fn settled_rank(n: usize, lead: Code) -> usize
    requires { n ≤ max_choices }
    ensures { result ≡ settled_rank n lead.0 }
{
    2 * n + 1 + usize::from(lead)
}

impl<'a> Walk<'a> {
    ghost use Rattle.components.specs.Walk.{cursor, Room, moved, reranked, noted, stacked_on, walking};

    pub(crate) fn new(n: usize, words: &'a [u16], tables: &'a mut [u16]) -> Walk<'a>
        requires { (n ≤ max_choices) × Tables n tables.old }
        ensures same { result.tables.ghost_name ≡ tables.entry.ghost_name }
        ensures walk { walking result ≡ record { n = n; words = words.now; tables = tables.old; top = 0; depth = 0 } }
    {
        Walk {
            n,
            words,
            tables,
            top: 0,
            depth: 0,
        }
    }

    // How many codes stand on the stack.
    pub(crate) fn top(&self) -> usize
        ensures top { result ≡ self.now.top }
        ensures room { Room self.now.n self.now.tables.now }
    {
        self.top
    }

    // How many places of the stack stand on the path.
    pub(crate) fn depth(&self) -> usize
        ensures { result ≡ self.now.depth }
    {
        self.depth
    }

    // The same for this walk's choices; it fits a word.
    pub(crate) fn settled_rank(&self, lead: Code) -> usize
        requires { lead.0 < 2 * self.now.n }
        ensures { (result ≡ settled_rank self.now.n lead.0) × (result < 65536) }
    {
        settled_rank(self.n, lead)
    }

    // 0 where x is not met yet, and over 2n where it is settled.
    pub(crate) fn rank_of(&self, x: Code) -> usize
        requires { x.0 < 2 * self.now.n }
        ensures { result ≡ mark self.now.n self.now.tables.now x.0 }
    {
        usize::from(mark_of(self.n, self.tables, x))
    }

    pub(crate) fn set_rank(&mut self, x: Code, v: usize)
        requires { (x.0 < 2 * self.old.n) × (v < 65536) }
        ensures same { self.new.tables.ghost_name ≡ self.old.tables.ghost_name }
        ensures reranked { walking self.new ≡ reranked (walking self.old) x.0 v }
    {
        set_mark(self.n, self.tables, x, v as u16);
    }

    // The code at place p of the stack.
    pub(crate) fn stacked(&self, p: usize) -> Code
        requires { p < 2 * self.now.n }
        ensures { result.0 ≡ trail self.now.n self.now.tables.now p }
    {
        trail_code(self.n, self.tables, p)
    }

    // The place of the stack that stands this far before the end of the path.
    pub(crate) fn path_end(&self, back: usize) -> usize
        requires { (0 < back) × (back ≤ self.now.depth) × (self.now.depth ≤ 2 * self.now.n) }
        ensures { result ≡ spare self.now.n self.now.tables.now (self.now.depth - back) }
    {
        usize::from(spare_word(self.n, self.tables, self.depth - back))
    }

    // One more than the end where the list of a goes on, or 0.
    pub(crate) fn cursor_of(&self, a: Code) -> usize
        requires { a.0 < 2 * self.now.n }
        ensures { result ≡ cursor self.now.n self.now.tables.now a.0 }
    {
        head_of(self.n, self.tables, a.opposite())
    }

    // The code that the end e of a list leads to.
    pub(crate) fn led_to(&self, e: usize) -> Code
        requires { other_end e < length self.now.words.now }
        ensures { result.0 ≡ get_or self.now.words.now (other_end e) 0 }
    {
        code_at(self.words, other_end(e))
    }

    // One more than the end after e, or 0.
    pub(crate) fn end_after(&self, e: usize) -> usize
        requires { next_at self.now.n e < length self.now.tables.now }
        ensures { result ≡ next self.now.n self.now.tables.now e }
    {
        next_of(self.n, self.tables, e)
    }

    // The cursor and the rank of a.
    pub(crate) fn note(&mut self, a: Code, cursor: usize, low: usize)
        requires { (a.0 < 2 * self.old.n) × (cursor < 65536) × (low < 65536) }
        ensures same { self.new.tables.ghost_name ≡ self.old.tables.ghost_name }
        ensures noted { walking self.new ≡ moved (walking self.old) (noted self.old.n self.old.tables.now a.0 cursor low) self.old.top self.old.depth }
    {
        set_head(self.n, self.tables, a.opposite(), cursor as u16);
        set_mark(self.n, self.tables, a, low as u16);
    }

    // Puts z on the stack and on the path.
    pub(crate) fn push(&mut self, z: Code)
        requires { (z.0 < 2 * self.old.n) × (self.old.top < 2 * self.old.n) × (self.old.depth < 2 * self.old.n) }
        ensures same { self.new.tables.ghost_name ≡ self.old.tables.ghost_name }
        ensures pushed { walking self.new ≡ moved (walking self.old) (stacked_on self.old.n self.old.tables.now z.0 self.old.top self.old.depth) (self.old.top + 1) (self.old.depth + 1) }
    {
        set_trail(self.n, self.tables, self.top, z);
        set_spare_word(self.n, self.tables, self.depth, self.top as u16);
        self.top += 1;
        self.depth += 1;
        set_mark(self.n, self.tables, z, self.top as u16);
    }

    // Takes a place from the path, and leaves this many codes on the stack.
    pub(crate) fn back_to(&mut self, top: usize)
        requires { 0 < self.old.depth }
        ensures same { self.new.tables.ghost_name ≡ self.old.tables.ghost_name }
        ensures moved { walking self.new ≡ moved (walking self.old) self.old.tables.now top (self.old.depth - 1) }
    {
        self.top = top;
        self.depth -= 1;
    }
}
