// Where each table stands in the work area: heads [0, 2n), marks [2n, 4n), trail [4n, 6n), spare [6n, 8n), nexts from 8n on.
// They share the one area that a call is lent, and the laws speak of loads after stores in it. No other file names an offset, so that a
// table is added or moved here and in specs/Layout alone. The functions take n and the area, and are no methods: `Work` and the walk
// of `components` both stand on them, and one more struct below these two would say nothing. And the tables are one slice, and no five: the
// laws speak of loads after stores in one list, and five would put five lengths into each invariant. A number is cast where it is stored:
// the check has it proved that nothing is lost. And lists are linked by index: there is no heap, and C lends one area.
ghost use Rattle.std.specs.Prelude.{◌≡◌, ◌*◌, ◌<◌, ◌≤◌, length, set};
ghost use Rattle.meaning.specs.Sizes.{max_choices};
ghost use Rattle.moves.specs.Area.{link_of};
ghost use Rattle.moves.specs.Layout.{Tables, head_at, mark_at, trail_at, spare_at, next_at, head, mark, trail, spare, next};

use meaning::Code;

pub fn head_word(n: usize, work: &[u16], c: Code) -> u16
    requires { (c.0 < 2 * n) × Tables n work.now }
    ensures { result ≡ head n work.now c.0 }
{
    work[usize::from(c)]
}

// One more than the first end that holds c, or 0.
pub fn head_of(n: usize, work: &[u16], c: Code) -> usize
    requires { (c.0 < 2 * n) × Tables n work.now }
    ensures { result ≡ head n work.now c.0 }
{
    usize::from(head_word(n, work, c))
}

// The first end that holds c.
pub(crate) fn first_link(n: usize, work: &[u16], c: Code) -> Option<usize>
    requires { (c.0 < 2 * n) × Tables n work.now }
    ensures { link_of result ≡ head n work.now c.0 }
{
    head_of(n, work, c).checked_sub(1)
}

pub fn set_head(n: usize, work: &mut [u16], c: Code, v: u16)
    requires { (c.0 < 2 * n) × Tables n work.old }
    ensures { work.new ≡ set work.old (head_at n c.0) v }
{
    work[usize::from(c)] = v;
}

// 0 where x is not in the set.
pub fn mark_of(n: usize, work: &[u16], x: Code) -> u16
    requires { (x.0 < 2 * n) × Tables n work.now }
    ensures { result ≡ mark n work.now x.0 }
{
    work[2 * n + usize::from(x)]
}

pub fn set_mark(n: usize, work: &mut [u16], x: Code, v: u16)
    requires { (x.0 < 2 * n) × Tables n work.old }
    ensures { work.new ≡ set work.old (mark_at n x.0) v }
{
    work[2 * n + usize::from(x)] = v;
}

// The code at place i of the trail.
pub fn trail_code(n: usize, work: &[u16], i: usize) -> Code
    requires { (i < 2 * n) × Tables n work.now }
    ensures { result.0 ≡ trail n work.now i }
{
    Code(work[4 * n + i])
}

pub fn set_trail(n: usize, work: &mut [u16], i: usize, x: Code)
    requires { (i < 2 * n) × Tables n work.old }
    ensures { work.new ≡ set work.old (trail_at n i) x.0 }
{
    work[4 * n + i] = x.0;
}

// The word at place p of the spare table: the walk of the components keeps places there, and the moves a word for each code.
pub fn spare_word(n: usize, work: &[u16], p: usize) -> u16
    requires { (p < 2 * n) × Tables n work.now }
    ensures { result ≡ spare n work.now p }
{
    work[6 * n + p]
}

pub fn set_spare_word(n: usize, work: &mut [u16], p: usize, v: u16)
    requires { (p < 2 * n) × Tables n work.old }
    ensures { work.new ≡ set work.old (spare_at n p) v }
{
    work[6 * n + p] = v;
}

pub fn spare_of(n: usize, work: &[u16], x: Code) -> u16
    requires { (x.0 < 2 * n) × Tables n work.now }
    ensures { result ≡ spare n work.now x.0 }
{
    spare_word(n, work, usize::from(x))
}

pub fn set_spare(n: usize, work: &mut [u16], x: Code, v: u16)
    requires { (x.0 < 2 * n) × Tables n work.old }
    ensures { work.new ≡ set work.old (spare_at n x.0) v }
{
    set_spare_word(n, work, usize::from(x), v);
}

// One more than the next end after e that holds e's code, or 0.
pub fn next_of(n: usize, work: &[u16], e: usize) -> usize
    requires { next_at n e < length work.now }
    ensures { result ≡ next n work.now e }
{
    usize::from(work[8 * n + e])
}

// The next end after e that holds e's code.
pub(crate) fn next_link(n: usize, work: &[u16], e: usize) -> Option<usize>
    requires { next_at n e < length work.now }
    ensures { link_of result ≡ next n work.now e }
{
    next_of(n, work, e).checked_sub(1)
}

pub fn set_next(n: usize, work: &mut [u16], e: usize, v: u16)
    requires { next_at n e < length work.old }
    ensures { work.new ≡ set work.old (next_at n e) v }
{
    work[8 * n + e] = v;
}

// Where the tables of n choices end and the nexts begin.
pub fn tables_end(n: usize) -> usize
    requires { n ≤ max_choices }
    ensures { result ≡ next_at n 0 }
{
    8 * n
}
