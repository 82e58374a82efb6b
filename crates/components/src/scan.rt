// A look along a code's list: it stops at the first code not met yet, where the walk goes down, and notes the lowest rank on
// the way. What it passed is never looked at again, so all looks together cost one pass over the rules.
ghost use Rattle.std.specs.Prelude.{◌*◌, ◌<◌};
ghost use Rattle.moves.specs.Layout.{mark};
ghost use Rattle.moves.specs.Lists.{Cursor};
ghost use Rattle.components.specs.Walk.{cursor, or_zero, Linked, Scanned, walking};

use crate::tables::Walk;
use meaning::Code;

// Where the list goes on, the lowest rank met, and the code not met yet where the walk goes down.
#[derive(Clone, Copy, Debug, PartialEq, Eq)]
pub(crate) struct Found {
    pub cursor: usize,
    pub low: usize,
    pub down: Option<Code>,
}

impl Walk<'_> {
    pub(crate) fn scan(&self, a: Code) -> Found
        requires linked { Linked (walking self.now) }
        requires a_bound { (a.0 < 2 * self.now.n) × (0 < mark self.now.n self.now.tables.now a.0) × Cursor self.now.words.now a.0 (cursor self.now.n self.now.tables.now a.0) }
        ensures { Scanned self.now.n self.now.words.now self.now.tables.now a.0 result.cursor result.low (or_zero result.down) }
    {
        let mut low = self.rank_of(a);
        // The cursor is kept as it is stored, a link of the list: so no `for`.
        let mut e = self.cursor_of(a);
        while let Some(end) = e.checked_sub(1) {
            let z = self.led_to(end);
            let r = self.rank_of(z);
            e = self.end_after(end);
            if r == 0 {
                return Found {
                    cursor: e,
                    low,
                    down: Some(z),
                };
            }
            low = low.min(r);
        }
        Found {
            cursor: 0,
            low,
            down: None,
        }
    }
}
