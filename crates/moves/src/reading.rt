// The tables as they stand, for what is read off when the moves are done: that asks for no list and no trail, only for an
// area in which the tables have room, and not for a `Work`.
ghost use Rattle.std.specs.Prelude.{◌≡◌, ◌*◌, ◌<◌};
ghost use Rattle.moves.specs.Layout.{Tables, mark, spare};

use crate::layout::{mark_of, spare_of};
use meaning::Code;

#[derive(Clone, Copy, Debug)]
pub struct View<'a> {
    pub n: usize,
    // The lent area.
    pub words: &'a [u16],
    ghost fits: { Tables n words.now },
}

impl<'a> View<'a> {
    pub fn mark(&self, x: Code) -> u16
        requires { x.0 < 2 * self.now.n }
        ensures { result ≡ mark self.now.n self.now.words.now x.0 }
    {
        mark_of(self.n, self.words, x)
    }

    pub fn spare(&self, x: Code) -> u16
        requires { x.0 < 2 * self.now.n }
        ensures { result ≡ spare self.now.n self.now.words.now x.0 }
    {
        spare_of(self.n, self.words, x)
    }
}
