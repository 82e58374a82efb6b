// The rules of a call and the area that is lent for them, as every move takes them: the list is accepted, its ends are
// linked in the area, and the trail holds the codes that have a mark. That a code is one of the list's is asked for by clause: a `Code`
// knows no list, and a type with the bound would have to carry n.
ghost use Rattle.std.specs.Prelude.{◌≡◌, ◌*◌, ◌<◌, length, get_or};
ghost use Rattle.meaning.specs.Rules.{other_end};
ghost use Rattle.moves.specs.Layout.{Sizes, head, mark, trail, spare, next};
ghost use Rattle.moves.specs.Area.{IsSound, Sound, Begun, Writes, link_of};

use crate::ends::{code_at, other_end};
use crate::index::prepare;
use crate::layout::{head_of, mark_of, next_of, set_spare, spare_of, trail_code};
use crate::reading::View;
use meaning::Code;
use std::marker::Model;

#[derive(Drop)]
pub struct Work<'a> {
    pub(crate) n: usize,
    pub(crate) rules: &'a [u16],
    // The lent area.
    pub(crate) words: &'a mut [u16],
    // How many places of the trail are taken.
    pub(crate) tail: usize,
}

impl<'a> Model for Work<'a> {
    ghost use Rattle.moves.specs.Area.{Area, Sound};

    ghost Value = { Area };

    ghost view = { λ w. record { name = w.words.ghost_name; n = w.n; rules = w.rules.now; words = w.words.now; tail = w.tail } };

    ghost invariant = { λ w. Sound w.n w.rules.now w.words.now w.tail };
}

impl<'a> Work<'a> {
    // These two make the value: so they take its parts.
    pub fn new(n: usize, rules: &'a [u16], words: &'a mut [u16]) -> Work<'a>
        requires { Sizes n rules.now words.old }
        ensures begun { Begun n rules.now result }
        ensures lent { result.name ≡ words.entry.ghost_name }
    {
        prepare(n, rules, words);
        Work::resume(n, rules, words, 0)
    }

    // The area as it stands, with so many places of its trail taken.
    pub fn resume(n: usize, rules: &'a [u16], words: &'a mut [u16], tail: usize) -> Work<'a>
        requires { Sound n rules.now words.old tail }
        ensures { result ≡ record { name = words.entry.ghost_name; n = n; rules = rules.now; words = words.old; tail = tail } }
    {
        Work {
            n,
            rules,
            words,
            tail,
        }
    }

    // Gives the area back, to a caller who goes on with it as the moves left it: it is the slice that was lent.
    pub fn finish(self) -> &'a mut [u16]
        ensures lent { result.ghost_name ≡ self.entry.name }
        ensures words { result.now ≡ self.entry.words }
    {
        self.words
    }

    // How many choices there are.
    pub fn choices(&self) -> usize
        ensures is { result ≡ self.now.n }
        ensures sound { IsSound self.now }
    {
        self.n
    }

    // How many codes there are.
    pub fn codes(&self) -> u16
        ensures is { result ≡ 2 * self.now.n }
        ensures sound { IsSound self.now }
    {
        (2 * self.n) as u16
    }

    pub fn rules(&self) -> &'a [u16]
        ensures is { result.now ≡ self.now.rules }
        ensures sound { IsSound self.now }
    {
        self.rules
    }

    // How many codes are on the trail.
    pub fn tail(&self) -> usize
        ensures is { result ≡ self.now.tail }
        ensures sound { IsSound self.now }
    {
        self.tail
    }

    // The tables as they stand.
    pub fn view(&self) -> View<'_>
        ensures choices { result.n ≡ self.now.n }
        ensures words { result.words.now ≡ self.now.words }
    {
        View {
            n: self.n,
            words: self.words,
        }
    }

    // 0 where x is not in the set.
    pub fn mark(&self, x: Code) -> u16
        requires { x.0 < 2 * self.now.n }
        ensures is { result ≡ mark self.now.n self.now.words x.0 }
        ensures sound { IsSound self.now }
    {
        mark_of(self.n, self.words, x)
    }

    // The code at place i of the trail.
    pub fn trail(&self, i: usize) -> Code
        requires { i < self.now.tail }
        ensures { result.0 ≡ trail self.now.n self.now.words i }
    {
        trail_code(self.n, self.words, i)
    }

    pub fn spare(&self, x: Code) -> u16
        requires { x.0 < 2 * self.now.n }
        ensures is { result ≡ spare self.now.n self.now.words x.0 }
        ensures sound { IsSound self.now }
    {
        spare_of(self.n, self.words, x)
    }

    pub fn set_spare(&mut self, x: Code, v: u16)
        requires { x.0 < 2 * self.old.n }
        ensures { Writes self.old x.0 v self.new }
    {
        set_spare(self.n, self.words, x, v);
    }

    // The first end that holds c.
    pub fn first_end(&self, c: Code) -> Option<usize>
        requires { c.0 < 2 * self.now.n }
        ensures is { link_of result ≡ head self.now.n self.now.words c.0 }
        ensures sound { IsSound self.now }
    {
        head_of(self.n, self.words, c).checked_sub(1)
    }

    // The next end after this one that holds its code.
    pub fn next_end(&self, end: usize) -> Option<usize>
        requires { end < length self.now.rules }
        ensures { link_of result ≡ next self.now.n self.now.words end }
    {
        next_of(self.n, self.words, end).checked_sub(1)
    }

    // The code at the other end of the same rule.
    pub fn across(&self, end: usize) -> Code
        requires { end < length self.now.rules }
        ensures { result.0 ≡ get_or self.now.rules (other_end end) 0 }
    {
        code_at(self.rules, other_end(end))
    }
}
