// The book read, the list answered by the engine, and the answer put as lines.
ghost use Rattle.std.specs.Prelude.{◌*◌, ◌≤◌, length};
ghost use Rattle.meaning.specs.Rotas.{First, Impossible};
ghost use Rattle.meaning.specs.Sizes.{words_room, work_room};
ghost use Rattle.book.specs.Saved.{Savable};
ghost use Rattle.lines.specs.Promise.{Leaves, ListText, Shows};
ghost use Rattle.text.specs.Text.{text_needs};

use book::Sizes;
use meaning::{CHAINS_ROOM, Clashed, Decided, Listed, ROTA_ROOM, WORDS_ROOM, WORK_ROOM};
use text::lines::{put_impossible, put_possible, put_refusal};

// The list of a book that was read.
#[derive(Clone, Copy, Debug)]
struct List<'a> {
    n: usize,
    words: &'a [u16],
    ghost savable: { Savable n words.now words_room },
}

impl List<'_> {
    // The lines where the list is possible and its first rota is known.
    fn tell_possible(&self, rota: &[u8], work: &mut [u16], out: &mut [u8]) -> usize
        requires room { (work_room ≤ length work.old) × (text_needs ≤ length out.old) }
        requires first { First self.now.n self.now.words.now rota.now }
        ensures { Leaves (ListText self.now.n self.now.words.now) out.old result out.new }
    {
        let mut forced = [0u8; ROTA_ROOM];
        match engine::forced(self.n, self.words, &mut forced, work) {
            Ok(Listed::Done) => {
                put_possible(out, self.n, self.words.len() / 2, rota, &forced[..self.n])
            }
            // Neither of these comes: there is a rota, and a book's list is not refused in areas at full size.
            Ok(Listed::Impossible) => 0,
            Err(_) => 0,
        }
    }

    // The lines where it has no rota.
    fn tell_impossible(&self, work: &mut [u16], out: &mut [u8]) -> usize
        requires room { (work_room ≤ length work.old) × (text_needs ≤ length out.old) }
        requires impossible { Impossible self.now.n self.now.words.now }
        ensures { Leaves (ListText self.now.n self.now.words.now) out.old result out.new }
    {
        let mut chains = [0u16; CHAINS_ROOM];
        match engine::clash(self.n, self.words, &mut chains, work) {
            Ok(
                Clashed::Chains {
                    choice,
                    late_early,
                    early_late,
                },
            ) => {
                let both = &chains[..late_early + early_late];
                let (there, back) = both.split_at(late_early);
                put_impossible(out, self.n, self.words.len() / 2, choice, there, back)
            }
            // Neither of these comes: there is no rota, and the areas are at full size.
            Ok(Clashed::Possible) => 0,
            Err(_) => 0,
        }
    }

    fn tell(&self, out: &mut [u8]) -> usize
        requires { text_needs ≤ length out.old }
        ensures { Leaves (ListText self.now.n self.now.words.now) out.old result out.new }
    {
        let mut work = [0u16; WORK_ROOM];
        let mut rota = [0u8; ROTA_ROOM];
        match engine::decide(self.n, self.words, &mut rota, &mut work) {
            Ok(Decided::Possible) => self.tell_possible(&rota[..self.n], &mut work, out),
            Ok(Decided::Impossible(_)) => self.tell_impossible(&mut work, out),
            // This does not come: the areas are at full size.
            Err(_) => 0,
        }
    }
}

// The lines that answer a book: the length of the text, or none where the area is shorter than the longest text may be.
pub fn show(book: &[u8], out: &mut [u8]) -> Option<usize>
    ensures { Shows book.now out.old result out.new }
{
    if out.len() < crate::ROOM {
        return None;
    }
    let mut words = [0u16; WORDS_ROOM];
    match book::read(book, &mut words) {
        Err(refusal) => Some(put_refusal(out, refusal)),
        Ok(Sizes { n, m }) => {
            let list = List {
                n,
                words: &words[..2 * m],
            };
            Some(list.tell(out))
        }
    }
}
