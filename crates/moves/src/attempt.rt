// A trial: a code and all that follows from it are taken into a closed and consistent set, unless that meets a code whose
// opposite is in the set. Then the code leads to its own opposite, which is the only way a trial can fail, and the set is
// as before. A trial costs what it walks, and nothing in proportion to the choices.
// Its two loops go as those of a walk do (spread.rt), but a failure ends them: with one function for both, a walk would have a
// Result that is never an Err.
ghost use Rattle.std.specs.Prelude.{◌≡◌, ◌*◌, ◌<◌};
ghost use Rattle.meaning.specs.Codes.{opposite};
ghost use Rattle.moves.specs.Area.{Free, Holds};
ghost use Rattle.moves.specs.Layout.{Tables, mark};
ghost use Rattle.moves.specs.Lists.{Ready};
ghost use Rattle.moves.specs.Trials.{Attempts, Meets, Pulls, Presses, Tries};
ghost use Rattle.moves.specs.Walks.{Holding, Listed};

use crate::ends::{code_at, other_end};
use crate::layout::{first_link, mark_of, next_link, trail_code};
use crate::spread::{touch, undo};
use crate::work::Work;
use meaning::Code;

// The code that was met with its opposite, and how many codes were walked.
#[derive(Clone, Copy, Debug, PartialEq, Eq)]
pub struct Failure {
    pub code: Code,
    pub walked: usize,
}

// The code that was met with its opposite, and the trail's end.
#[derive(Clone, Copy, Debug, PartialEq, Eq)]
struct Stop {
    code: Code,
    tail: usize,
}

// Puts b on the trail, unless it has a mark or its opposite has one, and gives the trail's end. The crates above look at the same two marks,
// but each does something else then, so that there is no function for it.
fn meet(n: usize, work: &mut [u16], b: Code, tail: usize) -> Result<usize, Stop>
    requires { (b.0 < 2 * n) × Tables n work.old × Listed n work.old tail }
    ensures { Meets n work.old b.0 tail work.new result }
{
    if mark_of(n, work, b) != 0 {
        return Ok(tail);
    }
    let o = b.opposite();
    if mark_of(n, work, o) != 0 {
        return Err(Stop { code: b, tail });
    }
    Ok(touch(n, work, b, 1, tail))
}

// Puts what the code a leads to on the trail, and gives the trail's end.
fn pull(n: usize, words: &[u16], work: &mut [u16], a: Code, tail: usize) -> Result<usize, Stop>
    requires ready { Ready n words.now work.old }
    requires a_bound { (a.0 < 2 * n) × Listed n work.old tail }
    ensures { Pulls n words.now a.0 work.old tail work.new result }
{
    let mut t = tail;
    // The ends are linked through the area: there is no slice to go over.
    let mut at = first_link(n, work, a.opposite());
    while let Some(end) = at {
        let b = code_at(words, other_end(end));
        t = meet(n, work, b, t)?;
        at = next_link(n, work, end);
    }
    Ok(t)
}

// Puts source and all that it leads to on the trail, and gives the trail's end.
fn press(
    n: usize,
    words: &[u16],
    work: &mut [u16],
    source: Code,
    tail: usize,
) -> Result<usize, Stop>
    requires ready { Ready n words.now work.old }
    requires holding { Holding n words.now work.old tail }
    requires source_bound { (source.0 < 2 * n) × (mark n work.old source.0 ≡ 0) × (mark n work.old (opposite source.0) ≡ 0) }
    ensures { Presses n words.now source.0 tail work.old work.new result }
{
    // The trail is the queue, and grows while it is gone through: so no `for`.
    let mut t = touch(n, work, source, 1, tail);
    let mut h = tail;
    while h < t {
        let a = trail_code(n, work, h);
        t = pull(n, words, work, a, t)?;
        h += 1;
    }
    Ok(t)
}

// Takes c and all that follows from it into the set, unless c leads to its opposite, and gives the trail's end.
#[inline(always)]
pub fn attempt(
    n: usize,
    words: &[u16],
    work: &mut [u16],
    c: Code,
    tail: usize,
) -> Result<usize, Failure>
    requires ready { Ready n words.now work.old }
    requires holding { Holding n words.now work.old tail }
    requires c_bound { (c.0 < 2 * n) × (mark n work.old c.0 ≡ 0) × (mark n work.old (opposite c.0) ≡ 0) }
    ensures { Attempts n words.now c.0 tail work.old work.new result }
{
    match press(n, words, work, c, tail) {
        Ok(end) => Ok(end),
        Err(stop) => {
            undo(n, work, tail, stop.tail);
            Err(Failure {
                code: stop.code,
                walked: stop.tail - tail,
            })
        }
    }
}

impl<'a> Work<'a> {
    // Takes c and all that follows from it into the set, unless c leads to its opposite.
    #[inline(always)]
    pub fn attempt(&mut self, c: Code) -> Result<(), Failure>
        requires holding { Holds self.old }
        requires c_bound { Free self.old c.0 }
        ensures { Tries self.old c.0 self.new result }
    {
        self.tail = attempt(self.n, self.rules, self.words, c, self.tail)?;
        Ok(())
    }
}
