// A visit of every rota, for who would rather be given them than ask for each.
ghost use Rattle.std.specs.Fn.{CalledAt};
ghost use Rattle.std.specs.Prelude.{IfErr, ◌≡◌};
ghost use Rattle.meaning.specs.Visits.{Visits};

use crate::{decide, next};
use meaning::{Decided, Moved, Refusal, Visited};
use std::ops::ControlFlow;

// Gives the visitor every allowed rota, each once, in dictionary order, until it says stop. The one that it was given last stays in the area.
pub fn each_rota<B, F: FnMut(&[u8]) -> ControlFlow<B>>(
    n: usize,
    words: &[u16],
    rota: &mut [u8],
    work: &mut [u16],
    visit: &mut F,
) -> Result<Visited<B>, Refusal>
    requires { F.IsAlwaysCallable visit.old }
    ensures visits { Visits n words.now (CalledAt F.FnMut) visit.old visit.new rota.old work.old result rota.new work.new }
    ensures refused { IfErr result (λ r. visit.new ≡ visit.old) }
    ensures again { F.IsAlwaysCallable visit.new }
{
    if let Decided::Impossible(choice) = decide(n, words, rota, work)? {
        return Ok(Visited::Impossible(choice));
    }
    loop {
        if let ControlFlow::Break(stop) = visit(&rota[..n]) {
            return Ok(Visited::Stopped(stop));
        }
        match next(n, words, rota, work)? {
            Moved::Moved => {}
            _ => return Ok(Visited::All),
        }
    }
}
