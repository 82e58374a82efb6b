// The exports of the C face. Each hands its call on to crate thwartpin, and promises what that call promises. C has no generics: so there
// is a function for each call.
#![tactic(auto)]

ghost use Rattle.thwartpin.specs.Lists.{areas, TellsDecided, TellsForced, TellsClash, TellsMoved, TellsTies, TellsRead};
ghost use Rattle.thwartpin.specs.Hosts.{HostDecides, HostMoves};

#[unsafe(no_mangle)]
pub extern "C" fn thwartpin_list_decide(
    n: usize,
    words: &[u16],
    rota: &mut [u8],
    work: &mut [u16],
    out: &mut [u64],
) -> u32
    ensures { TellsDecided n words.now rota.old work.old out.old result (areas rota.new work.new) out.new }
{
    thwartpin::thwartpin_list_decide(n, words, rota, work, out)
}

#[unsafe(no_mangle)]
pub extern "C" fn thwartpin_list_forced(
    n: usize,
    words: &[u16],
    forced: &mut [u8],
    work: &mut [u16],
    out: &mut [u64],
) -> u32
    ensures { TellsForced n words.now forced.old work.old out.old result (areas forced.new work.new) out.new }
{
    thwartpin::thwartpin_list_forced(n, words, forced, work, out)
}

#[unsafe(no_mangle)]
pub extern "C" fn thwartpin_list_clash(
    n: usize,
    words: &[u16],
    chain: &mut [u16],
    work: &mut [u16],
    out: &mut [u64],
) -> u32
    ensures { TellsClash n words.now chain.old work.old out.old result (areas chain.new work.new) out.new }
{
    thwartpin::thwartpin_list_clash(n, words, chain, work, out)
}

#[unsafe(no_mangle)]
pub extern "C" fn thwartpin_list_next(
    n: usize,
    words: &[u16],
    rota: &mut [u8],
    work: &mut [u16],
    out: &mut [u64],
) -> u32
    ensures { TellsMoved n words.now rota.old work.old out.old result (areas rota.new work.new) out.new }
{
    thwartpin::thwartpin_list_next(n, words, rota, work, out)
}

#[unsafe(no_mangle)]
pub extern "C" fn thwartpin_list_ties(
    n: usize,
    words: &[u16],
    ties: &mut [u16],
    work: &mut [u16],
    out: &mut [u64],
) -> u32
    ensures { TellsTies n words.now ties.old work.old out.old result (areas ties.new work.new) out.new }
{
    thwartpin::thwartpin_list_ties(n, words, ties, work, out)
}

#[unsafe(no_mangle)]
pub extern "C" fn thwartpin_read_book(book: &[u8], words: &mut [u16], out: &mut [u64]) -> u32
    ensures { TellsRead book.now words.old out.old result words.new out.new }
{
    thwartpin::thwartpin_read_book(book, words, out)
}

#[unsafe(no_mangle)]
pub extern "C" fn thwartpin_decide(book: &[u8], rota: &mut [u8]) -> u32
    ensures { HostDecides book.now rota.old result rota.new }
{
    thwartpin::thwartpin_decide(book, rota)
}

#[unsafe(no_mangle)]
pub extern "C" fn thwartpin_next(book: &[u8], rota: &mut [u8]) -> u32
    ensures { HostMoves book.now rota.old result rota.new }
{
    thwartpin::thwartpin_next(book, rota)
}
