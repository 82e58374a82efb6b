// A call starts by clearing the tables that it reads before it writes them: it may be lent any words.
ghost use Rattle.std.specs.Prelude.{◌≡◌, ◌≤◌, length, replicate};
ghost use Rattle.meaning.specs.Sizes.{over};

// The first count words become 0: as it is promised, over a slice and a count.
pub fn clear(work: &mut [u16], count: usize)
    requires { count ≤ length work.old }
    ensures { work.new ≡ over (replicate count 0) work.old }
{
    work[..count].fill(0);
}
