// The named numbers, lent as a slice: whether all were issued.
ghost use Rattle.ground.specs.Decides.{Decides};
ghost use Rattle.early.specs.Early.{Unissued};

use slots::number::is_issued;

// Whether one of the numbers was never issued.
pub fn unissued(next: u32, numbers: &[u32]) -> bool
    ensures { Decides (Unissued next numbers.now) result }
{
    numbers.iter().any(|&n| !is_issued(next, n))
}
