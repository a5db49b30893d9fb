// Whether a number was issued: the one test of it, for the numbers that a create names and for the one
// that ask is asked.
ghost use Rattle.ground.specs.Decides.{Decides};
ghost use Rattle.rules.specs.Table.{Issued};

// By this opening or before it: below first no test is needed, as no slot of a sound table has such a number.
pub fn is_issued(next: u32, number: u32) -> bool
    ensures { Decides (Issued next number) result }
{
    (1..next).contains(&number)
}
