// A number in decimal digits, written from the last to the first: how many there are is counted first.
// By hand: of a `write!` std promises the bytes only where it says Ok, and `spell` cannot fail.
ghost use Rattle.std.specs.Prelude.{◌+◌, ◌≤◌, ◌≡◌, length};
ghost use Rattle.lines.specs.Decimal.{decimal};
ghost use Rattle.lines.specs.Laid.{Adds};

use crate::text::Text;

#[tactic(auto, using(crate::proofs::Digits::length_one, crate::proofs::Digits::by_power))]
fn digits(n: u64) -> usize
    ensures { result ≡ length (decimal n) }
{
    n.checked_ilog10().map_or(1, |k| k as usize + 1)
}

impl Text<'_> {
    #[tactic(auto, using(crate::proofs::Digits::at_most_20))]
    pub(crate) fn put_number(&mut self, n: u64)
        requires { self.old.len + length (decimal n) ≤ length self.old.buffer.now }
        ensures adds { Adds (decimal n) self.old self.new }
        ensures upper_bound { self.new.len ≤ self.old.len + 20 }
    {
        let end = self.len + digits(n);
        let mut rest = n;
        // By index. (Tried: `iter_mut().rev()` over the part; `returns-clause-adds` stayed open, as after such a
        // walk std promises the part's length and not its bytes.)
        for i in (self.len..end).rev() {
            self.buffer[i] = b'0' + (rest % 10) as u8;
            rest /= 10;
        }
        self.len = end;
    }
}
