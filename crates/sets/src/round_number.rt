// Rounds by number.
ghost use Rattle.std.specs.Prelude.{Some, decimal};

use std::fmt;

/// The number of a round. Rounds are numbered from 1, up to 2^32 − 1; 0 is the number of none.
#[derive(Clone, Copy, PartialEq, Eq, PartialOrd, Ord, Debug)]
pub struct RoundNumber(pub u32);

/// The number in decimal.
impl fmt::Display for RoundNumber {
    ghost output = { λ r. Some (decimal r.0) };

    fn fmt<W: fmt::Write>(&self, f: &mut fmt::Formatter<W>) -> fmt::Result {
        write!(f, "{}", self.0)
    }
}
