// Boxes by number. Box numbers and round numbers are of types of their own, so that neither can stand in for the other.
ghost use Rattle.std.specs.Prelude.{Some, decimal};

use std::fmt;

/// The number of a box. Boxes of a company of n are numbered from 0 to n − 1; other numbers, up to 2^32 − 1, are those of no box.
#[derive(Clone, Copy, PartialEq, Eq, Debug)]
pub struct BoxNumber(pub u32);

/// The number in decimal.
impl fmt::Display for BoxNumber {
    ghost output = { λ q. Some (decimal q.0) };

    fn fmt<W: fmt::Write>(&self, f: &mut fmt::Formatter<W>) -> fmt::Result {
        write!(f, "{}", self.0)
    }
}
