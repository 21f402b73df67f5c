// A set as text.
ghost use Rattle.std.specs.Prelude.{Some};
ghost use Rattle.sets.specs.SetTexts.{set_text};

use super::box_number::BoxNumber;
use super::company::MOST_COMPANY;
use super::set::BoxSet;
use std::fmt;

/// The numbers of its boxes in decimal and in order, in braces, with a comma and a space between two, as in `{2, 31}`.
impl fmt::Display for BoxSet {
    ghost output = { λ s. Some (set_text s) };

    fn fmt<W: fmt::Write>(&self, f: &mut fmt::Formatter<W>) -> fmt::Result {
        write!(f, "{{")?;
        let mut separator = "";
        for i in 0..MOST_COMPANY {
            if self.contains(BoxNumber(i)) {
                write!(f, "{separator}{i}")?;
                separator = ", ";
            }
        }
        write!(f, "}}")
    }
}
