// Pieces, made and compared.
ghost use Rattle.std.specs.Prelude.{◌≡◌, Some, decimal};
ghost use Rattle.std.specs.Option.{ok_or};
ghost use Rattle.base.specs.declared.refusal.Refusal.TheVariants.{Image};
ghost use Rattle.proposals.specs.Pieces.{piece_at, piece_kind};
ghost use Rattle.proposals.specs.ProposalLemmas.{piece_at_lem, piece_lawful};
ghost use Rattle.std.proofs.Common.{rules};

use super::proposal::Proposal;
use super::values::Piece;
use base::Refusal;
use std::fmt;

const MOST: u16 = 16383;

impl Piece {
    /// The piece with this number. Refuses image (9) if the number is above 16,383.
    pub fn new(number: u16) -> Result<Piece, Refusal>
        ensures { result ≡ ok_or (piece_at number) Image }
    {
        if number > MOST {
            return Err(Refusal::Image);
        }
        Ok(Piece { number })
    }

    /// The number, 0 to 16,383.
    pub fn number(self) -> u16
        ensures { result ≡ self.number }
    {
        self.number
    }
}

/// The number in decimal.
impl fmt::Display for Piece {
    ghost output = { λ p. Some (decimal p.number) };

    fn fmt<W: fmt::Write>(&self, f: &mut fmt::Formatter<W>) -> fmt::Result {
        write!(f, "{}", self.number)
    }
}

/// The image is the number; the smaller number goes first.
impl Proposal for Piece {
    const SIZE: usize = 1;

    ghost SIZE = { 1 };

    ghost kind = { piece_kind };

    ghost sized = { Prim.search rules };

    ghost lawful = { piece_lawful };

    fn image_number(self, i: usize) -> u32 {
        match i {
            0 => u32::from(self.number),
            _ => 0,
        }
    }

    fn from_image(numbers: &[u32]) -> Result<Piece, Refusal> {
        match numbers {
            [number] => Piece::new(u16::try_from(*number).map_err(|_| Refusal::Image)?),
            _ => Err(Refusal::Image),
        }
    }

    fn may_go_first(self, other: Piece) -> bool {
        self <= other
    }
}
