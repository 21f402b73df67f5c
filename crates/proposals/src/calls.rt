// Calls, made and compared.
ghost use Rattle.std.specs.Prelude.{◌≡◌, Some};
ghost use Rattle.std.proofs.Common.{rules};
ghost use Rattle.std.specs.Option.{ok_or};
ghost use Rattle.base.specs.declared.refusal.Refusal.TheVariants.{Image};
ghost use Rattle.proposals.specs.Calls.{call_at, call_kind};
ghost use Rattle.proposals.specs.ProposalLemmas.{call_lawful};

use super::proposal::Proposal;
use super::values::{Call, Piece};
use base::Refusal;
use std::cmp::Reverse;

const LEAST_RANK: u8 = 1;

const MOST_RANK: u8 = 9;

impl Call {
    /// The call with this rank for this piece. Refuses image (9) if the rank is not 1 to 9.
    pub fn new(rank: u8, piece: Piece) -> Result<Call, Refusal>
        ensures { result ≡ ok_or (call_at rank (Some piece)) Image }
    {
        if !(LEAST_RANK..=MOST_RANK).contains(&rank) {
            return Err(Refusal::Image);
        }
        Ok(Call { rank, piece })
    }

    /// The rank, 1 to 9.
    pub fn rank(self) -> u8
        ensures { result ≡ self.rank }
    {
        self.rank
    }

    /// The piece that is called for.
    pub fn piece(self) -> Piece
        ensures { result ≡ self.piece }
    {
        self.piece
    }
}

/// The image is the rank and then the image of the piece; the higher rank goes first, and of equal ranks the piece that does.
impl Proposal for Call {
    const SIZE: usize = 2;

    ghost SIZE = { 2 };

    ghost kind = { call_kind };

    ghost sized = { Prim.search rules };

    ghost lawful = { call_lawful };

    fn image_number(self, i: usize) -> u32 {
        match i {
            0 => u32::from(self.rank),
            _ => self.piece.image_number(i - 1),
        }
    }

    fn from_image(numbers: &[u32]) -> Result<Call, Refusal> {
        match numbers {
            [rank, rest @ ..] => {
                let rank = u8::try_from(*rank).map_err(|_| Refusal::Image)?;
                Call::new(rank, Piece::from_image(rest)?)
            }
            [] => Err(Refusal::Image),
        }
    }

    fn may_go_first(self, other: Call) -> bool {
        (Reverse(self.rank), self.piece) <= (Reverse(other.rank), other.piece)
    }
}
