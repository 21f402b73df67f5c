// The board.
ghost use Rattle.std.specs.Prelude.{◌≡◌, ℕ, true};
ghost use Rattle.sets.specs.Masks.{member};
ghost use Rattle.wire.specs.Postable.{is_postable};
ghost use Rattle.wire.specs.PostedBytes.{line_frame};

use super::roster::{PLACES, Roster};
use arrayvec::ArrayVec;
use base::Refusal;
use frames::LONGEST_FRAME;
use sets::BoxNumber;
use std::array;

/// A wire that has a line of 24 bytes for the frame of each of 32 boxes. It keeps that the line of a box that has posted holds 1 to 24 bytes.
#[derive(Drop, Debug)]
pub struct Board {
    pub(crate) roster: Roster,
    // By the number of the box; of no meaning where it has not posted.
    pub(crate) lines: [ArrayVec<u8, LONGEST_FRAME>; PLACES],
    // The line of each box that has posted holds a frame.
    ghost postable: { (q : ℕ) → member roster.posted q ≡ true
        → is_postable (line_frame lines q) ≡ true },
}

impl Board {
    ghost use Rattle.std.specs.Result.{result_map_both};
    ghost use Rattle.wire.specs.WireState.{on_make};
    ghost use Rattle.wire.specs.Wires.{board_meaning};

    /// A board for n boxes, all up, none falling and nothing posted. Refuses company (11) where n is not 2 to 32.
    pub fn new(n: u32) -> Result<Board, Refusal>
        ensures { result_map_both board_meaning (λ e. e) result ≡ on_make n }
    {
        Ok(Board {
            roster: Roster::new(n)?,
            lines: array::from_fn(|_| ArrayVec::new()),
        })
    }

    // The bytes on the line of box q, whether it has posted or not.
    pub(crate) fn frame(&self, q: BoxNumber) -> &[u8]
        ensures { result.now ≡ line_frame self.now.lines q.0 }
    {
        match self.lines.get(q.0 as usize) {
            Some(line) => line,
            None => &[],
        }
    }
}
