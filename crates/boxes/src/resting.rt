// Boxes at rest.
ghost use Rattle.std.specs.Prelude.{◌≡◌, ⊤};
ghost use Rattle.std.specs.Result.{result_map_both};
ghost use Rattle.base.specs.Buffers.{with_front, len_if_room};
ghost use Rattle.frames.specs.Frames.{frame_bytes};
ghost use Rattle.boxes.specs.Boxes.{new_box, next_round, frame_of};
ghost use Rattle.boxes.specs.BoxRounds.{open_notes};

use super::states::{Held, Listening, Notes, Resting};
use base::Refusal;
use frames::{Frame, write_frame};
use proposals::Proposal;
use sets::{BoxNumber, BoxSet, RoundNumber, is_company};
use std::alloc::AllocError;

/// A copy, which takes no memory and does not fail.
impl<K: Copy> Clone for Resting<K> {
    ghost is_clone = { λ b c. c ≡ b };

    ghost is_infallible = { λ _. ⊤ };

    fn clone(&self) -> Result<Self, AllocError> {
        Ok(*self)
    }
}

impl<K: Proposal> Resting<K> {
    /// A new box of a company of n boxes, of which t may fall: it has closed no round, has its own proposal for its estimate, misses nobody, and has
    /// t + 1 for its horizon. Refuses company (11) unless n is 2 to 32 and t is 1 to n − 1; then stranger (5) unless the number is below n.
    pub fn new(number: BoxNumber, n: u32, t: u32, proposal: K) -> Result<Resting<K>, Refusal>
        ensures { result_map_both (λ b. b.held) (λ e. e) result ≡ new_box number n t proposal }
    {
        if !is_company(n, t) {
            return Err(Refusal::Company);
        }
        if number.0 >= n {
            return Err(Refusal::Stranger);
        }
        Ok(Resting {
            held: Held {
                number,
                n,
                t,
                closed: 0,
                estimate: proposal,
                missing: BoxSet::empty(),
                horizon: RoundNumber(t + 1),
            },
        })
    }

    /// Its number, below n.
    pub fn number(self) -> BoxNumber
        ensures { result ≡ self.held.number }
    {
        self.held.number
    }

    /// How many boxes its company has, 2 to 32.
    pub fn n(self) -> u32
        ensures { result ≡ self.held.n }
    {
        self.held.n
    }

    /// How many of them may fall, 1 to n − 1.
    pub fn t(self) -> u32
        ensures { result ≡ self.held.t }
    {
        self.held.t
    }

    /// How many rounds it has closed, at most t.
    pub fn closed(self) -> u32
        ensures { result ≡ self.held.closed }
    {
        self.held.closed
    }

    /// The proposal that it would ring on.
    pub fn estimate(self) -> K
        ensures { result ≡ self.held.estimate }
    {
        self.held.estimate
    }

    /// The boxes that it did not hear in its last round, at most t.
    pub fn missing(self) -> BoxSet
        ensures { result ≡ self.held.missing }
    {
        self.held.missing
    }

    /// Its best horizon: the smallest of t + 1 and the horizons of the rounds that it has closed.
    pub fn horizon(self) -> RoundNumber
        ensures { result ≡ self.held.horizon }
    {
        self.held.horizon
    }

    // The round that it opens next.
    pub(crate) fn next_round(self) -> RoundNumber
        ensures { result ≡ next_round self.held }
    {
        RoundNumber(self.held.closed + 1)
    }

    /// Writes the frame of its next round at the front of `out`, and answers how many bytes that takes, 1 to 24 (`frames::LONGEST_FRAME`); the bytes
    /// behind stay. Refuses narrow (19) where `out` has fewer, and then leaves all of it.
    pub fn compose(self, out: &mut [u8]) -> Result<usize, Refusal>
        ensures answer { result ≡ len_if_room (frame_bytes K.kind (frame_of self.held)) out.old }
        ensures bytes { out.new ≡ with_front (frame_bytes K.kind (frame_of self.held)) out.old }
    {
        write_frame(
            Frame {
                round: self.next_round(),
                sender: self.held.number,
                missing: self.held.missing,
                estimate: self.held.estimate,
            },
            out,
        )
    }

    /// Opens its next round. The box has then heard itself, and knows those missing that it misses.
    pub fn open(self) -> Listening<K>
        ensures resting { result.resting ≡ self }
        ensures notes { result.notes ≡ open_notes self.held }
    {
        Listening {
            resting: self,
            notes: Notes {
                heard: BoxSet::only(self.held.number),
                known: self.held.missing,
                foremost: self.held.estimate,
            },
        }
    }
}
