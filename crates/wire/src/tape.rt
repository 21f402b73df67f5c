// The tape.
ghost use Rattle.std.specs.Prelude.{◌≡◌, ℕ, ◌+◌, ◌≤◌, ◌++◌, true, length};
ghost use Rattle.sets.specs.Masks.{member};
ghost use Rattle.wire.specs.PostedBytes.{span_at, span_length, HoldsFrame, AreApart, sum_over};

use super::roster::{PLACES, Roster};
use super::span::Span;
use arrayvec::ArrayVec;
use base::Refusal;
use frames::LONGEST_FRAME;
use sets::BoxNumber;

// Room for a frame of each box.
const TAPE_ROOM: usize = PLACES * LONGEST_FRAME;

/// A wire of 768 bytes on which the frames follow one another as posted, each of its own length, with a table of where the frame of each box
/// begins and ends. It keeps that the span of a box that has posted is of 1 to 24 bytes, and that each byte in use is in just one of these
/// spans.
#[derive(Drop, Debug)]
pub struct Tape {
    pub(crate) roster: Roster,
    // By the number of the box; of no meaning where it has not posted.
    pub(crate) spans: [Span; PLACES],
    pub(crate) frames: ArrayVec<u8, TAPE_ROOM>,
    // The span of each box that has posted holds a frame, within the bytes in use.
    ghost holds: { (q : ℕ) → member roster.posted q ≡ true
        → HoldsFrame (length frames.items) (span_at spans q) },
    // No two of these spans share a byte.
    ghost apart: { AreApart (member roster.posted) (span_at spans) },
    // Their lengths add up to the bytes in use.
    ghost filled: { length frames.items ≡ sum_over (member roster.posted) (span_length spans) 32 },
}

impl Tape {
    ghost use Rattle.std.specs.Result.{result_map_both};
    ghost use Rattle.wire.specs.WireState.{on_make};
    ghost use Rattle.wire.specs.PostedBytes.{tape_frame};
    ghost use Rattle.wire.specs.Wires.{tape_meaning};

    /// A tape for n boxes, all up, none falling and nothing posted. Refuses company (11) where n is not 2 to 32.
    pub fn new(n: u32) -> Result<Tape, Refusal>
        ensures { result_map_both tape_meaning (λ e. e) result ≡ on_make n }
    {
        Ok(Tape {
            roster: Roster::new(n)?,
            spans: [Span { start: 0, end: 0 }; PLACES],
            frames: ArrayVec::new(),
        })
    }

    // The frame that box q has posted, or any bytes if it has not.
    pub(crate) fn frame(&self, q: BoxNumber) -> &[u8]
        ensures { member self.now.roster.posted q.0 ≡ true
            → result.now ≡ tape_frame self.now.spans self.now.frames.items q.0 }
    {
        match self.spans.get(q.0 as usize) {
            Some(span) => self.frames.get(span.start..span.end).unwrap_or(&[]),
            None => &[],
        }
    }
}

// Writes the frame behind those that stand there, and tells where it stands.
pub(crate) fn append(frames: &mut ArrayVec<u8, TAPE_ROOM>, frame: &[u8]) -> Span
    requires { length frames.old.items + length frame.now ≤ TAPE_ROOM }
    ensures items { frames.new.items ≡ frames.old.items ++ frame.now }
    ensures start { result.start ≡ length frames.old.items }
    ensures end { result.end ≡ length frames.old.items + length frame.now }
{
    let start = frames.len();
    frames.try_extend_from_slice(frame).unwrap();
    Span {
        start,
        end: frames.len(),
    }
}
