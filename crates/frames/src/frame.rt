// Frames as values.
use sets::{BoxNumber, BoxSet, RoundNumber};

/// The most bytes that a frame of a company takes: wires and lines have room for as many.
pub const LONGEST_FRAME: usize = 24;

/// What a box sends to every other box in a round. `K` is the kind of proposal.
#[derive(Clone, Copy, Debug, PartialEq, Eq)]
pub struct Frame<K> {
    /// The round in which it is sent.
    pub round: RoundNumber,
    /// The box that sends it.
    pub sender: BoxNumber,
    /// The boxes that the sender did not hear in the round before.
    pub missing: BoxSet,
    /// The proposal that the sender would ring on.
    pub estimate: K,
}
