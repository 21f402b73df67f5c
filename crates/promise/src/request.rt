// A call on a ringing, and what it answers.
use machine::Standing;
use sets::{BoxNumber, BoxSet, RoundNumber};

/// A call as a value, with any arguments. A strike order is told by its plain numbers, which are its box and its round.
#[derive(Clone, Copy, Debug, PartialEq, Eq)]
pub enum Request {
    /// The box falls, unheard by the boxes of the set.
    Fall(BoxNumber, BoxSet),
    /// A round is played, with so many line bytes.
    Round(usize),
    /// It is asked how the box stands.
    Ask(BoxNumber),
    /// The strike order of the box is drawn.
    Draw(BoxNumber),
    /// The order of this box and round is given back as struck.
    Struck(BoxNumber, RoundNumber),
    /// The order of this box and round is given back as missed.
    Missed(BoxNumber, RoundNumber),
}

/// What a call that is not refused answers.
#[derive(Clone, Copy, Debug, PartialEq, Eq)]
pub enum Reply<K> {
    /// The fall is told, the round is played, or the order is given back.
    Done,
    /// What is told of the box.
    Told(Standing<K>),
    /// The order of the box is handed out, for this round.
    Drawn(RoundNumber),
}
