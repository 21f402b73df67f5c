// The states of a box, as types. What every box keeps stands in its type.
ghost use Rattle.std.specs.Prelude.{◌≡◌, ◌+◌, ◌^◌, ◌<◌, ◌≤◌, true, false};
ghost use Rattle.base.specs.Counts.{count};
ghost use Rattle.base.specs.Limits.{most_company};
ghost use Rattle.sets.specs.Masks.{member};

use sets::{BoxNumber, BoxSet, RoundNumber};

// The seven values that a box holds.
#[derive(Clone, Copy, Debug, PartialEq, Eq)]
pub(crate) struct Held<K> {
    pub number: BoxNumber,
    // How many boxes its company has.
    pub n: u32,
    // How many of them may fall.
    pub t: u32,
    // How many rounds it has closed.
    pub closed: u32,
    pub estimate: K,
    // The boxes that it did not hear in the last round.
    pub missing: BoxSet,
    // The best horizon: the smallest of t + 1 and the horizons of the rounds that it has closed.
    pub horizon: RoundNumber,
}

/// A box between rounds. Its company has n boxes, 2 to 32, of which t may fall, 1 to n − 1. Its number is below n; the boxes that it misses are
/// below n too, at most t, and not itself; and its best horizon lies from its next round to t + 1.
#[derive(Copy, Debug, PartialEq, Eq)]
pub struct Resting<K> {
    pub(crate) held: Held<K>,
    ghost several: { 2 ≤ held.n },
    ghost few: { held.n ≤ most_company },
    ghost fallible: { 1 ≤ held.t },
    ghost survived: { held.t < held.n },
    ghost placed: { held.number.0 < held.n },
    ghost within: { held.missing.mask < 2 ^ held.n },
    ghost present: { member held.missing held.number.0 ≡ false },
    ghost sparse: { count (member held.missing) most_company ≤ held.t },
    ghost ahead: { held.closed + 1 ≤ held.horizon.0 },
    ghost due: { held.horizon.0 ≤ held.t + 1 },
}

// What a box has noted of the round that it listens to.
#[derive(Clone, Copy, Debug, PartialEq, Eq)]
pub(crate) struct Notes<K> {
    // The boxes heard, itself among them.
    pub heard: BoxSet,
    // The boxes that it or a box heard has found missing.
    pub known: BoxSet,
    // The estimate that goes first among its own and those heard.
    pub foremost: K,
}

/// A box that has opened a round and hears frames. It has heard itself.
#[derive(Copy, Debug, PartialEq, Eq)]
pub struct Listening<K> {
    // The box as it was at rest.
    pub(crate) resting: Resting<K>,
    pub(crate) notes: Notes<K>,
    ghost itself: { member notes.heard resting.held.number.0 ≡ true },
}

/// What closing a round leaves of a box.
#[derive(Debug, PartialEq, Eq)]
#[derive_where(Clone, Copy; K: Copy)]
pub enum Closed<K> {
    /// The box, at rest.
    Rests(Resting<K>),
    /// The round in which it rings, which is the one closed, and the proposal on which it does.
    Rings { round: RoundNumber, proposal: K },
}
