// What stands at the place of a box, and what is told of it.
ghost use Rattle.std.specs.Prelude.{◌≡◌};
ghost use Rattle.std.specs.List.{list_any};
ghost use Rattle.boxes.specs.BoxRounds.{outcome};
ghost use Rattle.machine.specs.declared.place.Place.TheVariants as place;
ghost use Rattle.machine.specs.Places.{place_state, state_of_outcome, standing_of, standing_word, round_of, proposal_of, rung_of};
ghost use Rattle.machine.specs.State.{has_rung};

use boxes::{Closed, Resting};
use sets::RoundNumber;

/// How far the blow of a box that rings has come.
#[derive(Clone, Copy, Debug, PartialEq, Eq)]
pub enum Blow {
    /// No strike order was drawn yet.
    Undrawn,
    /// A strike order was drawn, and is out.
    Out,
    /// The order was given back as struck.
    Struck,
    /// The order was given back as missed.
    Missed,
}

/// How a box rings.
#[derive(Clone, Copy, Debug, PartialEq, Eq)]
pub struct Rung<K> {
    /// The round in which it rings.
    pub round: RoundNumber,
    /// The proposal on which it rings.
    pub proposal: K,
    /// How far its blow has come.
    pub blow: Blow,
}

/// What stands at the place of a box. A row has a place for each box of a company, by number.
#[derive(Debug, PartialEq, Eq)]
#[derive_where(Clone, Copy; K: Copy)]
pub enum Place<K> {
    /// The box, at rest between two rounds.
    Resting(Resting<K>),
    /// The box is down since this round.
    Down(RoundNumber),
    /// The box rings.
    Rung(Rung<K>),
}

/// What is told of a box.
#[derive(Clone, Copy, Debug, PartialEq, Eq)]
pub enum Standing<K> {
    /// It is up, falling or not, and does not ring.
    Up,
    /// It is down since this round.
    Down(RoundNumber),
    /// It rings.
    Rung(Rung<K>),
}

/// What stands at a place before there is a ringing: down since round 0.
impl<K> Default for Place<K> {
    ghost is_default = { λ x. x ≡ place.Down (record { 0 = 0 }) };

    fn default() -> Place<K> {
        Place::Down(RoundNumber(0))
    }
}

impl<K: Copy> Place<K> {
    /// What is told of the box: one at rest is up.
    pub fn standing(self) -> Standing<K>
        ensures { result ≡ standing_of (place_state self) }
    {
        match self {
            Place::Resting(_) => Standing::Up,
            Place::Down(round) => Standing::Down(round),
            Place::Rung(rung) => Standing::Rung(rung),
        }
    }

    /// How the box rings, if it does.
    pub fn rung(&self) -> Option<Rung<K>>
        ensures { result ≡ rung_of (place_state self.now) }
    {
        match self {
            Place::Resting(_) | Place::Down(_) => None,
            Place::Rung(rung) => Some(*rung),
        }
    }

    /// Whether the box rings.
    pub fn has_rung(&self) -> bool
        ensures { result ≡ has_rung (place_state self.now) }
    {
        matches!(self, Place::Rung(_))
    }
}

/// Whether a box of the row rings. An empty row has none.
pub fn is_over<K: Copy>(row: &[Place<K>]) -> bool
    ensures { result ≡ list_any (λ x. has_rung (place_state x)) row.now }
{
    row.iter().any(Place::has_rung)
}

/// What stands for a box that has closed a round: it rests, or rings with no strike order drawn.
impl<K> From<Closed<K>> for Place<K> {
    ghost from_gives = { λ c r. place_state r ≡ state_of_outcome (outcome c) };

    fn from(closed: Closed<K>) -> Place<K> {
        match closed {
            Closed::Rests(resting) => Place::Resting(resting),
            Closed::Rings { round, proposal } => Place::Rung(Rung {
                round,
                proposal,
                blow: Blow::Undrawn,
            }),
        }
    }
}

impl<K: Copy> Standing<K> {
    /// The word for it: `up`, `down`, or by its blow `rings`, `out`, `struck` or `missed`.
    pub fn word(self) -> &'static str
        ensures { result.now ≡ standing_word self }
    {
        match self {
            Standing::Up => "up",
            Standing::Down(_) => "down",
            Standing::Rung(rung) => rung.blow.word(),
        }
    }

    /// The round in which the box fell or rings; of one that is up none.
    pub fn round(self) -> Option<RoundNumber>
        ensures { result ≡ round_of self }
    {
        match self {
            Standing::Up => None,
            Standing::Down(round) => Some(round),
            Standing::Rung(rung) => Some(rung.round),
        }
    }

    /// The proposal on which the box rings, if it does.
    pub fn proposal(self) -> Option<K>
        ensures { result ≡ proposal_of self }
    {
        match self {
            Standing::Up | Standing::Down(_) => None,
            Standing::Rung(rung) => Some(rung.proposal),
        }
    }
}

impl Blow {
    ghost use Rattle.machine.specs.Places.{blow_word};

    // The word for a box whose blow has come so far.
    fn word(self) -> &'static str
        ensures { result.now ≡ blow_word self }
    {
        match self {
            Blow::Undrawn => "rings",
            Blow::Out => "out",
            Blow::Struck => "struck",
            Blow::Missed => "missed",
        }
    }
}
