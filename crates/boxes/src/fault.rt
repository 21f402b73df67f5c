// What a listening box refuses.
ghost use Rattle.std.specs.Prelude.{◌≡◌, Some};
ghost use Rattle.boxes.specs.declared.fault.BoxFault.TheVariants.{Frame, Own};
ghost use Rattle.boxes.specs.BoxFaults.{refusal_of, round_of, field_of, place_of, fault_text};

use base::Refusal;
use frames::{Field, FrameFault};
use sets::RoundNumber;
use std::error::Error;
use std::fmt;

/// Bytes told to a box that are no frame.
#[derive(Clone, Copy, Debug, PartialEq, Eq)]
pub struct RoundFault {
    /// The round that was open.
    pub round: RoundNumber,
    /// Why the bytes are no frame.
    pub fault: FrameFault,
}

/// A refusal by the box itself.
#[derive(Clone, Copy, Debug, PartialEq, Eq)]
pub struct OwnFault {
    /// The round that was open.
    pub round: RoundNumber,
    /// Why: of a frame stranger (5), off beat (6), heard (7), set (8) or down (14); of a closing tally (10).
    pub refusal: Refusal,
}

/// Why a listening box refused bytes, or to close its round.
#[derive(Clone, Copy, Debug, PartialEq, Eq)]
pub enum BoxFault {
    /// The bytes are no frame.
    Frame(RoundFault),
    /// The box itself refused: a frame that it could read, or the tally of its closing.
    Own(OwnFault),
}

impl BoxFault {
    /// Which refusal it is: the frame's, or the box's own.
    pub fn refusal(self) -> Refusal
        ensures { result ≡ refusal_of self }
    {
        match self {
            BoxFault::Frame(f) => f.fault.refusal(),
            BoxFault::Own(f) => f.refusal,
        }
    }

    /// The round that was open.
    pub fn round(self) -> RoundNumber
        ensures { result ≡ round_of self }
    {
        match self {
            BoxFault::Frame(f) => f.round,
            BoxFault::Own(f) => f.round,
        }
    }

    /// The field of the frame that is at fault; none where the box itself refused.
    pub fn field(self) -> Option<Field>
        ensures { result ≡ field_of self }
    {
        match self {
            BoxFault::Frame(f) => Some(f.fault.field()),
            BoxFault::Own(_) => None,
        }
    }

    /// The place, from 0, of the first byte of what is at fault in the frame; none where the box itself refused.
    pub fn place(self) -> Option<usize>
        ensures { result ≡ place_of self }
    {
        match self {
            BoxFault::Frame(f) => Some(f.fault.place()),
            BoxFault::Own(_) => None,
        }
    }
}

/// What is at fault and the open round, as in `7 heard in round 1` and `3 padded set 2 in round 1`.
impl fmt::Display for BoxFault {
    ghost output = { λ e. Some (fault_text e) };

    fn fmt<W: fmt::Write>(&self, f: &mut fmt::Formatter<W>) -> fmt::Result {
        match self {
            BoxFault::Frame(met) => write!(f, "{} in round {}", met.fault, met.round),
            BoxFault::Own(met) => write!(f, "{} in round {}", met.refusal, met.round),
        }
    }
}

impl Error for BoxFault {}

/// Bytes that are no frame are a fault met by the box.
impl From<RoundFault> for BoxFault {
    ghost from_gives = { λ f r. r ≡ Frame f };

    fn from(inner: RoundFault) -> BoxFault {
        BoxFault::Frame(inner)
    }
}

/// A refusal by the box itself is a fault met by the box.
impl From<OwnFault> for BoxFault {
    ghost from_gives = { λ f r. r ≡ Own f };

    fn from(inner: OwnFault) -> BoxFault {
        BoxFault::Own(inner)
    }
}
