// Why bytes are no frame.
ghost use Rattle.std.specs.Prelude.{◌≡◌, Some};
ghost use Rattle.frames.specs.declared.fault.FrameFault.TheVariants.{Number};
ghost use Rattle.frames.specs.FrameFaults.{field_word, refusal_of, field_of, place_of, fault_text};

use base::Refusal;
use numbers::NumberFault;
use std::error::Error;
use std::fmt;

/// The parts of a frame, in order.
#[derive(Clone, Copy, Debug, PartialEq, Eq)]
pub enum Field {
    /// "round": the round in which it is sent.
    Round,
    /// "sender": the box that sends it.
    Sender,
    /// "set": the boxes that the sender misses.
    Set,
    /// "image": the image of the estimate.
    Image,
    /// "end": behind the image, where no byte may stand.
    End,
}

impl Field {
    /// The word of the field.
    pub fn word(self) -> &'static str
        ensures { result.now ≡ field_word self }
    {
        match self {
            Field::Round => "round",
            Field::Sender => "sender",
            Field::Set => "set",
            Field::Image => "image",
            Field::End => "end",
        }
    }
}

/// The word of the field.
impl fmt::Display for Field {
    ghost output = { λ field. Some (field_word field) };

    fn fmt<W: fmt::Write>(&self, f: &mut fmt::Formatter<W>) -> fmt::Result {
        f.write_str(self.word())
    }
}

/// Why a number of a frame was not read.
#[derive(Clone, Copy, Debug, PartialEq, Eq)]
pub struct FieldFault {
    /// The field that the number belongs to.
    pub field: Field,
    /// Why it was not read, and its place.
    pub fault: NumberFault,
}

/// Why bytes are no frame.
#[derive(Clone, Copy, Debug, PartialEq, Eq)]
pub enum FrameFault {
    /// A number was not read: short (1), wide (2) or padded (3).
    Number(FieldFault),
    /// Image (9): no proposal has the image that begins at this place.
    Image { place: usize },
    /// Surplus (4): bytes follow the image, the first of them at this place.
    Surplus { place: usize },
}

impl FrameFault {
    /// Which refusal it is: short (1), wide (2), padded (3), surplus (4) or image (9) where reading told the fault.
    pub fn refusal(self) -> Refusal
        ensures { result ≡ refusal_of self }
    {
        match self {
            FrameFault::Number(f) => f.fault.refusal,
            FrameFault::Image { .. } => Refusal::Image,
            FrameFault::Surplus { .. } => Refusal::Surplus,
        }
    }

    /// The field that is at fault: the end for surplus.
    pub fn field(self) -> Field
        ensures { result ≡ field_of self }
    {
        match self {
            FrameFault::Number(f) => f.field,
            FrameFault::Image { .. } => Field::Image,
            FrameFault::Surplus { .. } => Field::End,
        }
    }

    /// The place, from 0, of the first byte of what is at fault.
    pub fn place(self) -> usize
        ensures { result ≡ place_of self }
    {
        match self {
            FrameFault::Number(f) => f.fault.place,
            FrameFault::Image { place } | FrameFault::Surplus { place } => place,
        }
    }
}

/// Refusal, field and place with a space between two, as in `3 padded image 4`.
impl fmt::Display for FrameFault {
    ghost output = { λ e. Some (fault_text e) };

    fn fmt<W: fmt::Write>(&self, f: &mut fmt::Formatter<W>) -> fmt::Result {
        write!(f, "{} {} {}", self.refusal(), self.field(), self.place())
    }
}

impl Error for FrameFault {}

/// A number that was not read is a fault of the frame.
impl From<FieldFault> for FrameFault {
    ghost from_gives = { λ f r. r ≡ Number f };

    fn from(inner: FieldFault) -> FrameFault {
        FrameFault::Number(inner)
    }
}
