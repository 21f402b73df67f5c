// What a refused call gives back.
ghost use Rattle.std.specs.Prelude.{◌≡◌};

use super::refusal::Refusal;

/// A value that was handed to a call which refused, given back, and why it was refused. `?` goes on with the fault alone, where the value may be
/// let go.
#[derive(Clone, Copy, Debug, PartialEq, Eq)]
pub struct Refused<T, E> {
    /// What was handed to the call, as the call's contract says it is left.
    pub value: T,
    /// Why the call was refused.
    pub fault: E,
}

/// The refusal alone: the value is let go.
impl<T: Drop> From<Refused<T, Refusal>> for Refusal {
    ghost from_gives = { λ refused r. r ≡ refused.fault };

    fn from(refused: Refused<T, Refusal>) -> Refusal {
        refused.fault
    }
}
