// Which box falls, and in which round.
ghost use Rattle.std.specs.Prelude.{◌≡◌, false};
ghost use Rattle.sets.specs.Masks.{set_of};

use sets::{BoxNumber, BoxSet, RoundNumber};

/// The fall of a box: the round in which it falls, its number, and the boxes that do not hear what it sends in that round.
#[derive(Clone, Copy, Debug, PartialEq, Eq)]
pub struct Entry {
    /// The round, 1 to t + 1 in a script.
    pub round: RoundNumber,
    /// The number of the box, below n in a script.
    pub number: BoxNumber,
    /// The lost set: boxes below n in a script, and not the box itself.
    pub lost: BoxSet,
}

/// The entry that fills places which none has taken yet: box 0 falls in round 1, and all hear it.
impl Default for Entry {
    ghost is_default = { λ e. e ≡ record {
      round = record { 0 = 1 };
      number = record { 0 = 0 };
      lost = set_of (λ _. false);
    } };

    fn default() -> Entry {
        Entry {
            round: RoundNumber(1),
            number: BoxNumber(0),
            lost: BoxSet::empty(),
        }
    }
}
