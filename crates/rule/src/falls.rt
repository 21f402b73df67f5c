// Boxes that fall, and so who closes a round and whom each box hears in it.
ghost use Rattle.std.specs.Prelude.{◌≡◌, ℕ};
ghost use Rattle.rule.specs.Falls.{closes, hears};

use sets::{BoxNumber, BoxSet, RoundNumber};

/// The fall of a box.
#[derive(Clone, Copy, Debug, PartialEq, Eq)]
pub struct Fall {
    /// The round in which it fell.
    pub round: RoundNumber,
    /// Its lost set: the boxes that did not hear what it sent in that round.
    pub lost: BoxSet,
}

/// Whether a box closes the round: it did not fall, or fell in a later one.
#[tactic(auto, unfolding(crate::specs::Falls::closes))]
pub fn closes(fall: Option<Fall>, round: RoundNumber) -> bool
    ensures { (p : ℕ) → result ≡ closes (λ _. fall) p round.0 }
{
    match fall {
        None => true,
        Some(fall) => fall.round > round,
    }
}

/// Whether a box that closes the round hears the sender in it: the sender is the box itself, or did not fall, or fell in a later round, or in
/// this one with the hearer not in its lost set.
#[tactic(auto, unfolding(crate::specs::Falls::hears))]
pub fn hears(
    hearer: BoxNumber,
    round: RoundNumber,
    sender: BoxNumber,
    sender_fall: Option<Fall>,
) -> bool
    ensures { result ≡ hears (λ _. sender_fall) hearer.0 round.0 sender.0 }
{
    sender == hearer
        || match sender_fall {
            None => true,
            Some(fall) => fall.round > round || fall.round == round && !fall.lost.contains(hearer),
        }
}
