// Listening boxes.
ghost use Rattle.std.specs.Prelude.{◌≡◌, ⊤};
ghost use Rattle.std.specs.Result.{result_map_both, result_unwrap_or};
ghost use Rattle.base.specs.Results.{map_fault, refused_with};
ghost use Rattle.frames.specs.Frames.{read_frame};
ghost use Rattle.boxes.specs.Boxes.{next_round};
ghost use Rattle.boxes.specs.BoxRounds.{round_fault, own_fault, bad_set, frame_verdict, notes_with, on_hear, outcome, unheard_boxes, on_close};

use super::fault::{BoxFault, OwnFault, RoundFault};
use super::states::{Closed, Held, Listening, Notes, Resting};
use base::{Refusal, Refused};
use frames::{Frame, read_frame};
use proposals::Proposal;
use sets::{BoxNumber, BoxSet, RoundNumber};
use std::alloc::AllocError;

impl<K: Proposal> Notes<K> {
    // The notes with one frame more.
    fn with(self, frame: Frame<K>) -> Notes<K>
        ensures { result ≡ notes_with K.kind self frame }
    {
        Notes {
            heard: self.heard.with(frame.sender),
            known: self.known.union(frame.missing),
            foremost: if frame.estimate.goes_before(self.foremost) {
                frame.estimate
            } else {
                self.foremost
            },
        }
    }
}

/// A copy, which takes no memory and does not fail.
impl<K: Copy> Clone for Listening<K> {
    ghost is_clone = { λ b c. c ≡ b };

    ghost is_infallible = { λ _. ⊤ };

    fn clone(&self) -> Result<Self, AllocError> {
        Ok(*self)
    }
}

impl<K: Proposal> Listening<K> {
    /// Its number, below n.
    pub fn number(self) -> BoxNumber
        ensures { result ≡ self.resting.held.number }
    {
        self.resting.number()
    }

    // The round that is open.
    fn round(self) -> RoundNumber
        ensures { result ≡ next_round self.resting.held }
    {
        self.resting.next_round()
    }

    // A refusal by the box itself.
    fn own_fault(self, refusal: Refusal) -> OwnFault
        ensures { result ≡ own_fault self.resting.held refusal }
    {
        OwnFault {
            round: self.round(),
            refusal,
        }
    }

    // The frame that the bytes are, or why they are none.
    fn read(self, bytes: &[u8]) -> Result<Frame<K>, RoundFault>
        ensures { result ≡ map_fault (round_fault self.resting.held)
            (read_frame K.kind bytes.now) }
    {
        read_frame::<K>(bytes).map_err(|fault| RoundFault {
            round: self.round(),
            fault,
        })
    }

    // Whether the frame's set has a box that it may not have: one outside the company, the sender or the hearer.
    #[tactic(auto, unfolding(crate::specs::BoxRounds::bad_set))]
    fn has_bad_set(self, frame: Frame<K>) -> bool
        ensures { result ≡ bad_set self.resting.held frame }
    {
        let Held { number, n, .. } = self.resting.held;
        !frame.missing.is_below(n)
            || frame.missing.contains(frame.sender)
            || frame.missing.contains(number)
    }

    // Whether the box refuses the frame, and why.
    #[tactic(auto, unfolding(crate::specs::BoxRounds::frame_verdict))]
    fn check(self, frame: Frame<K>) -> Result<(), OwnFault>
        ensures { result ≡ map_fault (own_fault self.resting.held)
            (frame_verdict self.resting.held self.notes frame) }
    {
        if frame.round != self.round() {
            return Err(self.own_fault(Refusal::OffBeat));
        }
        if frame.sender.0 >= self.resting.held.n {
            return Err(self.own_fault(Refusal::Stranger));
        }
        if self.notes.heard.contains(frame.sender) {
            return Err(self.own_fault(Refusal::Heard));
        }
        if self.resting.held.missing.contains(frame.sender) {
            return Err(self.own_fault(Refusal::Down));
        }
        if self.has_bad_set(frame) {
            return Err(self.own_fault(Refusal::Set));
        }
        Ok(())
    }

    /// Tells bytes to the box, which notes the frame that they are. Refuses, and then leaves the box as it was: bytes that are no frame; then off beat
    /// (6) if the frame is not of the open round; stranger (5) if its sender is not below n; heard (7) if its sender was heard in this round, as the box
    /// itself was; down (14) if the box misses its sender; set (8) if its missing set has a box from n on, the sender or the box itself.
    #[tactic(auto, unfolding(crate::specs::BoxRounds::on_hear))]
    pub fn hear(&mut self, bytes: &[u8]) -> Result<(), BoxFault>
        ensures answer { result ≡ result_map_both (λ _. tt) (λ e. e)
            (on_hear K.kind self.old.resting.held self.old.notes bytes.now) }
        ensures resting { self.new.resting ≡ self.old.resting }
        ensures notes { self.new.notes ≡ result_unwrap_or
            (on_hear K.kind self.old.resting.held self.old.notes bytes.now) self.old.notes }
    {
        let frame = self.read(bytes)?;
        self.check(frame)?;
        self.notes = self.notes.with(frame);
        Ok(())
    }

    // The boxes of the company that were not heard.
    fn unheard(self) -> BoxSet
        ensures { result ≡ unheard_boxes self.resting.held self.notes }
    {
        BoxSet::all_below(self.resting.held.n).difference(self.notes.heard)
    }

    /// Closes the round by the frames heard. The box then rings, in this round, on the estimate that goes first among its own and those heard, if the
    /// round is its best horizon; else it is at rest, with one round more closed, that estimate, and the boxes not heard for those that it misses.
    /// Refuses tally (10), and then gives the box back as it was, if more than t boxes were not heard, or if one that was heard is told missing.
    #[tactic(auto, unfolding(crate::specs::BoxRounds::on_close, crate::specs::BoxRounds::close_with))]
    pub fn close(self) -> Result<Closed<K>, Refused<Listening<K>, BoxFault>>
        ensures { result_map_both outcome (λ e. e) result
            ≡ map_fault (refused_with self) (on_close self.resting.held self.notes) }
    {
        let Held { t, horizon, .. } = self.resting.held;
        let known = self.notes.known;
        let unheard = self.unheard();
        if unheard.count() > t || !known.is_subset(unheard) {
            return Err(Refused {
                value: self,
                fault: BoxFault::Own(self.own_fault(Refusal::Tally)),
            });
        }
        let round = self.round();
        let best = horizon.min(RoundNumber(round.0 + t - known.count()));
        if best == round {
            return Ok(Closed::Rings {
                round,
                proposal: self.notes.foremost,
            });
        }
        Ok(Closed::Rests(Resting {
            held: Held {
                closed: round.0,
                estimate: self.notes.foremost,
                missing: unheard,
                horizon: best,
                ..self.resting.held
            },
        }))
    }
}

/// The fault alone: the box is let go.
impl<K: Copy> From<Refused<Listening<K>, BoxFault>> for BoxFault {
    ghost from_gives = { λ refused r. r ≡ refused.fault };

    fn from(refused: Refused<Listening<K>, BoxFault>) -> BoxFault {
        refused.fault
    }
}
