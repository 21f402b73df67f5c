// A tape as a wire.
ghost use Rattle.wire.specs.Wires.{tape_meaning};
ghost use Rattle.wire.specs.WireLemmas.{tape_formed};

use super::tape::{Tape, append};
use super::wire::Wire;
use base::Refusal;
use sets::{BoxNumber, BoxSet};

impl Wire for Tape {
    // The roster, and the frames in the spans.
    ghost meaning = { tape_meaning };

    ghost formed = { tape_formed };

    fn n(&self) -> u32 {
        self.roster.n
    }

    fn up(&self) -> BoxSet {
        self.roster.up
    }

    #[tactic(auto, using(crate::proofs::RosterLemmas::falling_shown))]
    fn falling(&self) -> BoxSet {
        self.roster.falling
    }

    #[tactic(auto, using(crate::proofs::RosterLemmas::posted_shown))]
    fn posted(&self) -> BoxSet {
        self.roster.posted
    }

    fn open(&mut self) {
        self.roster.open();
        self.frames.clear();
    }

    fn fall(&mut self, q: BoxNumber, lost: BoxSet) -> Result<(), Refusal> {
        self.roster.fall(q, lost)
    }

    fn post(&mut self, q: BoxNumber, frame: &[u8]) -> Result<(), Refusal> {
        self.roster.check_posting(q, frame)?;
        self.spans[q.0 as usize] = append(&mut self.frames, frame);
        self.roster.enter_posted(q);
        Ok(())
    }

    fn fetch(&self, p: BoxNumber, q: BoxNumber, out: &mut [u8]) -> Result<Option<usize>, Refusal> {
        self.roster.fetch(p, q, self.frame(q), out)
    }

    fn close(&mut self) {
        self.roster.close();
    }
}
