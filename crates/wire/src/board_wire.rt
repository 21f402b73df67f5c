// A board as a wire.
ghost use Rattle.wire.specs.Wires.{board_meaning};
ghost use Rattle.wire.specs.WireLemmas.{board_formed};

use super::board::Board;
use super::wire::Wire;
use arrayvec::ArrayVec;
use base::Refusal;
use sets::{BoxNumber, BoxSet};

impl Wire for Board {
    // The roster, and the frames on the lines.
    ghost meaning = { board_meaning };

    ghost formed = { board_formed };

    fn n(&self) -> u32 {
        self.roster.n
    }

    fn up(&self) -> BoxSet {
        self.roster.up
    }

    #[tactic(auto, using(crate::proofs::RosterLemmas::falling_shown))]
    fn falling(&self) -> BoxSet {
        self.roster.falling
    }

    #[tactic(auto, using(crate::proofs::RosterLemmas::posted_shown))]
    fn posted(&self) -> BoxSet {
        self.roster.posted
    }

    fn open(&mut self) {
        self.roster.open();
    }

    fn fall(&mut self, q: BoxNumber, lost: BoxSet) -> Result<(), Refusal> {
        self.roster.fall(q, lost)
    }

    fn post(&mut self, q: BoxNumber, frame: &[u8]) -> Result<(), Refusal> {
        self.roster.check_posting(q, frame)?;
        self.lines[q.0 as usize] = ArrayVec::try_from(frame).unwrap();
        self.roster.enter_posted(q);
        Ok(())
    }

    fn fetch(&self, p: BoxNumber, q: BoxNumber, out: &mut [u8]) -> Result<Option<usize>, Refusal> {
        self.roster.fetch(p, q, self.frame(q), out)
    }

    fn close(&mut self) {
        self.roster.close();
    }
}
