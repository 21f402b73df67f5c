// A round of a ringing.
ghost use Rattle.std.specs.Prelude.{◌≡◌, length, replicate, OnErr};

use super::exchange::exchange_frames;
use super::guard::LineGuard;
use super::ringing::Ringing;
use base::Refusal;
use machine::{Place, machine_laws};
use proposals::Proposal;
use sets::RoundNumber;
use wire::Wire;

impl<W: Wire> Ringing<W> {
    ghost use Rattle.machine.specs.RoundCall.{on_round};
    ghost use Rattle.base.specs.Results.{answer, or_kept};
    ghost use Rattle.promise.specs.declared.request.Request.TheVariants as request;
    ghost use Rattle.promise.specs.CallSteps.{done_answer, StepsTo};
    ghost use Rattle.ringing.specs.RingingStates.{state_of};

    /// Plays a round: every box that is up posts its frame, every box that is up and not falling hears the others and closes the round, and
    /// those that are falling are then down.
    ///
    /// It refuses, in this order: row (12); narrow (19) if there are fewer line bytes than the longest frame takes (`LONGEST_FRAME`); over (16)
    /// if a box of the row rings. A refused call leaves the ringing and the row as they were. The line bytes are all zero afterwards, also
    /// where it refuses.
    pub fn round<K: Proposal>(
        &mut self,
        row: &mut [Place<K>],
        line: &mut [u8],
    ) -> Result<(), Refusal>
        ensures answer { let s = state_of self.old row.old in
            result ≡ answer (on_round K.kind (length line.old) s) }
        ensures steps { let s = state_of self.old row.old in
            let call = request.Round (length line.old) in
            StepsTo K.kind call s (done_answer result) (state_of self.new row.new) }
        ensures refused { OnErr result ((self.new ≡ self.old) × (row.new ≡ row.old)) }
        ensures line { line.new ≡ replicate (length line.old) 0 }
    {
        let guard = LineGuard { bytes: line };
        self.play(row, guard.bytes)
    }

    // The same, whatever the line bytes hold afterwards.
    fn play<K: Proposal>(&mut self, row: &mut [Place<K>], line: &mut [u8]) -> Result<(), Refusal>
        ensures answer { let s = state_of self.old row.old in
            result ≡ answer (on_round K.kind (length line.old) s) }
        ensures state { let s = state_of self.old row.old in
            state_of self.new row.new ≡ or_kept s (on_round K.kind (length line.old) s) }
        ensures refused { OnErr result ((self.new ≡ self.old) × (row.new ≡ row.old)) }
        ensures line { length line.new ≡ length line.old }
    {
        machine_laws::<K>();
        self.check_round(row, line.len())?;
        exchange_frames(&mut self.wire, RoundNumber(self.closed + 1), row, line)?;
        self.closed += 1;
        Ok(())
    }
}
