// The ringing: it is made over a wire, told of falls, and asked.
ghost use Rattle.std.specs.Prelude.{◌≡◌, true};
ghost use Rattle.sets.specs.Companies.{is_company};

use super::make::set_up;
use base::{Refusal, Refused};
use machine::{Place, Standing};
use promise::promise_laws;
use proposals::Proposal;
use sets::{BoxNumber, BoxSet};
use wire::Wire;

/// A ringing: it holds its wire, how many boxes may fall, and how many rounds are closed. The row of its boxes, one place for each, is the
/// caller's and is handed to each call; a call refuses row (12) where the row is not this ringing's as it stands.
#[derive(Drop, Debug)]
pub struct Ringing<W: Wire> {
    pub(crate) wire: W,
    // How many boxes may fall.
    pub(crate) t: u32,
    // How many rounds are closed.
    pub(crate) closed: u32,
    // The boxes that the wire joins and t are within the limits of a company.
    ghost company: { is_company (W.meaning wire).n t ≡ true },
}

impl<W: Wire> Ringing<W> {
    ghost use Rattle.std.specs.Prelude.{List, length, IfOk, OnErr};
    ghost use Rattle.std.specs.Result.{result_map_both};
    ghost use Rattle.base.specs.Results.{map_fault, refused_with};
    ghost use Rattle.machine.specs.MakeCall.{on_make};
    ghost use Rattle.machine.specs.FallCall.{on_fall};
    ghost use Rattle.machine.specs.AskCall.{on_ask};
    ghost use Rattle.base.specs.Results.{answer};
    ghost use Rattle.promise.specs.declared.request.Request.{Request};
    ghost use Rattle.promise.specs.declared.request.Request.TheVariants as request;
    ghost use Rattle.promise.specs.CallLog.{first_history, undrawn_log};
    ghost use Rattle.promise.specs.CallSteps.{done_answer, told_answer, StepsTo};
    ghost use Rattle.promise.specs.PromiseLaws.{IsPromised};
    ghost use Rattle.ringing.specs.RingingStates.{state_of};

    /// Makes a ringing of n boxes, of which t may fall, over a wire, and sets up a new box with its proposal in each place of the row.
    ///
    /// It refuses company (11) if n or t is outside its limits, row (12) if there are not n places or not n proposals, and wire (13) if the
    /// wire does not join n boxes or one of them is down or falling, in this order. A refused make gives the wire back and leaves the row as
    /// it was.
    ///
    /// After an accepted make come any calls, accepted or refused, each handed the row as the call before left it. By these calls and their
    /// answers the ringing and its row are those of the rule. The boxes that ring are just those that closed round t + 1 - D, and they ring in
    /// that round, on one proposal: it is the estimate that each of them reaches, a box proposed it, and no ringing box proposed one that goes
    /// before it. Of each box an order is handed out at most once, and each order is given back at most once, and only if it was handed out.
    /// The clause takes any value `past_end` for what stands past the end of the proposals.
    pub fn make<K: Proposal>(
        n: u32,
        t: u32,
        wire: W,
        row: &mut [Place<K>],
        proposals: &[K],
    ) -> Result<Ringing<W>, Refused<W, Refusal>>
        ensures answer { let m = W.meaning wire in
            result_map_both (λ r. state_of r row.new) (λ e. e) result
            ≡ map_fault (refused_with wire) (on_make n t m (length row.old) proposals.now) }
        ensures refused { OnErr result (row.new ≡ row.old) }
        ensures promised { let m = W.meaning wire in
            IfOk (on_make n t m (length row.old) proposals.now) (λ s.
            (past_end : K) (calls : List Request) →
            let log = undrawn_log (first_history n t proposals.now past_end) in
            IsPromised K.kind m.posted calls s log) }
    {
        promise_laws::<K>();
        match set_up(n, t, &wire, row, proposals) {
            Ok(()) => Ok(Ringing { wire, t, closed: 0 }),
            Err(fault) => Err(Refused { value: wire, fault }),
        }
    }

    /// The wire, lent to look at. After a round the frames on it are those of that round, and before the first those that stood there as the
    /// ringing was made.
    pub fn wire(&self) -> &W
        ensures { result.now ≡ self.now.wire }
    {
        &self.wire
    }

    /// Tells that box q falls in the round to come, in which the boxes of its lost set do not hear it.
    ///
    /// It refuses, in this order: row (12); over (16) if a box of the row rings; stranger (5) if q is not below n; set (8) if the lost set has
    /// a number not below n, or q itself; down (14) if q is down or falling; spent (15) if t boxes are down or falling. A refused call leaves
    /// the ringing as it was.
    pub fn fall<K: Proposal>(
        &mut self,
        row: &[Place<K>],
        q: BoxNumber,
        lost: BoxSet,
    ) -> Result<(), Refusal>
        ensures answer { let s = state_of self.old row.now in result ≡ answer (on_fall q lost s) }
        ensures steps { let s = state_of self.old row.now in
            let call = request.Fall q lost in
            StepsTo K.kind call s (done_answer result) (state_of self.new row.now) }
        ensures refused { OnErr result (self.new ≡ self.old) }
    {
        self.check_fall(row, q, lost)?;
        self.wire.fall(q, lost)
    }

    /// What is told of box p: that it is up, down since a round, or rings, and then how far its blow has come. It refuses row (12), and then
    /// stranger (5) if p is not below n.
    #[tactic(auto, using(crate::proofs::RowRefused::shown_at), unfolding(machine::specs::AskCall::on_ask))]
    pub fn ask<K: Proposal>(&self, row: &[Place<K>], p: BoxNumber) -> Result<Standing<K>, Refusal>
        ensures answer { result ≡ on_ask p (state_of self.now row.now) }
        ensures steps { let s = state_of self.now row.now in
            StepsTo K.kind (request.Ask p) s (told_answer result) s }
    {
        self.check_row(row)?;
        match row.get(p.0 as usize) {
            Some(place) => Ok(place.standing()),
            None => Err(Refusal::Stranger),
        }
    }
}
