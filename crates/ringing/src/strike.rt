// Strike orders: drawn from a ringing for the boxes that ring, and given back as struck or as missed.
ghost use Rattle.std.specs.Prelude.{◌≡◌, map, OnErr};
ghost use Rattle.std.specs.Result.{result_map_both};
ghost use Rattle.std.specs.List.{slice_get};
ghost use Rattle.std.specs.Option.{option_and_then};
ghost use Rattle.machine.specs.Places.{place_state, rung_of};
ghost use Rattle.machine.specs.State.{State};
ghost use Rattle.machine.specs.OrderCalls.{with_blow};

use super::make::put;
use super::ringing::Ringing;
use base::{Refusal, Refused};
use machine::{Blow, Place, Rung};
use proposals::Proposal;
use sets::{BoxNumber, RoundNumber};
use wire::Wire;

/// The order to strike the blow of a box, in the round in which it rings. It is neither copied nor dropped: who holds one reports it, as struck
/// or as missed, or hands it on. It knows its box and its round alone, so any ringing in whose row such an order is out takes it back.
#[must_use]
#[derive(Debug)]
pub struct StrikeOrder {
    pub(crate) number: BoxNumber,
    pub(crate) round: RoundNumber,
}

impl StrikeOrder {
    /// The number of the box.
    pub fn number(&self) -> BoxNumber
        ensures { result ≡ self.now.number }
    {
        self.number
    }

    /// The round in which the box rings.
    pub fn round(&self) -> RoundNumber
        ensures { result ≡ self.now.round }
    {
        self.round
    }
}

// How box p rings, if it does.
#[tactic(auto, using(crate::proofs::RowRefused::shown_at))]
fn rung_at<K: Proposal>(row: &[Place<K>], p: BoxNumber) -> Option<Rung<K>>
    ensures { result ≡ option_and_then rung_of (slice_get (map place_state row.now) p.0) }
{
    row.get(p.0 as usize).and_then(Place::rung)
}

// Sets the blow of box p, if it rings.
fn set_blow<K: Proposal>(row: &mut [Place<K>], p: BoxNumber, blow: Blow)
    ensures { (s : State K) → s.row ≡ map place_state row.old
        → map place_state row.new ≡ (with_blow blow p.0 s).row }
{
    if let Some(rung) = rung_at(row, p) {
        put(row, p.0 as usize, Place::Rung(Rung { blow, ..rung }));
    }
}

impl<W: Wire> Ringing<W> {
    ghost use Rattle.machine.specs.declared.place.Blow.TheVariants as blow;
    ghost use Rattle.machine.specs.OrderCalls.{on_draw, on_report};
    ghost use Rattle.base.specs.Results.{answer, or_kept};
    ghost use Rattle.promise.specs.declared.request.Request.TheVariants as request;
    ghost use Rattle.promise.specs.CallSteps.{StepsTo};
    ghost use Rattle.ringing.specs.OrderAnswers.{handed_order, on_order_back, report_answer, draw_reply, report_reply};
    ghost use Rattle.ringing.specs.RingingStates.{state_of};

    /// Hands out the strike order of box p, which is then out.
    ///
    /// It refuses, in this order: row (12); stranger (5) if p is not below n; silent (17) if the box does not ring; order (18) if its order was
    /// drawn already. A refused call leaves the row as it was.
    #[tactic(auto, unfolding(machine::specs::OrderCalls::on_draw))]
    pub fn draw<K: Proposal>(
        &self,
        row: &mut [Place<K>],
        p: BoxNumber,
    ) -> Result<StrikeOrder, Refusal>
        ensures answer { let s = state_of self.now row.old in
            result ≡ handed_order p (on_draw p s) }
        ensures steps { let s = state_of self.now row.old in
            StepsTo K.kind (request.Draw p) s (draw_reply result) (state_of self.now row.new) }
        ensures refused { OnErr result (row.new ≡ row.old) }
    {
        let round = self.check_draw(row, p)?;
        set_blow(row, p, Blow::Out);
        Ok(StrikeOrder { number: p, round })
    }

    /// Takes back an order whose blow was struck.
    ///
    /// It refuses row (12), and then order (18) if no order of this box and round is out. A refused call gives the order back and leaves the
    /// row as it was.
    pub fn struck<K: Proposal>(
        &self,
        row: &mut [Place<K>],
        order: StrikeOrder,
    ) -> Result<(), Refused<StrikeOrder, Refusal>>
        ensures answer { let s = state_of self.now row.old in
            result ≡ report_answer order (on_order_back blow.Struck order s) }
        ensures steps { let s = state_of self.now row.old in
            let call = request.Struck order.number order.round in
            StepsTo K.kind call s (report_reply result) (state_of self.now row.new) }
        ensures refused { OnErr result (row.new ≡ row.old) }
    {
        self.take_back(row, order, Blow::Struck)
    }

    /// Takes back an order whose blow was missed.
    ///
    /// It refuses row (12), and then order (18) if no order of this box and round is out. A refused call gives the order back and leaves the
    /// row as it was.
    pub fn missed<K: Proposal>(
        &self,
        row: &mut [Place<K>],
        order: StrikeOrder,
    ) -> Result<(), Refused<StrikeOrder, Refusal>>
        ensures answer { let s = state_of self.now row.old in
            result ≡ report_answer order (on_order_back blow.Missed order s) }
        ensures steps { let s = state_of self.now row.old in
            let call = request.Missed order.number order.round in
            StepsTo K.kind call s (report_reply result) (state_of self.now row.new) }
        ensures refused { OnErr result (row.new ≡ row.old) }
    {
        self.take_back(row, order, Blow::Missed)
    }

    // The round of the order of box p, or why it is not drawn.
    #[tactic(auto, using(crate::proofs::RowRefused::shown_at), unfolding(machine::specs::OrderCalls::on_draw))]
    fn check_draw<K: Proposal>(
        &self,
        row: &[Place<K>],
        p: BoxNumber,
    ) -> Result<RoundNumber, Refusal>
        ensures { let s = state_of self.now row.now in
            result ≡ result_map_both (λ x. x.0) (λ e. e) (on_draw p s) }
    {
        self.check_row(row)?;
        match row.get(p.0 as usize).ok_or(Refusal::Stranger)?.rung() {
            Some(rung) if rung.blow == Blow::Undrawn => Ok(rung.round),
            Some(_) => Err(Refusal::Order),
            None => Err(Refusal::Silent),
        }
    }

    // Whether the order of box p and this round is out, or why it is not taken back.
    #[tactic(auto, using(crate::proofs::RowRefused::shown_at), unfolding(machine::specs::OrderCalls::on_report))]
    fn check_report<K: Proposal>(
        &self,
        row: &[Place<K>],
        p: BoxNumber,
        round: RoundNumber,
    ) -> Result<(), Refusal>
        ensures { let s = state_of self.now row.now in
            (b : Blow) → result ≡ answer (on_report b p round s) }
    {
        self.check_row(row)?;
        match rung_at(row, p) {
            Some(rung) if rung.blow == Blow::Out && rung.round == round => Ok(()),
            _ => Err(Refusal::Order),
        }
    }

    // Takes an order back, and the blow is this one.
    fn take_back<K: Proposal>(
        &self,
        row: &mut [Place<K>],
        order: StrikeOrder,
        blow: Blow,
    ) -> Result<(), Refused<StrikeOrder, Refusal>>
        ensures answer { let s = state_of self.now row.old in
            result ≡ report_answer order (on_order_back blow order s) }
        ensures state { let s = state_of self.now row.old in
            state_of self.now row.new ≡ or_kept s (on_order_back blow order s) }
        ensures refused { OnErr result (row.new ≡ row.old) }
    {
        match self.check_report(row, order.number, order.round) {
            Ok(()) => {
                let StrikeOrder { number, round: _ } = order;
                set_blow(row, number, blow);
                Ok(())
            }
            Err(fault) => Err(Refused {
                value: order,
                fault,
            }),
        }
    }
}
