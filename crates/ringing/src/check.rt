// What is checked before a call: the row before each, and more before a fall and a round.
ghost use Rattle.std.specs.Prelude.{◌≡◌, not, ◌||◌, ◌&&◌, nat_lt, []};
ghost use Rattle.sets.specs.Masks.{member, set_of};
ghost use Rattle.wire.specs.WireState.{on_fall as wire_on_fall};
ghost use Rattle.base.specs.Results.{answer};
ghost use Rattle.machine.specs.Places.{place_state};
ghost use Rattle.machine.specs.State.{is_gone};

use super::ringing::Ringing;
use base::Refusal;
use boxes::Resting;
use frames::LONGEST_FRAME;
use machine::{Place, is_over};
use proposals::Proposal;
use sets::{BoxNumber, BoxSet, RoundNumber};
use wire::Wire;

// The boxes of the wire's company that are not up.
fn down<W: Wire>(wire: &W) -> BoxSet
    ensures { let m = W.meaning wire.now in
        result ≡ set_of (λ q. nat_lt q m.n && not (member m.up q)) }
{
    BoxSet::all_below(wire.n()).difference(wire.up())
}

// The boxes of the wire's company that are down or falling.
pub(crate) fn gone<W: Wire>(wire: &W) -> BoxSet
    ensures { let m = W.meaning wire.now in
        result ≡ set_of (λ q. nat_lt q m.n && is_gone m q) }
{
    down(wire).union(wire.falling())
}

// Whether the wire lets box q fall with this lost set, or why not. It is asked before the wire is told, since a fall cannot be taken back
// and how many boxes have fallen is judged after this.
#[tactic(auto, unfolding(wire::specs::WireState::on_fall))]
pub(crate) fn check_wire_fall<W: Wire>(wire: &W, q: BoxNumber, lost: BoxSet) -> Result<(), Refusal>
    ensures { result ≡ answer (wire_on_fall q.0 lost (W.meaning wire.now)) }
{
    let n = wire.n();
    if q.0 >= n {
        return Err(Refusal::Stranger);
    }
    if !lost.is_below(n) || lost.contains(q) {
        return Err(Refusal::Set);
    }
    if !wire.up().contains(q) || wire.falling().contains(q) {
        return Err(Refusal::Down);
    }
    Ok(())
}

impl<W: Wire> Ringing<W> {
    ghost use Rattle.machine.specs.RowCheck.{is_other, is_misplaced, row_verdict};
    ghost use Rattle.machine.specs.FallCall.{on_fall};
    ghost use Rattle.machine.specs.RoundCall.{on_round};
    ghost use Rattle.ringing.specs.RingingStates.{state_of};

    // Whether the box at rest is the one that this ringing has at place p.
    fn is_own<K: Proposal>(&self, p: BoxNumber, b: Resting<K>) -> bool
        ensures { result ≡ not (is_other (state_of self.now []) p.0 b.held) }
    {
        b.number() == p
            && b.n() == self.wire.n()
            && b.t() == self.t
            && b.closed() == self.closed
            && b.missing().is_subset(down(&self.wire))
    }

    // Whether this may stand at place p.
    fn may_stand<K: Proposal>(&self, p: BoxNumber, place: Place<K>) -> bool
        ensures { result ≡ not (is_misplaced (state_of self.now []) p.0 (place_state place)) }
    {
        let is_up = self.wire.up().contains(p);
        match place {
            Place::Resting(b) => is_up && self.is_own(p, b),
            Place::Down(_) => !is_up,
            Place::Rung(rung) => {
                is_up && self.closed > 0 && rung.round == RoundNumber(self.closed)
            }
        }
    }

    // Whether the row is this ringing's, or why not.
    pub(crate) fn check_row<K: Proposal>(&self, row: &[Place<K>]) -> Result<(), Refusal>
        ensures { result ≡ row_verdict (state_of self.now row.now) }
    {
        if row.len() != self.wire.n() as usize || gone(&self.wire).count() > self.t {
            return Err(Refusal::Row);
        }
        for (p, place) in row.iter().enumerate() {
            if !self.may_stand(BoxNumber(p as u32), *place) {
                return Err(Refusal::Row);
            }
        }
        Ok(())
    }

    // Whether it may be told that box q falls with this lost set, or why not.
    pub(crate) fn check_fall<K: Proposal>(
        &self,
        row: &[Place<K>],
        q: BoxNumber,
        lost: BoxSet,
    ) -> Result<(), Refusal>
        ensures { result ≡ answer (on_fall q lost (state_of self.now row.now)) }
    {
        self.check_row(row)?;
        if is_over(row) {
            return Err(Refusal::Over);
        }
        check_wire_fall(&self.wire, q, lost)?;
        if gone(&self.wire).count() >= self.t {
            return Err(Refusal::Spent);
        }
        Ok(())
    }

    // Whether a round may be played with so many line bytes, or why not.
    pub(crate) fn check_round<K: Proposal>(
        &self,
        row: &[Place<K>],
        room: usize,
    ) -> Result<(), Refusal>
        ensures { result ≡ answer (on_round K.kind room (state_of self.now row.now)) }
    {
        self.check_row(row)?;
        if room < LONGEST_FRAME {
            return Err(Refusal::Narrow);
        }
        if is_over(row) {
            return Err(Refusal::Over);
        }
        Ok(())
    }
}
