// The making of a ringing: its checks, and the new boxes in the row.
ghost use Rattle.std.specs.Prelude.{◌≡◌, ◌<◌, map, length, set, OnOk, OnErr, true};
ghost use Rattle.sets.specs.Companies.{is_company};
ghost use Rattle.machine.specs.Places.{place_state};
ghost use Rattle.machine.specs.MakeCall.{on_make, first_row};
ghost use Rattle.base.specs.Results.{answer};

use super::check::gone;
use base::Refusal;
use boxes::Resting;
use machine::Place;
use proposals::Proposal;
use sets::{BoxNumber, BoxSet, is_company};
use wire::Wire;

// Whether a ringing may be made, for so many places and proposals, or why not.
#[tactic(auto, unfolding(machine::specs::MakeCall::on_make))]
fn check_make<W: Wire, K: Proposal>(
    n: u32,
    t: u32,
    wire: &W,
    row: &[Place<K>],
    proposals: &[K],
) -> Result<(), Refusal>
    ensures { result ≡ answer (on_make n t (W.meaning wire.now) (length row.now) proposals.now) }
{
    if !is_company(n, t) {
        return Err(Refusal::Company);
    }
    if row.len() != n as usize || proposals.len() != n as usize {
        return Err(Refusal::Row);
    }
    if wire.n() != n || gone(wire) != BoxSet::empty() {
        return Err(Refusal::Wire);
    }
    Ok(())
}

// Puts this at place p. By itself, since the prover bounds where an element of unknown size lies only in a function that does no more.
pub(crate) fn put<K: Proposal>(row: &mut [Place<K>], p: usize, place: Place<K>)
    requires { p < length row.old }
    ensures { row.new ≡ set row.old p place }
{
    row[p] = place;
}

// Sets up a new box with its proposal in each place, if a ringing may be made.
pub(crate) fn set_up<W: Wire, K: Proposal>(
    n: u32,
    t: u32,
    wire: &W,
    row: &mut [Place<K>],
    proposals: &[K],
) -> Result<(), Refusal>
    ensures answer { let m = W.meaning wire.now in
        result ≡ answer (on_make n t m (length row.old) proposals.now) }
    ensures row { OnOk result (map place_state row.new ≡ first_row n t proposals.now) }
    ensures refused { OnErr result (row.new ≡ row.old) }
    ensures company { OnOk result (is_company (W.meaning wire.now).n t ≡ true) }
{
    check_make(n, t, wire, row, proposals)?;
    for (p, proposal) in proposals.iter().enumerate() {
        let resting = Resting::new(BoxNumber(p as u32), n, t, *proposal)?;
        put(row, p, Place::Resting(resting));
    }
    Ok(())
}
