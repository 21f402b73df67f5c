// The strike orders in hand: a slot for each box, with its order while it is out.
ghost use Rattle.std.specs.Prelude.{◌≡◌, if◌then◌else◌, map, Some, None};
ghost use Rattle.machine.specs.Places.{place_state};
ghost use Rattle.call_lists.specs.OrdersInHand.{round_out, order_out, is_order, same_order, are_out, order_in_hand, orders_without};

use machine::{Blow, Place};
use proposals::Proposal;
use ringing::StrikeOrder;
use sets::{BoxNumber, RoundNumber};

// Puts an order into a free slot. No order may be let go, so what `replace` gives back is matched.
pub(crate) fn keep(slot: &mut Option<StrikeOrder>, order: StrikeOrder)
    requires { slot.old ≡ None }
    ensures { slot.new ≡ Some order }
{
    match slot.replace(order) {
        None => (),
        Some(_) => unreachable!(),
    }
}

// Whether the slot has the order of box p and this round.
fn has_order(slot: &Option<StrikeOrder>, p: usize, round: RoundNumber) -> bool
    ensures { result ≡ is_order p round slot.now }
{
    match slot {
        Some(order) => order.number().0 as usize == p && order.round() == round,
        None => false,
    }
}

// Takes the order of box p and this round, if the slot has it.
fn take_from(slot: &mut Option<StrikeOrder>, p: usize, round: RoundNumber) -> Option<StrikeOrder>
    ensures answer { result ≡ (if is_order p round slot.old then slot.old else None) }
    ensures slot { slot.new ≡ (if is_order p round slot.old then None else slot.old) }
{
    if has_order(slot, p, round) {
        slot.take()
    } else {
        None
    }
}

// Takes the order of this box and round, if it is in hand.
pub(crate) fn take_order(
    orders: &mut [Option<StrikeOrder>],
    p: BoxNumber,
    round: RoundNumber,
) -> Option<StrikeOrder>
    ensures answer { result ≡ order_in_hand p round orders.old }
    ensures orders { orders.new ≡ orders_without p round orders.old }
{
    let index = p.0 as usize;
    if index < orders.len() {
        take_from(&mut orders[index], index, round)
    } else {
        None
    }
}

// The round of the order of the box at this place, if it is out.
fn round_out<K: Proposal>(place: &Place<K>) -> Option<RoundNumber>
    ensures { result ≡ round_out (place_state place.now) }
{
    match place.rung() {
        Some(rung) if rung.blow == Blow::Out => Some(rung.round),
        _ => None,
    }
}

// Whether this slot holds just the order of the box at place p, if that is out.
fn holds_order<K: Proposal>(p: usize, place: &Place<K>, slot: &Option<StrikeOrder>) -> bool
    ensures { result ≡ same_order (order_out p (place_state place.now)) slot.now }
{
    match round_out(place) {
        Some(round) => has_order(slot, p, round),
        None => slot.is_none(),
    }
}

// Whether the orders in hand are those that are out.
pub(crate) fn are_out<K: Proposal>(row: &[Place<K>], orders: &[Option<StrikeOrder>]) -> bool
    ensures { result ≡ are_out (map place_state row.now) orders.now }
{
    if row.len() != orders.len() {
        return false;
    }
    for (p, place) in row.iter().enumerate() {
        if !holds_order(p, place, &orders[p]) {
            return false;
        }
    }
    true
}
