// A list of calls, made on a ringing one after another.
ghost use Rattle.std.specs.Prelude.{◌≡◌, ◌<◌, ◌++◌, if◌then◌else◌, map, length, drop, set, OnOk, OnErr};
ghost use Rattle.base.specs.declared.refusal.Refusal.TheVariants as refusal;
ghost use Rattle.machine.specs.Places.{place_state};
ghost use Rattle.promise.specs.declared.request.Request.TheVariants as request;
ghost use Rattle.machine.specs.RowCheck.{bad_row};
ghost use Rattle.machine.specs.OrderCalls.{on_report};
ghost use Rattle.base.specs.Results.{answer, or_kept};
ghost use Rattle.promise.specs.CallSteps.{StepsTo, done_answer, state_after, answers_to};
ghost use Rattle.promise.specs.CallLog.{log_after};
ghost use Rattle.promise.specs.Promise.{OneRing};
ghost use Rattle.promise.specs.PromiseLaws.{FollowsRule};
ghost use Rattle.ringing.specs.OrderAnswers.{on_order_back, report_answer, report_reply};
ghost use Rattle.ringing.specs.RingingStates.{state_of};
ghost use Rattle.call_lists.specs.OrdersInHand.{orders_out, report_blow, orders_put_back, HasFreeSlot};
ghost use Rattle.call_lists.specs.CallLists.{on_calls, KeepsPromise};

use super::hand::{are_out, keep, take_order};
use base::{Refusal, Refused};
use frames::LONGEST_FRAME;
use machine::Place;
use promise::{Reply, Request, promise_laws};
use proposals::Proposal;
use ringing::{Ringing, StrikeOrder};
use sets::{BoxNumber, RoundNumber};
use wire::Wire;

// Plays a round with so many line bytes. More than the longest frame takes are not needed.
fn play_round<W: Wire, K: Proposal>(
    ringing: &mut Ringing<W>,
    row: &mut [Place<K>],
    room: usize,
) -> Result<(), Refusal>
    ensures { let s = state_of ringing.old row.old in
        let end = state_of ringing.new row.new in
        StepsTo K.kind (request.Round room) s (done_answer result) end }
{
    let mut line = [0; LONGEST_FRAME];
    ringing.round(row, &mut line[..room.min(LONGEST_FRAME)])
}

// Draws the order of box p and puts it into its slot.
fn draw_order<W: Wire, K: Proposal>(
    ringing: &Ringing<W>,
    row: &mut [Place<K>],
    orders: &mut [Option<StrikeOrder>],
    p: BoxNumber,
) -> Result<Reply<K>, Refusal>
    requires { orders.old ≡ orders_out (map place_state row.old) }
    ensures steps { let s = state_of ringing.now row.old in
        StepsTo K.kind (request.Draw p) s result (state_of ringing.now row.new) }
    ensures orders { orders.new ≡ orders_out (map place_state row.new) }
{
    let order = ringing.draw(row, p)?;
    let round = order.round();
    keep(&mut orders[p.0 as usize], order);
    Ok(Reply::Drawn(round))
}

// Reports an order as struck or as missed. A refusal returns it.
fn give_back<W: Wire, K: Proposal>(
    ringing: &Ringing<W>,
    row: &mut [Place<K>],
    order: StrikeOrder,
    is_struck: bool,
) -> Result<(), Refused<StrikeOrder, Refusal>>
    ensures answer { let s = state_of ringing.now row.old in
        result ≡ report_answer order (on_order_back (report_blow is_struck) order s) }
    ensures state { let s = state_of ringing.now row.old in
        state_of ringing.now row.new ≡ or_kept s (on_order_back (report_blow is_struck) order s) }
{
    if is_struck {
        ringing.struck(row, order)
    } else {
        ringing.missed(row, order)
    }
}

// The reply to a report. An order that is returned is put back into its slot.
fn settle<K: Proposal>(
    orders: &mut [Option<StrikeOrder>],
    reported: Result<(), Refused<StrikeOrder, Refusal>>,
) -> Result<Reply<K>, Refusal>
    requires { HasFreeSlot reported orders.old }
    ensures answer { result ≡ report_reply reported }
    ensures orders { orders.new ≡ orders_put_back reported orders.old }
{
    match reported {
        Ok(()) => Ok(Reply::Done),
        Err(Refused { value, fault }) => {
            keep(&mut orders[value.number().0 as usize], value);
            Err(fault)
        }
    }
}

// The refusal that an order which is not out meets.
#[tactic(auto, unfolding(machine::specs::AskCall::on_ask))]
fn why_not<W: Wire, K: Proposal>(ringing: &Ringing<W>, row: &[Place<K>], p: BoxNumber) -> Refusal
    ensures { let s = state_of ringing.now row.now in
        result ≡ (if bad_row s then refusal.Row else refusal.Order) }
{
    match ringing.ask(row, p) {
        Err(Refusal::Row) => Refusal::Row,
        _ => Refusal::Order,
    }
}

// Reports the order of box p and this round, if it is in hand. One that is not was never drawn, or is reported already: it cannot be given
// back, and the answer is the refusal that a call with it would meet.
fn report<W: Wire, K: Proposal>(
    ringing: &Ringing<W>,
    row: &mut [Place<K>],
    orders: &mut [Option<StrikeOrder>],
    order: (BoxNumber, RoundNumber),
    is_struck: bool,
) -> Result<Reply<K>, Refusal>
    requires { orders.old ≡ orders_out (map place_state row.old) }
    ensures answer { let s = state_of ringing.now row.old in
        result ≡ done_answer (on_report (report_blow is_struck) order.0 order.1 s) }
    ensures state { let s = state_of ringing.now row.old in
        let after = on_report (report_blow is_struck) order.0 order.1 s in
        state_of ringing.now row.new ≡ or_kept s after }
    ensures orders { orders.new ≡ orders_out (map place_state row.new) }
{
    let (p, round) = order;
    match take_order(orders, p, round) {
        Some(order) => {
            let reported = give_back(ringing, row, order, is_struck);
            settle(orders, reported)
        }
        None => Err(why_not(ringing, row, p)),
    }
}

// Makes a call.
fn make_call<W: Wire, K: Proposal>(
    ringing: &mut Ringing<W>,
    row: &mut [Place<K>],
    orders: &mut [Option<StrikeOrder>],
    request: Request,
) -> Result<Reply<K>, Refusal>
    requires { orders.old ≡ orders_out (map place_state row.old) }
    ensures steps { let s = state_of ringing.old row.old in
        StepsTo K.kind request s result (state_of ringing.new row.new) }
    ensures orders { orders.new ≡ orders_out (map place_state row.new) }
{
    match request {
        Request::Fall(q, lost) => {
            ringing.fall(row, q, lost)?;
            Ok(Reply::Done)
        }
        Request::Round(room) => {
            play_round(ringing, row, room)?;
            Ok(Reply::Done)
        }
        Request::Ask(p) => Ok(Reply::Told(ringing.ask(row, p)?)),
        Request::Draw(p) => draw_order(ringing, row, orders, p),
        Request::Struck(p, round) => report(ringing, row, orders, (p, round), true),
        Request::Missed(p, round) => report(ringing, row, orders, (p, round), false),
    }
}

// Writes one answer. By itself, since the prover bounds where an element of unknown size lies only in a function that does no more.
fn put<K: Proposal>(
    answers: &mut [Result<Reply<K>, Refusal>],
    index: usize,
    answer: Result<Reply<K>, Refusal>,
)
    requires { index < length answers.old }
    ensures { answers.new ≡ set answers.old index answer }
{
    answers[index] = answer;
}

/// Makes calls on a ringing, one after another, and writes what each answers into the front of `answers`; places behind keep what they held.
///
/// `orders` are the strike orders in hand, a slot for each box with its order while that is out. A draw puts an order into its slot, and a
/// report takes it from there. It refuses row (12) if there are fewer places for answers than calls, or if the slots are not as many as the
/// places of the row or hold other orders than are out; then nothing changes. A call that is refused is answered by its refusal, and the calls
/// behind it are made all the same. Where a make and calls led up to this state, what the make promises holds at the end.
pub fn make_calls<W: Wire, K: Proposal>(
    ringing: &mut Ringing<W>,
    row: &mut [Place<K>],
    orders: &mut [Option<StrikeOrder>],
    calls: &[Request],
    answers: &mut [Result<Reply<K>, Refusal>],
) -> Result<(), Refusal>
    ensures answer { let s = state_of ringing.old row.old in
        result ≡ answer (on_calls K.kind calls.now orders.old (length answers.old) s) }
    ensures state { let s = state_of ringing.old row.old in
        OnOk result (state_of ringing.new row.new ≡ state_after K.kind calls.now s) }
    ensures answers { let s = state_of ringing.old row.old in
        let behind = drop (length calls.now) answers.old in
        OnOk result (answers.new ≡ answers_to K.kind calls.now s ++ behind) }
    ensures orders { OnOk result (orders.new ≡ orders_out (map place_state row.new)) }
    ensures refused { OnErr result (
        (ringing.new ≡ ringing.old) × (row.new ≡ row.old)
        × (orders.new ≡ orders.old) × (answers.new ≡ answers.old)) }
    ensures promised { let s = state_of ringing.old row.old in
        let end = state_of ringing.new row.new in
        OnOk result (KeepsPromise K.kind calls.now answers.new s end) }
{
    promise_laws::<K>();
    if answers.len() < calls.len() || !are_out(row, orders) {
        return Err(Refusal::Row);
    }
    for (index, request) in calls.iter().enumerate() {
        put(answers, index, make_call(ringing, row, orders, *request));
    }
    Ok(())
}
