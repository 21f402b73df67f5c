// What is refused: of each call every refusal, and of two that apply the first; lists of calls, wires, rows and orders.
use super::of_four::{Answer, DONE, OfFour, UNTOUCHED, UP, down, drawn, is_free, make};
use base::{Refusal, Refused};
use call_lists::make_calls;
use fixtures::{NARROW, NewWire, ROUND, ask, draw, fall, missed, proposals, struck};
use machine::{Blow, Place, Rung, Standing};
use promise::{Reply, Request};
use proposals::Piece;
use ringing::{Ringing, StrikeOrder};
use sets::{BoxNumber, BoxSet, RoundNumber};
use std::mem;
use std::process::Abort;
use std::test::Fail;
use wire::Wire;

// Box 2 falls in round 1, and box 3 in round 2. Boxes 0 and 1 ring in round 3, the order of one is struck, and that of the other missed.
pub(crate) fn of_calls<W: NewWire>(rt: &impl Abort) -> Result<(), Fail> {
    let [_, _, proposal, _] = proposals()?;
    let rings = |blow: Blow| {
        let round = RoundNumber(3);
        Ok(Reply::Told(Standing::Rung(Rung {
            round,
            proposal,
            blow,
        })))
    };
    let mut four = OfFour::<W>::after(rt, &[]);
    let first_round = [
        (ask(4), Err(Refusal::Stranger)),
        (draw(u32::MAX), Err(Refusal::Stranger)),
        (draw(0), Err(Refusal::Silent)),
        (struck(0, 0), Err(Refusal::Order)),
        (Request::Round(0), Err(Refusal::Narrow)),
        (NARROW, Err(Refusal::Narrow)),
        (fall(4, 0b10000), Err(Refusal::Stranger)),
        (fall(2, 0b10000), Err(Refusal::Set)),
        (fall(2, 0b00100), Err(Refusal::Set)),
        (fall(2, 0b00001), DONE),
        (fall(2, 0b10000), Err(Refusal::Set)),
        (fall(2, 0), Err(Refusal::Down)),
        (ask(2), UP),
        (draw(2), Err(Refusal::Silent)),
        (ROUND, DONE),
        (ask(0), UP),
        (ask(2), down(1)),
    ];
    four.answers(rt, &first_round);
    // Two boxes are down or falling, and no more may.
    let next_rounds = [
        (draw(2), Err(Refusal::Silent)),
        (fall(2, 0), Err(Refusal::Down)),
        (fall(3, 0), DONE),
        (fall(9, 0), Err(Refusal::Stranger)),
        (fall(0, 0b0001), Err(Refusal::Set)),
        (fall(3, 0), Err(Refusal::Down)),
        (fall(0, 0), Err(Refusal::Spent)),
        (ROUND, DONE),
        (ask(3), down(2)),
        (missed(0, 2), Err(Refusal::Order)),
        (ROUND, DONE),
        (ROUND, Err(Refusal::Over)),
        (NARROW, Err(Refusal::Narrow)),
        (fall(9, 0), Err(Refusal::Over)),
        (ask(u32::MAX), Err(Refusal::Stranger)),
        (ask(3), down(2)),
        (ask(0), rings(Blow::Undrawn)),
    ];
    four.answers(rt, &next_rounds);
    let orders = [
        (draw(9), Err(Refusal::Stranger)),
        (draw(2), Err(Refusal::Silent)),
        (struck(0, 3), Err(Refusal::Order)),
        (draw(0), drawn(3)),
        (draw(0), Err(Refusal::Order)),
        (ask(0), rings(Blow::Out)),
        (ROUND, Err(Refusal::Over)),
        (struck(0, 2), Err(Refusal::Order)),
        (missed(1, 3), Err(Refusal::Order)),
        (missed(2, 1), Err(Refusal::Order)),
        (struck(u32::MAX, 3), Err(Refusal::Order)),
        (draw(1), drawn(3)),
        (struck(0, 3), DONE),
        (missed(0, 3), Err(Refusal::Order)),
        (draw(0), Err(Refusal::Order)),
        (ask(0), rings(Blow::Struck)),
        (ask(1), rings(Blow::Out)),
        (missed(1, 3), DONE),
        (struck(1, 3), Err(Refusal::Order)),
        (draw(1), Err(Refusal::Order)),
        (ask(1), rings(Blow::Missed)),
        (ROUND, Err(Refusal::Over)),
        (fall(1, 0), Err(Refusal::Over)),
    ];
    four.answers(rt, &orders);
    four.end(rt);
    Ok(())
}

// n, t, and how many places and proposals are given.
type Company = (u32, u32, usize, usize);

// The row stays, and the wire is given back.
fn make_refused<W: NewWire>(
    rt: &impl Abort,
    wire: W,
    company: Company,
    refusal: Refusal,
) -> Result<W, Fail> {
    let (n, t, places, count) = company;
    let mut row = [Place::default(); 5];
    let pieces = proposals()?;
    assert!(rt; places <= row.len() && count <= pieces.len());
    match Ringing::make(n, t, wire, &mut row[..places], &pieces[..count]) {
        Ok(_) => panic!(rt; "made"),
        Err(Refused { value, fault }) => {
            assert_eq!(rt; fault, refusal, "{company:?}");
            assert!(rt; row == [Place::default(); 5]);
            Ok(value)
        }
    }
}

// On a wire for four: new, with a box falling, and with a box down.
pub(crate) fn of_makes<W: NewWire>(rt: &impl Abort) -> Result<(), Fail> {
    let mut wire = W::new_wire(4)?;
    for (company, refusal) in [
        ((1, 1, 1, 1), Refusal::Company),
        ((33, 2, 4, 4), Refusal::Company),
        ((4, 0, 4, 4), Refusal::Company),
        ((4, 4, 3, 3), Refusal::Company),
        ((4, 2, 3, 4), Refusal::Row),
        ((4, 2, 5, 4), Refusal::Row),
        ((4, 2, 4, 3), Refusal::Row),
        ((3, 2, 4, 4), Refusal::Row),
        ((3, 2, 3, 3), Refusal::Wire),
    ] {
        wire = make_refused(rt, wire, company, refusal)?;
    }
    wire.fall(BoxNumber(1), BoxSet::empty())?;
    let mut wire = make_refused(rt, wire, (4, 2, 4, 4), Refusal::Wire)?;
    assert_eq!(rt; wire.falling().mask(), 0b0010);
    wire.close();
    let wire = make_refused(rt, wire, (4, 2, 4, 4), Refusal::Wire)?;
    assert_eq!(rt; wire.up().mask(), 0b1101);
    Ok(())
}

// Each call refuses such a row first, whatever else is wrong, and leaves it.
fn row_refused<W: NewWire>(rt: &impl Abort, four: &mut OfFour<W>, row: [Place<Piece>; 4]) {
    const NO: Answer = Err(Refusal::Row);
    let own = four.row;
    four.row = row;
    let calls = [
        (fall(9, 0), NO),
        (NARROW, NO),
        (ROUND, NO),
        (ask(9), NO),
        (draw(0), NO),
        (draw(9), NO),
        (struck(0, 3), NO),
        (missed(9, 3), NO),
    ];
    four.answers(rt, &calls);
    assert!(rt; four.row == row);
    four.row = own;
}

pub(crate) fn of_rows<W: NewWire>(rt: &impl Abort) -> Result<(), Fail> {
    let pieces = proposals()?;
    let rung = Place::Rung(Rung {
        round: RoundNumber(2),
        proposal: pieces[2],
        blow: Blow::Undrawn,
    });
    let down = Place::default();
    let mut of_more = [down; 4];
    let _ = make::<W, _>(3, &mut of_more, &pieces)?;
    let new = OfFour::<W>::after(rt, &[]);
    let mut played = OfFour::<W>::after(rt, &[ROUND]);
    let mut fallen = OfFour::<W>::after(rt, &[fall(0, 0b1110), ROUND]);
    let mut over = OfFour::<W>::after(rt, &[ROUND, ROUND, ROUND, draw(0)]);
    let [a, b, c, d] = played.row;
    let [_, x, y, z] = fallen.row;
    // Of another round, and of another t; exchanged; down, missed or ringing in another round, though box 0 is up.
    row_refused(rt, &mut played, new.row);
    row_refused(rt, &mut played, of_more);
    row_refused(rt, &mut played, [b, a, c, d]);
    row_refused(rt, &mut played, [down, b, c, d]);
    row_refused(rt, &mut played, [a, x, y, z]);
    row_refused(rt, &mut played, [rung, b, c, d]);
    // Up or ringing, though box 0 is down.
    row_refused(rt, &mut fallen, [a, x, y, z]);
    row_refused(rt, &mut fallen, [rung, x, y, z]);
    // With an order of that row in hand.
    mem::swap(&mut over.ringing, &mut played.ringing);
    let row = over.row;
    row_refused(rt, &mut over, row);
    mem::swap(&mut over.ringing, &mut played.ringing);
    over.answers(rt, &[(struck(0, 3), DONE)]);
    new.end(rt);
    played.end(rt);
    fallen.end(rt);
    over.end(rt);
    Ok(())
}

// A list with so many places for answers is refused: all stays as it was.
fn list_refused<W: NewWire>(rt: &impl Abort, four: &mut OfFour<W>, room: usize) {
    let row = four.row;
    let mut answers = [UNTOUCHED; 2];
    assert!(rt; room <= answers.len());
    let calls = [draw(1), ask(0)];
    let places = &mut answers[..room];
    let made = make_calls(
        &mut four.ringing,
        &mut four.row,
        &mut four.orders,
        &calls,
        places,
    );
    assert_eq!(rt; made, Err(Refusal::Row));
    assert!(rt; four.row == row && answers == [UNTOUCHED; 2]);
}

// The order of box 0 is out for round 3; in the second ringing those of boxes 0 and 1, for round 2.
pub(crate) fn of_lists<W: NewWire>(rt: &impl Abort) {
    let mut four = OfFour::<W>::after(rt, &[ROUND, ROUND, ROUND, draw(0)]);
    let sooner = [
        fall(2, 0b0011),
        fall(3, 0b0011),
        ROUND,
        ROUND,
        draw(0),
        draw(1),
    ];
    let mut sooner = OfFour::<W>::after(rt, &sooner);
    // Too few places for answers, slots for fewer boxes and for more, and an order in another slot.
    list_refused(rt, &mut four, 0);
    list_refused(rt, &mut four, 1);
    let fewer = make_calls(
        &mut four.ringing,
        &mut four.row,
        &mut four.orders[..3],
        &[],
        &mut [],
    );
    let more = make_calls(
        &mut four.ringing,
        &mut four.row[..3],
        &mut four.orders,
        &[],
        &mut [],
    );
    assert_eq!(rt; (fewer, more), (Err(Refusal::Row), Err(Refusal::Row)));
    four.orders.swap(0, 1);
    list_refused(rt, &mut four, 2);
    four.orders.swap(0, 1);
    // The order in hand is for another round; one is in hand that is not out; one is out that is not in hand.
    for (p, q) in [(0, 0), (1, 1), (0, 2)] {
        assert!(rt; p < 4 && q < 4);
        mem::swap(&mut four.orders[p], &mut sooner.orders[q]);
        list_refused(rt, &mut four, 2);
        mem::swap(&mut four.orders[p], &mut sooner.orders[q]);
    }
    four.answers(rt, &[(struck(0, 3), DONE)]);
    sooner.answers(rt, &[(missed(0, 2), DONE), (struck(1, 2), DONE)]);
    four.end(rt);
    sooner.end(rt);
}

fn given_back(
    rt: &impl Abort,
    reported: Result<(), Refused<StrikeOrder, Refusal>>,
    refusal: Refusal,
) -> StrikeOrder {
    match reported {
        Ok(()) => panic!(rt; "the order is taken back"),
        Err(Refused { value, fault }) => {
            assert_eq!(rt; fault, refusal);
            value
        }
    }
}

// Both reports of the order in the slot are refused: the row stays, and it comes back.
fn order_refused<W: Wire>(
    rt: &impl Abort,
    ringing: &Ringing<W>,
    row: [Place<Piece>; 4],
    slot: &mut Option<StrikeOrder>,
    refusal: Refusal,
) {
    let mut tried = row;
    match slot.take() {
        Some(order) => {
            let told = (order.number(), order.round());
            let order = given_back(rt, ringing.struck(&mut tried, order), refusal);
            let order = given_back(rt, ringing.missed(&mut tried, order), refusal);
            assert!(rt; tried == row && told == (order.number(), order.round()));
            is_free(rt, slot.replace(order));
        }
        None => panic!(rt; "no order is in hand"),
    }
}

// The order of box 0 is out and that of box 1 struck, box 2 is down, and the order of box 3 is not drawn.
pub(crate) fn of_reports<W: NewWire>(rt: &impl Abort) {
    let here = [
        fall(2, 0b0001),
        ROUND,
        ROUND,
        ROUND,
        draw(0),
        draw(1),
        struck(1, 3),
    ];
    let mut four = OfFour::<W>::after(rt, &here);
    let whole = [ROUND, ROUND, ROUND, draw(0), draw(1), draw(2), draw(3)];
    let mut whole = OfFour::<W>::after(rt, &whole);
    let sooner = [fall(2, 0b0011), fall(3, 0b0011), ROUND, ROUND, draw(0)];
    let mut sooner = OfFour::<W>::after(rt, &sooner);
    // For the same round, of boxes whose order is not out here; and for another. The row counts first.
    for order in &mut whole.orders[1..] {
        order_refused(rt, &four.ringing, four.row, order, Refusal::Order);
    }
    let (here, there) = (four.row, sooner.row);
    let early = &mut sooner.orders[0];
    order_refused(rt, &four.ringing, here, early, Refusal::Order);
    order_refused(rt, &four.ringing, there, early, Refusal::Row);
    let own = &mut four.orders[0];
    order_refused(rt, &sooner.ringing, there, own, Refusal::Order);
    order_refused(rt, &sooner.ringing, here, own, Refusal::Row);
    // Orders tell box and round alone: two ringings in which equal ones are out take each other's back, and none a second.
    mem::swap(&mut four.orders[0], &mut whole.orders[0]);
    four.answers(rt, &[(struck(0, 3), DONE)]);
    order_refused(
        rt,
        &four.ringing,
        four.row,
        &mut whole.orders[0],
        Refusal::Order,
    );
    for p in 0..4 {
        whole.answers(rt, &[(missed(p, 3), DONE)]);
    }
    sooner.answers(rt, &[(struck(0, 2), DONE)]);
    four.end(rt);
    whole.end(rt);
    sooner.end(rt);
}
