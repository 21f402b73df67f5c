// A list of calls on a ringing of four boxes, over a board and over a tape, some of them refused: each call, its answer, and what is told of
// each box after it. Box 2 falls in round 1, and box 0 does not hear it; the others ring, and their strike orders are drawn and given back.
#![tactic(auto)]

ghost use Rattle.std.specs.Prelude.{◌≡◌};
ghost use Rattle.ringing.specs.RingingStates.{state_of};
ghost use Rattle.show_strikes.specs.Returned.{IsTakenBack, orders_returned, AreReady};

use base::Refusal;
use call_lists::make_calls;
use fixtures::{NARROW, NewWire, ROUND, ask, draw, fall, missed, proposals, struck};
use machine::{Place, Standing};
use promise::{Reply, Request};
use proposals::Piece;
use ringing::{Ringing, StrikeOrder};
use std::io;
use wire::{Board, Tape, Wire};

// The company: four boxes, of which two may fall.
const N: u32 = 4;

const T: u32 = 2;

// How many calls there are, how many places one takes in the list with the questions after it, and how long the list is.
const CALLS: usize = 26;

const STEP: usize = 1 + N as usize;

const LENGTH: usize = STEP * CALLS;

fn calls() -> [Request; CALLS] {
    [
        ask(1),
        ask(9),
        draw(0),
        fall(2, 0b00001),
        fall(3, 0b10000),
        fall(2, 0b00010),
        NARROW,
        ROUND,
        ask(2),
        ROUND,
        draw(1),
        ROUND,
        ROUND,
        fall(1, 0b00001),
        draw(0),
        draw(1),
        draw(3),
        draw(0),
        draw(2),
        draw(9),
        struck(0, 3),
        missed(1, 3),
        struck(3, 2),
        missed(0, 3),
        struck(3, 3),
        ask(3),
    ]
}

// The calls, and after each of them each box is asked after.
fn list() -> [Request; LENGTH] {
    let mut list = [ROUND; LENGTH];
    for (i, request) in calls().iter().enumerate() {
        list[STEP * i] = *request;
        for p in 0..N {
            list[STEP * i + 1 + p as usize] = ask(p);
        }
    }
    list
}

fn show_request(rt: &impl Print, request: Request) -> io::Result<()> {
    match request {
        Request::Fall(q, lost) => print!(rt; "fall {q} {lost}"),
        Request::Round(room) => print!(rt; "round {room}"),
        Request::Ask(p) => print!(rt; "ask {p}"),
        Request::Draw(p) => print!(rt; "draw {p}"),
        Request::Struck(p, round) => print!(rt; "struck {p} {round}"),
        Request::Missed(p, round) => print!(rt; "missed {p} {round}"),
    }
}

// The word for what is told of a box, and the round and the piece if there are any.
fn show_standing(rt: &impl Print, standing: Standing<Piece>) -> io::Result<()> {
    let word = standing.word();
    match (standing.round(), standing.proposal()) {
        (Some(round), Some(piece)) => print!(rt; "{word} {round} {piece}"),
        (Some(round), None) => print!(rt; "{word} {round}"),
        (None, _) => print!(rt; "{word}"),
    }
}

fn show_answer(rt: &impl Print, answer: Result<Reply<Piece>, Refusal>) -> io::Result<()> {
    match answer {
        Ok(Reply::Done) => println!(rt; ": done"),
        Ok(Reply::Told(standing)) => {
            print!(rt; ": told ")?;
            show_standing(rt, standing)?;
            println!(rt)
        }
        Ok(Reply::Drawn(round)) => println!(rt; ": out for round {round}"),
        Err(refusal) => println!(rt; ": refused {refusal}"),
    }
}

// A line of what is told of all boxes.
fn show_told(rt: &impl Print, told: &[Result<Reply<Piece>, Refusal>]) -> io::Result<()> {
    for (p, answer) in told.iter().enumerate() {
        if p > 0 {
            print!(rt; ";")?;
        }
        print!(rt; " {p} ")?;
        match answer {
            Ok(Reply::Told(standing)) => show_standing(rt, *standing)?,
            Ok(Reply::Done | Reply::Drawn(_)) => print!(rt; "done")?,
            Err(refusal) => print!(rt; "refused {refusal}")?,
        }
    }
    println!(rt)
}

// Each call with its answer, and what was told of the boxes after it.
fn show_answers(
    rt: &impl Print,
    list: &[Request],
    answers: &[Result<Reply<Piece>, Refusal>],
) -> io::Result<()> {
    for (asked, told) in list.chunks(STEP).zip(answers.chunks(STEP)) {
        if let (Some(request), Some((answer, boxes))) = (asked.first(), told.split_first()) {
            show_request(rt, *request)?;
            show_answer(rt, *answer)?;
            show_told(rt, boxes)?;
        }
    }
    Ok(())
}

// Gives back an order that is still in hand, as missed. It is proved that it is taken back.
fn give_back<W: Wire>(ringing: &Ringing<W>, row: &mut [Place<Piece>], slot: Option<StrikeOrder>)
    requires { let s = state_of ringing.now row.old in IsTakenBack s slot }
    ensures { let s = state_of ringing.now row.old in
        state_of ringing.now row.new ≡ orders_returned slot s }
{
    match slot {
        None => (),
        Some(order) => match ringing.missed(row, order) {
            Ok(()) => (),
            Err(_) => unreachable!(),
        },
    }
}

// And all that are. None is by the list above, but no proof here knows that.
fn give_all_back<W: Wire>(
    ringing: &Ringing<W>,
    row: &mut [Place<Piece>],
    orders: [Option<StrikeOrder>; 4],
)
    requires { AreReady (state_of ringing.now row.old) orders }
{
    let [first, second, third, fourth] = orders;
    give_back(ringing, row, first);
    give_back(ringing, row, second);
    give_back(ringing, row, third);
    give_back(ringing, row, fourth);
}

// All calls over a wire.
fn play<W: Wire + Drop>(rt: &impl Print, wire: W, proposals: &[Piece; 4]) -> io::Result<()> {
    let mut row = [Place::default(); 4];
    let mut ringing = match Ringing::make(N, T, wire, &mut row, proposals) {
        Ok(ringing) => ringing,
        Err(refused) => return println!(rt; "refused {}", refused.fault),
    };
    let mut orders: [Option<StrikeOrder>; 4] = [None, None, None, None];
    let list = list();
    let mut answers = [Ok(Reply::Done); LENGTH];
    let performed = make_calls(&mut ringing, &mut row, &mut orders, &list, &mut answers);
    give_all_back(&ringing, &mut row, orders);
    match performed {
        Ok(()) => show_answers(rt, &list, &answers),
        Err(refusal) => println!(rt; "refused {refusal}"),
    }
}

// Over a new wire.
fn play_on<W: NewWire>(rt: &impl Print, proposals: &[Piece; 4]) -> io::Result<()> {
    match W::new_wire(N) {
        Ok(wire) => play(rt, wire, proposals),
        Err(refusal) => println!(rt; "refused {refusal}"),
    }
}

fn play_both(rt: &impl Print, proposals: &[Piece; 4]) -> io::Result<()> {
    println!(rt; "board")?;
    play_on::<Board>(rt, proposals)?;
    println!(rt; "tape")?;
    play_on::<Tape>(rt, proposals)
}

fn main(rt: HostRuntime) -> io::Result<()> {
    match proposals() {
        Ok(proposals) => play_both(&rt, &proposals),
        Err(refusal) => println!(&rt; "refused {refusal}"),
    }
}
