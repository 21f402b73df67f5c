// Three boxes run by hand, step by step. Box 2 loses power while it sends in round 1: only box 0 hears it. The others go on
// until they ring.
#![tactic(auto)]

use base::Refusal;
use boxes::{BoxFault, Closed, Listening, Resting};
use frames::{HexBytes, LONGEST_FRAME};
use proposals::Piece;
use sets::BoxNumber;
use std::io;

// The company: three boxes, of which one may fall.
const N: u32 = 3;

const T: u32 = 1;

fn made(number: u32, piece: u16) -> Result<Resting<Piece>, Refusal> {
    Resting::new(BoxNumber(number), N, T, Piece::new(piece)?)
}

fn company() -> Result<[Resting<Piece>; 3], Refusal> {
    Ok([made(0, 30)?, made(1, 20)?, made(2, 10)?])
}

fn show_box(rt: &impl Print, b: Resting<Piece>) -> io::Result<()> {
    println!(rt;
        "box {} at rest, closed {}, estimate {}, missing {}, horizon {}",
        b.number(),
        b.closed(),
        b.estimate(),
        b.missing(),
        b.horizon()
    )
}

fn show_fault(rt: &impl Print, hearer: BoxNumber, fault: BoxFault) -> io::Result<()> {
    println!(rt;
        "box {hearer} in round {}: refused {}",
        fault.round(),
        fault.refusal()
    )
}

// The sender composes its frame into bytes that are lent, and the hearer is told it.
fn tell(
    rt: &impl Print,
    sender: Resting<Piece>,
    listening: &mut Listening<Piece>,
) -> io::Result<()> {
    let mut line = [0; LONGEST_FRAME];
    let frame = match sender.compose(&mut line) {
        Ok(len) => &line[..len],
        Err(refusal) => return println!(rt; "refused {refusal}"),
    };
    println!(rt; "box {} sends{}", sender.number(), HexBytes(frame))?;
    match listening.hear(frame) {
        Ok(()) => println!(rt; "box {} hears box {}", listening.number(), sender.number()),
        Err(fault) => show_fault(rt, listening.number(), fault),
    }
}

// What is left of the box at rest, if it is.
fn close(rt: &impl Print, listening: Listening<Piece>) -> io::Result<Option<Resting<Piece>>> {
    let number = listening.number();
    match listening.close() {
        Ok(Closed::Rests(b)) => {
            show_box(rt, b)?;
            Ok(Some(b))
        }
        Ok(Closed::Rings { round, proposal }) => {
            println!(rt; "box {number} rings in round {round} on piece {proposal}")?;
            Ok(None)
        }
        Err(refused) => {
            show_fault(rt, number, refused.fault)?;
            Ok(None)
        }
    }
}

// A round of two boxes that hear each other, and in it what a third sends to the first of them before it falls.
fn round(
    rt: &impl Print,
    first: Resting<Piece>,
    second: Resting<Piece>,
    falling: Option<Resting<Piece>>,
) -> io::Result<Option<(Resting<Piece>, Resting<Piece>)>> {
    let mut one = first.open();
    let mut other = second.open();
    tell(rt, second, &mut one)?;
    if let Some(third) = falling {
        tell(rt, third, &mut one)?;
        println!(rt; "box {} falls", third.number())?;
    }
    tell(rt, first, &mut other)?;
    let left = close(rt, one)?;
    Ok(left.zip(close(rt, other)?))
}

fn play(rt: &impl Print, boxes: [Resting<Piece>; 3]) -> io::Result<()> {
    for b in boxes {
        show_box(rt, b)?;
    }
    let [first, second, third] = boxes;
    if let Some((one, other)) = round(rt, first, second, Some(third))? {
        round(rt, one, other, None)?;
    }
    Ok(())
}

fn main(rt: HostRuntime) -> io::Result<()> {
    match company() {
        Ok(boxes) => play(&rt, boxes),
        Err(refusal) => println!(rt; "refused {refusal}"),
    }
}
