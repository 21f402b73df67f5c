// A ringing of four boxes, over a board and over a tape: what is told of each box after each round. Box 2 falls in round 1, and box 0
// does not hear it.
#![tactic(auto)]

use base::Refusal;
use fixtures::{NewWire, proposals};
use frames::LONGEST_FRAME;
use machine::{Place, Standing, is_over};
use proposals::Piece;
use ringing::Ringing;
use sets::{BoxNumber, BoxSet};
use std::io;
use wire::{Board, Tape, Wire};

// The company: four boxes, of which two may fall.
const N: u32 = 4;

const T: u32 = 2;

fn make<W: NewWire>(row: &mut [Place<Piece>]) -> Result<Ringing<W>, Refusal> {
    Ok(Ringing::make(N, T, W::new_wire(N)?, row, &proposals()?)?)
}

// A line of what is told of a box: its number, the word, and the round and the piece if there are any.
fn show_standing(rt: &impl Print, p: BoxNumber, standing: Standing<Piece>) -> io::Result<()> {
    let word = standing.word();
    match (standing.round(), standing.proposal()) {
        (Some(round), Some(piece)) => println!(rt; "{p} {word} {round} {piece}"),
        (Some(round), None) => println!(rt; "{p} {word} {round}"),
        (None, _) => println!(rt; "{p} {word}"),
    }
}

fn show_row<W: Wire>(
    rt: &impl Print,
    ringing: &Ringing<W>,
    row: &[Place<Piece>],
) -> io::Result<()> {
    for p in 0..N {
        match ringing.ask(row, BoxNumber(p)) {
            Ok(standing) => show_standing(rt, BoxNumber(p), standing)?,
            Err(refusal) => println!(rt; "{p} refused {refusal}")?,
        }
    }
    Ok(())
}

// Round after round, up to the one in which the boxes ring.
fn play_rounds<W: Wire>(
    rt: &impl Print,
    ringing: &mut Ringing<W>,
    row: &mut [Place<Piece>],
) -> io::Result<()> {
    let mut line = [0; LONGEST_FRAME];
    for round in 1..=T + 1 {
        println!(rt; "round {round}")?;
        match ringing.round(row, &mut line) {
            Ok(()) => show_row(rt, ringing, row)?,
            Err(refusal) => println!(rt; "refused {refusal}")?,
        }
        if is_over(row) {
            break;
        }
    }
    Ok(())
}

// The whole ringing over a new wire.
fn play<W: NewWire>(rt: &impl Print) -> io::Result<()> {
    let mut row = [Place::default(); 4];
    let mut ringing = match make::<W>(&mut row) {
        Ok(ringing) => ringing,
        Err(refusal) => return println!(rt; "refused {refusal}"),
    };
    match ringing.fall(&row, BoxNumber(2), BoxSet::only(BoxNumber(0))) {
        Ok(()) => println!(rt; "fall ok")?,
        Err(refusal) => println!(rt; "fall refused {refusal}")?,
    }
    play_rounds(rt, &mut ringing, &mut row)
}

fn main(rt: HostRuntime) -> io::Result<()> {
    println!(&rt; "board")?;
    play::<Board>(&rt)?;
    println!(&rt; "tape")?;
    play::<Tape>(&rt)
}
