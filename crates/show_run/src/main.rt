// A run of four boxes, each hearing just whom the rule lets it hear: what each then holds, the horizon of the round as it is added up here,
// and who rings. Box 2 loses power while it sends in round 1, and box 0 does not hear it.
#![tactic(auto)]

use base::Refusal;
use boxes::{BoxFault, Closed, Listening, Resting};
use fixtures::proposals;
use frames::LONGEST_FRAME;
use proposals::Piece;
use rule::{Fall, closes, hears};
use sets::{BoxNumber, BoxSet, RoundNumber};
use std::io;

// The company: four boxes, of which two may fall.
const N: u32 = 4;

const T: u32 = 2;

// A box of the company, while it is up and has not rung, and its fall if it falls.
#[derive(Clone, Copy)]
struct Seat {
    held: Option<Resting<Piece>>,
    fall: Option<Fall>,
}

fn seat_of(number: u32, piece: Piece, fall: Option<Fall>) -> Result<Seat, Refusal> {
    let held = Resting::new(BoxNumber(number), N, T, piece)?;
    Ok(Seat {
        held: Some(held),
        fall,
    })
}

fn company() -> Result<[Seat; 4], Refusal> {
    let fall = Fall {
        round: RoundNumber(1),
        lost: BoxSet::only(BoxNumber(0)),
    };
    let [first, second, third, fourth] = proposals()?;
    Ok([
        seat_of(0, first, None)?,
        seat_of(1, second, None)?,
        seat_of(2, third, Some(fall))?,
        seat_of(3, fourth, None)?,
    ])
}

// What a box has heard in a round.
#[derive(Clone, Copy)]
struct Heard {
    listening: Listening<Piece>,
    // The boxes that it has not heard, and those that it knows to be missing.
    missing: BoxSet,
    known: BoxSet,
}

// The sender composes its frame, and the listener hears it.
fn tell(listening: &mut Listening<Piece>, sender: Resting<Piece>) -> Result<(), Refusal> {
    let mut line = [0; LONGEST_FRAME];
    let len = sender.compose(&mut line)?;
    listening.hear(&line[..len]).map_err(BoxFault::refusal)
}

// The box hears all that the rule lets it hear in the round.
fn listen(hearer: Resting<Piece>, round: RoundNumber, seats: &[Seat; 4]) -> Result<Heard, Refusal> {
    let mut listening = hearer.open();
    let mut missing = BoxSet::all_below(N).difference(BoxSet::only(hearer.number()));
    let mut known = hearer.missing();
    for seat in seats {
        if let Some(sender) = seat.held {
            if sender.number() != hearer.number()
                && hears(hearer.number(), round, sender.number(), seat.fall)
            {
                tell(&mut listening, sender)?;
                missing = missing.difference(BoxSet::only(sender.number()));
                known = known.union(sender.missing());
            }
        }
    }
    Ok(Heard {
        listening,
        missing,
        known,
    })
}

// Closes the round, with a line of what the box then holds; what is left of it at rest, if it is.
fn close(
    rt: &impl Print,
    hearer: Resting<Piece>,
    round: RoundNumber,
    heard: Heard,
) -> io::Result<Option<Resting<Piece>>> {
    let horizon = RoundNumber(
        round
            .0
            .saturating_add(T)
            .saturating_sub(heard.known.count()),
    );
    let (estimate, missing, best, left) = match heard.listening.close() {
        Ok(Closed::Rests(b)) => (b.estimate(), b.missing(), b.horizon(), Some(b)),
        Ok(Closed::Rings { round, proposal }) => (proposal, heard.missing, round, None),
        Err(refused) => {
            println!(rt;
                "box {} refused {}",
                hearer.number(),
                refused.fault.refusal()
            )?;
            return Ok(None);
        }
    };
    println!(rt;
        "box {}: estimate {estimate}, missing {missing}, horizon {horizon}, best horizon {best}{}",
        hearer.number(),
        if left.is_some() { "" } else { ", rings" }
    )?;
    Ok(left)
}

// What becomes of a seat in the round.
fn next(rt: &impl Print, seat: Seat, round: RoundNumber, seats: &[Seat; 4]) -> io::Result<Seat> {
    let held = match seat.held {
        Some(hearer) if closes(seat.fall, round) => match listen(hearer, round, seats) {
            Ok(heard) => close(rt, hearer, round, heard)?,
            Err(refusal) => {
                println!(rt; "box {} refused {refusal}", hearer.number())?;
                None
            }
        },
        Some(hearer) => {
            println!(rt; "box {} falls", hearer.number())?;
            None
        }
        None => None,
    };
    Ok(Seat { held, ..seat })
}

fn play_round(rt: &impl Print, seats: [Seat; 4], round: RoundNumber) -> io::Result<[Seat; 4]> {
    println!(rt; "round {round}")?;
    let [first, second, third, fourth] = seats;
    Ok([
        next(rt, first, round, &seats)?,
        next(rt, second, round, &seats)?,
        next(rt, third, round, &seats)?,
        next(rt, fourth, round, &seats)?,
    ])
}

fn main(rt: HostRuntime) -> io::Result<()> {
    let mut seats = match company() {
        Ok(seats) => seats,
        Err(refusal) => return println!(&rt; "refused {refusal}"),
    };
    for round in 1..=T + 1 {
        seats = play_round(&rt, seats, RoundNumber(round))?;
    }
    Ok(())
}
