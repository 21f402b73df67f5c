// Runs that are worked out by the rule: who rings, in which round and on what.
use super::of_four::make;
use base::Refusal;
use fixtures::{NewWire, proposals};
use frames::LONGEST_FRAME;
use machine::{Blow, Place, Rung, Standing};
use proposals::Piece;
use ringing::Ringing;
use sets::{BoxNumber, BoxSet, RoundNumber};
use std::process::Abort;
use std::test::Fail;
use wire::Wire;

// In which round a box falls, which box, and who does not hear it, as a mask.
type Fall = (u32, u32, u32);

// Who falls, and in which round and on which piece the others ring.
type Run<'a> = (&'a [Fall], u32, u16);

const OF_TWO: [Run<'static>; 3] = [
    (&[], 2, 20),
    (&[(2, 1, 0b01)], 2, 20),
    (&[(1, 1, 0b01)], 2, 30),
];

const OF_FOUR: [Run<'static>; 9] = [
    (&[], 3, 10),
    (&[(1, 2, 0b0001)], 3, 10),
    (&[(1, 2, 0b0011), (1, 3, 0b0011)], 2, 20),
    (&[(1, 2, 0b0001), (1, 3, 0b0001)], 2, 10),
    (&[(1, 2, 0b1000), (2, 3, 0b0011)], 3, 10),
    (&[(1, 2, 0b1000), (1, 3, 0)], 3, 10),
    (&[(1, 2, 0b0011), (2, 3, 0b0001)], 3, 10),
    (&[(1, 2, 0b1011)], 3, 20),
    (&[(3, 2, 0)], 3, 10),
];

// What is told of each box after the round: those that fell are down, and others stand as given.
fn tells<W: Wire>(
    rt: &impl Abort,
    ringing: &Ringing<W>,
    row: &[Place<Piece>],
    falls: &[Fall],
    round: u32,
    others: Standing<Piece>,
) {
    for p in 0..ringing.wire().n() {
        let mut wanted = others;
        for (r, q, _) in falls {
            if *q == p && *r <= round {
                wanted = Standing::Down(RoundNumber(*r));
            }
        }
        assert_eq!(rt;
            ringing.ask(row, BoxNumber(p)),
            Ok(wanted),
            "{p} after {round}"
        );
    }
}

// The order of each box that rings is for this round, and is taken back.
fn strikes<W: Wire>(rt: &impl Abort, ringing: &Ringing<W>, row: &mut [Place<Piece>], round: u32) {
    for p in 0..ringing.wire().n() {
        match ringing.draw(row, BoxNumber(p)) {
            Ok(order) => {
                let told = (order.number(), order.round());
                assert_eq!(rt; told, (BoxNumber(p), RoundNumber(round)));
                match ringing.struck(row, order) {
                    Ok(()) => {}
                    Err(_) => panic!(rt; "the order of {p} is refused"),
                }
            }
            Err(refusal) => assert_eq!(rt; refusal, Refusal::Silent),
        }
    }
}

// After each round but the last every box that has not fallen is up. After the last it rings, and its blow is struck.
fn rings<W: NewWire>(rt: &impl Abort, t: u32, pieces: &[Piece], run: Run) -> Result<(), Fail> {
    let (falls, last, piece) = run;
    let mut places = [Place::default(); 32];
    assert!(rt; pieces.len() <= places.len());
    let row = &mut places[..pieces.len()];
    let mut ringing = make::<W, _>(t, row, pieces)?;
    for round in 1..=last {
        for (r, q, lost) in falls {
            if *r == round {
                ringing.fall(row, BoxNumber(*q), BoxSet::from_mask(*lost))?;
            }
        }
        if round > 1 {
            tells(rt, &ringing, row, falls, round - 1, Standing::Up);
        }
        ringing.round(row, &mut [0; LONGEST_FRAME])?;
    }
    let mut rung = Rung {
        round: RoundNumber(last),
        proposal: Piece::new(piece)?,
        blow: Blow::Undrawn,
    };
    tells(rt, &ringing, row, falls, last, Standing::Rung(rung));
    strikes(rt, &ringing, row, last);
    rung.blow = Blow::Struck;
    tells(rt, &ringing, row, falls, last, Standing::Rung(rung));
    Ok(())
}

// Of 32 boxes one falls in each round, heard by the next alone: from box 31, which has the smallest piece, down to box 1.
pub(crate) fn rings_by_the_rule<W: NewWire>(rt: &impl Abort) -> Result<(), Fail> {
    for run in OF_TWO {
        rings::<W>(rt, 1, &[Piece::new(30)?, Piece::new(20)?], run)?;
    }
    for run in OF_FOUR {
        rings::<W>(rt, 2, &proposals()?, run)?;
    }
    let mut pieces = [Piece::new(500)?; 32];
    let mut falls = [(0, 0, 0); 31];
    for (i, fall) in falls.iter_mut().enumerate() {
        let q = 31 - i as u32;
        *fall = (i as u32 + 1, q, !(0b11 << (q - 1)));
        pieces[q as usize] = Piece::new(500 - q as u16)?;
    }
    rings::<W>(rt, 31, &pieces, (&falls, 32, 469))
}
