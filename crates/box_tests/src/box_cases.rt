// Boxes of pieces, as tables of what is told to them and what comes of it. A frame of four bytes is round, sender, missing set and piece.
use base::Refusal;
use boxes::{Closed, Listening, Resting};
use frames::Field;
use proposals::Piece;
use sets::{BoxNumber, BoxSet, RoundNumber};
use std::alloc::Global;
use std::process::Abort;
use std::test::Fail;

// What is done with a box, and what is wanted then.
#[derive(Clone, Copy)]
enum Step<'a> {
    // Another box is made, by number, n, t and piece, and opens its first round.
    Make(u32, u32, u32, u16),
    // It hears these frames.
    Hear(&'a [[u8; 4]]),
    // It refuses bytes with this fault, and stays as it was.
    Refuse(&'a [u8], &'a str),
    // It refuses to close its round with this fault, and stays as it was.
    Stay(&'a str),
    // It hears these, closes its round, holds this piece, missing set and horizon, and opens the next.
    Rest(&'a [[u8; 4]], u16, u32, u32),
    // It hears these, and rings in this round on this piece.
    Ring(&'a [[u8; 4]], u32, u16),
}

use Step::{Hear, Make, Refuse, Rest, Ring, Stay};

fn made(number: u32, n: u32, t: u32, piece: u16) -> Result<Resting<Piece>, Refusal> {
    Resting::new(BoxNumber(number), n, t, Piece::new(piece)?)
}

fn hear(listening: &mut Listening<Piece>, frames: &[[u8; 4]]) -> Result<(), Fail> {
    for frame in frames {
        listening.hear(frame)?;
    }
    Ok(())
}

// Whether the step goes as is wanted.
fn goes(alloc: Global, listening: &mut Listening<Piece>, step: Step<'_>) -> Result<bool, Fail> {
    let before = *listening;
    match step {
        Make(number, n, t, piece) => *listening = made(number, n, t, piece)?.open(),
        Hear(frames) => hear(listening, frames)?,
        Refuse(bytes, text) => {
            let fault = listening.hear(bytes).err().ok_or("it was heard")?;
            let told = format!(in alloc; "{fault}")?;
            return Ok(*listening == before && told.as_str() == text);
        }
        Stay(text) => {
            let refused = listening.close().err().ok_or("it was closed")?;
            let told = format!(in alloc; "{}", refused.fault)?;
            return Ok(refused.value == before && told.as_str() == text);
        }
        Rest(frames, piece, missing, horizon) => {
            hear(listening, frames)?;
            let Closed::Rests(b) = listening.close()? else {
                return Ok(false);
            };
            *listening = b.open();
            return Ok(holds(b, piece, missing, horizon));
        }
        Ring(frames, round, piece) => {
            hear(listening, frames)?;
            let round = RoundNumber(round);
            let proposal = Piece::new(piece)?;
            return Ok(listening.close()? == Closed::Rings { round, proposal });
        }
    }
    Ok(true)
}

fn holds(b: Resting<Piece>, piece: u16, missing: u32, horizon: u32) -> bool {
    b.estimate().number() == piece
        && b.missing() == BoxSet::from_mask(missing)
        && b.horizon() == RoundNumber(horizon)
}

fn runs(rt: &impl Abort, alloc: Global, steps: &[Step<'_>]) -> Result<(), Fail> {
    let mut listening = made(0, 2, 1, 0)?.open();
    for (i, step) in steps.iter().enumerate() {
        assert!(rt; goes(alloc, &mut listening, *step)?, "step {i}");
    }
    Ok(())
}

#[test]
fn making_and_composing(rt: HostRuntime) -> Result<(), Fail> {
    let b = made(3, 4, 2, 200)?;
    assert_eq!(rt;
        (b.number(), b.n(), b.t(), b.closed()),
        (BoxNumber(3), 4, 2, 0)
    );
    assert!(rt; holds(b, 200, 0, 3));
    assert!(rt; holds(made(31, 32, 31, 20)?, 20, 0, 32));
    let cases = [
        (0, 1, 1, Refusal::Company),
        (0, 33, 1, Refusal::Company),
        (0, 4, 0, Refusal::Company),
        (0, 4, 4, Refusal::Company),
        (4, 4, 2, Refusal::Stranger),
        // The company before the number.
        (4, 4, 4, Refusal::Company),
    ];
    for (number, n, t, refusal) in cases {
        assert_eq!(rt; made(number, n, t, 20), Err(refusal));
    }
    let mut out = [0xaa; 6];
    assert_eq!(rt; b.compose(&mut out[..4]), Err(Refusal::Narrow));
    assert!(rt; out == [0xaa; 6]);
    assert_eq!(rt; b.compose(&mut out), Ok(5));
    assert!(rt; out == *b"\x01\x03\x00\x81\x48\xaa");
    Ok(())
}

#[test]
fn refusals(rt: HostRuntime) -> Result<(), Fail> {
    let steps = [
        Make(0, 4, 2, 30),
        Hear(&[[1, 1, 0, 20]]),
        Refuse(b"\x80\x01\x01\x00\x14", "3 padded round 0 in round 1"),
        Refuse(b"\x01\x90\x80\x80\x80\x00", "2 wide sender 1 in round 1"),
        Refuse(b"\x01\x01", "1 short set 2 in round 1"),
        Refuse(b"\x01\x01\x00\x81\x80\x00", "9 image image 3 in round 1"),
        Refuse(b"\x01\x01\x00\x14\x00", "4 surplus end 4 in round 1"),
        Refuse(b"\x02\x02\x00\x14", "6 off beat in round 1"),
        Refuse(b"\x01\x04\x00\x14", "5 stranger in round 1"),
        // Its own frame, and one heard before.
        Refuse(b"\x01\x00\x00\x1e", "7 heard in round 1"),
        Refuse(b"\x01\x01\x00\x14", "7 heard in round 1"),
        // A box from n on, the sender and the hearer.
        Refuse(b"\x01\x02\x10\x0a", "8 set in round 1"),
        Refuse(b"\x01\x02\x04\x0a", "8 set in round 1"),
        Refuse(b"\x01\x02\x01\x0a", "8 set in round 1"),
        // Of several faults the round's comes first, then the sender's, then who was heard, before the set.
        Refuse(b"\x02\x04\x10\x0a", "6 off beat in round 1"),
        Refuse(b"\x01\x04\x11\x0a", "5 stranger in round 1"),
        Refuse(b"\x01\x01\x10\x0a", "7 heard in round 1"),
        Rest(&[], 20, 0b1100, 3),
        // Who is missing, and before the set.
        Refuse(b"\x02\x02\x00\x0a", "14 down in round 2"),
        Refuse(b"\x02\x03\x01\x0a", "14 down in round 2"),
        Refuse(b"\x02\x00\x00\x14", "7 heard in round 2"),
        // Two boxes are not heard, where one may fall. What was heard stays heard.
        Make(0, 4, 1, 30),
        Hear(&[[1, 1, 0, 20]]),
        Stay("10 tally in round 1"),
        Rest(&[[1, 2, 0, 10]], 10, 0b1000, 2),
        // Box 2 is heard, and told missing.
        Make(0, 4, 2, 30),
        Hear(&[[1, 1, 4, 20], [1, 2, 0, 10]]),
        Stay("10 tally in round 1"),
        Hear(&[[1, 3, 0, 40]]),
        Stay("10 tally in round 1"),
    ];
    runs(&rt, rt.alloc(), &steps)?;
    let mut listening = made(0, 4, 2, 30)?.open();
    assert_eq!(rt; listening.number(), BoxNumber(0));
    let fault = listening
        .hear(b"\x01\x01\x80\x14")
        .err()
        .ok_or("it was heard")?;
    assert_eq!(rt;
        (fault.refusal(), fault.round()),
        (Refusal::Padded, RoundNumber(1))
    );
    assert_eq!(rt; (fault.field(), fault.place()), (Some(Field::Set), Some(2)));
    Ok(())
}

#[test]
fn rounds(rt: HostRuntime) -> Result<(), Fail> {
    let steps = [
        // Nobody falls, so both ring in round 2.
        Make(0, 2, 1, 30),
        Rest(&[[1, 1, 0, 20]], 20, 0, 2),
        Ring(&[[2, 1, 0, 20]], 2, 20),
        Make(1, 2, 1, 20),
        Rest(&[[1, 0, 0, 30]], 20, 0, 2),
        Ring(&[[2, 0, 0, 20]], 2, 20),
        // Boxes 2 and 3 fall in round 1, unheard by box 0. What box 0 missed itself does not count in round 1, and what
        // it learns from others counts in round 2: boxes 0 and 1 ring in 2.
        Make(0, 4, 2, 30),
        Rest(&[[1, 1, 0, 20]], 20, 0b1100, 3),
        Ring(&[[2, 1, 0, 10]], 2, 10),
        Make(1, 4, 2, 20),
        Rest(&[[1, 3, 0, 40], [1, 2, 0, 10], [1, 0, 0, 30]], 10, 0, 3),
        Ring(&[[2, 0, 12, 20]], 2, 10),
        // Box 2 falls in round 1, heard by nobody. After the horizon of round 1 that of round 2 is 3 and that of round 3
        // is 4, and box 0 rings in 3, by the earlier one.
        Make(0, 4, 2, 30),
        Rest(&[[1, 1, 0, 20], [1, 3, 0, 40]], 20, 0b0100, 3),
        Rest(&[[2, 1, 4, 20], [2, 3, 4, 20]], 20, 0b0100, 3),
        Ring(&[[3, 1, 4, 20], [3, 3, 4, 20]], 3, 20),
        // Boxes 3 and 4 of five fall: after round 1 the horizon is 4, as for a new box, and the rest is the same.
        Make(0, 5, 3, 30),
        Rest(&[[1, 1, 0, 20], [1, 2, 0, 40]], 20, 0b11000, 4),
        Rest(&[[2, 1, 24, 20], [2, 2, 24, 20]], 20, 0b11000, 3),
        Ring(&[[3, 1, 24, 20], [3, 2, 24, 20]], 3, 20),
    ];
    runs(&rt, rt.alloc(), &steps)
}
