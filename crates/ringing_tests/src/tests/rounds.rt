// What a round leaves behind: the line bytes, and the frames on the wire.
use super::of_four::make;
use base::Refusal;
use fixtures::{NewWire, proposals};
use frames::LONGEST_FRAME;
use machine::{Blow, Place, Rung};
use proposals::{Call, Piece, Proposal};
use ringing::Ringing;
use sets::{BoxNumber, BoxSet, RoundNumber};
use std::process::Abort;
use std::test::Fail;
use wire::Wire;

// A round with so many line bytes of 32, which were 0xaa: they are zero after it, and those behind are as they were.
fn plays<W: Wire, K: Proposal>(
    rt: &impl Abort,
    ringing: &mut Ringing<W>,
    row: &mut [Place<K>],
    room: usize,
) -> Result<(), Refusal> {
    let mut line = [0xaa; 32];
    assert!(rt; room <= line.len());
    let answer = ringing.round(row, &mut line[..room]);
    for (i, byte) in line.iter().enumerate() {
        assert_eq!(rt; *byte, if i < room { 0 } else { 0xaa });
    }
    answer
}

pub(crate) fn line_bytes<W: NewWire>(rt: &impl Abort) -> Result<(), Fail> {
    let mut row = [Place::default(); 4];
    let mut ringing = make::<W, _>(2, &mut row, &proposals()?)?;
    for (places, room, answer) in [
        (3, 0, Err(Refusal::Row)),
        (3, 24, Err(Refusal::Row)),
        (4, 0, Err(Refusal::Narrow)),
        (4, 23, Err(Refusal::Narrow)),
        (4, 24, Ok(())),
        (4, 30, Ok(())),
        (4, 32, Ok(())),
        (4, 30, Err(Refusal::Over)),
        (4, 23, Err(Refusal::Narrow)),
    ] {
        assert_eq!(rt;
            plays(rt, &mut ringing, &mut row[..places], room),
            answer,
            "{room}"
        );
    }
    Ok(())
}

// On the wire stand these frames, each with its sender for its second byte, and no others.
fn holds<W: Wire>(rt: &impl Abort, wire: &W, posted: u32, frames: &[&[u8]]) {
    assert_eq!(rt; wire.posted().mask(), posted);
    for frame in frames {
        let mut out = [0xaa; LONGEST_FRAME];
        let len = frame.len();
        assert!(rt; 2 <= len && len < out.len());
        let sender = BoxNumber(u32::from(frame[1]));
        assert_eq!(rt; wire.fetch(BoxNumber(1), sender, &mut out), Ok(Some(len)));
        assert!(rt; out.starts_with(frame) && out[len] == 0xaa, "{frame:?}");
    }
}

// Frames are round, sender, set and image; a call has rank and piece, and the higher rank goes first. Box 2 of the four falls in round 1,
// unheard by box 0: there is a frame of it in that round and none after.
pub(crate) fn frames<W: NewWire>(rt: &impl Abort) -> Result<(), Fail> {
    let mut row = [Place::default(); 4];
    let mut ringing = make::<W, _>(2, &mut row, &proposals()?)?;
    ringing.fall(&row, BoxNumber(2), BoxSet::from_mask(0b0001))?;
    holds(rt, ringing.wire(), 0, &[]);
    plays(rt, &mut ringing, &mut row, LONGEST_FRAME)?;
    let first: [&[u8]; 4] = [
        &[1, 0, 0, 30],
        &[1, 1, 0, 20],
        &[1, 2, 0, 10],
        &[1, 3, 0, 40],
    ];
    holds(rt, ringing.wire(), 0b1111, &first);
    plays(rt, &mut ringing, &mut row, LONGEST_FRAME)?;
    // A refused round leaves them.
    assert_eq!(rt; plays(rt, &mut ringing, &mut row, 0), Err(Refusal::Narrow));
    let second: [&[u8]; 3] = [&[2, 0, 4, 20], &[2, 1, 0, 10], &[2, 3, 0, 10]];
    holds(rt, ringing.wire(), 0b1011, &second);

    let call = |rank: u8, piece: u16| Call::new(rank, Piece::new(piece)?);
    let mut row = [Place::default(); 3];
    let calls = [call(2, 10)?, call(5, 40)?, call(5, 30)?];
    let mut ringing = make::<W, _>(1, &mut row, &calls)?;
    plays(rt, &mut ringing, &mut row, LONGEST_FRAME)?;
    let first: [&[u8]; 3] = [&[1, 0, 0, 2, 10], &[1, 1, 0, 5, 40], &[1, 2, 0, 5, 30]];
    holds(rt, ringing.wire(), 0b111, &first);
    plays(rt, &mut ringing, &mut row, LONGEST_FRAME)?;
    let rung = Rung {
        round: RoundNumber(2),
        proposal: call(5, 30)?,
        blow: Blow::Undrawn,
    };
    assert!(rt; row == [Place::Rung(rung); 3]);
    Ok(())
}
