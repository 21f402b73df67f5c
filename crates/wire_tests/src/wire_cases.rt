// Rounds as tables of calls, each made on every wire. Sets are written as masks.
use base::Refusal;
use frames::LONGEST_FRAME;
use sets::{BoxNumber, BoxSet};
use std::process::Abort;
use std::test::Fail;
use wire::{Board, Tape, Wire};

// A call on a wire with the wanted answer, or what is told of the wire.
#[derive(Clone, Copy)]
enum Step<'a> {
    Open,
    Close,
    // A box falls with this lost set.
    Fall(u32, u32, Result<(), Refusal>),
    // A box posts these bytes.
    Post(u32, &'a [u8], Result<(), Refusal>),
    // A box fetches from another, into so much room.
    Fetch(u32, u32, usize, Result<Option<&'a [u8]>, Refusal>),
    // The sets of the boxes that are up, that are falling and that have posted.
    Told(u32, u32, u32),
}

use Step::{Close, Fall, Fetch, Open, Post, Told};

fn told<W: Wire>(wire: &W) -> (u32, u32, u32) {
    (
        wire.up().mask(),
        wire.falling().mask(),
        wire.posted().mask(),
    )
}

// What is fetched stands in front, and the bytes behind stay.
fn fetches<W: Wire>(
    wire: &W,
    p: u32,
    q: u32,
    room: usize,
    wanted: Result<Option<&[u8]>, Refusal>,
) -> bool {
    let old = [0xaa; LONGEST_FRAME + 1];
    let mut out = old;
    let frame = wanted.ok().flatten().unwrap_or(&[]);
    room <= out.len()
        && wire.fetch(BoxNumber(p), BoxNumber(q), &mut out[..room])
            == wanted.map(|heard| heard.map(<[u8]>::len))
        && out.starts_with(frame)
        && out.iter().skip(frame.len()).all(|byte| *byte == 0xaa)
}

// Whether the step goes as is wanted, and a refused call changes nothing that is told.
fn goes<W: Wire>(wire: &mut W, step: Step<'_>) -> bool {
    let before = told(wire);
    match step {
        Open => wire.open(),
        Close => wire.close(),
        Fall(q, lost, wanted) => {
            let answer = wire.fall(BoxNumber(q), BoxSet::from_mask(lost));
            return answer == wanted && (wanted.is_ok() || told(wire) == before);
        }
        Post(q, frame, wanted) => {
            let answer = wire.post(BoxNumber(q), frame);
            return answer == wanted && (wanted.is_ok() || told(wire) == before);
        }
        Fetch(p, q, room, wanted) => return fetches(wire, p, q, room, wanted),
        Told(up, falling, posted) => return before == (up, falling, posted),
    }
    true
}

fn runs<W: Wire>(rt: &impl Abort, wire: &mut W, n: u32, steps: &[Step<'_>]) {
    assert_eq!(rt; wire.n(), n);
    for (i, step) in steps.iter().enumerate() {
        assert!(rt; goes(wire, *step), "step {i}");
    }
}

// On a new wire of each make, for n boxes.
fn on_each(rt: &impl Abort, n: u32, steps: &[Step<'_>]) -> Result<(), Refusal> {
    runs(rt, &mut Board::new(n)?, n, steps);
    runs(rt, &mut Tape::new(n)?, n, steps);
    Ok(())
}

#[test]
fn new_wires(rt: HostRuntime) -> Result<(), Fail> {
    for (n, up) in [(2, 0b11), (4, 0b1111), (32, u32::MAX)] {
        on_each(&rt, n, &[Told(up, 0, 0), Fetch(0, 1, 0, Ok(None))])?;
    }
    for n in [0, 1, 33] {
        assert_eq!(rt; Board::new(n).err(), Some(Refusal::Company));
        assert_eq!(rt; Tape::new(n).err(), Some(Refusal::Company));
    }
    Ok(())
}

// Each refusal of each call, and of two that apply the first; and rounds in which boxes fall.
#[test]
fn rounds_of_four(rt: HostRuntime) -> Result<(), Fail> {
    let steps = [
        Fall(4, 0b10000, Err(Refusal::Stranger)),
        Fall(1, 0b10000, Err(Refusal::Set)),
        Fall(1, 0b00010, Err(Refusal::Set)),
        Fall(1, 0b1001, Ok(())),
        Fall(1, 0b10000, Err(Refusal::Set)),
        Fall(1, 0b0001, Err(Refusal::Down)),
        // A box that is falling goes on falling, and still posts.
        Open,
        Told(0b1111, 0b0010, 0),
        Post(1, b"\x01\x01\x00\x81\x48", Ok(())),
        Post(4, b"", Err(Refusal::Stranger)),
        Post(3, b"", Err(Refusal::Narrow)),
        Post(3, &[7; LONGEST_FRAME + 1], Err(Refusal::Narrow)),
        Post(3, b"\x01\x03\x00\x28", Ok(())),
        Post(3, b"", Err(Refusal::Posted)),
        Post(3, b"\x04", Err(Refusal::Posted)),
        Told(0b1111, 0b0010, 0b1010),
        Fetch(0, 1, 25, Ok(None)),
        Fetch(3, 1, 0, Ok(None)),
        Fetch(2, 1, 25, Ok(Some(b"\x01\x01\x00\x81\x48"))),
        // No box is in its own lost set.
        Fetch(1, 1, 5, Ok(Some(b"\x01\x01\x00\x81\x48"))),
        Fetch(1, 3, 5, Ok(Some(b"\x01\x03\x00\x28"))),
        Fetch(1, 2, 25, Ok(None)),
        Fetch(4, 3, 24, Err(Refusal::Stranger)),
        Fetch(0, 4, 24, Err(Refusal::Stranger)),
        Fetch(4, 3, 0, Err(Refusal::Stranger)),
        Fetch(0, 3, 3, Err(Refusal::Narrow)),
        Fetch(0, 3, 0, Err(Refusal::Narrow)),
        // What stands posted stays after the close, also for those that lost it; and a box that has not may still post.
        Close,
        Told(0b1101, 0, 0b1010),
        Fetch(0, 1, 5, Ok(Some(b"\x01\x01\x00\x81\x48"))),
        Post(1, b"", Err(Refusal::Down)),
        Post(0, b"\x0a", Ok(())),
        Told(0b1101, 0, 0b1011),
        Open,
        Told(0b1101, 0, 0),
        Fetch(2, 1, 25, Ok(None)),
        Fall(1, 0, Err(Refusal::Down)),
        Post(1, b"", Err(Refusal::Down)),
        // A shorter frame where a longer one stood, and another order of posting.
        Post(0, b"\x02\x00\x02\x14", Ok(())),
        Post(3, b"\x02", Ok(())),
        Fetch(3, 0, 4, Ok(Some(b"\x02\x00\x02\x14"))),
        // A box that is down is told what it would hear.
        Fetch(1, 3, 1, Ok(Some(b"\x02"))),
        // Two fall at once, after they have posted; a lost set may name a box that is down.
        Fall(0, 0b1010, Ok(())),
        Fall(3, 0b0100, Ok(())),
        Told(0b1101, 0b1001, 0b1001),
        Fetch(3, 0, 25, Ok(None)),
        Fetch(1, 0, 25, Ok(None)),
        Fetch(2, 0, 25, Ok(Some(b"\x02\x00\x02\x14"))),
        Fetch(2, 3, 25, Ok(None)),
        Fetch(0, 3, 25, Ok(Some(b"\x02"))),
        Close,
        Told(0b0100, 0, 0b1001),
    ];
    on_each(&rt, 4, &steps)?;
    Ok(())
}

// All of 32 post frames of 24 bytes, the last box first, and each hears each; then they post other frames.
#[test]
fn full_company(rt: HostRuntime) -> Result<(), Fail> {
    let mut bytes = [0; 80];
    for (i, byte) in bytes.iter_mut().enumerate() {
        *byte = i as u8;
    }
    let mut frames = Vec::new(rt.alloc());
    for frame in bytes.windows(LONGEST_FRAME) {
        frames.push(frame)?;
    }
    let mut steps = Vec::new(rt.alloc());
    for first in [0, 25] {
        let posted = frames.get(first..first + 32).ok_or("too few frames")?;
        steps.push(Open)?;
        for (q, frame) in (0..32).zip(posted).rev() {
            steps.push(Post(q, frame, Ok(())))?;
        }
        steps.push(Told(u32::MAX, 0, u32::MAX))?;
        for p in 0..32 {
            for (q, frame) in (0..32).zip(posted) {
                steps.push(Fetch(p, q, LONGEST_FRAME, Ok(Some(frame))))?;
            }
        }
        steps.push(Close)?;
    }
    on_each(&rt, 32, &steps)?;
    Ok(())
}
