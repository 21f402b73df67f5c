// Scripts of calls, read and played, and what is answered and reported. Scripts of pieces, with each refusal and of two faults the first, stand in
// examples/ and in the worked examples of crate `scripts`.
use base::{Refusal, Refused};
use fixtures::proposals;
use frames::LONGEST_FRAME;
use machine::Place;
use proposals::{Call, Piece};
use reports::{LONGEST_REFUSAL, LONGEST_REPORT, write_refusal, write_report};
use ringing::{Ringing, StrikeOrder};
use script_play::{play, write_answer};
use scripts::{Entry, read_script};
use sets::{BoxNumber, BoxSet, RoundNumber};
use std::process::Abort;
use std::test::Fail;
use wire::{Board, Tape, Wire};

// Three calls, and box 2 falls in round 1, unheard by box 0.
const CALLS: &[u8] = b"\x03\x01\x02\x0a\x05\x81\x48\x05\x1e\x01\x01\x02\x01";

fn call(rank: u8, piece: u16) -> Result<Call, Refusal> {
    Call::new(rank, Piece::new(piece)?)
}

fn calls() -> Result<[Call; 3], Refusal> {
    Ok([call(2, 10)?, call(5, 200)?, call(5, 30)?])
}

#[test]
fn calls_are_read(rt: HostRuntime) -> Result<(), Fail> {
    let [first, second, third] = calls()?;
    let mut places = [first; 5];
    let script = read_script(CALLS, &mut places)?;
    assert!(rt; places == [first, second, third, first, first]);
    assert_eq!(rt; (script.n(), script.t()), (3, 1));
    let entry = Entry {
        round: RoundNumber(1),
        number: BoxNumber(2),
        lost: BoxSet::only(BoxNumber(0)),
    };
    assert!(rt; script.entries() == [entry].as_slice());
    Ok(())
}

// No place is touched, also where all the calls are read.
#[test]
fn calls_are_refused(rt: HostRuntime) -> Result<(), Fail> {
    let cases: [(&[u8], Refusal); 5] = [
        // Ranks 0 and 10, and a piece of 16384.
        (b"\x03\x01\x02\x0a\x00\x28", Refusal::Image),
        (b"\x03\x01\x02\x0a\x0a\x28", Refusal::Image),
        (b"\x03\x01\x02\x0a\x05\x81\x80\x00", Refusal::Image),
        (b"\x03\x01\x02\x0a\x05\x80\x28", Refusal::Padded),
        (
            b"\x03\x01\x02\x0a\x05\x28\x05\x1e\x00\x00",
            Refusal::Surplus,
        ),
    ];
    let old = calls()?;
    for (bytes, refusal) in cases {
        let mut places = old;
        let answer = read_script(bytes, &mut places);
        assert!(rt; answer.err() == Some(refusal) && places == old);
    }
    Ok(())
}

// Box 1 hears box 2, and hands its call on.
fn plays<W: Wire + Drop>(rt: &impl Abort, wire: W) -> Result<(), Refusal> {
    let mut proposals = calls()?;
    let script = read_script(CALLS, &mut proposals)?;
    let mut row = [Place::default(); 3];
    let ringing = play(&script, &proposals, wire, &mut row)?;
    let mut out = [0; 39];
    assert_eq!(rt; write_report(&ringing, &row, &mut out), Ok(39));
    assert!(rt; out == *b"0 rings 2 5 30\n1 rings 2 5 30\n2 down 1\n");
    Ok(())
}

#[test]
fn calls_are_played(rt: HostRuntime) -> Result<(), Fail> {
    plays(&rt, Board::new(3)?)?;
    plays(&rt, Tape::new(3)?)?;
    Ok(())
}

// Too few or too many places or proposals count before the wire, which is given back; the row is as it was.
#[test]
fn playing_is_refused(rt: HostRuntime) -> Result<(), Fail> {
    let mut proposals = calls()?;
    let script = read_script(CALLS, &mut proposals)?;
    let cases = [
        (2, 3, Refusal::Row),
        (4, 3, Refusal::Row),
        (3, 2, Refusal::Row),
        (3, 3, Refusal::Wire),
    ];
    for (places, proposed, refusal) in cases {
        let mut row = [Place::default(); 4];
        let wire = Board::new(4)?;
        let answer = play(&script, &proposals[..proposed], wire, &mut row[..places]);
        let refused = answer.err().ok_or("it was played")?;
        assert_eq!(rt; (refused.fault, refused.value.n()), (refusal, 4));
        assert!(rt; row == [Place::default(); 4]);
    }
    Ok(())
}

// No byte behind the answer is touched.
#[test]
fn answers(rt: HostRuntime) {
    let cases: [(&[u8], &str); 8] = [
        (b"", "refused 1\n"),
        // No t, where n is too small.
        (b"\x01", "refused 1\n"),
        (b"\x02\x00", "refused 11\n"),
        (b"\x20\x20", "refused 11\n"),
        (b"\x21\x01", "refused 11\n"),
        // An image before the next number, and the count before the end.
        (b"\x02\x01\x81\x80\x00\x80", "refused 9\n"),
        (b"\x02\x01\x1e\x14\x02", "refused 21\n"),
        (b"\x02\x01\x00\x00\x00", "0 rings 2 0\n1 rings 2 0\n"),
    ];
    for (script, text) in cases {
        let mut out = [0xaa; LONGEST_REPORT];
        let len = write_answer(script, &mut out);
        assert_eq!(rt; len, text.len(), "{text}");
        assert!(rt; out.starts_with(text.as_bytes()), "{text}");
        assert!(rt; out.iter().skip(len).all(|byte| *byte == 0xaa));
    }
}

fn taken(rt: &impl Abort, answer: Result<(), Refused<StrikeOrder, Refusal>>) {
    if let Err(refused) = answer {
        panic!(rt; "an order is refused: {}", refused.fault);
    }
}

// Box 2 falls in round 1, unheard by box 0; the others ring in round 3 on its piece.
#[test]
fn reports(rt: HostRuntime) -> Result<(), Fail> {
    let mut row = [Place::default(); 4];
    let mut ringing = Ringing::make(4, 2, Board::new(4)?, &mut row, &proposals()?)?;
    ringing.fall(&row, BoxNumber(2), BoxSet::only(BoxNumber(0)))?;
    let mut line = [0; LONGEST_FRAME];
    for _ in 0..3 {
        assert_eq!(rt;
            write_report(&ringing, &row[..3], &mut []),
            Err(Refusal::Row)
        );
        assert_eq!(rt; write_report(&ringing, &row, &mut []), Err(Refusal::Silent));
        ringing.round(&mut row, &mut line)?;
    }
    assert_eq!(rt;
        write_report(&ringing, &row, &mut [0; 47]),
        Err(Refusal::Narrow)
    );
    let mut out = [0; 50];
    assert_eq!(rt; write_report(&ringing, &row, &mut out), Ok(48));
    assert!(rt; out == *b"0 rings 3 10\n1 rings 3 10\n2 down 1\n3 rings 3 10\n\0\0");
    let order = ringing.draw(&mut row, BoxNumber(0))?;
    taken(&rt, ringing.struck(&mut row, order));
    let order = ringing.draw(&mut row, BoxNumber(1))?;
    taken(&rt, ringing.missed(&mut row, order));
    let order = ringing.draw(&mut row, BoxNumber(3))?;
    assert_eq!(rt; write_report(&ringing, &row, &mut out), Ok(48));
    assert!(rt; out == *b"0 struck 3 10\n1 missed 3 10\n2 down 1\n3 out 3 10\n\0\0");
    taken(&rt, ringing.struck(&mut row, order));
    let mut line = [0; LONGEST_REFUSAL];
    assert_eq!(rt;
        write_refusal(Refusal::Wide, &mut line[..9]),
        Err(Refusal::Narrow)
    );
    assert_eq!(rt; write_refusal(Refusal::Silent, &mut line), Ok(11));
    assert!(rt; line == *b"refused 17\n");
    Ok(())
}
