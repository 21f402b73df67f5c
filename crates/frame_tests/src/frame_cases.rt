// Frames, read and written. Bytes are written into bytes that were 0xaa, and those behind are looked at.
use base::Refusal;
use frames::{Frame, HexBytes, read_frame, write_frame};
use proposal_check::Medley;
use proposals::{Call, Piece, Proposal};
use sets::{BoxNumber, BoxSet, RoundNumber};
use std::alloc::Global;
use std::fmt::Debug;
use std::process::Abort;
use std::test::Fail;

// The bytes read as the frame, and it is written as them. There is no room for it in one byte less.
fn holds<K: Proposal + PartialEq + Debug>(
    rt: &impl Abort,
    bytes: &[u8],
    round: u32,
    sender: u32,
    missing: u32,
    estimate: K,
) {
    let frame = Frame {
        round: RoundNumber(round),
        sender: BoxNumber(sender),
        missing: BoxSet::from_mask(missing),
        estimate,
    };
    assert_eq!(rt; read_frame::<K>(bytes), Ok(frame));
    let mut out = [0xaa; 32];
    let len = bytes.len();
    assert!(rt; 0 < len && len < out.len());
    assert_eq!(rt;
        write_frame(frame, &mut out[..len - 1]),
        Err(Refusal::Narrow)
    );
    assert!(rt; out == [0xaa; 32]);
    assert_eq!(rt; write_frame(frame, &mut out), Ok(len));
    assert!(rt; out.starts_with(bytes) && out[len..].iter().all(|byte| *byte == 0xaa));
}

#[test]
fn frames_of_each_kind(rt: HostRuntime) -> Result<(), Fail> {
    let piece = Piece::new(20)?;
    holds(&rt, b"\x02\x00\x04\x14", 2, 0, 0b100, piece);
    let call = Call::new(9, piece)?;
    holds(&rt, b"\x02\x00\x04\x09\x14", 2, 0, 0b100, call);
    let medley = Medley::new([0, 127, 128, 16384])?;
    assert_eq!(rt; medley.tunes(), [0, 127, 128, 16384].as_slice());
    let bytes = b"\x02\x00\x04\x00\x7f\x81\x00\x81\x80\x00";
    holds(&rt, bytes, 2, 0, 0b100, medley);
    // The longest that there are of pieces and of calls; and of four numbers the longest in a company, 23 bytes.
    let most = u32::MAX;
    let piece = Piece::new(16383)?;
    let bytes = b"\x8f\xff\xff\xff\x7f\x8f\xff\xff\xff\x7f\x8f\xff\xff\xff\x7f\xff\x7f";
    holds(&rt, bytes, most, most, most, piece);
    let call = Call::new(1, piece)?;
    let bytes = b"\x8f\xff\xff\xff\x7f\x8f\xff\xff\xff\x7f\x8f\xff\xff\xff\x7f\x01\xff\x7f";
    holds(&rt, bytes, most, most, most, call);
    let medley = Medley::new([268435455; 4])?;
    let bytes =
        b"\x20\x1f\x87\xff\xff\xff\x7f\xff\xff\xff\x7f\xff\xff\xff\x7f\xff\xff\xff\x7f\xff\xff\xff\x7f";
    holds(&rt, bytes, 32, 31, most >> 1, medley);
    Ok(())
}

// The bytes are refused with this fault, as text: refusal, field and place.
fn refuses<K: Proposal>(
    rt: &impl Abort,
    alloc: Global,
    cases: &[(&[u8], &str)],
) -> Result<(), Fail> {
    for (bytes, text) in cases {
        let fault = read_frame::<K>(bytes).err().ok_or("it was read")?;
        let told = format!(in alloc; "{fault}")?;
        assert!(rt; told.as_str() == *text, "{text}");
    }
    Ok(())
}

#[test]
fn frames_refused(rt: HostRuntime) -> Result<(), Fail> {
    let pieces: [(&[u8], &str); 7] = [
        (b"", "1 short round 0"),
        (b"\x80\x00", "3 padded round 0"),
        (b"\x02\x90\x80\x80\x80\x00", "2 wide sender 1"),
        (b"\x02\x00\x80\x14", "3 padded set 2"),
        (b"\x81\x00\x00\x84", "1 short set 3"),
        (b"\x02\x00\x04\x81\x80\x00", "9 image image 3"),
        (b"\x02\x00\x04\x14\x00", "4 surplus end 4"),
    ];
    refuses::<Piece>(&rt, rt.alloc(), &pieces)?;
    let calls: [(&[u8], &str); 5] = [
        (b"\x02\x00\x04\x09\x80\x14", "3 padded image 4"),
        (b"\x02\x00\x04\x0a\x14", "9 image image 3"),
        (b"\x02\x00\x04\x00\x14", "9 image image 3"),
        // The image before what follows it.
        (b"\x02\x00\x04\x00\x14\x00", "9 image image 3"),
        (b"\x02\x00\x04\x09\x14\x80\x00", "4 surplus end 5"),
    ];
    refuses::<Call>(&rt, rt.alloc(), &calls)?;
    // 268,435,456 is no number of an image.
    let medleys: [(&[u8], &str); 2] = [
        (
            b"\x01\x00\x00\x00\x00\x00\x81\x80\x80\x80\x00",
            "9 image image 3",
        ),
        (b"\x01\x00\x00\x00\x00\x00", "1 short image 6"),
    ];
    refuses::<Medley>(&rt, rt.alloc(), &medleys)?;
    assert_eq!(rt; Medley::new([0, 0, 0, 268435456]), Err(Refusal::Image));
    Ok(())
}

fn goes_before<K: Proposal>(rt: &impl Abort, first: K, other: K) {
    assert!(rt; first.goes_before(other) && !other.may_go_first(first));
    assert!(rt; first.may_go_first(first) && !first.goes_before(first));
}

#[test]
fn orders(rt: HostRuntime) -> Result<(), Fail> {
    let (small, large) = (Piece::new(5)?, Piece::new(200)?);
    goes_before(&rt, small, large);
    goes_before(&rt, Call::new(4, large)?, Call::new(3, small)?);
    goes_before(&rt, Call::new(3, small)?, Call::new(3, large)?);
    goes_before(&rt, Medley::new([1, 2, 3, 9])?, Medley::new([1, 2, 4, 0])?);
    Ok(())
}

#[test]
fn texts(rt: HostRuntime) -> Result<(), Fail> {
    let (number, round) = (BoxNumber(31), RoundNumber(10));
    let (piece, bytes) = (Piece::new(16383)?, HexBytes(b"\x02\xff"));
    let shown = format!(in rt.alloc(); "{number} {round} {piece} bytes{bytes}")?;
    assert!(rt; shown.as_str() == "31 10 16383 bytes 02 ff");
    Ok(())
}
