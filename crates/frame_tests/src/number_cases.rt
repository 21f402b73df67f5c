// Numbers, read and written, and refusals: the tables of docs/FORMATS.md. Bytes are written into bytes that were 0xaa, and those behind are looked at.
use Refusal::{
    Company, Down, Entry, Heard, Image, Narrow, OffBeat, Order, Over, Padded, Posted, Row, Set,
    Short, Silent, Spent, Stranger, Surplus, Tally, Wide, Wire,
};
use base::Refusal;
use numbers::{Decoded, NumberFault, read_number, write_number};
use std::test::Fail;

#[test]
fn numbers(rt: HostRuntime) -> Result<(), Fail> {
    let cases: [(u32, &[u8]); 8] = [
        (0, b"\x00"),
        (127, b"\x7f"),
        (128, b"\x81\x00"),
        (16383, b"\xff\x7f"),
        (16384, b"\x81\x80\x00"),
        (268435455, b"\xff\xff\xff\x7f"),
        (268435456, b"\x81\x80\x80\x80\x00"),
        (4294967295, b"\x8f\xff\xff\xff\x7f"),
    ];
    for (value, bytes) in cases {
        let next = bytes.len();
        assert_eq!(rt; read_number(bytes, 0), Ok(Decoded { value, next }));
        let mut out = [0xaa; 6];
        assert_eq!(rt; write_number(value, &mut out), Ok(next), "{value}");
        assert!(rt; out.starts_with(bytes) && out.iter().skip(next).all(|byte| *byte == 0xaa));
    }
    let mut out = [0xaa; 1];
    assert_eq!(rt; write_number(128, &mut out), Err(Refusal::Narrow));
    assert_eq!(rt; out[0], 0xaa);
    Ok(())
}

#[test]
fn numbers_refused(rt: HostRuntime) -> Result<(), Fail> {
    let cases: [(&[u8], usize, Refusal); 11] = [
        (b"", 0, Short),
        (b"\x81", 0, Short),
        (b"\x05", 1, Short),
        (b"\x05", 7, Short),
        // Four groups go on, and no more bytes.
        (b"\x81\x81\x81\x81", 0, Short),
        // The fifth goes on: too wide, before the end is seen.
        (b"\x81\x81\x81\x81\x81", 0, Wide),
        (b"\x90\x80\x80\x80\x00", 0, Wide),
        (b"\x80\x05", 0, Padded),
        // Padded before short, and before wide.
        (b"\x80", 0, Padded),
        (b"\x80\x80\x80\x80\x80\x80", 0, Padded),
        (b"\x05\x80\x05", 1, Padded),
    ];
    for (bytes, place, refusal) in cases {
        let fault = NumberFault { refusal, place };
        assert_eq!(rt; read_number(bytes, place), Err(fault));
    }
    let fault = read_number(b"\x05\x80", 1).err().ok_or("it was read")?;
    assert!(rt; format!(in rt.alloc(); "{fault}")?.as_str() == "3 padded 1");
    Ok(())
}

// Each by its number, from 1 on.
#[test]
fn refusals(rt: HostRuntime) {
    let cases = [
        Short, Wide, Padded, Surplus, Stranger, OffBeat, Heard, Set, Image, Tally, Company, Row,
        Wire, Down, Spent, Over, Silent, Order, Narrow, Posted, Entry,
    ];
    let words = [
        "short", "wide", "padded", "surplus", "stranger", "off beat", "heard", "set", "image",
        "tally", "company", "row", "wire", "down", "spent", "over", "silent", "order", "narrow",
        "posted", "entry",
    ];
    for (number, (refusal, word)) in (1..).zip(cases.iter().zip(words)) {
        assert_eq!(rt; refusal.number(), number);
        assert!(rt; refusal.word() == word);
    }
}
