//! Shows the frame of pieces on standard input: its fields, one to a line, and the bytes that it is written as; or why it is refused.
#![tactic(auto)]

use frames::{Frame, HexBytes, read_frame, write_frame};
use proposals::Piece;
use std::io;
use std::io::Read;

// More bytes than are read: a frame of pieces is four numbers of at most five bytes each, so none behind the first 21 changes the answer.
const MOST_READ: u64 = 64;

// Room for the bytes of a frame of pieces: four numbers of at most five bytes each.
const LONGEST: usize = 20;

// Prints the frame, field by field, and its bytes.
fn show(rt: &impl Print, frame: Frame<Piece>) -> io::Result<()> {
    let mut out = [0; LONGEST];
    match write_frame(frame, &mut out) {
        Ok(len) => {
            println!(rt; "round {}", frame.round)?;
            println!(rt; "sender {}", frame.sender)?;
            println!(rt; "set {}", frame.missing)?;
            println!(rt; "piece {}", frame.estimate)?;
            println!(rt; "bytes{}", HexBytes(&out[..len]))
        }
        Err(refusal) => println!(rt; "refused {refusal}"),
    }
}

fn main(rt: HostRuntime) -> io::Result<()> {
    let mut bytes = Vec::new(rt.alloc());
    rt.stdin().take(MOST_READ).read_to_end(&mut bytes)?;
    match read_frame::<Piece>(&bytes) {
        Ok(frame) => show(&rt, frame),
        Err(fault) => println!(rt; "refused {fault}"),
    }
}
