//! Answers the script of pieces on standard input: the report of its ringing on a board, or the line of the refusal.
#![tactic(auto)]

use reports::LONGEST_REPORT;
use script_play::write_answer;
use std::io;
use std::io::{Read, Write};

// More bytes than any script of pieces has, so what stands behind them changes no answer.
const MOST_READ: u64 = 4096;

fn main(rt: HostRuntime) -> io::Result<()> {
    let mut bytes = Vec::new(rt.alloc());
    rt.stdin().take(MOST_READ).read_to_end(&mut bytes)?;
    let mut out = [0; LONGEST_REPORT];
    let len = write_answer(&bytes, &mut out);
    rt.stdout().write_all(&out[..len])
}
