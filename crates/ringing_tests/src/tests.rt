// All cases, each over a board and over a tape; and the words for what is told, which need no wire.
mod of_four;
mod refusals;
mod rounds;
mod runs;

use fixtures::NewWire;
use machine::{Blow, Rung, Standing};
use sets::RoundNumber;
use std::process::Abort;
use std::test::Fail;
use wire::{Board, Tape};

fn on_wire<W: NewWire>(rt: &impl Abort) -> Result<(), Fail> {
    runs::rings_by_the_rule::<W>(rt)?;
    rounds::line_bytes::<W>(rt)?;
    rounds::frames::<W>(rt)?;
    refusals::of_calls::<W>(rt)?;
    refusals::of_lists::<W>(rt);
    refusals::of_makes::<W>(rt)?;
    refusals::of_rows::<W>(rt)?;
    refusals::of_reports::<W>(rt);
    Ok(())
}

#[test]
fn on_boards(rt: HostRuntime) -> Result<(), Fail> {
    on_wire::<Board>(&rt)
}

#[test]
fn on_tapes(rt: HostRuntime) -> Result<(), Fail> {
    on_wire::<Tape>(&rt)
}

fn rung(blow: Blow) -> Standing<u32> {
    Standing::Rung(Rung {
        round: RoundNumber(3),
        proposal: 10,
        blow,
    })
}

#[test]
fn words(rt: HostRuntime) {
    for (standing, word) in [
        (Standing::Up, "up"),
        (Standing::Down(RoundNumber(3)), "down"),
        (rung(Blow::Undrawn), "rings"),
        (rung(Blow::Out), "out"),
        (rung(Blow::Struck), "struck"),
        (rung(Blow::Missed), "missed"),
    ] {
        assert_eq!(rt; standing.word(), word);
    }
}
