// Reports and lines of refusals, written into bytes that are given.
ghost use Rattle.std.specs.Prelude.{◌≡◌, length};
ghost use Rattle.base.specs.Buffers.{front_after, front_len, len_if_room, with_front};
ghost use Rattle.ringing.specs.RingingStates.{state_of};
ghost use Rattle.reports.specs.Reports.{refusal_line, report_or_refusal};

use super::text::{put, refusal_text, report_text};
use base::Refusal;
use machine::{Place, is_over};
use proposals::Proposal;
use ringing::Ringing;
use sets::BoxNumber;
use wire::Wire;

/// No report in which every round is below 100 has more bytes.
pub const LONGEST_REPORT: usize = 1696;

/// No line of a refusal has more bytes.
pub const LONGEST_REFUSAL: usize = 11;

/// Writes the report of a ringing in which boxes ring to the front of `out`, and tells its length; bytes behind it stay. The report has a line
/// for each box in order: its number; the word for what is told of it (up, down, rings, out, struck, missed); the round in which it went down or
/// rings; and, if it rings, the numbers of its proposal's image. They are in decimal, with a space before each but the first.
///
/// It refuses, in this order: row (12) if the row is not this ringing's as it stands; silent (17) if no box rings; narrow (19) if there are fewer
/// bytes than the report has. A refused call touches none.
pub fn write_report<W: Wire, K: Proposal>(
    ringing: &Ringing<W>,
    row: &[Place<K>],
    out: &mut [u8],
) -> Result<usize, Refusal>
    ensures answer { let s = state_of ringing.now row.now in
        result ≡ front_len (report_or_refusal K.kind (length out.old) s) }
    ensures bytes { let s = state_of ringing.now row.now in
        out.new ≡ front_after (report_or_refusal K.kind (length out.old) s) out.old }
{
    // Asking after a box of the company judges the row, and box 0 is in every company.
    ringing.ask(row, BoxNumber(0))?;
    if !is_over(row) {
        return Err(Refusal::Silent);
    }
    put(&report_text(row), out)
}

/// Writes the line of a refusal to the front of `out`, the word refused and its number in decimal, and tells its length; bytes behind it stay.
/// It refuses narrow (19) if there are fewer bytes than the line has, and then touches none.
pub fn write_refusal(refusal: Refusal, out: &mut [u8]) -> Result<usize, Refusal>
    ensures answer { result ≡ len_if_room (refusal_line refusal) out.old }
    ensures bytes { out.new ≡ with_front (refusal_line refusal) out.old }
{
    put(&refusal_text(refusal), out)
}
