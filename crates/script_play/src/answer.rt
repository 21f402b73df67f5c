// What is answered to the bytes of a script of pieces, which are read and played on a board.
ghost use Rattle.std.specs.Prelude.{◌≡◌, ◌≤◌, ◌++◌, length, drop, None};
ghost use Rattle.proposals.specs.Pieces.{piece_kind};
ghost use Rattle.promise.specs.StateByHistory.{state_by};
ghost use Rattle.ringing.specs.RingingStates.{state_of};
ghost use Rattle.scripts.specs.ScriptValues.{values_of};
ghost use Rattle.base.specs.Buffers.{front_len, front_after};
ghost use Rattle.reports.specs.ReportLaws.{longest_report};
ghost use Rattle.script_play.specs.ScriptCalls.{history_of};
ghost use Rattle.script_play.specs.PlayLaws.{BytesPlay};
ghost use Rattle.script_play.specs.Answers.{script_report, answer_text};

use super::laws::play_laws;
use super::run::play;
use base::Refusal;
use machine::{Place, machine_laws};
use proposals::Piece;
use reports::{LONGEST_REPORT, reports_laws, write_refusal, write_report};
use ringing::Ringing;
use scripts::{Script, read_script, scripts_laws};
use sets::MOST_COMPANY;
use wire::Board;

// Places for the boxes of the largest company.
const PLACES: usize = MOST_COMPANY as usize;

// Plays a script with these pieces on a board. Each `unwrap` is of a call that is proved not to be refused.
fn play_on_board(script: &Script, pieces: &[Piece], row: &mut [Place<Piece>]) -> Ringing<Board>
    requires pieces { length pieces.now ≡ script.now.n }
    requires row { length row.old ≡ script.now.n }
    ensures { (past_end : Piece) →
        let h = history_of (values_of script.now) pieces.now past_end in
        state_of result row.new ≡ state_by piece_kind h (λ _. None) }
{
    machine_laws::<Piece>();
    let board = Board::new(script.n()).unwrap();
    play(script, pieces, board, row).unwrap()
}

// Writes the report of the script to the front of `out`, or tells why the bytes are no script.
fn write_script_report(bytes: &[u8], out: &mut [u8]) -> Result<usize, Refusal>
    requires { longest_report ≤ length out.old }
    ensures { (past_end : Piece) →
        let report = script_report piece_kind bytes.now past_end in
        (result ≡ front_len report) × (out.new ≡ front_after report out.old) }
{
    scripts_laws::<Piece>();
    machine_laws::<Piece>();
    play_laws::<Piece>();
    reports_laws::<Piece>();
    let mut pieces = [Piece::new(0).unwrap(); PLACES];
    let mut places = [Place::default(); PLACES];
    let script = read_script(bytes, &mut pieces)?;
    let n = script.n() as usize;
    let row = &mut places[..n];
    let ringing = play_on_board(&script, &pieces[..n], row);
    write_report(&ringing, row, out)
}

/// Writes what is answered to the bytes of a script of pieces to the front of `out`, and tells its length, at most `LONGEST_REPORT`: the report of
/// the script as its boxes ring by the rule, or, where the bytes are no script, the line of the refusal that reading them meets. Bytes behind it
/// stay. It refuses nothing. The clauses take any piece `past_end` for what stands past the end of the proposals.
pub fn write_answer(bytes: &[u8], out: &mut [u8; LONGEST_REPORT]) -> usize
    ensures answer { (past_end : Piece) →
        result ≡ length (answer_text piece_kind bytes.now past_end) }
    ensures room { result ≤ LONGEST_REPORT }
    ensures bytes { (past_end : Piece) →
        let text = answer_text piece_kind bytes.now past_end in
        out.new ≡ text ++ drop (length text) out.old }
    ensures plays { BytesPlay piece_kind bytes.now }
{
    scripts_laws::<Piece>();
    machine_laws::<Piece>();
    play_laws::<Piece>();
    reports_laws::<Piece>();
    match write_script_report(bytes, out) {
        Ok(length) => length,
        Err(refusal) => write_refusal(refusal, out).unwrap(),
    }
}
