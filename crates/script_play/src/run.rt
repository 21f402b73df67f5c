// Playing a script over a wire: before each round its falls are told, until the boxes ring.
ghost use Rattle.std.specs.Prelude.{◌≡◌, ◌+◌, ◌≤◌, ℕ, true, List, Option, length, IfOk, OnErr};
ghost use Rattle.std.specs.Result.{result_map_both};
ghost use Rattle.base.specs.Results.{map_fault, refused_with};
ghost use Rattle.rule.specs.Histories.{History};
ghost use Rattle.machine.specs.RowCheck.{is_over};
ghost use Rattle.base.specs.Results.{answer};
ghost use Rattle.promise.specs.CallSteps.{state_after, all_accepted};
ghost use Rattle.ringing.specs.RingingStates.{state_of};
ghost use Rattle.scripts.specs.ScriptValues.{values_of};
ghost use Rattle.script_play.specs.ScriptCalls.{falls_before, calls_in, calls_of, history_of, on_make_for, on_play};
ghost use Rattle.script_play.specs.PlayLaws.{EndsRinging, AllRing, CallsAreAccepted, LeadsTo};

use super::laws::play_laws;
use base::{Refusal, Refused};
use frames::LONGEST_FRAME;
use machine::{Place, is_over};
use proposals::Proposal;
use ringing::Ringing;
use scripts::{Entry, Script};
use sets::RoundNumber;
use wire::Wire;

// Tells the falls of a round. Here and below each `unwrap` is of a call that is proved not to be refused.
fn tell_falls<W: Wire, K: Proposal>(
    entries: &[Entry],
    round: RoundNumber,
    ringing: &mut Ringing<W>,
    row: &[Place<K>],
)
    requires { let falls = falls_before round.0 entries.now in
        all_accepted K.kind falls (state_of ringing.old row.now) ≡ true }
    ensures { let falls = falls_before round.0 entries.now in
        let s = state_of ringing.old row.now in
        state_of ringing.new row.now ≡ state_after K.kind falls s }
{
    for entry in entries {
        if entry.round == round {
            ringing.fall(row, entry.number, entry.lost).unwrap();
        }
    }
}

// Tells the falls of a round and plays it, and tells whether the boxes ring then.
fn play_round<W: Wire, K: Proposal>(
    entries: &[Entry],
    round: RoundNumber,
    ringing: &mut Ringing<W>,
    row: &mut [Place<K>],
) -> bool
    requires { let calls = calls_in round.0 entries.now in
        all_accepted K.kind calls (state_of ringing.old row.old) ≡ true }
    ensures state { let calls = calls_in round.0 entries.now in
        let s = state_of ringing.old row.old in
        state_of ringing.new row.new ≡ state_after K.kind calls s }
    ensures over { result ≡ is_over (state_of ringing.new row.new) }
{
    let mut line = [0; LONGEST_FRAME];
    tell_falls(entries, round, ringing, row);
    ringing.round(row, &mut line).unwrap();
    is_over(row)
}

// Plays round after round until the boxes ring.
fn play_rounds<W: Wire, K: Proposal>(
    script: &Script,
    ringing: &mut Ringing<W>,
    row: &mut [Place<K>],
)
    requires { CallsAreAccepted K.kind (values_of script.now) (state_of ringing.old row.old) }
    ensures { let s = state_of ringing.old row.old in
        state_of ringing.new row.new ≡ state_after K.kind (calls_of (values_of script.now)) s }
{
    for closed in 0..=script.t() {
        if play_round(script.entries(), RoundNumber(closed + 1), ringing, row) {
            break;
        }
    }
}

/// Plays a script with these proposals over a wire: a ringing is made, the falls of each round are told before it, and the rounds are played
/// until the boxes ring. The ringing is handed back, and its boxes stand in the row.
///
/// It refuses what making refuses, so row (12) if there are not n places or not n proposals, and then wire (13) if the wire does not join n
/// boxes or one of them is down or falling; then it gives the wire back and leaves the row as it was. Once a ringing is made, each call of the
/// script is accepted, and the boxes ring in round t + 1 - D with what the rule gives them. The clauses take any value `past_end` for what
/// stands past the end of the proposals.
pub fn play<W: Wire, K: Proposal>(
    script: &Script,
    proposals: &[K],
    wire: W,
    row: &mut [Place<K>],
) -> Result<Ringing<W>, Refused<W, Refusal>>
    ensures answer { let s = values_of script.now in
        let made = on_make_for s (W.meaning wire) (length row.old) proposals.now in
        result_map_both (λ _. tt) (λ e. e) result ≡ map_fault (refused_with wire) (answer made) }
    ensures played { (past_end : K) →
        let s = values_of script.now in
        let m = W.meaning wire in
        result_map_both (λ r. state_of r row.new) (λ e. e) result
        ≡ map_fault (refused_with wire)
        (on_play K.kind s m (length row.old) proposals.now past_end) }
    ensures refused { OnErr result (row.new ≡ row.old) }
    ensures rings { (past_end : K) →
        let h = history_of (values_of script.now) proposals.now past_end in
        EndsRinging K.kind h × AllRing K.kind h }
    ensures goes { (past_end : K) →
        let s = values_of script.now in
        let m = W.meaning wire in
        IfOk (on_make_for s m (length row.old) proposals.now) (λ first.
        LeadsTo K.kind m.posted s (history_of s proposals.now past_end) first) }
{
    play_laws::<K>();
    let mut ringing = Ringing::make(script.n(), script.t(), wire, row, proposals)?;
    play_rounds(script, &mut ringing, row);
    Ok(ringing)
}
