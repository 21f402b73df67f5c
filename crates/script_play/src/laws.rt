// The theorems on playing a script.
ghost use Rattle.script_play.specs.AnswerExamples.{Examples};
ghost use Rattle.script_play.specs.PlayLaws.{EntriesCount, ScriptPlays};

use promise::promise_laws;
use proposals::Proposal;
use rule::rule_laws;

/// Each entry of a script counts. Every script plays: each call is accepted, and its boxes ring in round t + 1 - D with what the rule gives
/// them. Two answers are worked out.
pub fn play_laws<K: Proposal>()
    ensures entries { EntriesCount }
    ensures plays { ScriptPlays K.kind }
    ensures examples { Examples }
{
    rule_laws::<K>();
    promise_laws::<K>();
}
