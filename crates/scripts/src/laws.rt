// The theorems on scripts.
ghost use Rattle.std.specs.Prelude.{◌≡◌, ◌+◌};
ghost use Rattle.base.specs.Limits.{most_company};
ghost use Rattle.scripts.specs.ScriptExamples.{Examples};
ghost use Rattle.scripts.specs.ScriptLaws.{ScriptReadsOnly, ScriptReadsBack, ScriptRefusesSurplus, ScriptFaultStays};

use super::script::MOST_FALLS;
use proposals::Proposal;

/// One fewer than the largest company may fall (`MOST_FALLS`). Bytes that are read as a script are those of its numbers; the numbers of every
/// script that keeps the limits read back as it, and with more bytes behind them are refused surplus (4). A refusal stays the one told, whatever
/// bytes follow, unless it was short (1). The rest are worked examples.
pub fn scripts_laws<K: Proposal>()
    ensures most { MOST_FALLS + 1 ≡ most_company }
    ensures only { ScriptReadsOnly K.kind }
    ensures back { ScriptReadsBack K.kind }
    ensures surplus { ScriptRefusesSurplus K.kind }
    ensures fault { ScriptFaultStays K.kind }
    ensures examples { Examples }
{}
