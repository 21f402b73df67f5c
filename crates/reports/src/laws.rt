// The theorems on reports.
ghost use Rattle.std.specs.Prelude.{◌≡◌};
ghost use Rattle.reports.specs.ReportLaws.{ReportLength, RefusalLength, Examples, longest_report, longest_refusal};

use super::report::{LONGEST_REFUSAL, LONGEST_REPORT};
use proposals::Proposal;

/// How many bytes a report in which all rounds are below 100 has at most (`LONGEST_REPORT`), and the line of a refusal (`LONGEST_REFUSAL`); and
/// worked examples of both.
pub fn reports_laws<K: Proposal>()
    ensures room { LONGEST_REPORT ≡ longest_report }
    ensures refusal_room { LONGEST_REFUSAL ≡ longest_refusal }
    ensures report { ReportLength K.kind }
    ensures refusal { RefusalLength }
    ensures examples { Examples }
{}
