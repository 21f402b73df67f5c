// The theorems on proposals, for every kind.
ghost use Rattle.std.specs.Prelude.{◌≡◌};
ghost use Rattle.proposals.specs.Orders.{ForemostLeads, ForemostIsOnly};

use super::proposal::Proposal;

/// Proposals with the same image are the same. The foremost of some proposals is one of them and may go first of each; no other is so.
pub fn proposals_laws<K: Proposal>()
    ensures same { (x y : K) → K.kind.image x ≡ K.kind.image y → x ≡ y }
    ensures leads { ForemostLeads K.kind.leads }
    ensures only { ForemostIsOnly K.kind.leads }
{}
