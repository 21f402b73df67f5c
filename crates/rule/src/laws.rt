// What holds of every run by the rule.
ghost use Rattle.rule.specs.Histories.{History, IsAllowed};
ghost use Rattle.rule.specs.RunExamples.{Examples};
ghost use Rattle.rule.specs.RuleLaws.{NoFallMeans, FallMeans, Agreement, CompanyRings, SomeRemains, BoxBegins, BoxRests, BoxAdmits, BoxFollows, BoxFollowsTold, BoxFollowsSent, OnlyPastCounts, FallToComeCountsNot};

use boxes::boxes_laws;
use proposals::Proposal;

/// What falls mean for who closes a round and who is heard in it. For every history that keeps the limits: all boxes that ring do so in one
/// round, which is t + 1 - D, where D is the waste of the rounds, and on one proposal; such a round comes, and some box closes every round.
/// What is still to come does not count.
pub fn rule_laws<K: Proposal>()
    ensures stands { NoFallMeans }
    ensures falls { FallMeans }
    ensures agree { (h : History K) → Agreement h K.kind }
    ensures comes { (h : History K) → IsAllowed h → CompanyRings h }
    ensures remains { (h : History K) → IsAllowed h → SomeRemains h }
    ensures past { (h : History K) → OnlyPastCounts h K.kind }
    ensures coming { FallToComeCountsNot }
{}

/// A box of the crate `boxes` follows the rule, for every history that keeps the limits: a new one holds the rule's values, and while a box has
/// not rung there is one at rest that holds them; told the frames of the boxes that it hears in a round, and no others, it closes the
/// round to the rule's values.
pub fn box_follows_rule<K: Proposal>()
    ensures begins { (h : History K) → BoxBegins h K.kind }
    ensures rests { (h : History K) → BoxRests h K.kind }
    ensures admits { (h : History K) → BoxAdmits h K.kind }
    ensures follows { (h : History K) → BoxFollows h K.kind }
    ensures told { (h : History K) → BoxFollowsTold h K.kind }
    ensures sent { (h : History K) → BoxFollowsSent h K.kind }
{
    boxes_laws::<K>();
}

/// Worked runs by the rule, and runs that break three rules that are nearly right, with the examples of numbers and of a frame, as one fact.
pub fn examples_laws()
    ensures examples { Examples }
{
    frames::examples_laws();
}
