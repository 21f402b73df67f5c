// What holds after every list of calls on a ringing.
ghost use Rattle.promise.specs.PromiseLaws.{CallsArePromised};

use proposals::Proposal;
use rule::{box_follows_rule, rule_laws};

/// From the making of a ringing on, after every list of calls, accepted or refused: what stands in its row and on its wire is what the rule
/// gives for the history of the calls; all boxes that ring do so in one round and on one proposal; and each strike order is given back at
/// most once.
pub fn promise_laws<K: Proposal>()
    ensures promised { CallsArePromised K.kind }
{
    rule_laws::<K>();
    box_follows_rule::<K>();
}
