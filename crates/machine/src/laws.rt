// What holds of a ringing with its row.
ghost use Rattle.machine.specs.MachineLaws.{RowIsDetermined, MakeIsAccepted, BadRowIsFirst, GoodRowMeans, RoundRefusesNothing};

use boxes::boxes_laws;
use proposals::Proposal;

/// A row is no more than what stands in it. A ringing is made where all is as it must be; a row that is refused is so first, by every call
/// on a ringing; and one that is not refused has in each place what may stand there. In a round of such a row, in which no box rings,
/// nothing is refused: no posting, no fetching, no frame that is heard and no tally.
pub fn machine_laws<K: Proposal>()
    ensures determined { RowIsDetermined K }
    ensures made { MakeIsAccepted K }
    ensures first { BadRowIsFirst K.kind }
    ensures means { GoodRowMeans K }
    ensures goes { RoundRefusesNothing K.kind }
{
    boxes_laws::<K>();
}
