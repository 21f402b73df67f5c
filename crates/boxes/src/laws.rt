// The theorems on boxes, for every kind of proposal.
ghost use Rattle.boxes.specs.BoxLaws.{BoxKeeps, ListeningKeeps, RingsWhen, BoxIsDetermined, ListeningIsDetermined, FrameIsShort, NotesShowFrames, ClosesByFrames, SentAreRead, TellingAddsUp, IsOrderFree, ComposedIsHeard};

use frames::frames_laws;
use proposals::Proposal;

/// What every box keeps, when it rings, and that it is no more than what it holds and has noted; that its frame is short. Whatever is
/// told to it in a round, its notes and its closing are those of the frames heard: of each other box the first that it may hear. Where
/// these are the same for each sender, the order of telling does not count. What a box composes another notes as that, unless it has
/// heard the sender, misses it or is told missing.
pub fn boxes_laws<K: Proposal>()
    ensures kept { BoxKeeps K }
    ensures itself { ListeningKeeps K }
    ensures rings { RingsWhen K }
    ensures determined { BoxIsDetermined K }
    ensures listening { ListeningIsDetermined K }
    ensures short { FrameIsShort K.kind }
    ensures show { NotesShowFrames K.kind }
    ensures closes { ClosesByFrames K.kind }
    ensures sent { SentAreRead K.kind }
    ensures more { TellingAddsUp K.kind }
    ensures order { IsOrderFree K.kind }
    ensures agree { ComposedIsHeard K.kind }
{
    frames_laws::<K>();
}
