// The theorems on frames, for every kind of proposal.
ghost use Rattle.std.specs.Prelude.{◌≡◌};
ghost use Rattle.frames.specs.FrameLaws.{FrameReadsBack, FrameReadsOnly, FrameRefusesNumber, FrameRefusesImage, FrameRefusesSurplus, FrameHasLength};
ghost use Rattle.frames.specs.Frames.{longest_frame};
ghost use Rattle.frames.specs.FrameExamples.{Examples};

use super::frame::LONGEST_FRAME;
use proposals::Proposal;

/// A frame that is written reads back as itself, and no other bytes read as that frame. Other bytes are refused: at the first number that is not read,
/// at an image that no proposal has, at the first byte that follows a frame. How many bytes a frame takes; and `LONGEST_FRAME` is the room for one of
/// a company.
pub fn frames_laws<K: Proposal>()
    ensures room { LONGEST_FRAME ≡ longest_frame }
    ensures back { FrameReadsBack K.kind }
    ensures only { FrameReadsOnly K.kind }
    ensures number { FrameRefusesNumber K.kind }
    ensures image { FrameRefusesImage K.kind }
    ensures surplus { FrameRefusesSurplus K.kind }
    ensures len { FrameHasLength K.kind }
{}

/// Worked examples of numbers and of a frame.
pub fn examples_laws()
    ensures examples { Examples }
{}
