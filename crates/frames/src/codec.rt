// Frames as bytes: round, sender, missing set and the image of the estimate, as numbers in this order, for any kind of proposal.
ghost use Rattle.std.specs.Prelude.{◌≡◌};
ghost use Rattle.base.specs.Buffers.{with_front, len_if_room};
ghost use Rattle.frames.specs.FrameFaults.{read_field};
ghost use Rattle.frames.specs.Frames.{frame_numbers, frame_bytes, read_head, read_proposal, read_frame};

use super::fault::{Field, FieldFault, FrameFault};
use super::frame::Frame;
use arrayvec::ArrayVec;
use base::Refusal;
use numbers::{Decoded, read_number, write_numbers};
use proposals::Proposal;
use sets::{BoxNumber, BoxSet, RoundNumber};

// The numbers of a frame: three, and those of the image, at most four.
fn frame_numbers<K: Proposal>(frame: Frame<K>) -> ArrayVec<u32, 7>
    ensures { result.items ≡ frame_numbers K.kind frame }
{
    let mut numbers = ArrayVec::new();
    numbers.push(frame.round.0);
    numbers.push(frame.sender.0);
    numbers.push(frame.missing.mask());
    for i in 0..K::SIZE {
        numbers.push(frame.estimate.image_number(i));
    }
    numbers
}

/// Writes the frame at the front of `out` and answers how many bytes it takes; the bytes behind stay. Refuses narrow (19) where `out` has fewer, and
/// then leaves all of it. `LONGEST_FRAME` bytes are room for a frame of a company.
pub fn write_frame<K: Proposal>(frame: Frame<K>, out: &mut [u8]) -> Result<usize, Refusal>
    ensures answer { result ≡ len_if_room (frame_bytes K.kind frame) out.old }
    ensures bytes { out.new ≡ with_front (frame_bytes K.kind frame) out.old }
{
    write_numbers(&frame_numbers(frame), out)
}

// The number of a field, which begins at a place; where it is not read, the fault tells the field.
fn read_field(bytes: &[u8], at: usize, field: Field) -> Result<Decoded, FieldFault>
    ensures { result ≡ read_field field bytes.now at }
{
    read_number(bytes, at).map_err(|fault| FieldFault { field, fault })
}

// The numbers in front of the image, and the place behind them.
#[derive(Clone, Copy, Debug, PartialEq, Eq)]
struct Head {
    round: RoundNumber,
    sender: BoxNumber,
    missing: BoxSet,
    next: usize,
}

#[tactic(auto, unfolding(crate::specs::Frames::read_head))]
fn read_head(bytes: &[u8]) -> Result<Head, FrameFault>
    ensures { result ≡ read_head bytes.now }
{
    let round = read_field(bytes, 0, Field::Round)?;
    let sender = read_field(bytes, round.next, Field::Sender)?;
    let missing = read_field(bytes, sender.next, Field::Set)?;
    Ok(Head {
        round: RoundNumber(round.value),
        sender: BoxNumber(sender.value),
        missing: BoxSet::from_mask(missing.value),
        next: missing.next,
    })
}

/// The proposal whose image begins at place `at` of the bytes, from 0, and the place behind the image; what stands before and behind is not looked
/// at. Refuses, in field image: a number of the image that is not read, short (1), wide (2) or padded (3), at its place; image (9) at `at` where no
/// proposal has these numbers.
#[tactic(auto, using(crate::proofs::ProposalReading::reading))]
pub fn read_proposal<K: Proposal>(bytes: &[u8], at: usize) -> Result<(K, usize), FrameFault>
    ensures { result ≡ read_proposal K.kind bytes.now at }
{
    let mut image = ArrayVec::<u32, 4>::new();
    let mut next = at;
    for _ in 0..K::SIZE {
        let number = read_field(bytes, next, Field::Image)?;
        image.push(number.value);
        next = number.next;
    }
    let proposal = K::from_image(&image).map_err(|_| FrameFault::Image { place: at })?;
    Ok((proposal, next))
}

/// The frame that the bytes are, all of them. Each field is judged when it is reached, and the first fault refuses: a number that is not read, short
/// (1), wide (2) or padded (3), at its place; image (9) at the place of the image, where no proposal has it; surplus (4) at the first byte that
/// follows the image. Sender and missing set are not judged: a frame does not know the company.
pub fn read_frame<K: Proposal>(bytes: &[u8]) -> Result<Frame<K>, FrameFault>
    ensures { result ≡ read_frame K.kind bytes.now }
{
    let Head {
        round,
        sender,
        missing,
        next,
    } = read_head(bytes)?;
    let (estimate, end) = read_proposal::<K>(bytes, next)?;
    if end < bytes.len() {
        return Err(FrameFault::Surplus { place: end });
    }
    Ok(Frame {
        round,
        sender,
        missing,
        estimate,
    })
}
