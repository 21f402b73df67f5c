// What joins the boxes of a company, by its meaning alone.
ghost use Rattle.std.specs.Prelude.{◌≡◌, length, OnErr};
ghost use Rattle.base.specs.Results.{answer, or_kept};
ghost use Rattle.wire.specs.Postable.{is_postable};
ghost use Rattle.wire.specs.WireState.{WireState, IsWellFormed, falling_set, posted_set, on_open, on_close, on_fall, on_post, on_fetch, fetch_answer, fetched_bytes};

use base::Refusal;
use frames::LONGEST_FRAME;
use sets::{BoxNumber, BoxSet};

/// What joins the boxes of a company. Code above sees a wire by its meaning alone: how many boxes it joins, which are up, the lost set of each
/// box that is falling (the boxes that do not hear what it posts), and what each has posted. A wire takes posts and falls at any time; when to
/// call what is for the caller.
pub trait Wire {
    /// What the wire means.
    ghost meaning: { Self → WireState };

    /// How many boxes it joins, 2 to 32.
    fn n(&self) -> u32
        ensures { result ≡ (meaning self.now).n };

    /// The boxes that are up; one that is falling is up until the round closes.
    fn up(&self) -> BoxSet
        ensures { result ≡ (meaning self.now).up };

    /// The boxes that are falling: those that fell since the last close of a round, or at all if there was none.
    fn falling(&self) -> BoxSet
        ensures { result ≡ falling_set (meaning self.now) };

    /// The boxes that have posted since the last opening of a round, or at all if there was none.
    fn posted(&self) -> BoxSet
        ensures { result ≡ posted_set (meaning self.now) };

    /// Opens a round: none has posted. Who is falling goes on falling.
    fn open(&mut self)
        ensures { meaning self.new ≡ on_open (meaning self.old) };

    /// Box q falls. It may still post, but until the round closes the boxes of its lost set do not hear it; then it is down. Refuses, in this
    /// order, stranger (5) where q is not below n, set (8) where the lost set has a box from n on or q itself, and down (14) where q is not up
    /// or is falling already; the wire is then as it was.
    fn fall(&mut self, q: BoxNumber, lost: BoxSet) -> Result<(), Refusal>
        ensures answer { result ≡ answer (on_fall q.0 lost (meaning self.old)) }
        ensures meaning { meaning self.new
            ≡ or_kept (meaning self.old) (on_fall q.0 lost (meaning self.old)) }
        ensures refused { OnErr result (self.new ≡ self.old) };

    /// Box q posts a frame for all to fetch. Refuses, in this order, stranger (5) where q is not below n, down (14) where q is not up, posted
    /// (20) where it has posted in this round, and narrow (19) where the frame has not 1 to 24 bytes; the wire is then as it was.
    fn post(&mut self, q: BoxNumber, frame: &[u8]) -> Result<(), Refusal>
        ensures answer { result ≡ answer (on_post q.0 frame.now (meaning self.old)) }
        ensures meaning { meaning self.new
            ≡ or_kept (meaning self.old) (on_post q.0 frame.now (meaning self.old)) }
        ensures refused { OnErr result (self.new ≡ self.old) };

    /// Box p fetches what box q posted. Answers its length, with the frame at the front of `out` and the bytes behind as they were; or `None`,
    /// with `out` as it was, where q has posted nothing or is falling with p in its lost set. Refuses, in this order, stranger (5) where p or q
    /// is not below n, and narrow (19) where `out` is shorter than the frame; `out` is then as it was.
    fn fetch(&self, p: BoxNumber, q: BoxNumber, out: &mut [u8]) -> Result<Option<usize>, Refusal>
        ensures answer { result
            ≡ fetch_answer (on_fetch p.0 q.0 (length out.old) (meaning self.now)) }
        ensures bytes { out.new
            ≡ fetched_bytes (on_fetch p.0 q.0 (length out.old) (meaning self.now)) out.old };

    /// Closes the round: the boxes that are falling are down. What was posted stays.
    fn close(&mut self)
        ensures { meaning self.new ≡ on_close (meaning self.old) };

    /// Whatever a wire means is well formed: n is 2 to 32, only boxes below n are up, one that is falling is up and has a lost set of other
    /// boxes below n, and what a box below n has posted is 1 to 24 bytes.
    ghost formed: { (w : Self) → IsWellFormed (meaning w) };
}

/// Whether a wire takes these bytes for a frame: they are 1 to 24.
pub fn is_postable(frame: &[u8]) -> bool
    ensures { result ≡ is_postable frame.now }
{
    (1..=LONGEST_FRAME).contains(&frame.len())
}
