// What a proposal is to the layers above.
ghost use Rattle.std.specs.Prelude.{◌≡◌, ℕ, slice_index};
ghost use Rattle.std.specs.Option.{ok_or};
ghost use Rattle.base.specs.declared.refusal.Refusal.TheVariants.{Image};
ghost use Rattle.proposals.specs.Kinds.{Kind, IsKind};
ghost use Rattle.proposals.specs.Orders.{goes_before};

use base::Refusal;

/// A proposal of some kind: it has an image in numbers, by which it is sent, and of two proposals one may go first. The type that implements this is
/// the kind; `kind` says what it means, and `lawful` that it keeps the laws of a kind. The order is the kind's own and not `Ord`: of calls it is not
/// the order that a derive gives.
pub trait Proposal: Copy {
    /// How many numbers an image has, 1 to 4.
    const SIZE: usize;

    /// The same number, for contracts.
    ghost SIZE: { ℕ };

    /// Size, image, the proposal that has an image, and the order.
    ghost kind: { Kind Self };

    /// The number at place `i` of the image, from 0. It is below 2^28, and 0 where `i` is `SIZE` or more.
    fn image_number(self, i: usize) -> u32
        ensures { result ≡ slice_index (kind.image self) i };

    /// The proposal that has just these numbers for its image. Refuses image (9) if none has.
    fn from_image(numbers: &[u32]) -> Result<Self, Refusal>
        ensures { result ≡ ok_or (kind.named numbers.now) Image };

    /// Whether of the two this one may go first. Of one proposal and itself, each may.
    fn may_go_first(self, other: Self) -> bool
        ensures { result ≡ kind.leads self other };

    /// Whether this one goes before the other: it may go first, and the other may not.
    fn goes_before(self, other: Self) -> bool
        ensures { result ≡ goes_before kind.leads self other }
    {
        self.may_go_first(other) && !other.may_go_first(self)
    }

    /// `SIZE` is the size that `kind` has.
    ghost sized: { SIZE ≡ kind.size };

    /// Sizes and numbers are within their limits, an image is read as the proposal that has it and as no other, and the order is total and transitive,
    /// with no two proposals that may each go first.
    ghost lawful: { IsKind kind };
}
