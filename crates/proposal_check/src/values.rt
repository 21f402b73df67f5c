// A medley, as a value. The limit stands in the type.
ghost use Rattle.std.specs.Prelude.{◌≡◌, true};
ghost use Rattle.proposal_check.specs.Tunes.{are_tunes};

/// Four tunes that are rung one after another, each with a number from 0 to 268,435,455. Of two medleys the one with the smaller number goes first,
/// at the first tune in which they differ.
#[derive(Clone, Copy, Debug, PartialEq, Eq)]
pub struct Medley {
    pub(crate) tunes: [u32; 4],
    ghost limits: { are_tunes tunes ≡ true },
}
