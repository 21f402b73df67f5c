// Medleys, made and compared.
ghost use Rattle.std.specs.Prelude.{◌≡◌};
ghost use Rattle.std.proofs.Common.{rules};
ghost use Rattle.std.specs.Option.{ok_or};
ghost use Rattle.base.specs.declared.refusal.Refusal.TheVariants.{Image};
ghost use Rattle.proposal_check.specs.Medleys.{medley_kind, medley_named};
ghost use Rattle.proposal_check.specs.MedleyLemmas.{medley_lawful};

use super::values::Medley;
use base::Refusal;
use proposals::Proposal;

// The numbers of an image are below it.
const LIMIT: u32 = 268_435_456;

impl Medley {
    /// The medley of these four tunes, or image (9) if a number is above 268,435,455.
    pub fn new(tunes: [u32; 4]) -> Result<Medley, Refusal>
        ensures { result ≡ ok_or (medley_named tunes) Image }
    {
        if tunes.iter().all(|tune| *tune < LIMIT) {
            Ok(Medley { tunes })
        } else {
            Err(Refusal::Image)
        }
    }

    /// The numbers of its four tunes, the first tune first.
    pub fn tunes(&self) -> &[u32]
        ensures { result.now ≡ self.now.tunes }
    {
        &self.tunes
    }
}

impl Proposal for Medley {
    const SIZE: usize = 4;

    ghost SIZE = { 4 };

    ghost kind = { medley_kind };

    ghost sized = { Prim.search rules };

    ghost lawful = { medley_lawful };

    fn image_number(self, i: usize) -> u32 {
        self.tunes.get(i).copied().unwrap_or(0)
    }

    fn from_image(numbers: &[u32]) -> Result<Medley, Refusal> {
        match numbers {
            [first, second, third, fourth] => Medley::new([*first, *second, *third, *fourth]),
            _ => Err(Refusal::Image),
        }
    }

    fn may_go_first(self, other: Medley) -> bool {
        self.tunes <= other.tunes
    }
}
