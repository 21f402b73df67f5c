// What masks mean as sets.
ghost use Rattle.std.specs.Prelude.{◌≡◌};
ghost use Rattle.base.specs.Limits.{most_company};
ghost use Rattle.sets.specs.SetLaws.{OnesAreMembers, MaskIsDetermined, MaskHasMembers, MaskIsBelow};

use super::company::MOST_COMPANY;

/// A mask has as many set bits as members, is determined by its members, has just those that were put in, and is below 2^n exactly if it has none
/// from n on. `MOST_COMPANY` is 32.
pub fn sets_laws()
    ensures most { MOST_COMPANY ≡ most_company }
    ensures ones { OnesAreMembers }
    ensures determined { MaskIsDetermined }
    ensures members { MaskHasMembers }
    ensures below { MaskIsBelow }
{}
