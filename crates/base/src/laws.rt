// What counts and tests of numbers mean.
ghost use Rattle.base.specs.CountLaws.{AnyHasWitness, SubsetCountsNoMore, NestedAreSame};

/// Of the numbers below any n: a test passes somewhere exactly if a number that passes can be named; a subset counts no more; and nested sets of
/// equal count are equal.
pub fn counts_laws()
    ensures any { AnyHasWitness }
    ensures subset { SubsetCountsNoMore }
    ensures nested { NestedAreSame }
{}
