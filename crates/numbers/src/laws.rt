// The theorems on numbers.
ghost use Rattle.numbers.specs.NumberLaws.{NumberReadsBack, NumberReadsOnly, NumberHasLength};

/// A number that is written reads back as itself, wherever it stands; no other bytes read as it; and it takes a byte at least, and below 128^(k + 1)
/// no more than k + 1.
pub fn numbers_laws()
    ensures back { NumberReadsBack }
    ensures only { NumberReadsOnly }
    ensures len { NumberHasLength }
{}
