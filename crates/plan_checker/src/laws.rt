// Laws over the rules and over the places of bits, each the contract of a function that does nothing.
ghost use Rattle.plan_checker.specs.Laws.{BitsStandInPieces, EachBitHasOneCarrier, EachBitHasOneSample, FailureIsUnique, VerdictIsComputed};

/// A plan is good or has exactly one first failure, and the plain program of the definitions computes which.
pub fn verdicts_are_determined()
    ensures unique { FailureIsUnique }
    ensures computed { VerdictIsComputed }
{}

/// An IQ bit of a good plan belongs to one carrier at most.
pub fn bits_have_one_carrier()
    ensures { EachBitHasOneCarrier }
{}

/// Each bit of a container stands in one of its pieces, as far after the piece's start as it is after the bits of the
/// pieces before.
pub fn bits_stand_in_pieces()
    ensures { BitsStandInPieces }
{}

/// An IQ bit of a basic frame of a good plan belongs to one carrier, one of its samples and one bit of that sample at
/// most.
pub fn bits_have_one_sample()
    ensures { EachBitHasOneSample }
{
    axc_sample_map::places_are_within();
    axc_sample_map::places_are_distinct();
    axc_compatible_map::places_are_within();
    axc_compatible_map::places_are_distinct();
}
