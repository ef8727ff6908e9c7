//! Worked cached lists, and the rooms of small reductions, which the definitions compute: the
//! contract of a function that does nothing.

ghost use Rattle.rewrite_cache.specs.Facts.{FourTermsRemembered, FirstTimeIsWhole, SecondTimeIsShorter, TwoStepsTakeARoomOfThree, ConstantTakesNoRoom};

/// Small terms, what is left out of what they build, and the room that they take.
pub fn worked_facts()
    ensures four_terms { FourTermsRemembered }
    ensures first { FirstTimeIsWhole }
    ensures second { SecondTimeIsShorter }
    ensures room { TwoStepsTakeARoomOfThree }
    ensures no_room { ConstantTakesNoRoom }
{}
