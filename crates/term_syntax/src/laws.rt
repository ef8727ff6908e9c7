//! What is true of all canonical texts, each law the contract of a function that does nothing.
ghost use Rattle.term_syntax.specs.Laws.{CanonicalTextIsReadBack, WrittenTextIsReadBack, NothingElseIsReadBack, CanonicalTextIsOneTerms};

/// Canonical text is read back as what was written, and different terms have different canonical
/// texts.
pub fn canonical_laws()
    ensures read_back { CanonicalTextIsReadBack }
    ensures written_back { WrittenTextIsReadBack }
    ensures only { NothingElseIsReadBack }
    ensures one_terms { CanonicalTextIsOneTerms }
{}
