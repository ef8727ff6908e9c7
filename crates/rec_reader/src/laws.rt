//! What is true of tokens, as the contract of a function that does nothing.
ghost use Rattle.rec_reader.specs.Cut.{OthersAreNoCut, OthersAreNotRefused, RefusedAtFirstBad, TokensAreCut, TokensWorked};

/// The bytes fall into parts that join to them, each a token's text or what stands between tokens;
/// or they are refused at the first byte at which none of these begins.
pub fn token_laws()
    ensures cut { TokensAreCut }
    ensures only { OthersAreNoCut }
    ensures refused { RefusedAtFirstBad }
    ensures refused_only { OthersAreNotRefused }
    ensures worked { TokensWorked }
{}
