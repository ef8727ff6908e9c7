//! The parts of an input: a specification, and an output.

ghost use Rattle.std.specs.Prelude.{◌≡◌, ℕ, Ok, IfOk, IfErr};
ghost use Rattle.std.specs.Option.{option_map};
ghost use Rattle.log_check.specs.Words.{capped};
ghost use Rattle.rec_check.specs.Run.{MayBeRun};
ghost use Rattle.rec_check.specs.Spec.{specified};
ghost use Rattle.rec_check.specs.Symbols.{widest_of};
ghost use Rattle.rec_reader.specs.Tokens.{tokens_of};
ghost use Rattle.run_checks.specs.Named.{IsNamed};
ghost use Rattle.run_checks.specs.Parts.{announced, at_line_feed, cut_at, parts};
ghost use Rattle.run_checks.specs.Specification.{IsRead, Spells, IsFaulty};

use log_check::lines::split_line;
use log_check::words::capped_number_of;
use rec_check::{Spec, check, unconditional};
use rec_reader::{ReadFail, Syntax, Tokens, syntax, tokens};
use std::alloc::Global;

/// What stands before and after the first line feed.
fn at_line_feed(bytes: &[u8]) -> Option<(&[u8], &[u8])>
    ensures { option_map (λ p. (p.0.now, p.1.now)) result ≡ at_line_feed bytes.now }
{
    split_line(bytes)
}

/// The number that stands after `spec `, or 2^64 where it is greater.
fn announced(line: &[u8]) -> Option<u128>
    ensures { result ≡ option_map capped (announced line.now) }
{
    if line.len() < 5 {
        return None;
    }
    let (word, number) = line.split_at(5);
    if word == b"spec ".as_slice() {
        capped_number_of(number)
    } else {
        None
    }
}

/// So many bytes before a line feed, and those after it.
fn cut_at(size: u128, bytes: &[u8]) -> Option<(&[u8], &[u8])>
    ensures { (n : ℕ) → size ≡ capped n
        → option_map (λ p. (p.0.now, p.1.now)) result ≡ cut_at n bytes.now }
{
    if size >= bytes.len() as u128 {
        return None;
    }
    let size = size as usize;
    if bytes[size] == b'\n' {
        Some((&bytes[..size], &bytes[size + 1..]))
    } else {
        None
    }
}

/// The specification and the output of an input.
pub(crate) fn parts(bytes: &[u8]) -> Option<(&[u8], &[u8])>
    ensures { option_map (λ p. (p.0.now, p.1.now)) result ≡ parts bytes.now }
{
    let (line, rest) = at_line_feed(bytes)?;
    let size = announced(line)?;
    cut_at(size, rest)
}

/// The specification that a text spells, without conditions.
pub(crate) fn specification(alloc: Global, text: &[u8]) -> Result<Spec, ReadFail>
    ensures made { IfOk result (λ spec. Spells text.now (specified spec)) }
    ensures may_be_run { IfOk result (λ spec. MayBeRun (specified spec)) }
    ensures named { IfOk result (λ spec. IsNamed (specified spec)) }
    ensures widest { IfOk result (λ spec. spec.widest ≡ widest_of spec.symbols) }
    ensures failed { IfErr result (IsFaulty text.now) }
{
    let tokens = tokens(alloc, text)?;
    spec_of_tokens(alloc, &tokens)
}

/// The specification that tokens spell, without conditions.
fn spec_of_tokens(alloc: Global, tokens: &Tokens<'_>) -> Result<Spec, ReadFail>
    requires { tokens_of tokens.now.bytes ≡ Ok tokens.now.tokens }
    ensures made { IfOk result (λ spec. Spells tokens.now.bytes (specified spec)) }
    ensures may_be_run { IfOk result (λ spec. MayBeRun (specified spec)) }
    ensures named { IfOk result (λ spec. IsNamed (specified spec)) }
    ensures widest { IfOk result (λ spec. spec.widest ≡ widest_of spec.symbols) }
    ensures failed { IfErr result (IsFaulty tokens.now.bytes) }
{
    let syntax = syntax(alloc, tokens)?;
    spec_of_syntax(alloc, &syntax)
}

/// The specification that a syntax spells, without conditions.
fn spec_of_syntax(alloc: Global, syntax: &Syntax<'_>) -> Result<Spec, ReadFail>
    requires { IsRead syntax.now.bytes syntax.now }
    ensures made { IfOk result (λ spec. Spells syntax.now.bytes (specified spec)) }
    ensures may_be_run { IfOk result (λ spec. MayBeRun (specified spec)) }
    ensures named { IfOk result (λ spec. IsNamed (specified spec)) }
    ensures widest { IfOk result (λ spec. spec.widest ≡ widest_of spec.symbols) }
    ensures failed { IfErr result (IsFaulty syntax.now.bytes) }
{
    let spec = check(alloc, syntax)?;
    unconditional(alloc, syntax)?;
    Ok(spec)
}
