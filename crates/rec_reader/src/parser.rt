//! Reads tokens as specifications.
ghost use Rattle.std.specs.Prelude.{◌≡◌, ◌<◌, ◌≤◌, ◌^◌, length, List, Some, IfOk, IfErr, IsErrOf, OnOk};
ghost use Rattle.rec_reader.specs.declared.syntax_tree.Specification.{Specification};
ghost use Rattle.rec_reader.specs.Few.{AreCountsFew};
ghost use Rattle.rec_reader.specs.Grammar.{IsInput};
ghost use Rattle.rec_reader.specs.Reached.{HasEnded, HasEndedIn, IsUntaken, IsStoppedIn, Spells, IsReadRefusal};
ghost use Rattle.rec_reader.specs.Refusal.{IsRefusal};
ghost use Rattle.rec_reader.specs.Steps.{start, step, IsStopped};

use crate::machine::Machine;
use crate::scanner::{MOST_BYTES, Piece, piece_at, tokens};
use crate::syntax_tree::{Specification, Syntax};
use crate::token::{Token, Tokens};
use faults::kinds;
use read_faults::{NotTaken, ReadFail, refused};
use sequences::Sequence;
use std::alloc::Global;

// Takes all tokens; gives the specifications, where they may end there.
fn run(
    alloc: Global,
    tokens: &[Token],
    machine: &mut Machine,
) -> Result<Option<Sequence<Specification>>, ReadFail>
    requires few { length tokens.now < 2 ^ 32 }
    requires start { machine.old ≡ start }
    ensures ended { IfOk result (HasEnded tokens.now) }
    ensures stopped { IfErr result (IsStopped tokens.now) }
{
    for token in tokens {
        match machine.step(alloc, *token) {
            Ok(()) => {}
            Err(NotTaken::Unexpected) => {
                return Err(refused(kinds::UNEXPECTED, token.place()));
            }
            Err(NotTaken::Memory) => return Err(ReadFail::Memory),
        }
    }
    Ok(machine.finish(alloc))
}

// The specifications that tokens spell, where they may end after the last. The machine is dropped
// by name: that is one step of the proof, and not one for each of its lists.
fn specifications_of(
    alloc: Global,
    tokens: &[Token],
) -> Result<Option<Sequence<Specification>>, ReadFail>
    requires { length tokens.now < 2 ^ 32 }
    ensures ended { IfOk result (HasEnded tokens.now) }
    ensures stopped { IfErr result (IsStopped tokens.now) }
{
    let mut machine = Machine::start(alloc);
    let ended = run(alloc, tokens, &mut machine);
    drop(machine);
    ended
}

/// The specifications that tokens spell.
///
/// Refuses with kind 2 the first token such that the tokens up to and with it begin no sentence, at
/// its place; with kind 3, at the length of the input, tokens that begin a sentence and are none.
pub fn syntax<'a>(alloc: Global, tokens: &Tokens<'a>) -> Result<Syntax<'a>, ReadFail>
    ensures bytes { IfOk result (λ s. s.bytes ≡ tokens.now.bytes) }
    ensures sentence { IfOk result (λ s. IsInput tokens.now.tokens s.specifications) }
    // No other specifications are spelled by these tokens.
    ensures only { IfOk result (λ s. (others : List Specification)
        → IsInput tokens.now.tokens others → others ≡ s.specifications) }
    // Nothing of the grammar is refused.
    ensures accepted { (specs : List Specification)
        → IsInput tokens.now.tokens specs → IfErr result (λ e. e ≡ ReadFail.Memory) }
    ensures refused_only_at_its_place { IfErr result (IsRefusal tokens.now) }
{
    match specifications_of(alloc, tokens.as_slice())? {
        Some(items) => Ok(Syntax {
            text: tokens.text(),
            items,
        }),
        None => Err(refused(kinds::UNENDED, tokens.text().len())),
    }
}

// Takes a token of the bytes. One that is unexpected is refused only where all bytes have tokens.
fn take(alloc: Global, bytes: &[u8], machine: &mut Machine, token: Token) -> Result<(), ReadFail>
    requires { AreCountsFew machine.old.heads }
    ensures taken { OnOk result (step machine.old token ≡ Some machine.new) }
    ensures untaken { IfErr result (IsUntaken bytes.now machine.old token) }
{
    let place = token.place();
    match machine.step(alloc, token) {
        Ok(()) => Ok(()),
        Err(NotTaken::Unexpected) => {
            let _tokens = tokens(alloc, bytes)?;
            Err(refused(kinds::UNEXPECTED, place))
        }
        Err(NotTaken::Memory) => Err(ReadFail::Memory),
    }
}

// Takes all tokens of the bytes; gives the specifications, where they may end there. No token is
// kept, but for what its sentence needs.
fn run_bytes(
    alloc: Global,
    bytes: &[u8],
    machine: &mut Machine,
) -> Result<Option<Sequence<Specification>>, ReadFail>
    requires few { length bytes.now < 2 ^ 32 }
    requires start { machine.old ≡ start }
    ensures ended { IfOk result (HasEndedIn bytes.now) }
    ensures stopped { IfErr result (IsStoppedIn bytes.now) }
{
    let mut at = 0;
    while at < bytes.len() {
        match piece_at(bytes, at) {
            Piece::Blank(more) => at += more + 1,
            Piece::Whole(token, more) => {
                take(alloc, bytes, machine, token)?;
                at += more + 1;
            }
            Piece::Bad => return Err(refused(kinds::BAD_BYTE, at)),
        }
    }
    Ok(machine.finish(alloc))
}

// The specifications that the tokens of bytes spell, where they may end after the last.
fn specifications_in(
    alloc: Global,
    bytes: &[u8],
) -> Result<Option<Sequence<Specification>>, ReadFail>
    requires { length bytes.now < 2 ^ 32 }
    ensures ended { IfOk result (HasEndedIn bytes.now) }
    ensures stopped { IfErr result (IsStoppedIn bytes.now) }
{
    let mut machine = Machine::start(alloc);
    let ended = run_bytes(alloc, bytes, &mut machine);
    drop(machine);
    ended
}

/// The specifications that bytes spell. It gives what `syntax` gives of their `tokens`, and keeps
/// no token.
///
/// Refuses bytes that have no tokens as `tokens` does, and else as `syntax` does.
pub fn read(alloc: Global, bytes: &[u8]) -> Result<Syntax<'_>, ReadFail>
    ensures bytes { IfOk result (λ s. s.bytes ≡ bytes.now) }
    ensures sentence { IfOk result (λ s. Spells bytes.now s.specifications) }
    // Nothing of the grammar is refused, and no other specifications are spelled by these bytes.
    ensures accepted { (specs : List Specification)
        → Spells bytes.now specs → IfErr result (λ e. e ≡ ReadFail.Memory) }
    ensures only { IfOk result (λ s. (others : List Specification)
        → Spells bytes.now others → others ≡ s.specifications) }
    ensures refused { IfErr result (IsReadRefusal bytes.now) }
    ensures too_long { 2 ^ 32 ≤ length bytes.now → IsErrOf result ReadFail.Memory }
{
    if bytes.len() > MOST_BYTES {
        return Err(ReadFail::Memory);
    }
    match specifications_in(alloc, bytes)? {
        Some(items) => Ok(Syntax { text: bytes, items }),
        None => Err(refused(kinds::UNENDED, bytes.len())),
    }
}
