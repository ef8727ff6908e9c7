//! Reads the tokens of bytes, one after another, as terms.
ghost use Rattle.std.specs.Prelude.{◌≡◌, ◌<◌, ◌^◌, Some, IfOk, IfErr, OnOk, length};
ghost use Rattle.term_syntax.specs.Few.{AreCountsFew};
ghost use Rattle.term_syntax.specs.Reached.{HasRun, IsReadOf, IsUntaken, IsStoppedIn, IsSyntaxFault};
ghost use Rattle.term_syntax.specs.Shown.{machine_in, parts_in, token_in};
ghost use Rattle.term_syntax.specs.Steps.{step};

use crate::list::Parts;
use crate::machine::Machine;
use crate::nodes::Nodes;
use crate::scanner::{Cut, look_through, piece_at};
use crate::token::Token;
use faults::kinds;
use read_faults::{NotTaken, ReadFail, refused};
use std::alloc::Global;

// Takes a token of the bytes. One that is unexpected is refused only where all bytes have tokens.
#[tactic(auto, using(crate::proofs::Passing::untaken_there, crate::proofs::Passing::untaken_cut))]
#[inline(always)]
fn take(alloc: Global, bytes: &[u8], machine: &mut Machine, token: Token) -> Result<(), ReadFail>
    requires { AreCountsFew 2 machine.old.groups }
    ensures taken { OnOk result (step (machine_in bytes.now machine.old) (token_in bytes.now token)
        ≡ Some (machine_in bytes.now machine.new)) }
    ensures untaken { IfErr result
        (IsUntaken bytes.now (machine_in bytes.now machine.old) (token_in bytes.now token)) }
{
    match machine.step(bytes, token) {
        Ok(()) => Ok(()),
        Err(NotTaken::Unexpected) => {
            look_through(alloc, bytes)?;
            Err(refused(kinds::UNEXPECTED, token.place))
        }
        Err(NotTaken::Memory) => Err(ReadFail::Memory),
    }
}

// Takes all tokens of the bytes. None of them is kept, but for what its term needs.
fn run(alloc: Global, bytes: &[u8]) -> Result<Machine, ReadFail>
    requires { length bytes.now < 2 ^ 32 }
    ensures ran { IfOk result (λ m. HasRun bytes.now (machine_in bytes.now m)) }
    ensures stopped { IfErr result (IsStoppedIn bytes.now) }
{
    let mut machine = Machine::start(alloc, bytes);
    let mut at = 0;
    while at < bytes.len() {
        match piece_at(alloc, bytes, at)? {
            Cut::Blank => at += 1,
            Cut::Whole(token, next) => {
                take(alloc, bytes, &mut machine, token)?;
                at = next;
            }
        }
    }
    Ok(machine)
}

/// The parts of the terms that bytes spell, and their nodes.
///
/// Refuses with kind 1 or 3, as `piece_at` does, bytes that have no tokens; else with kind 2 the
/// first token such that the tokens up to and with it begin no input, at its place; with kind 3, at
/// the length of the input, tokens that begin an input and are none.
pub(crate) fn syntax(alloc: Global, bytes: &[u8]) -> Result<(Parts, Nodes), ReadFail>
    requires { length bytes.now < 2 ^ 32 }
    ensures read { IfOk result (λ r. IsReadOf bytes.now (parts_in bytes.now r.0, r.1.terms)) }
    ensures refused { IfErr result (IsSyntaxFault bytes.now) }
{
    let mut machine = run(alloc, bytes)?;
    match machine.settle(bytes) {
        Ok(()) => {}
        Err(_) => return Err(ReadFail::Memory),
    }
    match machine.finish(bytes) {
        Some(read) => Ok(read),
        None => Err(refused(kinds::UNENDED, bytes.len())),
    }
}
