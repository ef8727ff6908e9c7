//! Whether a line is the text of a term.

ghost use Rattle.std.specs.Prelude.{◌≡◌, ◌↔◌, ℕ, List, [], ◌∷◌, ◌++◌, IfOk, IsTrue, OnOk, MatchOption};
ghost use Rattle.std.specs.Option.{option_map};
ghost use Rattle.term_text.specs.Text.{text};
ghost use Rattle.run_checks.specs.Held.{IsThere, term_at};
ghost use Rattle.run_checks.specs.Pieces.{ArePieces, Takes, further, over_arguments};

use crate::table::TermTable;
use faults::Memory;
use std::alloc::{AllocError, Global};

/// What is still to be read of a line: the text of a term, or a byte.
#[derive(Clone, Copy)]
pub(crate) enum Piece {
    Term(u32),
    Byte(u8),
}

/// Whether a line is the text of a term. It looks at no more of the term than the line has bytes,
/// and doesn't recurse.
pub(crate) fn is_text(
    alloc: Global,
    table: &TermTable,
    number: u32,
    line: &[u8],
) -> Result<bool, Memory>
    requires { IsThere table.now number }
    ensures { IfOk result
        (λ b. IsTrue b ↔ (line.now ≡ text table.now.symbols (term_at table.now number))) }
{
    let mut rest = line;
    let mut pieces = vec![in alloc; Piece::Term(number)]?;
    'pieces: while let Some(piece) = pieces.pop() {
        match take(table, piece, rest, &mut pieces)? {
            Some(after) => rest = after,
            None => return Ok(false),
        }
    }
    Ok(rest.is_empty())
}

/// The bytes after the beginning of a piece, whose rest is left on the stack; None where it doesn't
/// begin the bytes.
fn take<'a>(
    table: &TermTable,
    piece: Piece,
    bytes: &'a [u8],
    pieces: &mut Vec<Piece>,
) -> Result<Option<&'a [u8]>, AllocError>
    requires { ArePieces table.now (pieces.old.items ++ piece ∷ []) }
    ensures { IfOk result
        (λ after. Takes table.now (pieces.old.items ++ piece ∷ []) pieces.new.items
        bytes.now (option_map (λ r. r.now) after)) }
{
    match piece {
        Piece::Byte(byte) => Ok(after_byte(byte, bytes)),
        Piece::Term(number) => {
            let (symbol, arguments) = table.at(number);
            push_arguments(arguments, pieces)?;
            Ok(after_name(table.name(symbol), bytes))
        }
    }
}

/// The bytes after a byte that they begin with.
fn after_byte(byte: u8, bytes: &[u8]) -> Option<&[u8]>
    ensures { MatchOption result ((more : List ℕ) → bytes.now ≡ byte ∷ more → ⊥)
        (λ after. bytes.now ≡ byte ∷ after.now) }
{
    let (first, after) = bytes.split_first()?;
    if *first == byte { Some(after) } else { None }
}

/// The bytes after a name that they begin with.
fn after_name<'a>(name: &[u8], bytes: &'a [u8]) -> Option<&'a [u8]>
    ensures { MatchOption result ((more : List ℕ) → bytes.now ≡ name.now ++ more → ⊥)
        (λ after. bytes.now ≡ name.now ++ after.now) }
{
    if bytes.len() < name.len() {
        return None;
    }
    let (start, after) = bytes.split_at(name.len());
    if start == name { Some(after) } else { None }
}

/// Puts arguments on a stack, each after a comma, so that they are taken from the first on.
fn push_further(arguments: &[u32], pieces: &mut Vec<Piece>) -> Result<(), AllocError>
    ensures { OnOk result (pieces.new.items ≡ pieces.old.items ++ further arguments.now) }
{
    let mut place = arguments.len();
    'places: while place > 0 {
        place -= 1;
        pieces.push(Piece::Term(arguments[place]))?;
        pieces.push(Piece::Byte(b','))?;
    }
    Ok(())
}

/// Puts arguments in parentheses on a stack, so that they are taken from the first on; nothing
/// where there are none.
fn push_arguments(arguments: &[u32], pieces: &mut Vec<Piece>) -> Result<(), AllocError>
    ensures { OnOk result (pieces.new.items ≡ pieces.old.items ++ over_arguments arguments.now) }
{
    let Some((first, others)) = arguments.split_first() else {
        return Ok(());
    };
    pieces.push(Piece::Byte(b')'))?;
    push_further(others, pieces)?;
    pieces.push(Piece::Term(*first))?;
    pieces.push(Piece::Byte(b'('))?;
    Ok(())
}
