//! The command `unpack`: a file of terms to their lines.
ghost use Rattle.std.specs.Prelude.{◌≡◌, ◌<◌, ◌≤◌, IfOk, IfErr, length};
ghost use Rattle.term_file.specs.Contents.{tree_at};
ghost use Rattle.term_commands.specs.declared.fault.TermsFault.TheVariants as fault;
ghost use Rattle.term_commands.specs.Unpacking.{IsUnpacked, IsClosed, lines, all_written};
ghost use Rattle.term_commands.specs.WritingLines.{WritesLine};

use crate::fault::TermsFault;
use faults::Memory;
use std::alloc::Global;
use term_file::{Shared, decode, write_shared};
use term_text::Printed;

/// How many nodes are written of one term.
const MOST_NODES: u64 = 1_048_576;

/// How many nodes are written of all terms together.
const MOST_TOGETHER: u64 = 16_777_216;

/// The lines of the terms of a file.
#[derive(Drop)]
pub struct Unpacked {
    pub text: Vec<u8>,
    /// Whether no term is too large.
    pub whole: bool,
}

/// Appends the line of a term, where so many nodes were written before, and says how many were
/// written of it; of a term that is too large, none.
fn write_line(
    shared: &Shared,
    root: u32,
    written: u64,
    text: &mut Vec<u8>,
) -> Result<Option<u64>, Memory>
    requires root { root < length shared.now.trees }
    requires written { written ≤ 16777216 }
    ensures { IfOk result (WritesLine shared.now.symbols (tree_at shared.now.trees root) written
        text.old.items text.new.items) }
{
    let limit = MOST_NODES.min(MOST_TOGETHER - written);
    match write_shared(shared, root, limit, text)? {
        Printed::Whole => {
            text.push(b'\n')?;
            Ok(Some(shared.node_count(root)))
        }
        Printed::TooLarge => {
            text.extend_from_slice(b"too large\n")?;
            Ok(None)
        }
    }
}

/// The lines of shared terms.
fn lines_of(alloc: Global, shared: &Shared) -> Result<Unpacked, TermsFault>
    ensures text { IfOk result (λ u. u.text.items ≡ lines 0 shared.now.symbols shared.now.trees) }
    ensures whole { IfOk result (λ u. u.whole ≡ all_written 0 shared.now.trees) }
    ensures memory { IfErr result (λ e. e ≡ fault.Memory) }
{
    let mut text = Vec::new(alloc);
    let mut written: u64 = 0;
    let mut whole = true;
    for root in 0..shared.len() as u32 {
        let nodes = write_line(shared, root, written, &mut text)?;
        written += nodes.unwrap_or(0);
        whole &= nodes.is_some();
    }
    Ok(Unpacked { text, whole })
}

/// The canonical line of each term of a file. In place of a term with more than 1,048,576 nodes,
/// and of one with which more than 16,777,216 nodes would be written, stands the line `too large`.
///
/// A file is refused as `decode` refuses it, and `Memory` may be wherever there is none.
pub fn unpack_terms(alloc: Global, file: &[u8]) -> Result<Unpacked, TermsFault>
    ensures unpacked { IfOk result (λ u. IsUnpacked file.now u.text.items u.whole) }
    ensures closed { IfErr result (IsClosed file.now) }
{
    let shared = decode(alloc, file)?;
    lines_of(alloc, &shared)
}
