//! Terms of a file as text.
ghost use Rattle.std.specs.Prelude.{◌≡◌, ◌<◌, ◌++◌, ◌↔◌, length, IfOk, OnErr, Ok};
ghost use Rattle.term_model.specs.Tree.{nodes};
ghost use Rattle.tree_text.specs.Canonical.{canonical};
ghost use Rattle.term_text.specs.declared.printing.Printed.TheVariants.{Whole, TooLarge};
ghost use Rattle.term_file.specs.Contents as contents;

use crate::expanding::flat_of;
use crate::shared::Shared;
use faults::Memory;
use term_text::Printed;
use tree_text::write_term;

/// Puts the canonical text of one of the terms behind what `out` has, unless the term has more
/// nodes than the limit. Then, as without memory, `out` is as before. It doesn't recurse, and takes
/// memory linear in the nodes.
pub fn write_shared(
    shared: &Shared,
    root: u32,
    limit: u64,
    out: &mut Vec<u8>,
) -> Result<Printed, Memory>
    requires { root < length shared.now.trees }
    ensures whole { result ≡ Ok Whole → out.new.items
        ≡ out.old.items ++ canonical shared.now.symbols (contents.tree_at shared.now.trees root) }
    ensures too_large { IfOk result (λ printed. (printed ≡ TooLarge)
        ↔ (limit < nodes (contents.tree_at shared.now.trees root))) }
    ensures unwritten { result ≡ Ok TooLarge → out.new.items ≡ out.old.items }
    ensures memory { OnErr result (out.new.items ≡ out.old.items) }
{
    let nodes = shared.node_count(root);
    if nodes > limit {
        return Ok(Printed::TooLarge);
    }
    // no memory has room for so many nodes, or for more, which the count doesn't tell
    if nodes == u64::MAX {
        return Err(Memory);
    }
    let number = shared.roots[root as usize];
    let term = flat_of(*out.allocator(), &shared.symbols, &shared.table, number)?;
    write_term(&term, &shared.symbols, out)?;
    Ok(Printed::Whole)
}
