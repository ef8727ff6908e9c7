//! The command `pack`: term text to the one file of its terms.
ghost use Rattle.std.specs.Prelude.{◌≡◌, ◌≤◌, [], All, IfOk, IfErr, OnOk};
ghost use Rattle.tree_text.specs.Canonical.{IsWritable};
ghost use Rattle.term_file.specs.File.{IsFile};
ghost use Rattle.term_commands.specs.Different.{different};
ghost use Rattle.term_commands.specs.Listing.{IsUncounted, IsUntold};
ghost use Rattle.term_commands.specs.declared.fault.TermsFault.TheVariants as fault;
ghost use Rattle.term_commands.specs.Packing.{IsFileOf, IsPacked};

use crate::fault::TermsFault;
use std::alloc::Global;
use symbol_pool::Symbols;
use term_file::{Flats, Shared, encode, share};
use term_syntax::read_terms;

/// The one file of shared terms.
fn file_of(alloc: Global, shared: &Shared) -> Result<Vec<u8>, TermsFault>
    ensures file { IfOk result (λ file. IsFile file.items shared.now) }
    ensures memory { IfErr result (λ e. e ≡ fault.Memory) }
{
    let mut file = Vec::new(alloc);
    encode(shared, &mut file)?;
    Ok(file)
}

/// The one file of terms over these symbols.
fn packed(alloc: Global, terms: &Flats, symbols: &Symbols, rows: u32) -> Result<Vec<u8>, TermsFault>
    requires rows { rows ≤ 262144 }
    requires writable { All (IsWritable symbols.now) terms.now }
    ensures packed { IfOk result (λ file. IsFileOf symbols.now terms.now file.items) }
    ensures fit { OnOk result (different terms.now ≤ rows) }
    ensures uncounted { IfErr result (IsUncounted rows terms.now) }
{
    // A file numbers its terms by 32 bits.
    if terms.as_slice().len() > u32::MAX as usize {
        return Err(TermsFault::Memory);
    }
    let shared = share(alloc, terms, symbols, rows)?;
    file_of(alloc, &shared)
}

/// The one file of the terms that the input spells, over symbols that are taken up meanwhile.
fn packed_over(
    alloc: Global,
    input: &[u8],
    symbols: &mut Symbols,
    rows: u32,
) -> Result<Vec<u8>, TermsFault>
    requires rows { rows ≤ 262144 }
    requires none { symbols.old ≡ [] }
    ensures packed { IfOk result (λ file. IsPacked rows input.now file.items) }
    ensures untold { IfErr result (IsUntold rows input.now) }
{
    let terms = read_terms(alloc, input, symbols)?;
    packed(alloc, &terms, symbols, rows)
}

/// The one file of the terms that the input spells, in which each different subterm stands once.
///
/// The input is refused as `read_terms` refuses it. `StoreFull` is answered exactly where the terms
/// have more different subtrees than rows, and `Memory` may be wherever there is none.
pub fn pack_terms(alloc: Global, input: &[u8], rows: u32) -> Result<Vec<u8>, TermsFault>
    requires { rows ≤ 262144 }
    ensures packed { IfOk result (λ file. IsPacked rows input.now file.items) }
    ensures untold { IfErr result (IsUntold rows input.now) }
{
    let mut symbols = Symbols::new(alloc);
    packed_over(alloc, input, &mut symbols, rows)
}
