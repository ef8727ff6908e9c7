//! What names are declared as.
ghost use Rattle.std.specs.Prelude.{◌≡◌, ◌++◌, map, IfOk, OnOk};
ghost use Rattle.rec_includes.specs.Material.{symbols_by, symbols_of_declaration, variables_by, variables_of};
ghost use Rattle.rec_offences.specs.Scope.{symbol_entry, variable_entry, own_entries};
ghost use Rattle.rec_offences.specs.Known.{entries_of};

use faults::Memory;
use rec_reader::{Declaration, Name, Specification, Variables};
use std::alloc::Global;

/// A symbol with the sorts of its arguments and its own, or a variable with its sort.
#[derive(Clone, Copy)]
pub struct Signature<'a> {
    pub name: Name,
    pub arguments: &'a [Name],
    pub sort: Name,
    pub is_variable: bool,
}

fn add_declaration<'a>(
    declaration: &'a Declaration,
    signatures: &mut Vec<Signature<'a>>,
) -> Result<(), Memory>
    ensures { OnOk result (entries_of signatures.new.items
        ≡ entries_of signatures.old.items
        ++ map symbol_entry (symbols_of_declaration declaration.now)) }
{
    for name in declaration.names.as_slice() {
        signatures.push(Signature {
            name: *name,
            arguments: declaration.arguments.as_slice(),
            sort: declaration.sort,
            is_variable: false,
        })?;
    }
    Ok(())
}

fn add_listed<'a>(
    variables: &'a Variables,
    signatures: &mut Vec<Signature<'a>>,
) -> Result<(), Memory>
    ensures { OnOk result (entries_of signatures.new.items
        ≡ entries_of signatures.old.items ++ map variable_entry (variables_of variables.now)) }
{
    for name in variables.names.as_slice() {
        signatures.push(Signature {
            name: *name,
            arguments: &[],
            sort: variables.sort,
            is_variable: true,
        })?;
    }
    Ok(())
}

/// Adds the symbols that a specification declares.
pub(crate) fn add_symbols<'a>(
    specification: &'a Specification,
    signatures: &mut Vec<Signature<'a>>,
) -> Result<(), Memory>
    ensures { OnOk result (entries_of signatures.new.items
        ≡ entries_of signatures.old.items ++ map symbol_entry (symbols_by specification.now)) }
{
    for declaration in specification.declarations.as_slice() {
        add_declaration(declaration, signatures)?;
    }
    Ok(())
}

/// Adds the variables that a specification declares.
fn add_variables<'a>(
    specification: &'a Specification,
    signatures: &mut Vec<Signature<'a>>,
) -> Result<(), Memory>
    ensures { OnOk result (entries_of signatures.new.items
        ≡ entries_of signatures.old.items ++ map variable_entry (variables_by specification.now)) }
{
    for variables in specification.variables.as_slice() {
        add_listed(variables, signatures)?;
    }
    Ok(())
}

/// The symbols that a specification declares.
pub(crate) fn own_symbols<'a>(
    alloc: Global,
    specification: &'a Specification,
) -> Result<Vec<Signature<'a>>, Memory>
    ensures { IfOk result (λ v. entries_of v.items
        ≡ map symbol_entry (symbols_by specification.now)) }
{
    let mut signatures = Vec::new(alloc);
    add_symbols(specification, &mut signatures)?;
    Ok(signatures)
}

/// What a specification declares: symbols, and then variables.
pub(crate) fn own_signatures<'a>(
    alloc: Global,
    specification: &'a Specification,
) -> Result<Vec<Signature<'a>>, Memory>
    ensures { IfOk result (λ v. entries_of v.items ≡ own_entries specification.now) }
{
    let mut signatures = Vec::new(alloc);
    add_symbols(specification, &mut signatures)?;
    add_variables(specification, &mut signatures)?;
    Ok(signatures)
}
