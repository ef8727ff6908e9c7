//! What specifications spell together.

ghost use Rattle.std.specs.Prelude.{◌≡◌, ◌++◌, [], All, Some, IfOk, IsSome, OnOk, map};
ghost use Rattle.std.specs.List.{flat_map};
ghost use Rattle.rec_reader.specs.Few.{HasFewNodes, HasFewLeftNodes};
ghost use Rattle.rec_check.specs.Symbols.{named_by, named_in, with_symbols};
ghost use Rattle.rec_check.specs.Rule.{rule_in};
ghost use Rattle.rec_check.specs.Spelled as spelled;
ghost use Rattle.rec_check.specs.Term.{after, all_of};
ghost use Rattle.rec_includes.specs.Material.{symbols_of, specifications_at};
ghost use Rattle.rec_includes.specs.Listing.{listing, texts};
ghost use Rattle.rec_offences.specs.Known.{entries_of};

use crate::rules::rule_of;
use crate::scope::Scope;
use crate::table::Table;
use crate::terms::trees_of;
use faults::Memory;
use rec_includes::{Directory, text_of};
use rec_offences::{Signature, specification_at, symbols_at};
use rec_reader::{Node, Rule as WrittenRule, Sequence, Specification};
use rewrite_model::Rule;
use std::alloc::Global;
use symbol_pool::Symbols;
use term_model::Flat;

/// Adds symbols, in order.
#[tactic(auto, using(crate::proofs::Declaring::declaring))]
fn add_symbols(table: &mut Table, text: &[u8], symbols: &[Signature]) -> Result<(), Memory>
    requires { IsSome (with_symbols table.old.symbols
        (map (named_by text.now) (entries_of symbols.now))) }
    ensures { OnOk result (with_symbols table.old.symbols
        (map (named_by text.now) (entries_of symbols.now)) ≡ Some table.new.symbols) }
{
    for symbol in symbols {
        table.add(text_of(text, symbol.name), symbol.arguments.len())?;
    }
    Ok(())
}

/// The symbols that these of the specifications declare, in order.
pub(crate) fn table_of(
    alloc: Global,
    text: &[u8],
    specifications: &[Specification],
    material: &[usize],
) -> Result<Table, Memory>
    requires { IsSome
        (with_symbols [] (named_in text.now (symbols_of specifications.now material.now))) }
    ensures { IfOk result (λ t.
        with_symbols [] (named_in text.now (symbols_of specifications.now material.now))
        ≡ Some t.symbols) }
{
    let symbols = symbols_at(alloc, specifications, material)?;
    let mut table = Table::new(alloc);
    add_symbols(&mut table, text, &symbols)?;
    Ok(table)
}

/// Adds the names that a specification declares as variables.
fn add_variables(variables: &mut Directory, specification: &Specification) -> Result<(), Memory>
    ensures { OnOk result (variables.new ≡ listing variables.old.bytes
        (variables.old.names ++ flat_map (λ v. v.names) specification.now.variables)) }
{
    for declared in specification.variables.as_slice() {
        variables.add_all(declared.names.as_slice())?;
    }
    Ok(())
}

/// Adds rules, which have these variables.
fn push_rules(
    alloc: Global,
    symbols: &Symbols,
    declared: &Directory,
    written: &[WrittenRule],
    rules: &mut Vec<Rule>,
) -> Result<(), Memory>
    requires few { All HasFewNodes written.now }
    requires spelled { IsSome (after rules.old.items
        (all_of (rule_in declared.now.bytes symbols.now (texts declared.now)) written.now)) }
    ensures { OnOk result (after rules.old.items
        (all_of (rule_in declared.now.bytes symbols.now (texts declared.now)) written.now)
        ≡ Some rules.new.items) }
{
    for rule in written {
        rules.push(rule_of(alloc, symbols, declared, rule)?)?;
    }
    Ok(())
}

/// Adds the rules of a specification.
fn add_rules(
    alloc: Global,
    text: &[u8],
    symbols: &Symbols,
    specification: &Specification,
    rules: &mut Vec<Rule>,
) -> Result<(), Memory>
    requires few { HasFewLeftNodes specification.now }
    requires spelled { IsSome (after rules.old.items
        (spelled.rules_in text.now symbols.now specification.now)) }
    ensures { OnOk result (after rules.old.items
        (spelled.rules_in text.now symbols.now specification.now) ≡ Some rules.new.items) }
{
    let mut declared = Directory::new(alloc, text);
    add_variables(&mut declared, specification)?;
    let written = specification.rules.as_slice();
    push_rules(alloc, symbols, &declared, written, rules)
}

/// The rules of these of the specifications, in order.
pub(crate) fn rules_of(
    alloc: Global,
    text: &[u8],
    symbols: &Symbols,
    specifications: &[Specification],
    material: &[usize],
) -> Result<Vec<Rule>, Memory>
    requires few { All HasFewLeftNodes specifications.now }
    requires spelled { IsSome (spelled.rules_of text.now symbols.now
        (specifications_at specifications.now material.now)) }
    ensures { IfOk result (λ v. spelled.rules_of text.now symbols.now
        (specifications_at specifications.now material.now) ≡ Some v.items) }
{
    let mut rules = Vec::new(alloc);
    for number in material {
        if let Some(specification) = specification_at(specifications, *number) {
            add_rules(alloc, text, symbols, specification, &mut rules)?;
        }
    }
    Ok(rules)
}

/// The trees of terms without variables, in order.
pub(crate) fn terms_of(
    alloc: Global,
    text: &[u8],
    symbols: &Symbols,
    terms: &[Sequence<Node>],
) -> Result<Vec<Flat>, Memory>
    requires { IsSome (spelled.terms_in text.now symbols.now terms.now) }
    ensures { IfOk result (λ v. spelled.terms_in text.now symbols.now terms.now ≡ Some v.items) }
{
    let variables = Directory::new(alloc, text);
    let scope = Scope {
        symbols,
        variables: &variables,
    };
    trees_of(alloc, &scope, terms)
}
