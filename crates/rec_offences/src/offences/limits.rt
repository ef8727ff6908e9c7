//! More than the limits allow.
ghost use Rattle.std.specs.Prelude.{◌≡◌, ◌∷◌, [], slice_get};
ghost use Rattle.std.specs.List.{filter, flat_map};
ghost use Rattle.std.specs.Option.{option_map, option_to_list, option_and_then, option_copied};
ghost use Rattle.rec_offences.specs.Scope.{root, heads};
ghost use Rattle.rec_offences.specs.Offences.{is_long, names_in, names_in_declaration, names_in_variables, terms_of, first_past};
ghost use Rattle.rec_offences.specs.Faults.{of_kind, least_with};
ghost use Rattle.rec_offences.specs.Known.{entries_of};
ghost use Rattle.rec_offences.specs.Grouped.{limits_at, long_declared, passing_entries};

use crate::entries::Verdict;
use crate::least::{note_if, note_some};
use crate::offences::sides::root;
use crate::signatures::Signature;
use crate::turn::Turn;
use faults::{Refusal, kinds};
use rec_includes::text_of;
use rec_reader::{Declaration, Name, Node, Rule, Sequence, Specification, Variables};

/// How many symbols, rules or terms there may be.
pub(crate) const MOST: usize = 65_535;

const LONGEST_NAME: usize = 255;

fn note_long_name(found: &mut Option<Refusal>, text: &[u8], name: Name)
    ensures { found.new ≡ least_with found.old
        (of_kind 13 (filter (is_long text.now) (name ∷ []))) }
{
    note_if(
        found,
        kinds::LIMIT,
        name,
        text_of(text, name).len() > LONGEST_NAME,
    );
}

fn note_long(found: &mut Option<Refusal>, text: &[u8], names: &[Name])
    ensures { found.new ≡ least_with found.old
        (of_kind 13 (filter (is_long text.now) names.now)) }
{
    for name in names {
        note_long_name(found, text, *name);
    }
}

fn note_long_heads(found: &mut Option<Refusal>, text: &[u8], nodes: &[Node])
    ensures { found.new ≡ least_with found.old
        (of_kind 13 (filter (is_long text.now) (heads nodes.now))) }
{
    for node in nodes {
        note_long_name(found, text, node.head);
    }
}

fn note_long_in_declaration(found: &mut Option<Refusal>, text: &[u8], declaration: &Declaration)
    ensures { found.new ≡ least_with found.old
        (of_kind 13 (filter (is_long text.now) (names_in_declaration declaration.now))) }
{
    note_long(found, text, declaration.names.as_slice());
    note_long(found, text, declaration.arguments.as_slice());
    note_long_name(found, text, declaration.sort);
}

fn note_long_in_declarations(found: &mut Option<Refusal>, text: &[u8], declarations: &[Declaration])
    ensures { found.new ≡ least_with found.old (of_kind 13
        (filter (is_long text.now) (flat_map names_in_declaration declarations.now))) }
{
    for declaration in declarations {
        note_long_in_declaration(found, text, declaration);
    }
}

/// Notes the names in declarations that are too long, of all specifications, before all else. Each
/// specification notes its own once more, with its other limits.
pub(crate) fn note_long_declared(
    found: &mut Option<Refusal>,
    text: &[u8],
    specifications: &[Specification],
)
    ensures { found.new ≡ least_with found.old (long_declared text.now specifications.now) }
{
    for specification in specifications {
        note_long_in_declarations(found, text, specification.declarations.as_slice());
    }
}

fn note_long_in_variables(found: &mut Option<Refusal>, text: &[u8], variables: &Variables)
    ensures { found.new ≡ least_with found.old
        (of_kind 13 (filter (is_long text.now) (names_in_variables variables.now))) }
{
    note_long(found, text, variables.names.as_slice());
    note_long_name(found, text, variables.sort);
}

fn note_long_in_rule(found: &mut Option<Refusal>, text: &[u8], rule: &Rule)
    ensures { found.new ≡ least_with found.old
        (of_kind 13 (filter (is_long text.now) (flat_map heads (terms_of rule.now)))) }
{
    note_long_heads(found, text, rule.left.as_slice());
    note_long_heads(found, text, rule.right.as_slice());
    for condition in rule.conditions.as_slice() {
        note_long_heads(found, text, condition.first.as_slice());
        note_long_heads(found, text, condition.second.as_slice());
    }
}

/// Notes the names that are too long.
fn note_long_names(found: &mut Option<Refusal>, text: &[u8], specification: &Specification)
    ensures { found.new ≡ least_with found.old
        (of_kind 13 (filter (is_long text.now) (names_in specification.now))) }
{
    note_long_name(found, text, specification.name);
    note_long(found, text, specification.includes.as_slice());
    note_long(found, text, specification.sorts.as_slice());
    note_long_in_declarations(found, text, specification.declarations.as_slice());
    for variables in specification.variables.as_slice() {
        note_long_in_variables(found, text, variables);
    }
    for rule in specification.rules.as_slice() {
        note_long_in_rule(found, text, rule);
    }
    for term in specification.terms.as_slice() {
        note_long_heads(found, text, term.as_slice());
    }
}

/// The name at a place, counted from 0, where there is one.
fn name_at(names: &[Name], place: usize) -> Option<Name>
    ensures { result ≡ slice_get names.now place }
{
    match names.get(place) {
        Some(name) => Some(*name),
        None => None,
    }
}

/// Notes the 17th sorts of arguments.
fn note_many_arguments(found: &mut Option<Refusal>, declarations: &[Declaration])
    ensures { found.new ≡ least_with found.old (of_kind 13
        (flat_map (λ d. option_to_list (slice_get d.arguments 16)) declarations.now)) }
{
    for declaration in declarations {
        note_some(
            found,
            kinds::LIMIT,
            name_at(declaration.arguments.as_slice(), 16),
        );
    }
}

/// What comes after as many as there may be, counting those that are there before.
fn past<T>(before: usize, items: &[T]) -> Option<&T>
    ensures { option_copied result ≡ first_past before items.now }
{
    if before > MOST {
        return None;
    }
    items.get(MOST - before)
}

/// The name of the symbol with which there are too many.
fn past_symbol(before: usize, symbols: &[Signature]) -> Option<Name>
    ensures { result ≡ option_map (λ e. e.declared.name)
        (first_past before (entries_of symbols.now)) }
{
    let symbol = past(before, symbols)?;
    Some(symbol.name)
}

/// The first token of the rule with which there are too many.
fn past_rule(before: usize, rules: &[Rule]) -> Option<Name>
    ensures { result ≡ option_and_then (λ r. root r.left) (first_past before rules.now) }
{
    root(past(before, rules)?.left.as_slice())
}

/// The first token of the term with which there are too many.
fn past_term(terms: &[Sequence<Node>]) -> Option<Name>
    ensures { result ≡ option_and_then root (first_past 0 terms.now) }
{
    root(past(0, terms)?.as_slice())
}

fn note_passing_entries(found: &mut Option<Refusal>, verdicts: &[Verdict])
    ensures { found.new ≡ least_with found.old (of_kind 13 (passing_entries verdicts.now)) }
{
    for verdict in verdicts {
        note_if(found, kinds::LIMIT, verdict.entry, verdict.is_passing);
    }
}

/// Notes what is past the limits; `symbols` are the specification's own, and so many symbols and
/// rules are included.
pub(crate) fn note_past_limits(
    found: &mut Option<Refusal>,
    turn: &Turn,
    included: (usize, usize),
    symbols: &[Signature],
)
    ensures { found.new ≡ least_with found.old (of_kind 13
        (limits_at turn.now included.0 included.1 (entries_of symbols.now))) }
{
    let (before_symbols, before_rules) = included;
    let specification = turn.specification;
    note_long_names(found, turn.headers.text(), specification);
    note_many_arguments(found, specification.declarations.as_slice());
    note_some(found, kinds::LIMIT, past_symbol(before_symbols, symbols));
    note_some(
        found,
        kinds::LIMIT,
        past_rule(before_rules, specification.rules.as_slice()),
    );
    note_some(
        found,
        kinds::LIMIT,
        past_term(specification.terms.as_slice()),
    );
    note_passing_entries(found, turn.verdicts);
}
