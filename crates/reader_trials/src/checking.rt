//! Inputs, and the specifications that they spell.

use rec_check::{Spec, check, unconditional};
use rec_reader::{ReadFail, Syntax, syntax, tokens};
use rewrite_model::Rule;
use std::alloc::Global;
use std::test::Fail;
use term_model::{Item, Symbol};

const A: Item = Item::App(Symbol(0), 0);

const F: Item = Item::App(Symbol(1), 1);

const G: Item = Item::App(Symbol(2), 2);

const X: Item = Item::Var(0);

const Y: Item = Item::Var(1);
/// Ends the sides of a rule, or a term.
const END: Item = Item::Nil;

/// An input, its symbols in order, and the items of its rules and then of its terms.
struct Row {
    input: &'static [u8],
    symbols: &'static [(&'static [u8], u32)],
    items: &'static [Item],
}

static ROWS: [Row; 9] = [
    // An included rule is used on the terms of the last specification.
    Row {
        input: b"REC-SPEC A SORTS S CONS a : -> S OPNS f : S -> S VARS X : S RULES f(X) -> X EVAL f(a) END-SPEC REC-SPEC B : A EVAL f(f(a)) END-SPEC",
        symbols: &[(b"a", 0), (b"f", 1)],
        items: &[X, F, END, X, END, END, A, F, F, END],
    },
    // Variables are numbered in order of first occurrence on the left.
    Row {
        input: b"REC-SPEC A SORTS S CONS a : -> S f : S -> S OPNS g : S S -> S VARS X Y : S RULES g(Y, X) -> X g(f(X), Y) -> g(Y, X) END-SPEC",
        symbols: &[(b"a", 0), (b"f", 1), (b"g", 2)],
        items: &[
            X, Y, G, END, Y, END, END, X, F, Y, G, END, Y, X, G, END, END,
        ],
    },
    // A variable that occurs twice has one number.
    Row {
        input: b"REC-SPEC A SORTS S CONS a : -> S f : S -> S g : S S -> S VARS Z : S RULES g(Z, Z) -> Z END-SPEC",
        symbols: &[(b"a", 0), (b"f", 1), (b"g", 2)],
        items: &[X, X, G, END, X, END, END],
    },
    // Conditions of both kinds, after the sides.
    Row {
        input: b"REC-SPEC A SORTS S CONS a : -> S f : S -> S VARS X : S RULES f(X) -> X if X = a, f(X) <> a END-SPEC",
        symbols: &[(b"a", 0), (b"f", 1)],
        items: &[
            X,
            F,
            END,
            X,
            END,
            X,
            END,
            A,
            END,
            Item::Int(1),
            X,
            F,
            END,
            A,
            END,
            Item::Int(0),
            END,
        ],
    },
    // Included material comes first, in the order of the list.
    Row {
        input: b"REC-SPEC A SORTS S CONS f : S -> S END-SPEC REC-SPEC B SORTS S CONS a : -> S END-SPEC REC-SPEC C : B A CONS g : S S -> S EVAL g(f(a), a) END-SPEC",
        symbols: &[(b"a", 0), (b"f", 1), (b"g", 2)],
        items: &[A, F, A, G, END],
    },
    // A specification that is included by two ways comes once, where it is mentioned first.
    Row {
        input: b"REC-SPEC A SORTS S CONS a : -> S VARS X : S END-SPEC REC-SPEC B : A CONS f : S -> S VARS X : S RULES f(X) -> a END-SPEC REC-SPEC C : A CONS g : S S -> S VARS X : S RULES g(X, X) -> X END-SPEC REC-SPEC D : B C EVAL f(a) END-SPEC",
        symbols: &[(b"a", 0), (b"f", 1), (b"g", 2)],
        items: &[X, F, END, A, END, END, X, X, G, END, X, END, END, A, F, END],
    },
    // The variables of an included rule are its own specification's, also where another one has a
    // symbol with that name.
    Row {
        input: b"REC-SPEC A SORTS S CONS a : -> S f : S -> S VARS X : S RULES f(X) -> X END-SPEC REC-SPEC B SORTS S CONS X : -> S END-SPEC REC-SPEC C : A B EVAL X END-SPEC",
        symbols: &[(b"a", 0), (b"f", 1), (b"X", 0)],
        items: &[X, F, END, X, END, END, Item::App(Symbol(2), 0), END],
    },
    // Terms that aren't the last specification's aren't run.
    Row {
        input: b"REC-SPEC A SORTS S CONS a : -> S EVAL a END-SPEC REC-SPEC B : A END-SPEC",
        symbols: &[(b"a", 0)],
        items: &[],
    },
    Row {
        input: b"REC-SPEC A END-SPEC",
        symbols: &[],
        items: &[],
    },
];

fn read(alloc: Global, input: &[u8]) -> Result<Syntax<'_>, ReadFail> {
    let tokens = tokens(alloc, input)?;
    syntax(alloc, &tokens)
}

fn append(items: &mut Vec<Item>, more: &[Item]) -> Result<(), ReadFail> {
    items.extend_from_slice(more)?;
    items.push(END)?;
    Ok(())
}

fn append_rule(items: &mut Vec<Item>, rule: &Rule) -> Result<(), ReadFail> {
    append(items, rule.left().items())?;
    append(items, rule.right().items())?;
    for condition in rule.conditions() {
        append(items, condition.first().items())?;
        append(items, condition.second().items())?;
        items.push(Item::Int(condition.equal() as u64))?;
    }
    items.push(END)?;
    Ok(())
}

fn items_of(alloc: Global, spec: &Spec) -> Result<Vec<Item>, ReadFail> {
    let mut items = Vec::new(alloc);
    for rule in &spec.rules {
        append_rule(&mut items, rule)?;
    }
    for term in &spec.terms {
        append(&mut items, term.items())?;
    }
    Ok(items)
}

#[test]
fn a_syntax_spells_its_last_specification(rt: HostRuntime) -> Result<(), Fail> {
    for row in &ROWS {
        let spec = check(rt.alloc(), &read(rt.alloc(), row.input)?)?;
        assert_eq!(rt; items_of(rt.alloc(), &spec)?.as_slice(), row.items);
        for (number, (name, arity)) in row.symbols.iter().enumerate() {
            assert_eq!(rt;
                spec.symbols.find(name, *arity).map(|s| s.0 as usize),
                Some(number)
            );
        }
    }
    Ok(())
}

#[test]
fn the_greatest_arity_is_known(rt: HostRuntime) -> Result<(), Fail> {
    let rows: [(&[u8], u32); 3] = [
        (b"REC-SPEC A END-SPEC", 0),
        (b"REC-SPEC A SORTS S CONS a : -> S END-SPEC", 0),
        (
            b"REC-SPEC A SORTS S CONS g : S S -> S f : S -> S END-SPEC REC-SPEC B : A SORTS S CONS a : -> S END-SPEC",
            2,
        ),
    ];
    for (input, widest) in rows {
        let spec = check(rt.alloc(), &read(rt.alloc(), input)?)?;
        assert_eq!(rt; spec.widest, widest);
    }
    Ok(())
}

// All specifications are checked. The faults of all kinds are tested where they are found.
#[test]
fn a_fault_of_a_specification_that_is_not_run_is_refused(rt: HostRuntime) -> Result<(), Fail> {
    let input = b"REC-SPEC A EVAL x END-SPEC REC-SPEC B END-SPEC";
    let wanted = ReadFail::Refused {
        kind: 5,
        offset: 16,
    };
    let refused = check(rt.alloc(), &read(rt.alloc(), input)?).err();
    assert_eq!(rt; refused, Some(wanted));
    Ok(())
}

// Inputs, with the place of the first condition of the rules that are run.
static CONDITIONS: [(&[u8], Option<u64>); 5] = [
    (
        b"REC-SPEC A SORTS S CONS a : -> S RULES a -> a END-SPEC",
        None,
    ),
    (
        b"REC-SPEC A SORTS S CONS a : -> S RULES a -> a a -> a if a = a END-SPEC",
        Some(53),
    ),
    // An included rule counts.
    (
        b"REC-SPEC A SORTS S CONS a : -> S RULES a -> a if a = a END-SPEC REC-SPEC B : A RULES a -> a if a = a END-SPEC",
        Some(46),
    ),
    // The first in the input counts, also where the list of includes goes against the input's
    // order.
    (
        b"REC-SPEC A SORTS S CONS a : -> S RULES a -> a if a = a END-SPEC REC-SPEC B SORTS S CONS b : -> S RULES b -> b if b = b END-SPEC REC-SPEC C : B A END-SPEC",
        Some(46),
    ),
    // One that isn't included doesn't.
    (
        b"REC-SPEC A SORTS S CONS a : -> S RULES a -> a if a = a END-SPEC REC-SPEC B SORTS S END-SPEC",
        None,
    ),
];

#[test]
fn the_first_condition_of_the_rules_that_are_run_is_refused(rt: HostRuntime) -> Result<(), Fail> {
    for (input, place) in &CONDITIONS {
        let wanted = match *place {
            Some(offset) => Err(ReadFail::Refused { kind: 19, offset }),
            None => Ok(()),
        };
        assert_eq!(rt;
            unconditional(rt.alloc(), &read(rt.alloc(), input)?),
            wanted
        );
    }
    Ok(())
}
