//! Outputs with traces that are worked out by hand.

use run_checks::{ReadFail, TraceVerdict, check_trace};
use std::alloc::{Alloc, Global};
use std::process::Abort;
use std::test::Fail;

/// What a check comes to: `derived`, `underived`, `line` (kind 15), `condition` (kind 19) or
/// `fault`, and its number.
fn answer_to(alloc: Global, input: &[u8]) -> Result<(&'static str, u64), Fail> {
    match check_trace(alloc, input) {
        Ok(TraceVerdict::Derived(values)) => Ok(("derived", values)),
        Ok(TraceVerdict::Underived(number)) => Ok(("underived", number)),
        Err(ReadFail::Refused { kind: 15, offset }) => Ok(("line", offset)),
        Err(ReadFail::Refused { kind: 19, offset }) => Ok(("condition", offset)),
        Err(ReadFail::Refused { offset, .. }) => Ok(("fault", offset)),
        Err(ReadFail::Memory) => Err("no memory".into()),
    }
}

/// Checks rows of outputs of a specification, each with what its check comes to.
fn answers<R: Abort + Alloc<A = Global>>(
    rt: &R,
    spec: &str,
    rows: &[(&str, (&str, u64))],
) -> Result<(), Fail> {
    for (output, wanted) in rows {
        let input = format!(in rt.alloc(); "spec {}\n{spec}\n{output}", spec.len())?;
        assert_eq!(rt;
            answer_to(rt.alloc(), input.as_bytes())?,
            *wanted,
            "{output}"
        );
    }
    Ok(())
}

#[test]
fn one_step_is_derived_by_its_rule(rt: HostRuntime) -> Result<(), Fail> {
    let with_step =
        b"spec 63\nREC-SPEC A SORTS S CONS a b : -> S RULES a -> b EVAL a END-SPEC\nb\n# trace 0 r0\n# end\n";
    let without =
        b"spec 63\nREC-SPEC A SORTS S CONS a b : -> S RULES a -> b EVAL a END-SPEC\nb\n# trace 0\n# end\n";
    assert_eq!(rt; answer_to(rt.alloc(), with_step)?, ("derived", 1));
    assert_eq!(rt; answer_to(rt.alloc(), without)?, ("underived", 0));
    Ok(())
}

/// 1 + 1: rule 1 makes s(plus(s(z),z)) of it, and rule 0 makes s(z) of the argument.
const SUM: &str =
    "REC-SPEC NAT SORTS Nat CONS z : -> Nat s : Nat -> Nat OPNS plus : Nat Nat -> Nat \
VARS X Y : Nat RULES plus(X,z) -> X plus(X,s(Y)) -> s(plus(X,Y)) EVAL plus(s(z),s(z)) END-SPEC";

#[test]
fn each_event_must_be_possible(rt: HostRuntime) -> Result<(), Fail> {
    let rows = [
        ("s(s(z))\n# trace 0 r1 d1 r0\n# end\n", ("derived", 1)),
        (
            "s(s(z))\n# trace 0 r1 d1 r0 u d1 d1 u\n# end",
            ("derived", 1),
        ),
        ("s(s(z))\n# trace 0 r0 r1 d1 r0\n# end\n", ("underived", 0)),
        ("s(s(z))\n# trace 0 r1 d1 r1\n# end\n", ("underived", 0)),
        ("s(s(z))\n# trace 0 r1 r0\n# end\n", ("underived", 0)),
        ("s(s(z))\n# trace 0 r1 d2 r0\n# end\n", ("underived", 0)),
        ("s(s(z))\n# trace 0 r1 d1 r0 u u\n# end\n", ("underived", 0)),
        (
            "s(s(z))\n# trace 0 r1 d1 r0 d1 d1\n# end\n",
            ("underived", 0),
        ),
        ("s(s(z))\n# trace 0 r1 d1 r2\n# end\n", ("underived", 0)),
    ];
    answers(&rt, SUM, &rows)
}

#[test]
fn events_must_end_with_the_line(rt: HostRuntime) -> Result<(), Fail> {
    let rows = [
        ("s(s(z))\n# trace 0 r1 d1\n# end\n", ("underived", 0)),
        ("s(z)\n# trace 0 r1 d1 r0\n# end\n", ("underived", 0)),
        ("s(s(z)\n# trace 0 r1 d1 r0\n# end\n", ("underived", 0)),
        ("s(s(z))z\n# trace 0 r1 d1 r0\n# end\n", ("underived", 0)),
        ("\n# trace 0 r1 d1 r0\n# end\n", ("underived", 0)),
        ("s(plus(s(z),z))\n# trace 0 r1\n# end\n", ("derived", 1)),
        ("plus(s(z),s(z))\n# trace 0\n# end\n", ("derived", 1)),
        ("out of fuel\n# end\n", ("derived", 0)),
    ];
    answers(&rt, SUM, &rows)
}

#[test]
fn numbers_may_be_large_and_never_begin_with_0(rt: HostRuntime) -> Result<(), Fail> {
    let rows = [
        ("s(s(z))\n# trace 0 r1 d0\n# end\n", ("underived", 0)),
        (
            "s(s(z))\n# trace 0 r1 d18446744073709551617 r0\n# end\n",
            ("underived", 0),
        ),
        (
            "s(s(z))\n# trace 0 r18446744073709551617\n# end\n",
            ("underived", 0),
        ),
        ("s(s(z))\n# trace 0 r01 d1 r0\n# end\n", ("line", 2)),
        ("s(s(z))\n# trace 00 r1 d1 r0\n# end\n", ("line", 2)),
        ("s(s(z))\n# trace 0 r1 d1 r0 \n# end\n", ("line", 2)),
    ];
    answers(&rt, SUM, &rows)
}

#[test]
fn lines_of_a_wrong_form_come_first(rt: HostRuntime) -> Result<(), Fail> {
    let rows = [
        ("s(s(z))\n# trace 1 r1 d1 r0\n# end\n", ("line", 2)),
        ("s(s(z))\n# end\n# trace 0 r1 d1 r0\n", ("line", 2)),
        ("s(s(z))\n# trace 0\n", ("line", 3)),
        ("s(s(z))\n# trace 0\n# end\n\n", ("line", 4)),
        ("# trace 0 r1 d1 r0\n# end\n", ("line", 2)),
        ("too deep\n# trace 0 r1 d1 r0\n# end\n", ("line", 2)),
        ("", ("line", 1)),
    ];
    answers(&rt, SUM, &rows)
}

/// Three terms, of which e(f(a),f(a)) alone has a step.
const THREE: &str = "REC-SPEC E SORTS S CONS a b : -> S f : S -> S OPNS e : S S -> S VARS X : S \
RULES e(X,X) -> a EVAL e(f(a),f(a)) e(a,b) f(b) END-SPEC";

#[test]
fn each_value_has_its_trace(rt: HostRuntime) -> Result<(), Fail> {
    let rows = [
        (
            "a\ne(a,b)\nf(b)\n# trace 0 r0\n# trace 1\n# trace 2\n# end\n",
            ("derived", 3),
        ),
        (
            "a\nf(b)\ne(a,b)\n# trace 0 r0\n# trace 1\n# trace 2\n# end\n",
            ("underived", 1),
        ),
        (
            "a\na\nb\n# trace 0 r0\n# trace 1 r0\n# trace 2\n# end\n",
            ("underived", 1),
        ),
        (
            "a\nout of fuel\nf(b)\n# trace 0 r0\n# trace 2\n# end\n",
            ("derived", 2),
        ),
        (
            "a\nout of fuel\nb\n# trace 0 r0\n# trace 2\n# end\n",
            ("underived", 2),
        ),
        (
            "a\nout of fuel\nf(b)\n# trace 2\n# trace 0 r0\n# end\n",
            ("line", 4),
        ),
        (
            "a\ne(a,b)\nf(b)\n# trace 0\n# trace 1\n# end\n",
            ("line", 6),
        ),
        ("a\ne(a,b)\n# trace 0 r0\n# trace 1\n# end\n", ("line", 4)),
    ];
    answers(&rt, THREE, &rows)
}

#[test]
fn the_specification_is_refused_at_its_place(rt: HostRuntime) -> Result<(), Fail> {
    answers(&rt, "REC-SPEC A EVAL a END-SPEC", &[("b\n", ("fault", 16))])?;
    answers(&rt, "REC-SPEC A EVAL", &[("b\n", ("fault", 15))])?;
    let guarded = "REC-SPEC A SORTS S CONS a b : -> S RULES a -> b if a = b EVAL a END-SPEC";
    answers(&rt, guarded, &[("", ("condition", 48))])
}

#[test]
fn a_heading_of_a_wrong_form_is_line_0(rt: HostRuntime) -> Result<(), Fail> {
    let inputs = [
        "",
        "spec 4\nabc",
        "spec 03\nabc\n",
        "spec 3\nabcd\n",
        "spec 99999999999999999999\nabc\n",
    ];
    for input in inputs {
        assert_eq!(rt;
            answer_to(rt.alloc(), input.as_bytes())?,
            ("line", 0),
            "{input}"
        );
    }
    Ok(())
}
