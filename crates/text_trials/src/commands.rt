//! Inputs of term text, what is told of them, and with how few rows.
use faults::Refusal;
use std::alloc::Global;
use std::test::Fail;
use term_commands::{TermsFault, tell_terms};

/// Term text, the fewest rows that suffice for it, and what is told of it.
static INPUTS: [(&str, u32, &str); 14] = [
    // f over a and "b c", and over twice a: these two, a and "b c".
    (
        "f(a, \"b c\")  f(a,a)",
        4,
        "f(a,\"b c\")\nf(a,a)\ndistinct 4 nodes 6\n",
    ),
    ("", 0, "distinct 0 nodes 0\n"),
    // A name is plain where it can be.
    ("\"f\"(a) \"1\"", 3, "f(a)\n\"1\"\ndistinct 3 nodes 3\n"),
    // The first has 1, 2, f over it, the empty list, and two cells; the third two more.
    (
        "[1,f(2)] [] [[],1]",
        8,
        "[1,f(2)]\n[]\n[[],1]\ndistinct 8 nodes 12\n",
    ),
    // A name with other numbers of arguments is another symbol.
    ("f f(f) f(f,f)", 3, "f\nf(f)\nf(f,f)\ndistinct 3 nodes 6\n"),
    ("[1,1,1]", 5, "[1,1,1]\ndistinct 5 nodes 7\n"),
    ("[a] [a]\n[a]", 3, "[a]\n[a]\n[a]\ndistinct 3 nodes 9\n"),
    // White space alone, on both sides of each token, and none between two terms.
    ("\t\r\n ", 0, "distinct 0 nodes 0\n"),
    (
        " f\n(\na\t,\r[ 1 , b ] ) \n",
        7,
        "f(a,[1,b])\ndistinct 7 nodes 7\n",
    ),
    ("1a[]", 3, "1\na\n[]\ndistinct 3 nodes 3\n"),
    // Names in quotes: plain ones with and without arguments, and one with escapes.
    (
        "\"f\" \"_a'.-9\"( \"g\" ,\"a\\\"b\\\\\")",
        4,
        "f\n_a'.-9(g,\"a\\\"b\\\\\")\ndistinct 4 nodes 4\n",
    ),
    // The empty list, a cell over twice it, and two cells more.
    ("[[],[[]]]", 4, "[[],[[]]]\ndistinct 4 nodes 7\n"),
    // More arguments than the smaller store has room for, and the most that there may be.
    ("f(a,a,a,a,a)", 2, "f(a,a,a,a,a)\ndistinct 2 nodes 6\n"),
    (
        "f(a,a,a,a,a,a,a,a,a,a,a,a,a,a,a,a)",
        2,
        "f(a,a,a,a,a,a,a,a,a,a,a,a,a,a,a,a)\ndistinct 2 nodes 17\n",
    ),
];

/// Why nothing is told.
fn fault_of(alloc: Global, input: &str, rows: u32) -> Option<TermsFault> {
    tell_terms(alloc, input.as_bytes(), rows).err()
}

#[test]
fn terms_are_told_where_the_rows_suffice(rt: HostRuntime) -> Result<(), Fail> {
    for (input, rows, told) in &INPUTS {
        let text = tell_terms(rt.alloc(), input.as_bytes(), *rows)?;
        assert_eq!(rt; text.as_slice(), told.as_bytes(), "{input}");
        if *rows > 0 {
            let fault = fault_of(rt.alloc(), input, *rows - 1);
            assert_eq!(rt; fault, Some(TermsFault::StoreFull), "{input}");
        }
    }
    Ok(())
}

#[test]
fn a_long_list_of_short_terms_is_told(rt: HostRuntime) -> Result<(), Fail> {
    let mut input = Vec::new(rt.alloc());
    input.extend_from_slice(b"[a")?;
    for _comma in 1..1_000u32 {
        input.extend_from_slice(b",a")?;
    }
    input.push(b']')?;
    let text = tell_terms(rt.alloc(), input.as_slice(), 1_002)?;
    input.extend_from_slice(b"\ndistinct 1002 nodes 2001\n")?;
    assert_eq!(rt; text.as_slice(), input.as_slice());
    Ok(())
}

/// Inputs that are refused, with kind and place.
static REFUSED: [(&str, u8, u64); 11] = [
    ("f(a", 3, 3),
    ("f()", 2, 2),
    ("a\"", 3, 2),
    ("\"\\x\"", 1, 2),
    ("01", 17, 0),
    ("a 18446744073709551616", 17, 2),
    ("[1,", 3, 3),
    ("[,]", 2, 1),
    ("[f(a,]", 2, 5),
    ("a % b", 1, 2),
    ("f(a,a,a,a,a,a,a,a,a,a,a,a,a,a,a,a,a)", 13, 34),
];

#[test]
fn other_inputs_are_refused(rt: HostRuntime) -> Result<(), Fail> {
    for (input, kind, place) in &REFUSED {
        let want = Refusal {
            kind: *kind,
            place: *place,
        };
        let fault = fault_of(rt.alloc(), input, 100);
        assert_eq!(rt; fault, Some(TermsFault::Refused(want)), "{input}");
    }
    Ok(())
}
