//! Texts whose terms are built in one pass, and texts for which the pass is given up.
use faults::Memory;
use plain_store::PlainStore;
use std::alloc::Global;
use std::test::Fail;
use term_building::{GivenUp, build_text};
use terms_api::Terms;

/// Places of a store's stack.
const PLACES: u32 = 17;

/// Term text, the fewest rows that suffice for it, the most arguments that a symbol may have, and
/// the canonical lines.
static BUILT: [(&str, u32, u32, &str); 8] = [
    ("", 0, 4, ""),
    // White space on both sides of each token: f over a and the list; 1, b, the empty list and two
    // cells; and c.
    ("\t f\n( a\t,\r[ 1 , b ] ) \r\n c ", 8, 4, "f(a,[1,b])\nc\n"),
    // A name in quotes is plain where it can be.
    ("\"f\"( \"a b\" ) \"_a'.-9\"", 3, 4, "f(\"a b\")\n_a'.-9\n"),
    // Each mark but `[` right behind a name, and a name at the end: a, g over it, b, the empty list and two
    // cells, c, f and d.
    ("f(g(a),[b,a],c)d", 9, 4, "f(g(a),[b,a],c)\nd\n"),
    // No white space is needed between two terms.
    (
        "18446744073709551615 0a[]",
        4,
        4,
        "18446744073709551615\n0\na\n[]\n",
    ),
    // A symbol with the most arguments; a, the empty list, and three cells.
    ("[a,[],f(a,a,a,a)]", 6, 4, "[a,[],f(a,a,a,a)]\n"),
    // The most arguments that there may be.
    (
        "f(a,a,a,a,a,a,a,a,a,a,a,a,a,a,a,a)",
        2,
        16,
        "f(a,a,a,a,a,a,a,a,a,a,a,a,a,a,a,a)\n",
    ),
    // As many terms as there are places.
    (
        "a a a a a a a a a a a a a a a a a",
        1,
        4,
        "a\na\na\na\na\na\na\na\na\na\na\na\na\na\na\na\na\n",
    ),
];

/// Term text, the rows, the most arguments that a symbol may have, and why the pass is given up.
static GIVEN_UP: [(&str, u32, u32, GivenUp); 19] = [
    // An argument more than may be.
    ("f(a,a,a,a,a)", 2, 4, GivenUp::TooSmall),
    // A row less than there are terms: 1, a and f over both; 1, the empty list and a cell.
    ("f(1,a)", 2, 4, GivenUp::TooSmall),
    ("[1]", 2, 4, GivenUp::TooSmall),
    // A term more than there are places.
    (
        "a a a a a a a a a a a a a a a a a a",
        1,
        4,
        GivenUp::TooSmall,
    ),
    // 17 arguments, which no store has room for.
    (
        "f(a,a,a,a,a,a,a,a,a,a,a,a,a,a,a,a,a)",
        2,
        16,
        GivenUp::Otherwise,
    ),
    (
        "f(a,a,a,a,a,a,a,a,a,a,a,a,a,a,a,a,a)",
        2,
        4,
        GivenUp::Otherwise,
    ),
    // An open quote, and bytes that begin no token or stand in no name.
    ("a \"b", 10, 4, GivenUp::Otherwise),
    ("a %", 10, 4, GivenUp::Otherwise),
    ("\"a\\b\"", 10, 4, GivenUp::Otherwise),
    // A bracket that closes parentheses, parentheses that stay open, and a number with a zero.
    ("f(a]", 10, 4, GivenUp::Otherwise),
    ("f(a", 10, 4, GivenUp::Otherwise),
    ("01", 10, 4, GivenUp::Otherwise),
    // Marks behind a name that stands in no group, or in another one.
    ("a,b", 10, 4, GivenUp::Otherwise),
    ("a)", 10, 4, GivenUp::Otherwise),
    ("a]", 10, 4, GivenUp::Otherwise),
    ("[a)", 10, 4, GivenUp::Otherwise),
    // No term between two marks.
    ("f()", 10, 4, GivenUp::Otherwise),
    ("f(a,)", 10, 4, GivenUp::Otherwise),
    ("[,a]", 10, 4, GivenUp::Otherwise),
];

/// What building a text in a new store gives.
fn build(
    alloc: Global,
    text: &str,
    rows: u32,
    most: u32,
) -> Result<Result<Vec<u8>, GivenUp>, Memory> {
    let mut store = PlainStore::new(alloc, rows, PLACES, most)?;
    store.enter();
    Ok(build_text(alloc, text.as_bytes(), most, &mut store))
}

#[test]
fn texts_are_built_with_their_lines(rt: HostRuntime) -> Result<(), Fail> {
    for (text, rows, most, lines) in &BUILT {
        let built = build(rt.alloc(), text, *rows, *most)??;
        assert_eq!(rt; built.as_slice(), lines.as_bytes(), "{text}");
        if *rows > 0 {
            let given_up = build(rt.alloc(), text, *rows - 1, *most)?.err();
            assert_eq!(rt; given_up, Some(GivenUp::TooSmall), "{text}");
        }
    }
    Ok(())
}

#[test]
fn other_texts_are_given_up(rt: HostRuntime) -> Result<(), Fail> {
    for (text, rows, most, why) in &GIVEN_UP {
        let given_up = build(rt.alloc(), text, *rows, *most)?.err();
        assert_eq!(rt; given_up, Some(*why), "{text}");
    }
    Ok(())
}
