//! Texts, what they are read as, and where they are refused.
ghost use Rattle.std.specs.Prelude.{All};
ghost use Rattle.term_model.specs.Tree.{IsGround};
ghost use Rattle.tree_text.specs.Text.{HasNames};

use faults::Memory;
use std::alloc::Global;
use std::test::Fail;
use symbol_pool::Symbols;
use term_model::{Item, Symbol};
use term_syntax::{Flats, ReadFail, read_terms};
use tree_text::write_term;

// Texts, and the canonical texts of their terms, each with a line feed.
static TEXTS: [(&[u8], &[u8]); 12] = [
    (b"\"f\"(a) \"1\"", b"f(a)\n\"1\"\n"),
    (b"[1,f(2)] [] [[],1]", b"[1,f(2)]\n[]\n[[],1]\n"),
    (b"f(a, \"b c\")  f(a,a)", b"f(a,\"b c\")\nf(a,a)\n"),
    (b"", b""),
    (b"\t\r\n ", b""),
    (b"1a", b"1\na\n"),
    (b"f\n(\na\t,\rb )", b"f(a,b)\n"),
    (b"\"\"", b"\"\"\n"),
    (b"\"a\\\"b\\\\\"(0)", b"\"a\\\"b\\\\\"(0)\n"),
    (
        b"_a'.-9 \"_a'.-9\" \"-a\" \"'\"",
        b"_a'.-9\n_a'.-9\n\"-a\"\n\"'\"\n",
    ),
    (b"18446744073709551615", b"18446744073709551615\n"),
    (
        b"[0,[1,[2,[]]],f(g(h(a),b),[c]),d]",
        b"[0,[1,[2,[]]],f(g(h(a),b),[c]),d]\n",
    ),
];

// Texts, with the kind and the place of the refusal, or twice 0 where they spell terms.
static VERDICTS: [(&[u8], u8, u64); 33] = [
    // The longest name, and one that is longer.
    (&[b'n'; 255], 0, 0),
    (&[b'n'; 256], 13, 0),
    // Sixteen arguments, seventeen of which the last is no number, and a list of more elements.
    (b"f(0,1,2,3,4,5,6,7,8,9,a,b,c,d,e,f)", 0, 0),
    (b"f(0,1,2,3,4,5,6,7,8,9,a,b,c,d,e,f,01)", 13, 34),
    (b"[0,1,2,3,4,5,6,7,8,9,a,b,c,d,e,f,g]", 0, 0),
    (b"f()", 2, 2),
    (b"a\"", 3, 2),
    (b"\"\\x\"", 1, 2),
    (b"01", 17, 0),
    (b"18446744073709551616", 17, 0),
    (b"[1,", 3, 3),
    (b"[,]", 2, 1),
    (b"f(a", 3, 3),
    (b"$", 1, 0),
    (b"a %", 1, 2),
    (b"'a", 1, 0),
    (b"\"a\x7f\"", 1, 2),
    (b"\"a\n\"", 1, 2),
    (b"\"a\\", 3, 3),
    (b"\"a\\\"", 3, 4),
    (b") \"", 3, 3),
    (b") $", 1, 2),
    (b"f(a))", 2, 4),
    (b"f(a]", 2, 3),
    (b"[a)", 2, 2),
    (b"f(a b)", 2, 4),
    (b"f(a,)", 2, 4),
    (b"[a,]", 2, 3),
    (b"f(a)(b)", 2, 4),
    (b"1(a)", 2, 1),
    (b"a, b", 2, 1),
    (b"00 )", 2, 3),
    (b"a 00 99999999999999999999", 17, 2),
];

// Each term's canonical text and a line feed.
fn put_lines(terms: &Flats, symbols: &Symbols, out: &mut Vec<u8>) -> Result<(), Memory>
    requires ground { All IsGround terms.now }
    requires held { All (HasNames symbols.now) terms.now }
{
    for term in terms.as_slice() {
        write_term(term, symbols, out)?;
        out.push(b'\n')?;
    }
    Ok(())
}

// The kind and the place of the refusal, or twice 0 where the bytes spell terms.
fn refusal(alloc: Global, bytes: &[u8], symbols: &mut Symbols) -> Result<(u8, u64), Memory> {
    match read_terms(alloc, bytes, symbols) {
        Ok(_) => Ok((0, 0)),
        Err(ReadFail::Refused { kind, offset }) => Ok((kind, offset)),
        Err(ReadFail::Memory) => Err(Memory),
    }
}

// The canonical texts of a text's terms.
fn lines_of(alloc: Global, text: &[u8], symbols: &mut Symbols) -> Result<Vec<u8>, ReadFail> {
    let terms = read_terms(alloc, text, symbols)?;
    let mut out = Vec::new(alloc);
    put_lines(&terms, symbols, &mut out)?;
    Ok(out)
}

#[test]
fn texts_are_written_again_as_canonical_texts(rt: HostRuntime) -> Result<(), Fail> {
    for (text, canonical) in &TEXTS {
        let mut symbols = Symbols::new(rt.alloc());
        for given in [*text, *canonical] {
            let lines = lines_of(rt.alloc(), given, &mut symbols)?;
            assert_eq!(rt; lines.as_slice(), *canonical);
        }
    }
    Ok(())
}

#[test]
fn texts_are_refused_at_their_places(rt: HostRuntime) -> Result<(), Fail> {
    for (bytes, kind, offset) in &VERDICTS {
        let mut symbols = Symbols::new(rt.alloc());
        assert_eq!(rt;
            refusal(rt.alloc(), bytes, &mut symbols)?,
            (*kind, *offset),
            "{bytes:?}"
        );
    }
    Ok(())
}

#[test]
fn symbols_are_numbered_in_the_order_of_the_text(rt: HostRuntime) -> Result<(), Fail> {
    let mut symbols = Symbols::new(rt.alloc());
    let terms = read_terms(rt.alloc(), b"f(g(a),b) f f(a,[1])", &mut symbols)?;
    let rows: [(&[u8], u32, u32); 5] = [
        (b"f", 2, 0),
        (b"g", 1, 1),
        (b"a", 0, 2),
        (b"b", 0, 3),
        (b"f", 0, 4),
    ];
    for (name, arity, number) in rows {
        assert_eq!(rt; symbols.find(name, arity), Some(Symbol(number)));
    }
    let expected = [
        Item::App(Symbol(2), 0),
        Item::Int(1),
        Item::Nil,
        Item::Cons,
        Item::App(Symbol(0), 2),
    ];
    let last = terms.as_slice().last().ok_or("no term")?;
    assert_eq!(rt; last.items(), expected.as_slice());
    Ok(())
}

#[test]
fn one_symbol_too_many_is_refused_at_its_head(rt: HostRuntime) -> Result<(), Fail> {
    let mut symbols = Symbols::new(rt.alloc());
    for arity in 0..65_534u32 {
        symbols.intern(b"f", arity)?;
    }
    assert_eq!(rt; refusal(rt.alloc(), b"f g(f) f(f)", &mut symbols)?, (0, 0));
    assert_eq!(rt; refusal(rt.alloc(), b"f g(f) g", &mut symbols)?, (13, 7));
    Ok(())
}
