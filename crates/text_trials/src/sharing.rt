//! Terms that are shared, and written again. Expected bytes and texts are worked out by hand.
ghost use Rattle.std.specs.Prelude.{◌<◌, ◌≤◌, length};

use faults::Memory;
use std::alloc::{AllocError, Global};
use std::test::Fail;
use symbol_pool::Symbols;
use term_file::{Printed, ShareFault, Shared, decode, encode, share, write_shared};
use term_syntax::read_terms;

/// f(a,a), as the tests of files have it.
const PAIR: [u8; 48] = [
    82, 69, 67, 84, 69, 82, 77, 49, 0, 0, 0, 2, 1, 97, 0, 1, 102, 2, 0, 0, 0, 2, 0, 0, 0, 0, 0, 0,
    0, 0, 0, 1, 0, 0, 0, 0, 0, 0, 0, 0, 0, 0, 0, 1, 0, 0, 0, 1,
];

/// 1 and [1]: no symbols; the integer 1, the empty list, and a cell over both; roots 0 and 2.
const NUMBER_AND_LIST: [u8; 47] = [
    82, 69, 67, 84, 69, 82, 77, 49, 0, 0, 0, 0, 0, 0, 0, 3, 1, 0, 0, 0, 0, 0, 0, 0, 1, 2, 3, 0, 0,
    0, 0, 0, 0, 0, 1, 0, 0, 0, 2, 0, 0, 0, 0, 0, 0, 0, 2,
];

/// The terms of a text, or why they aren't shared.
fn shared_of(alloc: Global, text: &[u8], rows: u32) -> Result<Result<Shared, ShareFault>, Fail>
    requires { rows ≤ 262144 }
{
    let mut symbols = Symbols::new(alloc);
    let terms = read_terms(alloc, text, &mut symbols)?;
    if terms.as_slice().len() > 1_000 {
        return Err(Fail::new("more terms than these tests have"));
    }
    Ok(share(alloc, &terms, &symbols, rows))
}

/// The file of a text.
fn packed(alloc: Global, text: &[u8], rows: u32) -> Result<Vec<u8>, Fail>
    requires { rows ≤ 262144 }
{
    let shared = shared_of(alloc, text, rows)??;
    let mut out = Vec::new(alloc);
    encode(&shared, &mut out)?;
    Ok(out)
}

#[test]
fn equal_subterms_become_one_record(rt: HostRuntime) -> Result<(), Fail> {
    let alloc = rt.alloc();
    // two different subterms, and three
    assert_eq!(rt; packed(alloc, b"f(a,a)", 2)?.as_slice(), PAIR.as_slice());
    assert_eq!(rt;
        packed(alloc, b" 1 [1]", 3)?.as_slice(),
        NUMBER_AND_LIST.as_slice()
    );
    Ok(())
}

#[test]
fn no_terms_are_the_least_file(rt: HostRuntime) -> Result<(), Fail> {
    let out = packed(rt.alloc(), b"", 0)?;
    assert_eq!(rt;
        out.as_slice(),
        b"RECTERM1\0\0\0\0\0\0\0\0\0\0\0\0".as_slice()
    );
    Ok(())
}

#[test]
fn more_different_subterms_than_rows_are_refused(rt: HostRuntime) -> Result<(), Fail> {
    let alloc = rt.alloc();
    let rows: [(&[u8], u32); 5] = [
        (b"f(a,a)", 1),
        (b"1 [1]", 2),
        (b"a", 0),
        // a, "b c" and f over them, and f(a,a)
        (b"f(a, \"b c\")  f(a,a)", 3),
        // f, f(f) and a of no arguments and of one
        (b"f(f) a a(f)", 3),
    ];
    for (text, count) in rows {
        assert_eq!(rt;
            shared_of(alloc, text, count)?.err(),
            Some(ShareFault::StoreFull)
        );
        assert!(rt; shared_of(alloc, text, count + 1)?.is_ok());
    }
    Ok(())
}

/// The canonical text of a root, unless it has more nodes than the limit.
fn text_of(alloc: Global, shared: &Shared, root: u32, limit: u64) -> Result<Option<Vec<u8>>, Fail> {
    if root as usize >= shared.len() {
        return Err(Fail::new("no such root"));
    }
    let mut out = b"as before".to_vec(alloc)?;
    match write_shared(shared, root, limit, &mut out)? {
        Printed::Whole => Ok(Some(out)),
        Printed::TooLarge => Ok(None),
    }
}

/// Whether a root of so many nodes is written as this text, and not at all where they are too many.
fn is_written(
    alloc: Global,
    shared: &Shared,
    root: u32,
    nodes: u64,
    text: &[u8],
) -> Result<bool, Fail> {
    let less = text_of(alloc, shared, root, nodes.saturating_sub(1))?;
    match text_of(alloc, shared, root, nodes)? {
        Some(written) => Ok(less.is_none() && written.as_slice() == text),
        None => Ok(false),
    }
}

/// Roots, their nodes and their texts behind what was there. Seven nodes; two cells over 1, "b c"
/// over f, and the empty list, which are six; one.
static ROOTS: [(u32, u64, &[u8]); 3] = [
    (0, 7, b"as beforep(p(z,z),p(z,z))"),
    (1, 6, b"as before[1,\"b c\"(f)]"),
    (2, 1, b"as before[]"),
];

#[test]
fn a_term_is_written_up_to_its_limit(rt: HostRuntime) -> Result<(), Fail> {
    let alloc = rt.alloc();
    let shared = shared_of(alloc, b"p(p(z,z),p(z,z)) [1,\"b c\"(\"f\")] []", 100)??;
    for (root, nodes, text) in &ROOTS {
        assert!(rt; is_written(alloc, &shared, *root, *nodes, text)?, "{root}");
    }
    Ok(())
}

/// A file of z and so many records, each of p over the one before it twice, the last a root.
fn doubled(alloc: Global, times: u32) -> Result<Vec<u8>, AllocError>
    requires { times ≤ 100 }
{
    let mut out = b"RECTERM1\0\0\0\x02\x01z\0\x01p\x02".to_vec(alloc)?;
    out.extend_from_slice(&(times + 1).to_be_bytes())?;
    out.extend_from_slice(&[0; 5])?;
    for number in 0..times {
        out.extend_from_slice(&[0, 0, 0, 0, 1])?;
        out.extend_from_slice(&number.to_be_bytes())?;
        out.extend_from_slice(&number.to_be_bytes())?;
    }
    out.extend_from_slice(&[0, 0, 0, 1])?;
    out.extend_from_slice(&times.to_be_bytes())?;
    Ok(out)
}

/// What such a file holds.
fn shared_doubled(alloc: Global, times: u32) -> Result<Shared, Fail>
    requires { times ≤ 100 }
{
    let file = doubled(alloc, times)?;
    Ok(decode(alloc, &file)?)
}

/// Whether what such a file holds has this file.
fn is_same_again(alloc: Global, times: u32) -> Result<bool, Fail>
    requires { times ≤ 100 }
{
    let shared = shared_doubled(alloc, times)?;
    let mut again = Vec::new(alloc);
    encode(&shared, &mut again)?;
    Ok(again.as_slice() == doubled(alloc, times)?.as_slice())
}

#[test]
fn nodes_double_and_records_do_not(rt: HostRuntime) -> Result<(), Fail> {
    let alloc = rt.alloc();
    // 8 + 4 + 6 + 4 + 5 + 20 * 13 + 4 + 4 bytes, and 2^21 - 1 nodes
    assert_eq!(rt; doubled(alloc, 20)?.len(), 295);
    assert!(rt; is_same_again(alloc, 20)?);
    let shared = shared_doubled(alloc, 20)?;
    assert_eq!(rt; text_of(alloc, &shared, 0, 2_097_150)?, None);
    Ok(())
}

/// What comes of writing the first root with a limit, and whether nothing is written.
fn begun(alloc: Global, shared: &Shared, limit: u64) -> (Result<Printed, Memory>, bool)
    requires { 0 < length shared.now.trees }
{
    let mut out = Vec::new(alloc);
    let printed = write_shared(shared, 0, limit, &mut out);
    (printed, out.is_empty())
}

#[test]
fn a_text_beyond_all_memory_is_not_begun(rt: HostRuntime) -> Result<(), Fail> {
    let alloc = rt.alloc();
    // 2^65 - 1 nodes
    let shared = shared_doubled(alloc, 64)?;
    if shared.is_empty() {
        return Err(Fail::new("no root"));
    }
    assert_eq!(rt; begun(alloc, &shared, u64::MAX), (Err(Memory), true));
    assert_eq!(rt;
        begun(alloc, &shared, u64::MAX - 1),
        (Ok(Printed::TooLarge), true)
    );
    Ok(())
}
