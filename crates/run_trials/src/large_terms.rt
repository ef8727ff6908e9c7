use crate::large::{doubled, expect, nested};
use std::alloc::Global;
use std::test::Fail;

// A number below 256 in four bytes.
fn put(file: &mut Vec<u8>, number: u8) -> Result<(), Fail> {
    file.extend_from_slice(&[0, 0, 0, number])?;
    Ok(())
}

// The file of a constant that was doubled so many times: the symbols, the constant, each pair of
// the one before it twice, and the last one as the root.
fn doubled_file(alloc: Global, times: u8) -> Result<Vec<u8>, Fail> {
    let mut file = b"RECTERM1\0\0\0\x02\x01z\0\x01p\x02".to_vec(alloc)?;
    put(&mut file, times.saturating_add(1))?;
    file.push(0)?;
    put(&mut file, 0)?;
    for before in 0..times {
        file.push(0)?;
        put(&mut file, 1)?;
        put(&mut file, before)?;
        put(&mut file, before)?;
    }
    put(&mut file, 1)?;
    put(&mut file, times)?;
    Ok(file)
}

#[test]
fn a_shared_term_has_a_small_file_and_may_be_too_large(rt: HostRuntime) -> Result<(), Fail> {
    let alloc = rt.alloc();
    let text = doubled(alloc, 20)?;
    let file = doubled_file(alloc, 20)?;
    assert_eq!(rt; file.len(), 295);
    expect(&rt, &["pack"], &text, 0, &file, b"")?;
    expect(&rt, &["unpack"], &file, 1, b"too large\n", b"")?;
    let mut line = doubled(alloc, 19)?;
    line.push(b'\n')?;
    let smaller = doubled_file(alloc, 19)?;
    expect(&rt, &["unpack"], &smaller, 0, &line, b"")?;
    line.extend_from_slice(b"distinct 20 nodes 1048575\n")?;
    let text = doubled(alloc, 19)?;
    expect(&rt, &["terms", "--rows=20"], &text, 0, &line, b"")
}

#[test]
fn a_deep_term_is_told_where_the_rows_suffice(rt: HostRuntime) -> Result<(), Fail> {
    let alloc = rt.alloc();
    let deep = nested(alloc, b"", b"f", 99_999, b"a", b"\n")?;
    let mut told = deep.clone()?;
    told.extend_from_slice(b"distinct 100000 nodes 100000\n")?;
    expect(&rt, &["terms", "--rows=100000"], &deep, 0, &told, b"")?;
    expect(
        &rt,
        &["terms", "--rows=99999"],
        &deep,
        4,
        b"",
        b"store full\n",
    )
}

#[test]
fn the_longest_text_is_read_and_a_longer_file_is_no_file(rt: HostRuntime) -> Result<(), Fail> {
    let mut input = vec![in rt.alloc(); b' '; 16_777_216]?;
    let none = b"distinct 0 nodes 0\n";
    expect(&rt, &["terms"], &input, 0, none, b"")?;
    input.push(b' ')?;
    expect(&rt, &["terms"], &input, 3, b"", b"fault 14 at 16777216\n")?;
    expect(&rt, &["pack"], &input, 3, b"", b"fault 14 at 16777216\n")?;
    // A file may be longer, so this one is refused for what it is.
    expect(&rt, &["unpack"], &input, 3, b"", b"fault 18 at 0\n")
}
