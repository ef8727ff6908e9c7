//! Files of terms that `unpack` refuses, each with its kind at its place. Expected places are
//! worked out by hand from the form of a file.
use crate::large::expect;
use crate::terms::PAIR_FILE;
use std::alloc::Global;
use std::process::Abort;
use std::sync::Wait;
use std::test::Fail;
use std::thread::Threads;

/// [1]: no symbols; three records, the integer 1, the empty list, and a cell over records 0 and 1;
/// one root, record 2. By offsets: 12 the count of the records, 16, 25 and 26 the records, 35 the
/// count of the roots, 39 the root.
const LIST: &[u8] =
    b"RECTERM1\0\0\0\0\0\0\0\x03\x01\0\0\0\0\0\0\0\x01\x02\x03\0\0\0\0\0\0\0\x01\0\0\0\x01\0\0\0\x02";

/// One symbol, of no name and no arguments, and no records and no roots.
const UNUSED: &[u8] = b"RECTERM1\0\0\0\x01\0\0\0\0\0\0\0\0\0\0";

// Unpacks the file, which is refused with this kind at this place.
fn refused<R: Abort + Alloc<A = Global> + Threads + Wait + Sync>(
    rt: &R,
    file: &[u8],
    kind: u8,
    place: usize,
) -> Result<(), Fail> {
    let line = format!(in rt.alloc(); "fault {kind} at {place}\n")?;
    expect(rt, &["unpack"], file, 3, b"", line.as_bytes())
}

// Unpacks each front of the file that isn't all of it.
fn fronts_refused<R: Abort + Alloc<A = Global> + Threads + Wait + Sync>(
    rt: &R,
    file: &[u8],
) -> Result<(), Fail> {
    for size in 0..file.len() {
        refused(rt, &file[..size], 3, size)?;
    }
    Ok(())
}

#[test]
fn a_file_that_ends_early_is_refused_at_its_length(rt: HostRuntime) -> Result<(), Fail> {
    fronts_refused(&rt, PAIR_FILE)?;
    fronts_refused(&rt, LIST)
}

/// Bytes that stand in a file from an offset on, and where it is refused then.
type Change = (usize, &'static [u8], usize);

// The file with these bytes from an offset on.
fn changed(alloc: Global, file: &[u8], offset: usize, bytes: &[u8]) -> Result<Vec<u8>, Fail> {
    let mut other = file.to_vec(alloc)?;
    for (index, byte) in bytes.iter().enumerate() {
        if let Some(there) = other.get_mut(offset.saturating_add(index)) {
            *there = *byte;
        }
    }
    Ok(other)
}

// Unpacks the file with each of the changes.
fn changes_refused<R: Abort + Alloc<A = Global> + Threads + Wait + Sync>(
    rt: &R,
    file: &[u8],
    changes: &[Change],
) -> Result<(), Fail> {
    for (offset, bytes, place) in changes {
        let other = changed(rt.alloc(), file, *offset, bytes)?;
        refused(rt, &other, 18, *place)?;
    }
    Ok(())
}

/// Of the magic and the counts: another magic; 65,538 symbols; 262,145 records. A symbol more: the
/// third is of no name and no arguments, and after 131,072 for the count of the records and record
/// a there is symbol 65,536. A record more, of symbol 256. No roots, so that no record is visited.
const COUNTS: [Change; 6] = [
    (7, b"2", 0),
    (9, b"\x01", 8),
    (18, b"\0\x04\0\x01", 18),
    (11, b"\x03", 30),
    (21, b"\x03", 41),
    (43, b"\0", 44),
];

/// Of the symbols: a byte of a name below space, and above tilde; a byte more of a name; 17
/// arguments; an argument more of a, and of f; the second symbol is the first again, told at its
/// number of arguments.
const SYMBOLS: [Change; 7] = [
    (13, b"\x1f", 13),
    (13, b"\x7f", 13),
    (12, b"\x02", 13),
    (14, b"\x11", 14),
    (14, b"\x01", 27),
    (17, b"\x03", 40),
    (16, b"a\0", 17),
];

/// Of the records: no tag; an integer 0 in place of a, and again; symbol 1 before symbol 0; symbol
/// 2 of two; a record that is there already, told at its last field; one that is its own argument,
/// first and second; of the root: record 2 of two; record 0, so that record 1 isn't visited.
const RECORDS: [Change; 9] = [
    (22, b"\x04", 22),
    (22, b"\x01", 32),
    (26, b"\x01", 23),
    (31, b"\x02", 28),
    (27, b"\0\0\0\0\0", 28),
    (35, b"\x01", 32),
    (39, b"\x01", 36),
    (47, b"\x02", 44),
    (47, b"\0", 48),
];

/// Of the list: a cell over an integer; over itself; over two empty lists, which leaves the integer
/// out; over record 50,331,648 in place of the empty list; no tag; root 1, which leaves the cell
/// out, and the integer comes too late.
const CELLS: [Change; 6] = [
    (34, b"\0", 31),
    (34, b"\x02", 31),
    (30, b"\x01", 39),
    (25, b"\x03", 26),
    (26, b"\x04", 26),
    (42, b"\x01", 39),
];

#[test]
fn a_file_that_breaks_a_rule_is_refused_at_its_place(rt: HostRuntime) -> Result<(), Fail> {
    changes_refused(&rt, PAIR_FILE, &COUNTS)?;
    changes_refused(&rt, PAIR_FILE, &SYMBOLS)?;
    changes_refused(&rt, PAIR_FILE, &RECORDS)?;
    changes_refused(&rt, LIST, &CELLS)?;
    // a symbol that no record uses
    refused(&rt, UNUSED, 18, 18)
}

#[test]
fn a_count_with_nothing_behind_it_takes_no_memory(rt: HostRuntime) -> Result<(), Fail> {
    let alloc = rt.alloc();
    // of the symbols, of the records and of the roots; at most 65,535 symbols and 262,144 records
    // are allowed
    let most = b"\xff\xff\xff\xff";
    refused(&rt, &changed(alloc, PAIR_FILE, 8, most)?, 18, 8)?;
    refused(&rt, &changed(alloc, PAIR_FILE, 18, most)?, 18, 18)?;
    refused(&rt, &changed(alloc, PAIR_FILE, 40, most)?, 3, 48)
}

#[test]
fn a_byte_behind_the_last_root_is_refused(rt: HostRuntime) -> Result<(), Fail> {
    let mut file = PAIR_FILE.to_vec(rt.alloc())?;
    file.push(0)?;
    refused(&rt, &file, 18, 48)
}
