//! Files and what they hold. Expected bytes and places are worked out by hand from the form of a
//! file.

use std::test::Fail;
use term_file::{ReadFail, decode, encode};

/// f(a,a): the magic; two symbols, a of no arguments and f of two; two records, a, and f over
/// records 0 and 0; one root, record 1. By offsets: 8 the count of the symbols, 12 and 15 the
/// symbols, 18 the count of the records, 22 and 27 the records, 40 the count of the roots, 44 the
/// root.
const PAIR: [u8; 48] = [
    82, 69, 67, 84, 69, 82, 77, 49, 0, 0, 0, 2, 1, 97, 0, 1, 102, 2, 0, 0, 0, 2, 0, 0, 0, 0, 0, 0,
    0, 0, 0, 1, 0, 0, 0, 0, 0, 0, 0, 0, 0, 0, 0, 1, 0, 0, 0, 1,
];

/// [1]: no symbols; three records, the integer 1, the empty list, and a cell over records 0 and 1;
/// one root, record 2. By offsets: 12 the count of the records, 16, 25 and 26 the records, 35 the
/// count of the roots.
const LIST: [u8; 43] = [
    82, 69, 67, 84, 69, 82, 77, 49, 0, 0, 0, 0, 0, 0, 0, 3, 1, 0, 0, 0, 0, 0, 0, 0, 1, 2, 3, 0, 0,
    0, 0, 0, 0, 0, 1, 0, 0, 0, 1, 0, 0, 0, 2,
];

/// No terms: the magic and three counts of 0.
const NOTHING: [u8; 20] = [
    82, 69, 67, 84, 69, 82, 77, 49, 0, 0, 0, 0, 0, 0, 0, 0, 0, 0, 0, 0,
];

#[test]
fn files_are_read_and_written_again(rt: HostRuntime) -> Result<(), Fail> {
    let files: [(&[u8], usize); 3] = [(&PAIR, 1), (&LIST, 1), (&NOTHING, 0)];
    for (file, count) in files {
        let shared = decode(rt.alloc(), file)?;
        assert_eq!(rt; shared.len(), count);
        assert_eq!(rt; shared.is_empty(), count == 0);
        let mut out = b"before".to_vec(rt.alloc())?;
        encode(&shared, &mut out)?;
        assert!(rt; out.len() >= 6);
        assert_eq!(rt; &out[..6], b"before".as_slice());
        assert_eq!(rt; &out[6..], file);
    }
    Ok(())
}

fn refused(kind: u8, offset: u64) -> Option<ReadFail> {
    Some(ReadFail::Refused { kind, offset })
}

// The tests of `run` have more files that are refused.
#[test]
fn a_file_that_ends_early_or_goes_on_is_refused(rt: HostRuntime) -> Result<(), Fail> {
    let alloc = rt.alloc();
    assert_eq!(rt; decode(alloc, &PAIR[..47]).err(), refused(3, 47));
    let mut bytes = PAIR.to_vec(alloc)?;
    bytes.push(0)?;
    assert_eq!(rt; decode(alloc, &bytes).err(), refused(18, 48));
    Ok(())
}
