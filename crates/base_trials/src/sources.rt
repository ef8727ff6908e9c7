//! What is read of a source and written to a sink, to the end or up to a fault.
use ends::{ReadAllFault, WriteFault, read_all, write_all};
use memory_ends::{MemSink, MemSource};
use std::test::Fail;

// A source, how much of it is read, and what comes of it: `None` for all its bytes.
#[derive(Clone, Copy)]
struct Reading {
    most: usize,
    failing: &'static [u64],
    limit: u64,
    fault: Option<ReadAllFault>,
}

#[test]
fn reads_all_or_says_why_not(rt: HostRuntime) -> Result<(), Fail> {
    let alloc = rt.alloc();
    let readings = [
        Reading {
            most: 2,
            failing: &[],
            limit: 5,
            fault: None,
        },
        Reading {
            most: 9,
            failing: &[],
            limit: 5,
            fault: None,
        },
        Reading {
            most: 2,
            failing: &[9],
            limit: 5,
            fault: None,
        },
        Reading {
            most: 2,
            failing: &[1],
            limit: 5,
            fault: Some(ReadAllFault::ReadFault),
        },
        Reading {
            most: 2,
            failing: &[2],
            limit: 5,
            fault: Some(ReadAllFault::ReadFault),
        },
        Reading {
            most: 2,
            failing: &[4],
            limit: 5,
            fault: Some(ReadAllFault::ReadFault),
        },
        Reading {
            most: 2,
            failing: &[],
            limit: 4,
            fault: Some(ReadAllFault::TooLong),
        },
        Reading {
            most: 2,
            failing: &[3],
            limit: 3,
            fault: Some(ReadAllFault::TooLong),
        },
        Reading {
            most: 2,
            failing: &[],
            limit: 0,
            fault: Some(ReadAllFault::TooLong),
        },
    ];
    for reading in &readings {
        assert!(rt; reading.most > 0);
        let mut source = MemSource::new(alloc, b"abcde", reading.most, reading.failing)?;
        match read_all(alloc, &mut source, reading.limit) {
            Ok(all) => {
                assert_eq!(rt; all.as_slice(), b"abcde".as_slice());
                assert!(rt; reading.fault.is_none());
            }
            Err(fault) => assert_eq!(rt; Some(fault), reading.fault),
        }
    }
    Ok(())
}

#[test]
fn writes_all_or_a_front(rt: HostRuntime) -> Result<(), Fail> {
    let alloc = rt.alloc();
    let writings: [(usize, &'static [u64], &'static [u8]); 5] = [
        (9, &[], b"abcde"),
        (5, &[4], b"abcde"),
        (5, &[2], b"ab"),
        (3, &[], b"abc"),
        (0, &[], b""),
    ];
    for (space, failing, taken) in writings {
        let mut sink = MemSink::new(alloc, space, 2, failing)?;
        let whole = taken.len() == 5;
        assert_eq!(rt;
            write_all(&mut sink, b"abcde"),
            if whole { Ok(()) } else { Err(WriteFault) }
        );
        assert_eq!(rt; sink.taken(), taken);
    }
    Ok(())
}
