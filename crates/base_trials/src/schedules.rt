//! Schedules, and what they come to.
use lock_core::{LineFault, schedule, write_state};
use std::test::Fail;

#[test]
fn schedules_come_to_their_locks(rt: HostRuntime) -> Result<(), Fail> {
    let rows: [(&[u8], &[u8]); 5] = [
        (
            b"",
            b"seat 0 out busy 0 forbidden 0 free\nseat 1 out busy 0 forbidden 0 free\nmutex free\n",
        ),
        (
            b"1 take\n1 ask 0\n1 peek 0\n0 raise\n0 look\n",
            b"seat 0 blocked busy 1 forbidden 1 held\nseat 1 holder busy 0 forbidden 0 free\nmutex 1\n",
        ),
        (
            b"1 take\n0 take\n",
            b"seat 0 out busy 0 forbidden 0 free\nseat 1 holder busy 0 forbidden 0 free\nmutex 1\n",
        ),
        (
            b"0 raise\n0 look\n1 take\n1 ask 0\n1 peek 0\n",
            b"seat 0 shared busy 1 forbidden 1 seen\nseat 1 holder busy 0 forbidden 0 free\nmutex 1\n",
        ),
        (
            b"0 raise\n1 take\n1 give",
            b"seat 0 raised busy 1 forbidden 0 free\nseat 1 out busy 0 forbidden 0 free\nmutex free\n",
        ),
    ];
    for (text, want) in rows {
        let state = schedule(text, 2)?;
        let mut out = Vec::new(rt.alloc());
        write_state(&state, &mut out)?;
        assert_eq!(rt; out.as_slice(), want);
    }
    Ok(())
}

#[test]
fn the_first_wrong_line_is_the_fault(rt: HostRuntime) {
    let rows: [(&[u8], u8, u64); 12] = [
        (b"0 look\n", 16, 1),
        (b"2 raise\n", 15, 1),
        (
            b"0 raise\n0 look\n1 take\n1 ask 0\n1 peek 0\n1 give\n",
            16,
            6,
        ),
        (b"0 raise\n\n0 look\n", 15, 2),
        (b"\n", 15, 1),
        (b"00 raise\n", 15, 1),
        (b"1 take\n1 ask 00\n", 15, 2),
        (b"1 take\n1 ask 2\n", 15, 2),
        (b"1 take\n1 ask 1\n", 16, 2),
        (b"0 look\n2 raise\n", 16, 1),
        (b"0  raise\n", 15, 1),
        (b"0 raise\r\n", 15, 1),
    ];
    for (text, kind, line) in rows {
        let fault = LineFault { kind, line };
        assert!(rt; matches!(schedule(text, 2), Err(found) if found == fault));
    }
}

#[test]
fn sixteen_seats(rt: HostRuntime) -> Result<(), Fail> {
    let state = schedule(b"15 take\n15 ask 10\n", 16)?;
    let mut out = Vec::new(rt.alloc());
    write_state(&state, &mut out)?;
    assert!(rt;
        out.as_slice()
            .ends_with(b"seat 15 holder busy 0 forbidden 0 free\nmutex 15\n")
    );
    Ok(())
}
