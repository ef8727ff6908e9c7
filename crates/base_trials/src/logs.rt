//! Worked logs.

use log_check::{LogVerdict, check_log};
use read_faults::ReadFail;
use std::test::Fail;

const FIRST: &[u8] = b"# log 2 1\n# caller 0\n# make 1 0 s0\n# make 2 1 s1 0\n# roots 2 1\n# end\n";

fn refusal(line: u64) -> ReadFail {
    ReadFail::Refused {
        kind: 15,
        offset: line,
    }
}

#[test]
fn a_good_log_is_legal(rt: HostRuntime) -> Result<(), Fail> {
    assert_eq!(rt; check_log(rt.alloc(), FIRST), Ok(LogVerdict::Legal(3)));
    Ok(())
}

#[test]
fn a_key_that_does_not_rise_is_illegal(rt: HostRuntime) -> Result<(), Fail> {
    let log = b"# log 2 1\n# caller 0\n# make 1 0 s0\n# make 1 1 s1 0\n# roots 2 1\n# end\n";
    assert_eq!(rt; check_log(rt.alloc(), log), Ok(LogVerdict::Illegal(4)));
    Ok(())
}

#[test]
fn a_name_that_is_taken_is_illegal(rt: HostRuntime) -> Result<(), Fail> {
    let log = b"# log 2 1\n# caller 0\n# make 1 0 s0\n# make 2 0 s1 0\n# roots 2 1\n# end\n";
    assert_eq!(rt; check_log(rt.alloc(), log), Ok(LogVerdict::Illegal(4)));
    Ok(())
}

#[test]
fn a_log_without_end_is_refused(rt: HostRuntime) -> Result<(), Fail> {
    let log = b"# log 2 1\n# caller 0\n# make 1 0 s0\n# make 2 1 s1 0\n# roots 2 1\n";
    assert_eq!(rt; check_log(rt.alloc(), log), Err(refusal(6)));
    Ok(())
}

#[test]
fn a_find_before_the_make_is_illegal(rt: HostRuntime) -> Result<(), Fail> {
    let log = b"# log 2 2\n# caller 0\n# make 1 0 s0\n# caller 1\n# find 0 0 s0\n# end\n";
    assert_eq!(rt; check_log(rt.alloc(), log), Ok(LogVerdict::Illegal(5)));
    Ok(())
}

#[test]
fn callers_are_merged_by_their_keys(rt: HostRuntime) -> Result<(), Fail> {
    let log =
        b"# log 2 2\n# caller 0\n# make 1 0 s0\n# find 2 1 s1 0\n# caller 1\n# make 2 1 s1 0\n# end\n";
    assert_eq!(rt; check_log(rt.alloc(), log), Ok(LogVerdict::Legal(3)));
    Ok(())
}

#[test]
fn a_collection_keeps_what_is_protected(rt: HostRuntime) -> Result<(), Fail> {
    let exact =
        b"# log 2 1\n# caller 0\n# make 1 0 s0\n# make 2 1 i7\n# roots 2 0\n# collect 3 0\n# end\n";
    let all =
        b"# log 2 1\n# caller 0\n# make 1 0 s0\n# make 2 1 i7\n# roots 2 0\n# collect 3 0 1\n# end\n";
    assert_eq!(rt; check_log(rt.alloc(), exact), Ok(LogVerdict::Legal(4)));
    assert_eq!(rt; check_log(rt.alloc(), all), Ok(LogVerdict::Illegal(6)));
    Ok(())
}

#[test]
fn other_lines_are_passed_over_and_counted(rt: HostRuntime) -> Result<(), Fail> {
    let log = b"f(a)\n# log 1 1\n\n# caller 0\n#\n# find 0 0 e\n# end\nout of fuel";
    assert_eq!(rt; check_log(rt.alloc(), log), Ok(LogVerdict::Illegal(6)));
    Ok(())
}

#[test]
fn a_wrong_line_is_refused(rt: HostRuntime) -> Result<(), Fail> {
    let zero = b"# log 01 1\n# caller 0\n# end\n";
    let after = b"# log 1 1\n# caller 0\n# end\n# end\n";
    let cell = b"# log 1 1\n# caller 0\n# make 1 0 c 0\n# end\n";
    assert_eq!(rt; check_log(rt.alloc(), zero), Err(refusal(1)));
    assert_eq!(rt; check_log(rt.alloc(), after), Err(refusal(4)));
    assert_eq!(rt; check_log(rt.alloc(), cell), Err(refusal(3)));
    Ok(())
}
