//! Lines written out by hand.
use log_text::{Log, LogText};
use std::test::Fail;
use term_model::{Head, Row, Symbol};

#[test]
fn each_step_has_its_line(rt: HostRuntime) -> Result<(), Fail> {
    let mut log = Log::new(rt.alloc());
    assert!(rt; log.lines().is_empty());
    log.make(1, Head::App(Symbol(0)), &[], Row(7));
    log.find(10, Head::App(Symbol(31)), &[Row(7), Row(120)], Row(8));
    log.make(11, Head::Int(18446744073709551615), &[], Row(0));
    log.make(12, Head::Nil, &[], Row(1));
    log.make(13, Head::Cons, &[Row(0), Row(1)], Row(2));
    log.roots(13, &[]);
    log.collect(14, &[Row(2), Row(4294967295)]);
    let want: &[u8] =
        b"# make 1 7 s0\n# find 10 8 s31 7 120\n# make 11 0 i18446744073709551615\n# make 12 1 e\n# make 13 2 c 0 1\n# roots 13\n# collect 14 2 4294967295\n";
    assert_eq!(rt; log.lines(), want);
    assert!(rt; !log.lost());
    Ok(())
}

#[test]
fn a_lost_log_stays_so(rt: HostRuntime) -> Result<(), Fail> {
    let mut log = Log::new(rt.alloc());
    log.roots(0, &[]);
    log.lose();
    log.roots(0, &[]);
    assert!(rt; log.lost());
    assert!(rt; log.lines().is_empty());
    assert!(rt; log.into_lines().is_none());
    Ok(())
}

#[test]
fn a_log_has_a_header_callers_and_an_end(rt: HostRuntime) -> Result<(), Fail> {
    let alloc = rt.alloc();
    let text = LogText::begin(alloc, 40, 2)?
        .with_caller(alloc, 0, b"# roots 0\n".to_vec(alloc)?)?
        .with_caller(alloc, 1, Vec::new(alloc))?
        .with_end(alloc)?;
    let want: &[u8] = b"# log 40 2\n# caller 0\n# roots 0\n# caller 1\n# end\n";
    let whole = text.parts().concat(alloc)?;
    assert_eq!(rt; whole.as_slice(), want);
    Ok(())
}
