//! Hashes of heads over rows, and their buckets.
use hash_buckets::{bucket, hash};
use std::test::Fail;
use term_model::{Head, Row, Symbol};

// The hashes of constants are FNV-1a's of a byte, as its authors' tables have them.
#[test]
fn constants_have_the_published_hashes(rt: HostRuntime) -> Result<(), Fail> {
    let a = hash(Head::App(Symbol(0)), &[]);
    assert_eq!(rt; a, 0xaf63bd4c8601b7df);
    assert_eq!(rt; bucket(a, 4), 3);
    let b = hash(Head::App(Symbol(1)), &[]);
    assert_eq!(rt; b, 0xaf63bc4c8601b62c);
    assert_eq!(rt; bucket(b, 4), 0);
    let c = hash(Head::App(Symbol(2)), &[]);
    assert_eq!(rt; c, 0xaf63bf4c8601bb45);
    assert_eq!(rt; bucket(c, 4), 1);
    Ok(())
}

// An integer's value and a row's number are hashed alike, after different symbol words.
#[test]
fn heads_over_rows_have_their_own_hashes(rt: HostRuntime) -> Result<(), Fail> {
    let over_row = hash(Head::App(Symbol(0)), &[Row(7)]);
    assert_eq!(rt; over_row, 0x8328107b4eb6408);
    let integer = hash(Head::Int(7), &[]);
    assert_eq!(rt; integer, 0x8356430b4eb6408);
    assert_eq!(rt; hash(Head::Nil, &[]), 0xaf63bdff8601b62c);
    assert_eq!(rt; hash(Head::Cons, &[Row(1), Row(2)]), 0xef84a2c375dc4d4a);
    Ok(())
}
