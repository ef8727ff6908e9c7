//! Symbols are a name with a number of arguments.

use std::test::Fail;
use symbol_pool::{MOST_SYMBOLS, PoolFault, Symbols};
use term_model::Symbol;

#[test]
fn equal_name_and_arity_give_the_same_symbol(rt: HostRuntime) -> Result<(), Fail> {
    let mut pool = Symbols::new(rt.alloc());
    let rows: [(&[u8], u32, u32); 6] = [
        (b"f", 1, 0),
        (b"f", 1, 0),
        (b"f", 2, 1),
        (b"", 1, 2),
        (b"g", 1, 3),
        (b"f", 2, 1),
    ];
    for (name, arity, number) in rows {
        let symbol = pool.intern(name, arity)?;
        assert_eq!(rt; symbol, Symbol(number), "{name:?} {arity}");
        assert_eq!(rt; pool.find(name, arity), Some(Symbol(number)));
    }
    assert_eq!(rt; pool.find(b"g", 0), None);
    assert_eq!(rt; pool.find(b"h", 1), None);
    Ok(())
}

#[test]
fn a_symbol_tells_its_name_and_arity(rt: HostRuntime) -> Result<(), Fail> {
    let mut pool = Symbols::new(rt.alloc());
    pool.intern(b"f", 1)?;
    let symbol = pool.intern(b"mult", 2)?;
    assert_eq!(rt; symbol, Symbol(1));
    assert_eq!(rt; pool.name(symbol), b"mult".as_slice());
    assert_eq!(rt; pool.arity(symbol), 2);
    Ok(())
}

#[test]
fn a_pool_is_full_with_65535_symbols(rt: HostRuntime) -> Result<(), Fail> {
    let mut pool = Symbols::new(rt.alloc());
    for arity in 0..MOST_SYMBOLS as u32 {
        pool.intern(b"f", arity)?;
    }
    assert_eq!(rt; pool.intern(b"g", 0), Err(PoolFault::Full));
    assert_eq!(rt; pool.intern(b"f", 65_534), Ok(Symbol(65_534)));
    Ok(())
}
