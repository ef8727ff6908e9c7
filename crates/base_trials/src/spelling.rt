//! Which items spell a tree.

use std::test::Fail;
use term_model::{Flat, Head, Item, Symbol};

const F: Item = Item::App(Symbol(1), 2);

const A: Item = Item::App(Symbol(0), 0);

#[test]
fn only_well_formed_trees_are_spelled(rt: HostRuntime) -> Result<(), Fail> {
    let rows: [(&[Item], bool); 13] = [
        (&[], false),
        (&[A], true),
        (&[A, A], false),
        (&[A, A, F], true),
        (&[A, F], false),
        (&[Item::Int(7)], true),
        (&[Item::Nil], true),
        (&[Item::Int(7), Item::Nil, Item::Cons], true),
        (&[Item::Nil, Item::Int(7), Item::Cons], false),
        (&[Item::Nil, A, Item::Cons], false),
        (&[Item::Nil, Item::Cons], false),
        (&[Item::Var(0), Item::Var(1), Item::Cons], true),
        (&[A, A, Item::Nil, Item::Cons, F], true),
    ];
    for (items, spelled) in rows {
        let flat = Flat::of(items.to_vec(rt.alloc())?);
        assert_eq!(rt; flat.is_some(), spelled, "{items:?}");
    }
    Ok(())
}

#[test]
fn a_tree_tells_its_root_and_size(rt: HostRuntime) -> Result<(), Fail> {
    let items = [Item::Int(7), Item::Var(0), Item::Cons].to_vec(rt.alloc())?;
    let flat = Flat::of(items).ok_or("no tree")?;
    let copy = flat.clone()?;
    assert_eq!(rt; copy.items(), flat.items());
    assert_eq!(rt; flat.node_count(), 3);
    assert_eq!(rt; flat.root(), Some(Head::Cons));
    assert!(rt; !flat.is_ground());
    Ok(())
}
