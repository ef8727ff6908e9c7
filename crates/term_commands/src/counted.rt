//! A store that counts the nodes that are built in it.
ghost use Rattle.std.specs.Prelude.{◌≡◌, ◌≤◌, [], IfSome, length, sum_by};
ghost use Rattle.term_model.specs.Tree.{nodes};
ghost use Rattle.terms_api.specs.Terms.{trees};
ghost use Rattle.plain_store.specs.Contents.{Contents, store_of, empty};
ghost use Rattle.term_text.specs.Sizes.{saturated};
ghost use Rattle.term_commands.specs.Counting.{HasNone};
ghost use Rattle.term_commands.specs.Different.{different};

use plain_store::PlainStore;
use std::marker::Model;
use term_model::{Head, Row};
use term_text::TermSizes;
use terms_api::{BuildFault, Deep, Terms};

/// A store, and how many nodes were built in it: where trees were built alone, those of the trees
/// on its stack. Contracts see the store.
#[derive(Drop)]
pub(crate) struct Counted {
    store: PlainStore,
    // the nodes, at most 2^64 - 1
    nodes: u64,
    // whether trees were built alone, so that the nodes were counted
    built_alone: bool,
}

impl Model for Counted {
    ghost use Rattle.plain_store.specs.Contents.{Contents};
    ghost use Rattle.plain_store.specs.ContentsCode.{contents_code};
    ghost use Rattle.term_commands.specs.Counting.{IsExact};

    ghost Value = { Contents };

    ghost coded = { contents_code };

    ghost view = { λ c. c.store };

    ghost invariant = { IsExact };
}

impl Counted {
    /// An empty store, in which nothing was built.
    pub(crate) fn new(store: PlainStore) -> Counted
        requires stack { store.stack ≡ [] }
        requires none { HasNone store }
        ensures { result ≡ store }
    {
        Counted {
            store,
            nodes: 0,
            built_alone: true,
        }
    }

    /// How large the trees of the stack are, if trees were built alone.
    pub(crate) fn sizes(&self) -> Option<TermSizes>
        ensures distinct { IfSome result
            (λ sizes. sizes.distinct ≡ different (trees (store_of self.now))) }
        ensures nodes { IfSome result
            (λ sizes. sizes.nodes ≡ saturated (sum_by nodes (trees (store_of self.now)))) }
        ensures fit { IfSome result (λ sizes. sizes.distinct ≤ length self.now.trees) }
    {
        if !self.built_alone {
            return None;
        }
        Some(TermSizes {
            distinct: self.store.used() as u64,
            nodes: self.nodes,
        })
    }
}

impl Terms for Counted {
    ghost use Rattle.std.specs.Prelude.{◌≡◌};
    ghost use Rattle.plain_store.specs.Contents.{store_of, IsSame, same_itself, same_turn};

    ghost store = { store_of };

    ghost same = { IsSame };

    ghost same_as_itself = { same_itself };

    ghost same_in_turn = { same_turn };

    fn enter(&mut self) {
        self.store.enter();
    }

    fn leave(&mut self) {
        self.store.leave();
    }

    fn breathe(&mut self) {
        self.store.breathe();
    }

    fn depth(&self) -> u32 {
        self.store.depth()
    }

    fn room(&self) -> u32 {
        self.store.room()
    }

    fn at(&mut self, i: u32) -> Row {
        self.store.at(i)
    }

    fn head(&mut self, row: Row) -> Head {
        self.store.head(row)
    }

    fn count(&mut self, row: Row) -> u32 {
        self.store.count(row)
    }

    fn child(&mut self, row: Row, j: u32) -> Row {
        self.store.child(row, j)
    }

    fn push(&mut self, row: Row) -> Result<(), Deep> {
        self.built_alone = false;
        self.store.push(row)
    }

    /// Counts the node.
    #[inline(always)]
    fn build(&mut self, head: Head, n: u32) -> Result<(), BuildFault> {
        self.store.build(head, n)?;
        self.nodes = self.nodes.saturating_add(1);
        Ok(())
    }

    fn keep(&mut self, from: u32, top: u32) {
        self.built_alone = false;
        self.store.keep(from, top);
    }

    fn epoch(&self) -> Option<u64> {
        self.store.epoch()
    }
}
