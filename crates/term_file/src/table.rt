//! The different records of a file, by their numbers.
ghost use Rattle.std.specs.Prelude.{◌≡◌, ◌<◌, ◌++◌, ◌∷◌, [], length, slice_get, IfSome, IfNone, OnOk, OnErr, IfErr, Some, true, All};
ghost use Rattle.read_faults.specs.declared.fail.ReadFail.TheVariants.{Memory};
ghost use Rattle.term_file.specs.Right as right;
ghost use Rattle.term_file.specs.Contents as contents;
ghost use Rattle.term_file.specs.Outcome.{view};
ghost use Rattle.term_file.specs.Tables.{least_nodes, least_over, AreLesser};

use crate::record::{Kind, Record};
use indexmap::IndexSet;
use read_faults::ReadFail;
use std::alloc::Global;
use std::marker::Model;

/// Records with their numbers from 0, each with the nodes of its tree. They are found by hashing.
#[derive(Drop)]
pub struct Table {
    records: IndexSet<Record>,
    nodes: Vec<u64>,
}

impl Model for Table {
    ghost use Rattle.std.specs.Prelude.{List};
    ghost use Rattle.term_file.specs.Contents.{Record};

    ghost Value = { List Record };

    ghost use Rattle.term_file.specs.Outcome.{views};
    ghost use Rattle.term_file.specs.Tables.{IsTable};

    ghost view = { λ t. views t.records.keys };

    ghost invariant = { λ t. IsTable (views t.records.keys) t.nodes.items };
}

impl Table {
    /// A table without records. It takes no memory.
    pub fn new(alloc: Global) -> Self
        ensures { result ≡ [] }
    {
        Table {
            records: IndexSet::new(alloc),
            nodes: Vec::new(alloc),
        }
    }

    /// How many records there are.
    pub fn len(&self) -> usize
        ensures { result ≡ length self.now }
    {
        self.records.len()
    }

    /// The record with this number.
    pub fn at(&self, number: usize) -> &Record
        requires { number < length self.now }
        ensures { slice_get self.now number ≡ Some (view result.now) }
    {
        &self.records.as_slice()[number]
    }

    /// The arguments of the record with this number. Those of each record have lesser numbers.
    pub fn arguments(&self, number: usize) -> &[u32]
        requires { number < length self.now }
        ensures arguments { result.now ≡ contents.arguments_at self.now number }
        ensures lesser { AreLesser self.now }
        ensures bound { number < usize.MAX }
    {
        let _count = self.len();
        let _ = &self.records;
        &self.at(number).arguments
    }

    /// Whether the record with this number is there, and is a list.
    pub fn is_list(&self, number: u32) -> bool
        ensures { result ≡ right.is_list_at self.now number }
    {
        match self.records.as_slice().get(number as usize) {
            Some(record) => matches!(record.kind, Kind::Empty | Kind::Cell),
            None => false,
        }
    }

    /// The nodes of the tree of a record, or 2^64 - 1 where there are more.
    pub fn node_count(&self, number: usize) -> u64
        requires { number < length self.now }
        ensures { result ≡ least_nodes (contents.tree_at (contents.trees self.now) number) }
    {
        self.nodes[number]
    }

    /// The number of a record, where it is there.
    pub fn find(&self, entry: &Record) -> Option<usize>
        ensures found { IfSome result (λ i. slice_get self.now i ≡ Some (view entry.now)) }
        ensures absent { IfNone result (right.is_new_record self.now (view entry.now) ≡ true) }
    {
        self.records.get_index_of(entry)
    }

    /// Puts a record that isn't there behind the others. After an error the table is as before.
    pub fn push(&mut self, entry: Record) -> Result<(), ReadFail>
        requires absent { right.is_new_record self.old (view entry) ≡ true }
        requires before { All (λ i. i < length self.old) entry.arguments.items }
        ensures pushed { OnOk result (self.new ≡ self.old ++ view entry ∷ []) }
        ensures unchanged { OnErr result (self.new ≡ self.old) }
        ensures memory { IfErr result (λ e. e ≡ Memory) }
    {
        let nodes = nodes_over(&self.nodes, &entry.arguments);
        self.nodes.reserve(1)?;
        self.records.insert_full(entry)?;
        self.nodes.push(nodes)?;
        Ok(())
    }
}

/// The nodes of a tree over trees with these nodes, or 2^64 - 1 where there are more.
fn nodes_over(nodes: &[u64], arguments: &[u32]) -> u64
    requires { All (λ i. i < length nodes.now) arguments.now }
    ensures { result ≡ least_over nodes.now arguments.now }
{
    let mut total: u64 = 1;
    for number in arguments {
        total = total.saturating_add(nodes[*number as usize]);
    }
    total
}
