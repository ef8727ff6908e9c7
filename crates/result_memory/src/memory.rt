// A memory of as many results as it has entries.
ghost use Rattle.std.specs.Prelude.{◌≡◌, ◌<◌, ◌⊎◌, [], None, IfOk, IsSome};
ghost use Rattle.lru.specs.LruCache.{lru_cache};

use faults::Memory;
use innermost::{Known, Memo};
use lru::LruCache;
use std::alloc::Global;
use std::marker::Model;
use std::num::NonZeroUsize;
use term_model::Row;

/// A memory of at most so many results. Where it is full, the one that wasn't used for longest
/// goes.
#[derive(Drop)]
pub struct LruMemo {
    results: LruCache<u32, Known>,
}

impl Model for LruMemo {
    ghost use Rattle.std.specs.Prelude.{ℕ};
    ghost use Rattle.lru.specs.LruCache.{LruCache};
    ghost use Rattle.innermost.specs.declared.memo.Known.{Known};
    ghost use Rattle.result_memory.specs.Order.{HasRoom};

    ghost Value = { LruCache ℕ Known };

    ghost view = { λ m. m.results };

    ghost invariant = { λ m. HasRoom m.results };
}

impl LruMemo {
    /// A memory that has nothing yet.
    pub fn new(alloc: Global, entries: u32) -> Result<Self, Memory>
        requires some { 0 < entries }
        ensures { IfOk result (λ memo. memo ≡ lru_cache [] entries) }
    {
        let most = NonZeroUsize::new(entries as usize).unwrap();
        Ok(LruMemo {
            results: LruCache::new(alloc, most)?,
        })
    }
}

impl Memo for LruMemo {
    ghost use Rattle.term_model.specs.declared.Row.{Row as Rows};
    ghost use Rattle.innermost.specs.Remembered.{IsPartWith};
    ghost use Rattle.result_memory.specs.Order.{map_of, with_first, with_used};

    ghost map = { map_of };

    /// A row that is found was used last from then on.
    fn find(&mut self, row: Row) -> Option<Known>
        ensures found { result ≡ map_of self.old row }
        ensures same { (other : Rows) → map_of self.new other ≡ map_of self.old other }
        ensures order { self.new ≡ with_used self.old row }
    {
        self.results.get(&row.0).copied()
    }

    /// The row was used last from then on; where there is no memory for a new row, nothing changes.
    fn keep(&mut self, row: Row, known: Known)
        ensures part { IsPartWith (map_of self.old) row known (map_of self.new) }
        ensures order { (self.new ≡ with_first self.old row known) ⊎ (self.new ≡ self.old) }
        ensures there { IsSome (map_of self.old row) → self.new ≡ with_first self.old row known }
    {
        let _ = self.results.put(row.0, known);
    }

    fn forget(&mut self)
        ensures empty { (row : Rows) → map_of self.new row ≡ None }
        ensures all { self.new ≡ lru_cache [] self.old.cap }
    {
        self.results.clear();
    }
}
