//! The locks of one client.
ghost use Rattle.std.specs.Prelude.{◌≡◌, [], IfErr, OnErr, OnOk};
ghost use Rattle.std.specs.BTreeMap.{is_at};
ghost use Rattle.std.specs.Map.{lookup};
ghost use Rattle.std.specs.Option.{unwrap_or};
ghost use Rattle.oa_turn.specs.promise.ClientLocks.{cell_cmp};
ghost use Rattle.oa_turn.specs.Kept.{each_counted, has_cell, with_locked_cell, without_cell};

use crate::CellKey;
use oa_ordered::{Iter, OrderedMap};
use std::alloc::Global;
use std::marker::Model;

/// The cells that a client has locked, each with the number of its locks.
#[derive(Drop)]
pub struct ClientCells {
    counts: OrderedMap<CellKey, u32>,
}

impl Model for ClientCells {
    ghost use Rattle.std.specs.Prelude.{List};
    ghost use Rattle.oa_turn.specs.Kept.{AreCounted, each_counted};
    ghost use Rattle.oa_table.specs.declared.name.CellName.{CellName};

    ghost Value = { List CellName };

    ghost view = { λ c. each_counted c.counts };

    ghost invariant = { λ c. AreCounted c.counts };
}

impl ClientCells {
    /// Makes an empty list. Allocates nothing.
    pub(crate) fn new(alloc: Global) -> ClientCells
        ensures { result ≡ [] }
    {
        ClientCells {
            counts: OrderedMap::new(alloc),
        }
    }

    /// Returns the cells in order, each with the number of its locks. Allocates nothing.
    pub fn counts(&self) -> Iter<'_, CellKey, u32>
        ensures { each_counted result ≡ self.now }
    {
        self.counts.iter()
    }

    /// Adds a lock of a cell. It allocates only for the first lock of the cell. Err: the allocation
    /// failed; the key is returned, and nothing changed.
    pub(crate) fn add(&mut self, cell: CellKey) -> Result<(), CellKey>
        ensures added { OnOk result (self.new ≡ with_locked_cell cell self.old) }
        ensures back { IfErr result (λ back. back ≡ cell) }
        ensures err { OnErr result (self.new ≡ self.old) }
    {
        // For the prover: the clause `ordered` of `len`.
        let _count = self.counts.len();
        let held = count_of(&self.counts, &cell);
        // No array has this many locks.
        if held == u32::MAX {
            return Err(cell);
        }
        if let Err(failed) = self.counts.insert(cell, held + 1) {
            let (cell, _count) = failed.value;
            return Err(cell);
        }
        Ok(())
    }

    /// Returns whether the client has a lock of this cell.
    pub(crate) fn has(&self, cell: &CellKey) -> bool
        ensures { result ≡ has_cell cell.now self.now }
    {
        count_of(&self.counts, cell) != 0
    }

    /// Releases one of the client's locks of this cell, if it has one.
    pub(crate) fn release_one(&mut self, cell: &CellKey)
        ensures { self.new ≡ without_cell cell.now self.old }
    {
        let held = count_of(&self.counts, cell);
        if held == 0 {
            return;
        }
        if held == 1 {
            self.counts.remove(cell);
            return;
        }
        let Some(count) = self.counts.get_mut(cell) else {
            return;
        };
        *count = held - 1;
    }
}

/// Returns the number of locks of this cell; 0 if there is none.
fn count_of(counts: &OrderedMap<CellKey, u32>, cell: &CellKey) -> u32
    ensures { result ≡ unwrap_or (lookup (is_at (cell_cmp cell.now)) counts.now) 0 }
{
    match counts.get(cell) {
        Some(count) => *count,
        None => 0,
    }
}
