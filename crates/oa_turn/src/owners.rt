//! Locks with their owners.
ghost use Rattle.std.specs.Prelude.{◌≡◌, [], IfErr, OnErr, OnOk, map};
ghost use Rattle.oa_turn.specs.promise.ClientLocks.{cells_of, of_others, owns, with_one, without_one};
ghost use Rattle.oa_turn.specs.Counts.{locked_name};
ghost use Rattle.oa_turn.specs.Kept.{all_locked_cells};

use crate::{CellKey, ClientCells};
use oa_ordered::{Iter, OrderedMap};
use std::alloc::Global;
use std::marker::Model;

/// The locks of all clients, in the order of the clients and then of the cells.
///
/// A client has one entry, with one entry for each cell that it has locked and the number of its
/// locks. Look-ups take logarithmic time. A client's entry stays until its end.
#[derive(Drop)]
pub struct LockTable {
    alloc: Global,
    clients: OrderedMap<u32, ClientCells>,
}

impl Model for LockTable {
    ghost use Rattle.std.specs.Prelude.{List};
    ghost use Rattle.oa_turn.specs.promise.ClientLocks.{ClientLock};
    ghost use Rattle.oa_turn.specs.Kept.{all_locks};

    ghost Value = { List ClientLock };

    ghost view = { λ o. all_locks o.clients };
}

impl LockTable {
    /// Makes a list without locks. Allocates nothing.
    pub fn new(alloc: Global) -> LockTable
        ensures { result ≡ [] }
    {
        LockTable {
            alloc,
            clients: OrderedMap::new(alloc),
        }
    }

    /// Returns the clients by rising number, each with the cells that it has locked and the number
    /// of its locks of each. Allocates nothing.
    pub fn clients(&self) -> Iter<'_, u32, ClientCells>
        ensures { all_locked_cells result ≡ map locked_name self.now }
    {
        self.clients.iter()
    }

    /// Adds a lock of the client with this number on this cell. It allocates only for the client's
    /// first lock of the cell. Err: the allocation failed; the key is returned, and no lock
    /// changed.
    pub fn add(&mut self, client: u32, cell: CellKey) -> Result<(), CellKey>
        ensures added { OnOk result (self.new ≡ with_one client cell self.old) }
        ensures back { IfErr result (λ back. back ≡ cell) }
        ensures err { OnErr result (self.new ≡ self.old) }
    {
        if self.begin(client) {
            return self.add_to(client, cell);
        }
        Err(cell)
    }

    /// Finds or makes the entry of a client. Returns whether it has one: `false` if the allocation
    /// failed.
    fn begin(&mut self, client: u32) -> bool
        ensures { self.new ≡ self.old }
    {
        let None = self.clients.get(&client) else {
            return true;
        };
        let cells = ClientCells::new(self.alloc);
        self.clients.insert(client, cells).is_ok()
    }

    /// Adds a lock to the entry of a client. Err: it has no entry, or an allocation failed; the key
    /// is returned.
    fn add_to(&mut self, client: u32, cell: CellKey) -> Result<(), CellKey>
        ensures added { OnOk result (self.new ≡ with_one client cell self.old) }
        ensures back { IfErr result (λ back. back ≡ cell) }
        ensures err { OnErr result (self.new ≡ self.old) }
    {
        // For the prover: the clause `ordered` of `len`.
        let _count = self.clients.len();
        let Some(cells) = self.clients.get_mut(&client) else {
            return Err(cell);
        };
        cells.add(cell)
    }

    /// Returns whether the client with this number has a lock of this cell.
    pub fn owns(&self, client: u32, cell: &CellKey) -> bool
        ensures { result ≡ owns client cell.now self.now }
    {
        // For the prover: the clause `ordered` of `len`.
        let _count = self.clients.len();
        let Some(cells) = self.clients.get(&client) else {
            return false;
        };
        cells.has(cell)
    }

    /// Releases one lock of this cell of the client with this number, if it has one.
    pub fn release_one(&mut self, client: u32, cell: &CellKey)
        ensures { self.new ≡ without_one client cell.now self.old }
    {
        // For the prover: the clause `ordered` of `len`.
        let _count = self.clients.len();
        let Some(cells) = self.clients.get_mut(&client) else {
            return;
        };
        cells.release_one(cell);
    }

    /// Releases all locks of the client with this number, which ends, and returns them.
    pub fn release_all(&mut self, client: u32) -> ClientCells
        ensures others { self.new ≡ of_others client self.old }
        ensures own { result ≡ cells_of client self.old }
    {
        // For the prover: the clause `ordered` of `len`.
        let _count = self.clients.len();
        let Some(cells) = self.clients.remove(&client) else {
            return ClientCells::new(self.alloc);
        };
        cells
    }
}
