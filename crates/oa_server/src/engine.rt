//! The state of a server.
ghost use Rattle.std.specs.Prelude.{◌≡◌, ◌≤◌, map, IfOk, OnErr};
ghost use Rattle.oa_server.specs.Storages.{AnswersOne, InMemory, bank_bytes_of};
ghost use Rattle.oa_server.specs.promise.Storages.{Serves, disk_of};
ghost use Rattle.oa_turn.specs.promise.Turns.{Run, Turn};

use crate::desk::SharedGroup;
use crate::grouping::{answer_over, run_over};
use crate::storage::Storage;
use oa_disk::Disk;
use oa_record::Reply;
use oa_turn::Machine;
use std::alloc::{AllocError, Global};

/// A library and a table in memory, the storage of the table, and the open group of a session of
/// one client or of many.
#[derive(Drop)]
pub(crate) struct ServerState<D: Disk> {
    pub alloc: Global,
    /// The library and the table.
    pub host: Machine,
    /// The storage of the table, besides its memory.
    pub storage: Storage<D>,
    /// The open group of a session over a store, and the owners of locks in one of many clients.
    pub desk: SharedGroup,
    ghost banks: { bank_bytes_of storage ≡ host.bank },
}

impl<D: Disk> ServerState<D> {
    /// Makes a server of these parts.
    pub(crate) fn new(alloc: Global, host: Machine, storage: Storage<D>) -> ServerState<D>
        requires banks { bank_bytes_of storage ≡ host.bank }
        ensures host { result.host ≡ host }
        ensures storage { result.storage ≡ storage }
    {
        ServerState {
            alloc,
            host,
            storage,
            desk: SharedGroup::none(alloc),
        }
    }

    /// Closes it and returns the disk. Makes no call of it.
    pub(crate) fn into_disk(self) -> D
        ensures { result ≡ disk_of self.storage }
    {
        let ServerState { storage, .. } = self;
        storage.into_disk()
    }
}

/// Returns the reply to one body, which over a store is a group of its own.
pub(crate) fn answer_with<D: Disk>(
    alloc: Global,
    host: &mut Machine,
    storage: &mut Storage<D>,
    body: &[u8],
) -> Reply
    requires banks { bank_bytes_of storage.old ≡ host.old.bank }
    ensures answers { AnswersOne storage.old storage.new host.old body.now result host.new }
    ensures memory { InMemory storage.old → Turn host.old body.now result host.new }
    ensures banks { bank_bytes_of storage.new ≡ host.new.bank }
{
    match storage {
        Storage::Memory(_) => host.turn(body),
        Storage::Disk(store) => answer_over(alloc, host, store, body),
    }
}

/// Returns the replies to `bodies`, in order. Over a store, up to `group` of them are committed
/// together. Err: an allocation failed before anything was done.
pub(crate) fn run_with<D: Disk>(
    alloc: Global,
    host: &mut Machine,
    storage: &mut Storage<D>,
    bodies: &[Vec<u8>],
    group: usize,
) -> Result<Vec<Reply>, AllocError>
    requires positive { 1 ≤ group }
    requires banks { bank_bytes_of storage.old ≡ host.old.bank }
    ensures serves { IfOk result (λ replies. Serves group storage.old storage.new host.old (map (λ b. b.items) bodies.now) replies.items
        host.new) }
    ensures memory { InMemory storage.old → IfOk result (λ replies. Run host.old (map (λ b. b.items) bodies.now) replies.items host.new) }
    ensures err { OnErr result ((storage.new ≡ storage.old) × (host.new ≡ host.old)) }
    ensures banks { bank_bytes_of storage.new ≡ host.new.bank }
{
    match storage {
        Storage::Memory(_) => host.run(bodies),
        Storage::Disk(store) => run_over(alloc, host, store, bodies, group),
    }
}
