//! The server: a library and a table in memory, and the storage of the table.
ghost use Rattle.std.specs.Prelude.{◌≡◌, ◌≤◌, map, IfOk, OnErr};
ghost use Rattle.oa_model.specs.Limits.{max_group};
ghost use Rattle.oa_printer.specs.promise.Canonical.{canonical};
ghost use Rattle.oa_journal.specs.promise.Bank.{body_bytes};
ghost use Rattle.oa_journal.specs.Shapes.{default_bank_bytes};
ghost use Rattle.oa_turn.specs.Limits.{IsSoundTable};
ghost use Rattle.oa_server.specs.Storages.{AnswersOne, InMemory};
ghost use Rattle.oa_server.specs.promise.Storages.{Serves, disk_of};
ghost use Rattle.oa_turn.specs.promise.Turns.{Run, Turn};
ghost use Rattle.oa_server.specs.declared.storage.Storage.TheVariants.{Disk as ADisk};
ghost use Rattle.oa_table.specs.Tables.{first_table};

use crate::engine::{ServerState, answer_with, run_with};
use crate::storage::Storage;
use oa_disk::{Disk, NoDisk};
use oa_journal::DEFAULT_BANK_BYTES;
use oa_record::Reply;
use oa_store::Store;
use oa_table::Table;
use oa_turn::Machine;
use oa_typelib::Library;
use std::alloc::{AllocError, Global};

/// An automation object server: in memory, or over a store.
#[derive(Drop)]
pub struct Server<D: Disk> {
    pub(crate) engine: ServerState<D>,
}

impl Server<NoDisk> {
    /// Makes a server of `library` in memory, with no objects. Makes no call of a disk.
    pub fn in_memory(alloc: Global, library: Library) -> Server<NoDisk>
        ensures state { result.engine.host ≡ record { bank = default_bank_bytes; library = library; table = first_table } }
        ensures memory { InMemory result.engine.storage }
    {
        let host = Machine::new(alloc, DEFAULT_BANK_BYTES, library);
        Server {
            engine: ServerState::new(alloc, host, Storage::Memory(NoDisk::new())),
        }
    }
}

impl<D: Disk> Server<D> {
    /// Makes a server of `library` over `store`, which has the library's text, with the table that
    /// was read from it.
    pub(crate) fn over_store(
        alloc: Global,
        library: Library,
        table: Table,
        store: Store<D>,
    ) -> Server<D>
        requires sound { IsSoundTable (body_bytes store.bank.shape) table }
        requires text { store.library.items ≡ canonical library }
        ensures state { result.engine.host ≡ record { bank = body_bytes store.bank.shape; library = library; table = table } }
        ensures store { result.engine.storage ≡ ADisk store }
    {
        let host = Machine::over(alloc, store.bank_size(), library, table);
        Server {
            engine: ServerState::new(alloc, host, Storage::Disk(store)),
        }
    }

    /// Returns the disk between two calls, for example to read its clock. Makes no call of it.
    pub fn disk(&self) -> &D
        ensures { result.now ≡ disk_of self.now.engine.storage }
    {
        self.engine.storage.disk()
    }

    /// Closes it and returns the disk. Makes no call of it.
    pub fn into_disk(self) -> D
        ensures { result ≡ disk_of self.engine.storage }
    {
        let Server { engine } = self;
        engine.into_disk()
    }

    /// Returns the reply to one request, the bytes of `body`. Over a store the request is a group
    /// of one, which is committed before this returns. If an allocation fails, the reply is
    /// E_OUTOFMEMORY, and nothing has changed. If the device fails, it is STG_E_WRITEFAULT; after
    /// that, E_FAIL.
    pub fn answer(&mut self, body: &[u8]) -> Reply
        ensures answers { AnswersOne self.old.engine.storage self.new.engine.storage self.old.engine.host body.now result self.new.engine.host }
        ensures memory { InMemory self.old.engine.storage → Turn self.old.engine.host body.now result self.new.engine.host }
    {
        answer_with(
            self.engine.alloc,
            &mut self.engine.host,
            &mut self.engine.storage,
            body,
        )
    }

    /// Returns the replies to the requests in `bodies`, in order. Over a store, the changes of up
    /// to `group` requests (1 to 1,024) are committed together, before their replies; in memory
    /// `group` has no effect. Err: an allocation failed before anything was done.
    pub fn run(&mut self, bodies: &[Vec<u8>], group: usize) -> Result<Vec<Reply>, AllocError>
        requires positive { 1 ≤ group }
        requires small { group ≤ max_group }
        ensures serves { IfOk result (λ replies. Serves group self.old.engine.storage self.new.engine.storage self.old.engine.host
            (map (λ b. b.items) bodies.now) replies.items self.new.engine.host) }
        ensures memory { InMemory self.old.engine.storage
            → IfOk result (λ replies. Run self.old.engine.host (map (λ b. b.items) bodies.now) replies.items self.new.engine.host) }
        ensures err { OnErr result ((self.new.engine.storage ≡ self.old.engine.storage) × (self.new.engine.host ≡ self.old.engine.host)) }
    {
        run_with(
            self.engine.alloc,
            &mut self.engine.host,
            &mut self.engine.storage,
            bodies,
            group,
        )
    }
}
