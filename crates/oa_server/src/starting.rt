//! Starting a server over a store: its table must fit the library and a bank.
ghost use Rattle.std.specs.Prelude.{◌≡◌, ◌↔◌, ◌≤◌, IsTrue, length, IfOk, IfErr};
ghost use Rattle.oa_model.specs.promise.Limits.{max_library_bytes};
ghost use Rattle.oa_printer.specs.promise.Canonical.{canonical};
ghost use Rattle.oa_turn.specs.promise.Beginnings.{CanServe};
ghost use Rattle.oa_server.specs.promise.ServerMachine.{IsNotOpened, IsOpened};
ghost use Rattle.oa_server.specs.promise.Storages.{OverStore};
ghost use Rattle.oa_server.specs.Storages.{bank_bytes_of};

use crate::Server;
use oa_compat::fits;
use oa_disk::Disk;
use oa_idl::laws::one_tree;
use oa_image::fits_bank;
use oa_printer::laws::marked_is_read;
use oa_store::{OpenFault, Store};
use oa_table::Table;
use oa_typelib::Library;
use std::alloc::Global;

/// Returns the library's text, which is at most as long as allowed.
pub(crate) fn text_of(library: &Library) -> &[u8]
    ensures text { result.now ≡ canonical library.now }
    ensures short { length result.now ≤ max_library_bytes }
{
    library.text()
}

/// Returns whether a server of `library` may begin with `table` over banks of `bank` bytes.
fn can_serve(bank: u32, library: &Library, table: &Table) -> bool
    ensures { IsTrue result ↔ CanServe bank library.now table.now }
{
    fits(library, table) && fits_bank(bank, table)
}

/// Opens the store of `library` on the disk, and returns it with its table. It writes nothing, and
/// begins with a sync. An error returns the disk, too. It is `Damaged(0)` also if no server of the
/// library may begin with the table over banks of that size.
fn open_store<D: Disk>(
    alloc: Global,
    disk: D,
    library: &Library,
) -> Result<(Store<D>, Table), (D, OpenFault)>
    ensures opened { IfOk result (λ r. IsOpened D.Disk disk library.now r.0 r.1) }
    ensures refused { IfErr result (λ e. IsNotOpened D.Disk disk e.0 library.now e.1) }
{
    one_tree();
    marked_is_read();
    library.is_checked();
    let (store, table) = Store::open(alloc, disk, text_of(library))?;
    if can_serve(store.bank_size(), library, &table) {
        Ok((store, table))
    } else {
        Err((store.into_disk(), OpenFault::Damaged(0)))
    }
}

impl<D: Disk> Server<D> {
    /// Recovery: opens the store of `library` on the disk, and serves its table. It writes nothing,
    /// and begins with a sync. Locks end with a session: the table has none.
    ///
    /// An error returns the disk, too. These are checked in order, and the first error is returned:
    ///
    /// - the size and the first byte: `NotAStore`;
    /// - the head of the bank, `Damaged`; its format, `OldFormat`; its library, `LibraryDiffers`;
    /// - its snapshot and its groups: `Damaged`;
    /// - whether the table fits the library, and its image fits a bank: `Damaged(0)`.
    ///
    /// `Device` or `Memory`: a call of the device or an allocation failed.
    pub fn open(alloc: Global, disk: D, library: Library) -> Result<Server<D>, (D, OpenFault)>
        ensures library { IfOk result (λ server. server.engine.host.library ≡ library) }
        ensures bank { IfOk result (λ server. server.engine.host.bank ≡ bank_bytes_of server.engine.storage) }
        ensures opened { IfOk result (λ server. OverStore server.engine.storage
            (λ store. IsOpened D.Disk disk library store server.engine.host.table)) }
        ensures refused { IfErr result (λ e. IsNotOpened D.Disk disk e.0 library e.1) }
    {
        let (store, table) = open_store(alloc, disk, &library)?;
        Ok(Server::over_store(alloc, library, table, store))
    }
}
