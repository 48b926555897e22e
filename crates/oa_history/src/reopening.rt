//! A new store, and the opening of one with its own library.
ghost use Rattle.std.specs.Prelude.{◌≡◌, ◌≤◌, IfOk, IfErr};
ghost use Rattle.oa_disk.specs.promise.Memory.{memory_contents};
ghost use Rattle.oa_group_commit.specs.promise.Groups.{HoldsState};
ghost use Rattle.oa_journal.specs.promise.Bank.{least_bank_bytes, most_bank_bytes};
ghost use Rattle.oa_server.specs.promise.ServerMachine.{server_machine};
ghost use Rattle.oa_decision.specs.promise.States.{State, state_of};
ghost use Rattle.oa_store.specs.promise.Stores.{IsStore};
ghost use Rattle.oa_table.specs.Tables.{first_table};
ghost use Rattle.oa_typelib.specs.promise.Checked.{IsChecked};
ghost use Rattle.oa_history.specs.promise.CrashHistories.{IsRecovered, IsFreshDisk};
ghost use Rattle.oa_history.specs.Kept.{IsRecoverable, IsUnmade, IsWanting};
ghost use Rattle.oa_history.specs.declared.fault.HistoryFault.TheVariants.{Memory};

use crate::{HistoryFault, Opened};
use oa_compat::read_library;
use oa_disk::{MemoryDisk, Tear};
use oa_idl::laws::one_tree;
use oa_printer::laws::{canonical_is_utf8, every_tree_is_printable, marked_is_read};
use oa_server::Server;
use oa_server::laws::{an_opening_finds_what_was_kept, what_was_served_is_served_again};
use oa_store::{format, inspect};
use oa_table::Table;
use oa_typelib::Library;
use std::alloc::Global;

/// Returns a disk with a store of `library` and no objects, with bodies of `bank` bytes, as it is
/// after its formatting. Errors: `Format` if the disk was not formatted; `Memory`.
pub(crate) fn begun(
    alloc: Global,
    disk: MemoryDisk,
    library: &Library,
    bank: u32,
) -> Result<MemoryDisk, HistoryFault>
    requires least { least_bank_bytes ≤ bank }
    requires most { bank ≤ most_bank_bytes }
    ensures settled { IfOk result IsFreshDisk }
    ensures size { IfOk result (λ made. made.first.size ≡ disk.first.size) }
    ensures kept { IfOk result (λ disk. IsRecoverable disk (state_of bank library.now first_table)) }
    ensures wanting { IfErr result (IsUnmade bank disk.first.size) }
{
    library.is_checked();
    what_was_served_is_served_again();
    let mut disk = disk;
    if let Err(fault) = format(alloc, &mut disk, library.text(), bank) {
        return Err(HistoryFault::Format(fault));
    }
    Ok(disk.crash(disk.moments(), Tear::Kept)?)
}

/// Returns a disk with the contents of this one, all of them on the device. Err: an allocation
/// failed.
fn copied(disk: &MemoryDisk) -> Result<MemoryDisk, HistoryFault>
    ensures contents { IfOk result (λ copy. memory_contents copy ≡ memory_contents disk.now) }
    ensures wanting { IfErr result (λ fault. fault ≡ Memory) }
{
    Ok(disk.crash(disk.moments(), Tear::Kept)?)
}

/// Returns the text of the library, and the table, of the store on the disk. It reads a copy of the
/// disk, so the disk's clock does not advance. Errors: `Open` if the store was not read; `Memory`.
pub(crate) fn shown(alloc: Global, disk: &MemoryDisk) -> Result<(Vec<u8>, Table), HistoryFault>
    ensures shown { IfOk result (λ r. IsStore (memory_contents disk.now) r.0.items r.1) }
    ensures wanting { IfErr result (λ fault. (state : State) → HoldsState server_machine state (memory_contents disk.now) → IsWanting fault) }
{
    let mut copy = copied(disk)?;
    match inspect(alloc, &mut copy) {
        Ok(shown) => Ok(shown),
        Err(fault) => Err(HistoryFault::Open(fault)),
    }
}

/// Returns the library of the store on the disk. Errors: those of `shown`; `Text` if the library's
/// text was not read.
pub(crate) fn library_on(alloc: Global, disk: &MemoryDisk) -> Result<Library, HistoryFault>
    ensures kept { IfOk result (λ library. (state : State) → HoldsState server_machine state (memory_contents disk.now)
        → IsChecked state.library → library ≡ state.library) }
    ensures wanting { IfErr result (λ fault. (state : State) → HoldsState server_machine state (memory_contents disk.now)
        → IsChecked state.library → IsWanting fault) }
{
    one_tree();
    every_tree_is_printable();
    marked_is_read();
    canonical_is_utf8();
    let (text, _) = shown(alloc, disk)?;
    match read_library(alloc, text.as_slice()) {
        Ok(library) => Ok(library),
        Err(fault) => Err(HistoryFault::Text(fault)),
    }
}

/// Opens the store on the disk with its own library. Errors: those of `library_on`; `Open`.
pub(crate) fn reopened(alloc: Global, disk: MemoryDisk) -> Result<Opened, HistoryFault>
    requires { IsFreshDisk disk }
    ensures begins { IfOk result (λ opened. (state : State) → IsRecoverable disk state → IsRecovered disk opened.server state) }
    ensures wanting { IfErr result (λ fault. (state : State) → IsRecoverable disk state → IsWanting fault) }
{
    an_opening_finds_what_was_kept::<MemoryDisk>();
    let library = library_on(alloc, &disk)?;
    match Server::open(alloc, disk, library) {
        Ok(server) => Ok(Opened { server }),
        Err((_, fault)) => Err(HistoryFault::Open(fault)),
    }
}
