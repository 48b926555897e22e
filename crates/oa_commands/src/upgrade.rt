//! Upgrading the file of a store to format 2.
ghost use Rattle.std.specs.Prelude.{◌≤◌, IfErr, IfOk};
ghost use Rattle.oa_commands.specs.Statuses.{IsOfTaking, IsOfUpgrade};
ghost use Rattle.oa_commands.specs.Stores.{IsUpgraded, bank_near};
ghost use Rattle.oa_disk.specs.File.{file_size, GoesOnFrom};
ghost use Rattle.oa_journal.specs.promise.Bank.{least_bank_bytes, most_bank_bytes};

use crate::fault::Fault;
use crate::store::{allow_writes, open_store_file, unwritten};
use crate::streams::StandardStreams;
use oa_disk::{Disk, FileDisk};
use oa_journal::{BankFormat, LEAST_BANK_BYTES, MOST_BANK_BYTES};
use oa_store::OldStore;
use std::alloc::Global;

/// Upgrades the store of format 1 in the file `path` to format 2, with banks of `bank` bytes, or
/// the nearest size from 20 MiB to 1 GiB. Returns its file, locked. A file that is too short is
/// lengthened.
///
/// Errors before anything is written:
///
/// - `CannotRead` and `InUse`, as of `open_store_file`;
/// - `NotAStore`; `AlreadyNew` for a store of format 2;
/// - `Damaged` with the place in bytes, 0 if the contents do not fit into a bank of that size.
///
/// Others: `CannotWrite` if the file cannot be lengthened, or this process may not write files of
/// that length; `DeviceRead` and `DeviceWrite` if a call of the device failed; `Memory` at any
/// point.
pub fn upgrade_store(
    rt: &HostRuntime,
    streams: &StandardStreams,
    path: &str,
    bank: u32,
) -> Result<FileDisk, Fault>
    ensures upgraded { IfOk result (IsUpgraded ⟦<FileDisk as Disk>⟧ (bank_near bank)) }
    ensures refused { IfErr result IsOfUpgrade }
{
    upgraded(
        rt,
        streams,
        path,
        bank.clamp(LEAST_BANK_BYTES, MOST_BANK_BYTES),
    )
}

/// Upgrades the store, with banks of `bank` bytes, which is a valid size. Errors of the contents
/// come before the file is lengthened; all are those of `upgrade_store`.
fn upgraded(
    rt: &HostRuntime,
    streams: &StandardStreams,
    path: &str,
    bank: u32,
) -> Result<FileDisk, Fault>
    requires least { least_bank_bytes ≤ bank }
    requires most { bank ≤ most_bank_bytes }
    ensures upgraded { IfOk result (IsUpgraded ⟦<FileDisk as Disk>⟧ bank) }
    ensures refused { IfErr result IsOfUpgrade }
{
    let alloc = rt.alloc();
    let mut disk = open_store_file(rt, streams, alloc, path)?;
    let found = OldStore::find_old_store(alloc, &mut disk, bank)?;
    let mut long = lengthened(rt, alloc, path, disk, BankFormat::Two(bank).disk_bytes())?;
    found.migrate(&mut long)?;
    Ok(long)
}

/// Lengthens the file to `size` bytes, if it is shorter. It keeps its contents, unless a call of it
/// has failed. Errors: `CannotWrite`, `Memory`.
fn lengthened(
    rt: &HostRuntime,
    alloc: Global,
    path: &str,
    disk: FileDisk,
    size: u64,
) -> Result<FileDisk, Fault>
    ensures room { IfOk result (λ long. size ≤ file_size long) }
    ensures goes_on { IfOk result (GoesOnFrom ⟦<FileDisk as Disk>⟧ size disk) }
    ensures refused { IfErr result IsOfTaking }
{
    allow_writes(rt, alloc, path, size)?;
    disk.lengthen(size)
        .map_err(|error| unwritten(alloc, &error, path))
}
