//! Files that contain a store.
ghost use Rattle.std.specs.Prelude.{◌≡◌, ◌≢◌, ◌≤◌, None, IfErr, IfOk, IsSome};
ghost use Rattle.std.specs.IoError.{error_kind, raw_os_error};
ghost use Rattle.std.specs.declared.io.ErrorKind.TheVariants as kinds;
ghost use Rattle.oa_commands.specs.declared.fault.Fault.TheVariants as faults;
ghost use Rattle.oa_commands.specs.Files.{TellsUnread, TellsUse, TellsUnwritten};
ghost use Rattle.oa_commands.specs.Statuses.{IsOfFormat, IsOfMaking, IsOfOpening, IsOfTaking, IsOfUse};
ghost use Rattle.oa_commands.specs.Stores.{IsNewlyFormatted, bank_near};
ghost use Rattle.oa_disk.specs.After.{BeginsHonest};
ghost use Rattle.oa_journal.specs.promise.Bank.{least_bank_bytes, most_bank_bytes};

use crate::fault::Fault;
use crate::library::{read_library_file, unread};
use crate::limit::allow_length;
use crate::reason::reason;
use crate::shown::shown_name;
use crate::streams::StandardStreams;
use oa_disk::{Disk, FileDisk};
use oa_journal::{BankFormat, LEAST_BANK_BYTES, MOST_BANK_BYTES};
use std::alloc::Global;
use std::fs::{self, File, OpenOptions};
use std::io;
use std::io::ErrorKind;

/// The system's error for a folder instead of a file, EISDIR.
const IS_A_DIRECTORY: i32 = 21;

/// Makes the file `path` the store of the library in the file `library`, without objects. Its banks
/// have `bank` bytes, or the nearest size from 20 MiB to 1 GiB. Returns the store's file, locked. A
/// missing file is created; an existing one keeps its length, and its contents are lost.
///
/// Errors:
///
/// - those of `read_library_file`, before the file is opened;
/// - `CannotRead` and `InUse` for an existing file, as of `open_store_file`;
/// - `CannotWrite` if it cannot be created, or this process may not write files of the length of
///   such banks;
/// - `TooSmall` if two banks do not fit, and then the file has not changed;
/// - `DeviceWrite` if a write or a sync failed; `Memory` at any point.
pub fn format_store(
    rt: &HostRuntime,
    streams: &StandardStreams,
    path: &str,
    library: &str,
    bank: u32,
) -> Result<FileDisk, Fault>
    ensures new { IfOk result (IsNewlyFormatted ⟦<FileDisk as Disk>⟧ (bank_near bank)) }
    ensures refused { IfErr result IsOfFormat }
{
    made_store(
        rt,
        streams,
        path,
        library,
        bank.clamp(LEAST_BANK_BYTES, MOST_BANK_BYTES),
    )
}

/// Makes the store, with banks of `bank` bytes, which is a valid size. Errors are those of
/// `format_store`.
fn made_store(
    rt: &HostRuntime,
    streams: &StandardStreams,
    path: &str,
    library: &str,
    bank: u32,
) -> Result<FileDisk, Fault>
    requires least { least_bank_bytes ≤ bank }
    requires most { bank ≤ most_bank_bytes }
    ensures new { IfOk result (IsNewlyFormatted ⟦<FileDisk as Disk>⟧ bank) }
    ensures refused { IfErr result IsOfFormat }
{
    let alloc = rt.alloc();
    let library = read_library_file(rt, alloc, library)?;
    let size = BankFormat::Two(bank).disk_bytes();
    let mut disk = found_or_made(rt, streams, alloc, path, size)?;
    oa_store::format(alloc, &mut disk, library.text(), bank)?;
    Ok(disk)
}

/// Opens the existing file `path` of a store as a disk, and locks it as long as the disk exists.
///
/// Errors: `CannotRead` if it cannot be opened for reading and writing, or is not a regular file;
/// `InUse` if another process has locked it; `CannotWrite` if it is longer than this process may
/// write files; `Memory`.
pub fn open_store_file(
    rt: &HostRuntime,
    streams: &StandardStreams,
    alloc: Global,
    path: &str,
) -> Result<FileDisk, Fault>
    ensures begins { IfOk result (BeginsHonest ⟦<FileDisk as Disk>⟧) }
    ensures refused { IfErr result IsOfTaking }
{
    let disk = opened(rt, streams, path).map_err(|error| unopened(alloc, &error, path))?;
    allow_writes(rt, alloc, path, disk.size())?;
    Ok(disk)
}

/// Opens the existing file `path` of a store as a disk for reading only, so the process need not be
/// able to write it: each write of that disk would fail.
///
/// Errors: `CannotRead` if it cannot be opened for reading, or is not a regular file; `InUse` if
/// another process has locked it; `Memory`.
pub(crate) fn open_to_read(
    rt: &HostRuntime,
    streams: &StandardStreams,
    alloc: Global,
    path: &str,
) -> Result<FileDisk, Fault>
    ensures begins { IfOk result (BeginsHonest ⟦<FileDisk as Disk>⟧) }
    ensures refused { IfErr result IsOfOpening }
{
    opened_to_read(rt, streams, path).map_err(|error| unopened(alloc, &error, path))
}

/// Opens a file as a disk, for some first contents. The error is the system's, or `FileDisk`'s own.
fn opened(rt: &HostRuntime, _streams: &StandardStreams, path: &str) -> io::Result<FileDisk>
    ensures { IfOk result (BeginsHonest ⟦<FileDisk as Disk>⟧) }
{
    FileDisk::over(OpenOptions::new().read(true).write(true).open(rt, path)?)
}

/// Opens a file as a disk for reading only. It first checks what has the name: opening a pipe for
/// reading would wait for a writer. The error is the system's, or `FileDisk`'s own.
fn opened_to_read(rt: &HostRuntime, _streams: &StandardStreams, path: &str) -> io::Result<FileDisk>
    ensures { IfOk result (BeginsHonest ⟦<FileDisk as Disk>⟧) }
{
    let found = fs::metadata(rt, path)?;
    if found.is_dir() {
        return Err(io::Error::from_raw_os_error(IS_A_DIRECTORY));
    }
    if !found.is_file() {
        return Err(ErrorKind::Unsupported.into());
    }
    FileDisk::over(File::open(rt, path)?)
}

/// Checks that this process may write files of `length` bytes. Err: `CannotWrite` if it may not;
/// `Memory` if an allocation failed.
pub(crate) fn allow_writes(
    rt: &HostRuntime,
    alloc: Global,
    path: &str,
    length: u64,
) -> Result<(), Fault>
    ensures { IfErr result IsOfMaking }
{
    allow_length(rt, length).map_err(|error| unwritten(alloc, &error, path))
}

/// Opens the file of a store, or creates it with `size` bytes. Errors: `CannotRead`, `InUse`,
/// `CannotWrite`, `Memory`.
fn found_or_made(
    rt: &HostRuntime,
    streams: &StandardStreams,
    alloc: Global,
    path: &str,
    size: u64,
) -> Result<FileDisk, Fault>
    ensures begins { IfOk result (BeginsHonest ⟦<FileDisk as Disk>⟧) }
    ensures refused { IfErr result IsOfTaking }
{
    match opened(rt, streams, path) {
        Ok(disk) => {
            allow_writes(rt, alloc, path, size.min(disk.size()))?;
            Ok(disk)
        }
        Err(error) if error.kind() == ErrorKind::NotFound => made(rt, streams, alloc, path, size),
        Err(error) => Err(unopened(alloc, &error, path)),
    }
}

/// Creates a file of `size` zeros for a store. Errors: `CannotWrite`, `Memory`.
fn made(
    rt: &HostRuntime,
    _streams: &StandardStreams,
    alloc: Global,
    path: &str,
    size: u64,
) -> Result<FileDisk, Fault>
    ensures begins { IfOk result (BeginsHonest ⟦<FileDisk as Disk>⟧) }
    ensures refused { IfErr result IsOfMaking }
{
    allow_writes(rt, alloc, path, size)?;
    FileDisk::create(rt, path, size).map_err(|error| unwritten(alloc, &error, path))
}

/// Returns the fault of a store's file that was not opened: `InUse`, or as `unread`. A lock of
/// another process is the one error without a number: a call that would block has its own text.
pub(crate) fn unopened(alloc: Global, error: &io::Error, path: &str) -> Fault
    ensures kind { IsOfOpening result }
    ensures used { error_kind error.now ≡ kinds.WouldBlock → raw_os_error error.now ≡ None → TellsUse path.now result }
    ensures unread { error_kind error.now ≢ kinds.WouldBlock → TellsUnread path.now result }
    ensures system { IsSome (raw_os_error error.now) → TellsUnread path.now result }
{
    if error.kind() == ErrorKind::WouldBlock && error.raw_os_error().is_none() {
        return in_use(alloc, path);
    }
    unread(alloc, error, path)
}

/// Returns the fault of a file that another process has locked; `Memory` if the allocation of its
/// name failed.
fn in_use(alloc: Global, path: &str) -> Fault
    ensures kind { IsOfUse result }
    ensures told { TellsUse path.now result }
{
    match shown_name(alloc, path) {
        Ok(path) => Fault::InUse(path),
        Err(_) => Fault::Memory,
    }
}

/// Returns the fault of a store's file that was not created, not lengthened, or cannot be written:
/// `CannotWrite`, or `Memory` if an allocation failed.
pub(crate) fn unwritten(alloc: Global, error: &io::Error, path: &str) -> Fault
    ensures kind { IsOfMaking result }
    ensures told { TellsUnwritten path.now result }
    ensures memory { error_kind error.now ≡ kinds.OutOfMemory → result ≡ faults.Memory }
{
    if error.kind() == ErrorKind::OutOfMemory {
        return Fault::Memory;
    }
    match (shown_name(alloc, path), reason(alloc, error)) {
        (Ok(path), Ok(reason)) => Fault::CannotWrite(path, reason),
        _ => Fault::Memory,
    }
}
