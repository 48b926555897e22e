//! A file of the operating system as a disk.
ghost use Rattle.std.specs.Prelude.{◌≡◌, ◌+◌, ◌-◌, ◌^◌, ◌<◌, ◌≤◌, ◌↔◌, [], ℕ, length, IfOk, IfErr, IsTrue};
ghost use Rattle.oa_disk.specs.promise.Disk.{CountsFailures};
ghost use Rattle.oa_disk.specs.Folders.{IsFolderOf};
ghost use Rattle.oa_disk.specs.History.{IsHistory};
ghost use Rattle.oa_disk.specs.Record.{recorded_history};

use crate::record::Record;
use crate::{DeviceCall, DeviceFault, Disk};
use std::fs::{self, File, Metadata, OpenFile, OpenOptions};
use std::io;
use std::os::unix::fs::{FileExt, MetadataExt};
use std::rt::Files;

/// The number of zeros that one call writes.
const PIECE: usize = 65_536;

/// A file as a disk, of the length that the file had when the disk was made. A log of its calls
/// exists for contracts only: each member of the trait is computed from that log. The disk is
/// honest as long as each read has returned the bytes that the log implies.
///
/// Three things are premises of whoever uses the clauses: the file held the contents with which the
/// log begins; these were on the device; and a crash leaves one of the images.
#[derive(Drop)]
pub struct FileDisk {
    file: File,
    size: u64,
    failures: u64,
    history: Record,
    ghost counted: { failures < 2 ^ 64 },
    ghost whole: { IsHistory size (recorded_history history) },
}

impl FileDisk {
    ghost use Rattle.oa_disk.specs.After.{BeginsHonest};
    ghost use Rattle.oa_disk.specs.File.{file_size, failures_of, log_of, GoesOnFrom, HasMetNoCall, IsZeros};

    /// Opens an existing file for reading and writing, not for appending, and makes a disk of it as
    /// `over` does. Errors: those of `over`, and the system's if the file cannot be opened.
    ///
    /// There are first contents, those that the file held, for which everything stated of the disk
    /// is true. (`over` states it for all first contents. Beside a path no caller can pass a value
    /// that only clauses name.)
    pub fn open<R: Files<File = File>>(rt: &R, path: &str) -> io::Result<FileDisk>
        ensures held { IfOk result (λ disk. (held : ℕ → ℕ) × HasMetNoCall held disk) }
        ensures begins { IfOk result (BeginsHonest ⟦<FileDisk as Disk>⟧) }
    {
        FileDisk::over(OpenOptions::new().read(true).write(true).open(rt, path)?)
    }

    /// Creates a file of `size` zeros and locks it as `over` does. The zeros are allocated on the
    /// device at once, and the file and its name in the folder are synced. Errors: std's
    /// `AlreadyExists` if something has the name; any other is the system's.
    ///
    /// If the file cannot be filled, its name is removed. The name stays if another file has taken
    /// it meanwhile, or if the system does not report which file has it.
    pub fn create<R: Files<File = File>>(rt: &R, path: &str, size: u64) -> io::Result<FileDisk>
        ensures zeros { IfOk result (IsZeros size) }
        ensures begins { IfOk result (BeginsHonest ⟦<FileDisk as Disk>⟧) }
    {
        let file = File::create_new(rt, path)?;
        if let Err(error) = lay_down(rt, &file, path, size) {
            let _ = remove_new(rt, &file, path);
            return Err(error);
        }
        Ok(FileDisk::begin(file, size))
    }

    /// Makes a disk of an open file, of the file's length, and syncs what was written to it before.
    /// The file must be written at given places, not appended to. It stays locked as long as the
    /// disk exists: the lock is the system's, on this descriptor, so it ends with the process.
    /// Errors: `WouldBlock` if the file is locked elsewhere; `Unsupported` if it is not a regular
    /// file; any other error is the system's. Everything stated of the disk is true for all first
    /// contents, including those that the file held.
    pub fn over(file: File) -> io::Result<FileDisk>
        ghost held: { ℕ → ℕ }
        ensures held { IfOk result (HasMetNoCall held) }
        ensures begins { IfOk result (BeginsHonest ⟦<FileDisk as Disk>⟧) }
    {
        if !file.metadata()?.is_file() {
            return Err(io::ErrorKind::Unsupported.into());
        }
        // (the length is read under the lock, since the holder of the lock may change it)
        file.try_lock()?;
        file.sync_all()?;
        let size = file.metadata()?.len();
        Ok(FileDisk::begin(file, size))
    }

    /// Lengthens the file to `size` bytes, if it is shorter, and returns its disk. The new bytes
    /// are zeros that are allocated on the device at once. The file stays locked throughout. The
    /// new disk is as honest as this one. If this disk is honest and no call of it has failed,
    /// everything written to it is synced. The new disk then begins with its contents.
    ///
    /// The error is the system's. The file is then closed, and gets its former length back if the
    /// system allows that. A crash may leave a file that is shorter than asked.
    pub fn lengthen(self, size: u64) -> io::Result<FileDisk>
        ensures kept { IfOk result (λ disk. size ≤ file_size self → file_size disk ≡ file_size self) }
        ensures lengthened { IfOk result (λ disk. file_size self ≤ size → file_size disk ≡ size) }
        ensures goes_on { IfOk result (GoesOnFrom ⟦<FileDisk as Disk>⟧ size self) }
    {
        let old = self.size;
        let history = self.history.lengthened(&size);
        let file = self.file;
        if let Err(error) = add_zeros(&file, old, size) {
            let _ = file.set_len(old);
            return Err(error);
        }
        let failures = 0;
        Ok(FileDisk {
            file,
            size: if old < size { size } else { old },
            failures,
            history,
        })
    }

    /// Makes a disk of `size` bytes whose log begins with this file.
    fn begin(file: File, size: u64) -> FileDisk
        ghost held: { ℕ → ℕ }
        ensures size { file_size result ≡ size }
        ensures held { HasMetNoCall held result }
        ensures begins { BeginsHonest ⟦<FileDisk as Disk>⟧ result }
    {
        let history = Record::beginning(&size);
        FileDisk {
            file,
            size,
            failures: 0,
            history,
        }
    }
}

/// The three calls, each with its result and the entry in the log.
impl FileDisk {
    ghost use Rattle.std.specs.Prelude.{MatchResult};
    ghost use Rattle.oa_disk.specs.declared.call.DeviceCall.TheVariants.{Read, Write, Sync};
    ghost use Rattle.oa_disk.specs.Record.{noted};
    ghost use Rattle.oa_disk.specs.File.{file_size, failures_of, log_of};

    /// Reads from byte `at` on. A failed read is logged as a read of no bytes. Err: the read
    /// failed.
    fn get(&mut self, at: u64, bytes: &mut [u8]) -> Result<(), DeviceFault>
        ensures noted { MatchResult result
            (λ _. log_of self.new ≡ noted (log_of self.old) Read [] at bytes.new)
            (λ e. (log_of self.new ≡ noted (log_of self.old) Read [] at []) × (e ≡ DeviceFault.Read)) }
        ensures size { file_size self.new ≡ file_size self.old }
        ensures counts { CountsFailures (failures_of self.old) (failures_of self.new) result }
    {
        if self.file.read_exact_at(bytes, at).is_err() {
            self.history = self.history.with(&DeviceCall::Read, &[], &at, &[]);
            self.failures = self.failures.saturating_add(1);
            return Err(DeviceFault::Read);
        }
        self.history = self.history.with(&DeviceCall::Read, &[], &at, bytes);
        Ok(())
    }

    /// Writes from byte `at` on. A write is logged as one, whether it succeeds or not. Err: it
    /// failed.
    fn put(&mut self, at: u64, bytes: &[u8]) -> Result<(), DeviceFault>
        requires { at + length bytes.now ≤ file_size self.old }
        ensures noted { log_of self.new ≡ noted (log_of self.old) (Write at (length bytes.now)) bytes.now 0 [] }
        ensures size { file_size self.new ≡ file_size self.old }
        ensures counts { CountsFailures (failures_of self.old) (failures_of self.new) result }
        ensures fault { IfErr result (λ e. e ≡ DeviceFault.Write) }
    {
        let answer = self.file.write_all_at(bytes, at);
        let call = DeviceCall::Write(at as usize, bytes.len());
        self.history = self.history.with(&call, bytes, &0, &[]);
        if answer.is_err() {
            self.failures = self.failures.saturating_add(1);
            return Err(DeviceFault::Write);
        }
        Ok(())
    }

    /// Syncs. A failed sync has brought nothing to the device, and is logged as a read of no bytes.
    /// Err: it failed.
    fn flush(&mut self) -> Result<(), DeviceFault>
        ensures noted { MatchResult result
            (λ _. log_of self.new ≡ noted (log_of self.old) Sync [] 0 [])
            (λ e. (log_of self.new ≡ noted (log_of self.old) Read [] 0 []) × (e ≡ DeviceFault.Write)) }
        ensures size { file_size self.new ≡ file_size self.old }
        ensures counts { CountsFailures (failures_of self.old) (failures_of self.new) result }
    {
        if self.file.sync_data().is_err() {
            self.history = self.history.with(&DeviceCall::Read, &[], &0, &[]);
            self.failures = self.failures.saturating_add(1);
            return Err(DeviceFault::Write);
        }
        self.history = self.history.with(&DeviceCall::Sync, &[], &0, &[]);
        Ok(())
    }
}

impl Disk for FileDisk {
    ghost use Rattle.oa_disk.specs.Counting.{below_all};
    ghost use Rattle.oa_disk.specs.promise.Disk.{contents_of, image_of, moment_of};
    ghost use Rattle.oa_disk.specs.History.{image_since_of};
    ghost use Rattle.oa_disk.specs.Replaying.{contents_is_image, images_have_size, since_have_size, counts_now, since_falls, only_now};

    ghost size_of = { λ f. f.size };

    ghost failures_of = { λ f. f.failures };

    ghost is_honest = { λ f. f.history.honest };

    ghost contents = { λ f. contents_of (recorded_history f.history) };

    ghost image = { λ f. image_of (recorded_history f.history) };

    ghost moment = { λ f. moment_of (recorded_history f.history) };

    ghost image_since = { λ f. image_since_of (recorded_history f.history) };

    ghost failures_fit = { λ f. below_all f.failures f.counted };

    ghost contents_is_image = { λ f _. contents_is_image f.size (recorded_history f.history) f.whole };

    ghost images_have_size = { λ f c _ is. images_have_size f.size (recorded_history f.history) f.whole c is };

    ghost since_have_size = { λ f t c _ left. since_have_size f.size (recorded_history f.history) f.whole t c left };

    ghost counts_now = { λ f t c _ le is. counts_now (recorded_history f.history) t c le is };

    ghost since_falls = { λ f s t c _ le left. since_falls (recorded_history f.history) s t c le left };

    ghost only_now = { λ f c _ left. only_now (recorded_history f.history) c left };

    fn size(&self) -> u64 {
        self.size
    }

    fn failures(&self) -> u64 {
        self.failures
    }

    fn read_at(&mut self, at: u64, bytes: &mut [u8]) -> Result<(), DeviceFault> {
        self.get(at, bytes)
    }

    fn write_at(&mut self, at: u64, bytes: &[u8]) -> Result<(), DeviceFault> {
        self.put(at, bytes)
    }

    fn sync(&mut self) -> Result<(), DeviceFault> {
        self.flush()
    }
}

/// Locks a new file, fills it with `size` zeros, and syncs it and its folder. The error is the
/// system's.
fn lay_down<R: Files<File = File>>(rt: &R, file: &File, path: &str, size: u64) -> io::Result<()> {
    file.try_lock()?;
    file.set_len(size)?;
    add_zeros(file, 0, size)?;
    File::open(rt, folder_of(path))?.sync_all()
}

/// Removes the name of a new file if it still belongs to that file. The system removes by name
/// only, so the check comes directly before the removal. The file is open, so no other file can
/// have its number by then. The error is the system's.
fn remove_new<R: Files<File = File>>(rt: &R, file: &File, path: &str) -> io::Result<()> {
    let made = Identity::of(&file.metadata()?);
    let named = Identity::of(&fs::symlink_metadata(rt, path)?);
    if named.is(&made) {
        fs::remove_file(rt, path)?;
    }
    Ok(())
}

/// The identity of a file. A symbolic link counts as a file of its own.
#[derive(Drop)]
struct Identity {
    device: u64,
    inode: u64,
}

impl Identity {
    /// Returns the identity of the file with this metadata.
    fn of(found: &Metadata) -> Identity {
        Identity {
            device: found.dev(),
            inode: found.ino(),
        }
    }

    /// Returns whether the two are one file. A file's number is unique only within its device.
    fn is(&self, other: &Identity) -> bool
        ensures { IsTrue result ↔ (self.now ≡ other.now) }
    {
        self.device == other.device && self.inode == other.inode
    }
}

/// Writes zeros from byte `from` of a file to byte `to`, and syncs the file. The error is the
/// system's.
fn add_zeros(file: &File, from: u64, to: u64) -> io::Result<()> {
    let zeros = [0; PIECE];
    let mut at = from;
    'pieces: while at < to {
        let count = (to - at).min(PIECE as u64);
        file.write_all_at(&zeros[..count as usize], at)?;
        at += count;
    }
    file.sync_all()
}

/// Returns the folder of a path: `.` if the path has no slash.
fn folder_of(path: &str) -> &str
    ensures { IsFolderOf path.now result.now }
{
    match path.rsplit_once('/') {
        None => ".",
        Some((folder, _)) if !folder.is_empty() => folder,
        Some(_) => "/",
    }
}
