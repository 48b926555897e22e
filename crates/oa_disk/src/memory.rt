//! A disk in memory that tests can crash at any point in time.
ghost use Rattle.std.specs.Prelude.{◌≡◌, ◌+◌, ◌*◌, ◌-◌, ◌<◌, ◌≤◌, [], length, true, List, ℕ, OnOk, OnErr, IfOk, Some};
ghost use Rattle.oa_disk.specs.Disk.{HasBytesAt, Reaches, Stays};
ghost use Rattle.oa_disk.specs.promise.Disk.{Torn, NothingPending, FailsAs, WritesUnsynced, Syncs, TakesTime};
ghost use Rattle.oa_disk.specs.promise.Disk.{DiskState, IsImage, zeros};
ghost use Rattle.oa_disk.specs.History.{IsHistory};
ghost use Rattle.oa_disk.specs.promise.CallLog.{laid, history};

use crate::crash::leave_at;
use crate::layers::{SparseImage, overlay};
use crate::ledger::CallLog;
use crate::{DeviceCall, DeviceFault, Disk, Tear};
use std::alloc::{AllocError, Global};

/// A disk in memory. It logs each call, so a crash at any point in time can be made: 0 is its
/// start, `2k - 1` lies within call k, and `2k` after it. Reads, writes and syncs are its calls,
/// numbered from 1. It uses memory for its calls and the written bytes, not for its size.
#[derive(Drop)]
pub struct MemoryDisk {
    alloc: Global,
    /// The bytes of the disk at first.
    first: SparseImage,
    /// The calls since then.
    ledger: CallLog,
    ghost whole: { IsHistory first.size (history first ledger) },
}

impl MemoryDisk {
    ghost use Rattle.oa_disk.specs.After.{BeginsHonest};
    ghost use Rattle.oa_disk.specs.promise.Memory.{memory_contents, moments_of, IsTornAt};
    ghost use Rattle.oa_disk.specs.Memory.{memory_state_at, IsFresh};

    /// Makes a disk of `size` zeros, all of them on the device. It reserves memory for `calls`
    /// calls, and for `bytes` bytes of all writes together; the calls then allocate nothing. A call
    /// that exceeds either fails and changes nothing. Err: an allocation failed.
    pub fn new(
        alloc: Global,
        size: usize,
        calls: usize,
        bytes: usize,
    ) -> Result<MemoryDisk, AllocError>
        ensures zeros { IfOk result (λ disk. memory_contents disk ≡ zeros size) }
        ensures size { IfOk result (λ disk. ⟦<MemoryDisk as Disk>⟧.size_of disk ≡ size) }
        ensures fresh { IfOk result (IsFresh calls bytes) }
        ensures start { IfOk result (λ disk. moments_of disk ≡ 0) }
        ensures begins { IfOk result (BeginsHonest ⟦<MemoryDisk as Disk>⟧) }
    {
        MemoryDisk::over(alloc, SparseImage::new(alloc, size), calls, bytes)
    }

    /// Returns the last point in time: twice the number of calls.
    pub fn moments(&self) -> u64
        ensures { result ≡ moments_of self.now }
    {
        2 * self.ledger.calls.len() as u64
    }

    /// Returns the disk after a crash at the point in time `moment`, with a new log of the same
    /// bounds. `moment` is at most `moments()`: `2k - 1` lies within call k, and `2k` after it.
    /// `tear` decides what is left of the writes that no sync had brought to the device by then,
    /// including one that had only begun. The cost is a copy of what was written, however large the
    /// disk is. Err: an allocation failed.
    pub fn crash(&self, moment: u64, tear: Tear) -> Result<MemoryDisk, AllocError>
        requires { moment ≤ moments_of self.now }
        ensures torn { IfOk result (λ disk. IsTornAt self.now tear moment (memory_contents disk)) }
        ensures image { IfOk result (λ disk. (state : DiskState) × (memory_state_at self.now moment ≡ Some state)
            × IsImage state (memory_contents disk)) }
        ensures left { IfOk result (λ disk. ⟦<MemoryDisk as Disk>⟧.image_since self.now moment (memory_contents disk)) }
        ensures size { IfOk result (λ disk. ⟦<MemoryDisk as Disk>⟧.size_of disk ≡ ⟦<MemoryDisk as Disk>⟧.size_of self.now) }
        ensures fresh { IfOk result (IsFresh self.now.ledger.most_calls self.now.ledger.most_bytes) }
        ensures start { IfOk result (λ disk. moments_of disk ≡ 0) }
        ensures begins { IfOk result (BeginsHonest ⟦<MemoryDisk as Disk>⟧) }
    {
        let mut first = self.first.copy(self.alloc)?;
        leave_at(
            self.alloc,
            &mut first,
            &self.ledger.calls,
            &self.ledger.written,
            moment,
            tear,
        )?;
        MemoryDisk::over(
            self.alloc,
            first,
            self.ledger.most_calls,
            self.ledger.most_bytes,
        )
    }

    /// Makes a disk with these contents, all of them on the device, and with bounds of its log as
    /// `new` has them. Err: an allocation failed.
    fn over(
        alloc: Global,
        first: SparseImage,
        calls: usize,
        bytes: usize,
    ) -> Result<MemoryDisk, AllocError>
        ensures bytes { IfOk result (λ disk. memory_contents disk ≡ laid first) }
        ensures size { IfOk result (λ disk. disk.first.size ≡ first.size) }
        ensures fresh { IfOk result (IsFresh calls bytes) }
        ensures settled { IfOk result (NothingPending ⟦<MemoryDisk as Disk>⟧.contents ⟦<MemoryDisk as Disk>⟧.image) }
    {
        Ok(MemoryDisk {
            alloc,
            first,
            ledger: CallLog::new(alloc, calls, bytes)?,
        })
    }

    /// Returns a copy of the contents. This is not a call of the disk. Err: an allocation failed.
    pub fn bytes(&self) -> Result<Vec<u8>, AllocError>
        ensures { IfOk result (λ bytes. bytes.items ≡ memory_contents self.now) }
    {
        let mut bytes = vec![in self.alloc; 0; self.first.size]?;
        self.show(0, &mut bytes);
        Ok(bytes)
    }

    /// Fills the buffer with the contents of the disk from byte `at` on.
    fn show(&self, at: usize, bytes: &mut [u8])
        requires { at + length bytes.old ≤ self.now.first.size }
        ensures bytes { HasBytesAt (memory_contents self.now) at bytes.new }
        ensures len { length bytes.new ≡ length bytes.old }
    {
        self.first.give(at, bytes);
        overlay(bytes, at, &self.ledger.calls, &self.ledger.written);
    }
}

/// Each call has the clauses of the trait, and one more. It is executed exactly if the log has
/// space for it, and is then logged; otherwise only the count of failures changes.
impl Disk for MemoryDisk {
    ghost use Rattle.oa_disk.specs.declared.call.DeviceCall.TheVariants.{Read, Write, Sync};
    ghost use Rattle.oa_disk.specs.promise.Memory.{memory_history, memory_contents, moments_of, memory_image};
    ghost use Rattle.oa_disk.specs.Memory.{memory_image_since, IsRecorded};
    ghost use Rattle.oa_disk.specs.Replaying.{contents_is_image, images_have_size, since_have_size, counts_now, since_falls, only_now};
    ghost use Rattle.oa_disk.specs.Counting.{below_all};

    ghost size_of = { λ m. m.first.size };

    ghost failures_of = { λ m. m.ledger.failures };

    ghost is_honest = { λ _. true };

    ghost contents = { memory_contents };

    ghost image = { memory_image };

    ghost moment = { moments_of };

    ghost image_since = { memory_image_since };

    ghost failures_fit = { λ m. below_all m.ledger.failures m.ledger.counted };

    ghost contents_is_image = { λ m _. contents_is_image m.first.size (memory_history m) m.whole };

    ghost images_have_size = { λ m c _ is. images_have_size m.first.size (memory_history m) m.whole c is };

    ghost since_have_size = { λ m t c _ left. since_have_size m.first.size (memory_history m) m.whole t c left };

    ghost counts_now = { λ m t c _ le is. counts_now (memory_history m) t c le is };

    ghost since_falls = { λ m s t c _ le left. since_falls (memory_history m) s t c le left };

    ghost only_now = { λ m c _ left. only_now (memory_history m) c left };

    fn size(&self) -> u64 {
        self.first.size as u64
    }

    fn failures(&self) -> u64 {
        self.ledger.failures
    }

    fn read_at(&mut self, at: u64, bytes: &mut [u8]) -> Result<(), DeviceFault>
        requires { at + length bytes.old ≤ self.old.first.size }
        ensures recorded { IsRecorded Read [] self.old self.new result }
        ensures read { OnOk result (HasBytesAt (memory_contents self.old) at bytes.new) }
        ensures stays { Stays (memory_contents self.old) (memory_contents self.new) (memory_image self.old) (memory_image self.new) }
        ensures time { TakesTime moments_of memory_image_since memory_image self.old self.new }
        ensures size { self.new.first.size ≡ self.old.first.size }
        ensures fails { FailsAs DeviceFault.Read self.old.ledger.failures self.new.ledger.failures result }
    {
        self.ledger.enter(DeviceCall::Read, &[], DeviceFault::Read)?;
        self.show(at as usize, bytes);
        Ok(())
    }

    fn write_at(&mut self, at: u64, bytes: &[u8]) -> Result<(), DeviceFault>
        requires { at + length bytes.now ≤ self.old.first.size }
        ensures recorded { IsRecorded (Write at (length bytes.now)) bytes.now self.old self.new result }
        ensures written { OnOk result (HasBytesAt (memory_contents self.new) at bytes.now) }
        ensures writes { WritesUnsynced at (length bytes.now) (memory_contents self.old) (memory_contents self.new) (memory_image self.old)
            (memory_image self.new) }
        ensures any_bytes { OnOk result (Reaches (Torn at (length bytes.now)) (memory_image self.old) (memory_image self.new)) }
        ensures time { TakesTime moments_of memory_image_since memory_image self.old self.new }
        ensures size { self.new.first.size ≡ self.old.first.size }
        ensures fails { FailsAs DeviceFault.Write self.old.ledger.failures self.new.ledger.failures result }
    {
        let call = DeviceCall::Write(at as usize, bytes.len());
        self.ledger.enter(call, bytes, DeviceFault::Write)
    }

    fn sync(&mut self) -> Result<(), DeviceFault>
        ensures recorded { IsRecorded Sync [] self.old self.new result }
        ensures syncs { OnOk result (Syncs (memory_contents self.old) (memory_contents self.new) (memory_image self.new)) }
        ensures images { (c : List ℕ) → memory_image self.new c → memory_image self.old c }
        ensures stay { OnErr result ((c : List ℕ) → memory_image self.old c → memory_image self.new c) }
        ensures time { TakesTime moments_of memory_image_since memory_image self.old self.new }
        ensures size { self.new.first.size ≡ self.old.first.size }
        ensures fails { FailsAs DeviceFault.Write self.old.ledger.failures self.new.ledger.failures result }
    {
        self.ledger.enter(DeviceCall::Sync, &[], DeviceFault::Write)
    }
}
