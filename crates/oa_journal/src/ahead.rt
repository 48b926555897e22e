//! A disk reader with a read-ahead buffer.
ghost use Rattle.std.specs.Prelude.{◌≡◌, ◌↔◌, ◌+◌, ◌≤◌, ℕ, List, IsTrue, length, take, OnOk, IsErrOf};
ghost use Rattle.oa_disk.specs.Disk.{HasBytesAt};
ghost use Rattle.oa_journal.specs.declared.bank.BankFault.{BankFault};
ghost use Rattle.oa_journal.specs.Reads.{AfterReads};

use crate::BankFault;
use oa_disk::Disk;

/// Reads `count` bytes of a disk from place `at` on into the front of a buffer. Err: the read
/// failed.
fn read_front<D: Disk>(
    disk: &mut D,
    at: u64,
    buffer: &mut [u8],
    count: usize,
) -> Result<(), BankFault>
    requires fits { count ≤ length buffer.old }
    requires inside { at + count ≤ D.size_of disk.old }

    ensures front { OnOk result (IsTrue (D.is_honest disk.new) → HasBytesAt (D.contents disk.old) at (take count buffer.new)) }
    ensures long { length buffer.new ≡ length buffer.old }
    ensures undamaged { (place : ℕ) → IsErrOf result (BankFault.Damaged place) → ⊥ }

    ensures after { AfterReads D.Disk 2 disk.old disk.new result }
{
    disk.read_at(at, &mut buffer[..count])?;
    Ok(())
}

/// Bytes of a disk from a place on, read ahead into the front of a buffer.
#[derive(Drop)]
pub(crate) struct DiskAhead {
    from: u64,
    len: usize,
    buffer: Vec<u8>,
    ghost within: { len ≤ length buffer.items },
    ghost some: { 5 ≤ length buffer.items },
}

impl DiskAhead {
    ghost use Rattle.oa_journal.specs.ReadCalls.{IsAhead, StaysAhead};

    /// Makes a reader over this buffer, of at least 5 bytes, that has read nothing.
    pub(crate) fn over(buffer: Vec<u8>) -> DiskAhead
        requires { 5 ≤ length buffer.items }
        ensures shown { (disk : List ℕ) → HasBytesAt disk result.from (take result.len result.buffer.items) }
        ensures kept { length result.buffer.items ≡ length buffer.items }
    {
        DiskAhead {
            from: 0,
            len: 0,
            buffer,
        }
    }

    /// Returns the buffer.
    pub(crate) fn into_buffer(self) -> Vec<u8>
        ensures { length result.items ≡ length self.buffer.items }
    {
        let DiskAhead { buffer, .. } = self;
        buffer
    }

    /// Returns whether `count` bytes fit into the buffer.
    pub(crate) fn takes(&self, count: usize) -> bool
        ensures { IsTrue result ↔ (count ≤ length self.now.buffer.items) }
    {
        count <= self.buffer.len()
    }

    /// Puts the `count` bytes from place `at` of the disk on into the buffer, unless they are
    /// there. It then reads what fits into the buffer, up to place `end`. Allocates nothing. Err:
    /// the read failed.
    pub(crate) fn cover<D: Disk>(
        &mut self,
        disk: &mut D,
        end: u64,
        at: u64,
        count: usize,
    ) -> Result<(), BankFault>
        requires inside { at + count ≤ end }
        requires on_the_disk { end ≤ D.size_of disk.old }
        requires fits { count ≤ length self.old.buffer.items }
        requires ahead { IsAhead D.Disk disk.old self.old }

        ensures covers { OnOk result ((self.new.from ≤ at) × (at + count ≤ self.new.from + self.new.len)) }
        ensures undamaged { (place : ℕ) → IsErrOf result (BankFault.Damaged place) → ⊥ }

        ensures ahead { StaysAhead D.Disk disk.old disk.new self.old self.new }
        ensures after { AfterReads D.Disk 2 disk.old disk.new result }
    {
        if self.from <= at {
            let before = at - self.from;
            let len = self.len as u64;
            if before <= len && count as u64 <= len - before {
                return Ok(());
            }
        }
        let left = end - at;
        let room = self.buffer.len();
        let wanted = if left < room as u64 {
            left as usize
        } else {
            room
        };
        self.len = 0;
        read_front(disk, at, &mut self.buffer, wanted)?;
        self.from = at;
        self.len = wanted;
        Ok(())
    }

    /// Returns the `count` bytes from place `at` of the disk on, which are in the buffer.
    pub(crate) fn seen(&self, at: u64, count: usize) -> &[u8]
        requires low { self.now.from ≤ at }
        requires high { at + count ≤ self.now.from + self.now.len }
        ensures len { length result.now ≡ count }
        ensures holds { (disk : List ℕ) → HasBytesAt disk self.now.from (take self.now.len self.now.buffer.items)
            → HasBytesAt disk at result.now }
    {
        let before = (at - self.from) as usize;
        &self.buffer[..self.len][before..][..count]
    }
}
