//! Writing a group after a closed gate, which is opened once the group is on the device.
ghost use Rattle.std.specs.Prelude.{◌≡◌, ◌+◌, ◌^◌, ◌<◌, ◌≤◌, IsTrue, length, OnOk, IfOk};
ghost use Rattle.std.specs.Int.{div_ceil};
ghost use Rattle.oa_disk.specs.After.{AfterWrites};
ghost use Rattle.oa_disk.specs.Disk.{LeavesStep};
ghost use Rattle.oa_disk.specs.promise.Disk.{Follows};
ghost use Rattle.oa_disk.specs.Switch.{MaySwitch, HasSwitched};
ghost use Rattle.oa_journal.specs.Append.{group_of, sealed};
ghost use Rattle.oa_journal.specs.Bank.{Apart};
ghost use Rattle.oa_journal.specs.BankCalls.{LaysOut, PartsWithin};

use crate::layout::BodyBytes;
use oa_disk::{DeviceFault, Disk, write_then_flip};

/// Fills the free bytes of a batch: the four before the group with its length, the one after it
/// with a closed gate.
fn seal(batch: &mut [u8])
    requires some { 5 < length batch.old }
    requires few { length batch.old < 2 ^ 32 }
    ensures { batch.new ≡ sealed (group_of batch.old) }
{
    let count = batch.len() - 5;
    let length = (count as u32).to_le_bytes();
    batch[..4].copy_from_slice(&length);
    batch[count + 4] = 0;
}

/// Writes the group of a batch after the closed gate at place `gate` of a disk, and then opens the
/// gate. Err: a call of the device failed; after a crash the group is there whole or not at all.
pub(crate) fn append_group<D: Disk>(
    disk: &mut D,
    gate: u64,
    batch: &mut [u8],
) -> Result<(), DeviceFault>
    requires some { 5 < length batch.old }
    requires few { length batch.old < 2 ^ 32 }
    requires inside { gate + 1 + length batch.old ≤ D.size_of disk.old }
    requires on_a_disk { gate < 2 ^ 63 }

    ensures any_moment { IsTrue (D.is_honest disk.old)
        → LeavesStep D.moment D.image_since D.image disk.old disk.new (MaySwitch (gate + 1) (sealed (group_of batch.old)) gate) }
    ensures done { OnOk result (IsTrue (D.is_honest disk.old)
        → Follows (HasSwitched (gate + 1) (sealed (group_of batch.old)) gate 1) (D.image disk.old) (D.image disk.new)) }

    ensures after { AfterWrites D.Disk 4 disk.old disk.new result }
    ensures long { length batch.new ≡ length batch.old }
    ensures kept { group_of batch.new ≡ group_of batch.old }
{
    seal(batch);
    write_then_flip(disk, gate + 1, batch, gate, 1)
}

/// Writes a head in one write, and the bytes of a body of at most `size` bytes in writes as long as
/// the buffer; `head` and `body` are places of the disk. Returns the number of the body's bytes.
/// Err: a write failed.
pub(crate) fn lay_out<D: Disk>(
    disk: &mut D,
    head: u64,
    header: &[u8; 32],
    body: u64,
    buffer: &mut [u8],
    bytes: &mut BodyBytes<'_>,
    size: u32,
) -> Result<u64, DeviceFault>
    requires some { 0 < length buffer.old }
    requires few { length bytes.old ≤ size }
    requires lies { PartsWithin (D.size_of disk.old) head body size }
    requires apart { Apart head body size }

    ensures lays { LaysOut D.Disk head body size header.now bytes.old disk.old disk.new result }
    ensures long { IfOk result (λ count. count ≡ length bytes.old) }
    ensures buffer { length buffer.new ≡ length buffer.old }
    // (one write for the head, and one for each piece)
    ensures after { AfterWrites D.Disk (1 + div_ceil (length bytes.old) (length buffer.old)) disk.old disk.new result }
{
    disk.write_at(head, header)?;
    let mut at = 0;
    'pieces: loop {
        let count = bytes.fill(buffer);
        if count == 0 {
            return Ok(at);
        }
        disk.write_at(body + at, &buffer[..count])?;
        at += count as u64;
    }
}
