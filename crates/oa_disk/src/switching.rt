//! Atomic changes by one byte, the switch: it is written only after everything before it is on the
//! device.
ghost use Rattle.std.specs.Prelude.{◌≡◌, ◌⊎◌, ◌+◌, ◌<◌, ◌≤◌, List, ℕ, IsTrue, OnOk, length, slice_index};
ghost use Rattle.oa_disk.specs.After.{AfterWrites};
ghost use Rattle.oa_disk.specs.promise.Disk.{CrashInvariant, Follows, Torn};
ghost use Rattle.oa_disk.specs.Disk.{LeavesStep};
ghost use Rattle.oa_disk.specs.Switch.{MaySwitch, HasSwitched};

use crate::{DeviceFault, Disk};

/// Syncs, sets the byte at `at` to `value`, and syncs again. Err: `Write`, and no later call is
/// made.
pub fn flip<D: Disk>(disk: &mut D, at: u64, value: u8) -> Result<(), DeviceFault>
    requires { at < D.size_of disk.old }

    // (a crash before that leaves an image of before, a crash after it these contents with any byte
    // at the switch)
    ensures any_moment { IsTrue (D.is_honest disk.old)
        → CrashInvariant D.moment D.image_since disk.old disk.new (λ c. D.image disk.old c ⊎ Torn at 1 (D.contents disk.old) c) }
    ensures done { OnOk result (IsTrue (D.is_honest disk.old)
        → (c : List ℕ) → D.image disk.new c → Torn at 1 (D.contents disk.old) c × (slice_index c at ≡ value)) }

    ensures after { AfterWrites D.Disk 3 disk.old disk.new result }
{
    disk.sync()?;
    disk.write_at(at, &[value])?;
    disk.sync()
}

/// Writes the bytes from byte `at` on, syncs, sets the byte at `switch` to `value`, and syncs
/// again. Err: `Write`, and no later call is made.
pub fn write_then_flip<D: Disk>(
    disk: &mut D,
    at: u64,
    bytes: &[u8],
    switch: u64,
    value: u8,
) -> Result<(), DeviceFault>
    requires inside { at + length bytes.now ≤ D.size_of disk.old }
    requires switch { switch < D.size_of disk.old }

    // (a crash at any point in time leaves an earlier image with any bytes in the range, or with
    // these bytes and any switch)
    ensures any_moment { IsTrue (D.is_honest disk.old)
        → LeavesStep D.moment D.image_since D.image disk.old disk.new (MaySwitch at bytes.now switch) }
    // (and at `Ok` an image with these bytes and the switch set)
    ensures done { OnOk result (IsTrue (D.is_honest disk.old)
        → Follows (HasSwitched at bytes.now switch value) (D.image disk.old) (D.image disk.new)) }

    ensures after { AfterWrites D.Disk 4 disk.old disk.new result }
{
    disk.write_at(at, bytes)?;
    flip(disk, switch, value)
}
