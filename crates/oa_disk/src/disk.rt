//! A disk as a store sees it: the bytes that a read returns, and the bytes that a crash may leave.
ghost use Rattle.std.specs.Prelude.{◌≡◌, ◌+◌, ◌-◌, ◌^◌, ◌≤◌, List, ℕ, Bool, IsTrue, length, OnOk, OnErr};
ghost use Rattle.oa_disk.specs.promise.Disk.{FailsAs, Torn, WritesUnsynced, Syncs, TakesTime};
ghost use Rattle.oa_disk.specs.Disk.{HasBytesAt, ReadsHonestly, Reaches, Stays};

use thiserror::Error;

/// The kind of a call that a device has failed.
#[derive(Clone, Copy, Debug, PartialEq, Eq, Error)]
pub enum DeviceFault {
    /// A read.
    #[error("a read failed")]
    Read,
    /// A write or a sync.
    #[error("a write failed")]
    Write,
}

/// A row of bytes that survives a crash, with a clock. Places are counted in bytes from 0.
///
/// Between two syncs, each written range may hold any bytes after a crash; bytes outside these
/// ranges stay as they are. Everything stated of contents and images is stated of an honest disk.
pub trait Disk {
    /// The number of bytes. It never changes.
    ghost size_of: { Self → ℕ };

    /// The number of failed calls, at most the greatest u64.
    ghost failures_of: { Self → ℕ };

    /// Whether the disk keeps the rules below. No call changes this, except that a successful read
    /// may return bytes that show that the disk has broken them.
    ghost is_honest: { Self → Bool };

    /// The bytes that a read returns.
    ghost contents: { Self → List ℕ };

    /// The contents that a crash at this point in time may leave.
    ghost image: { Self → List ℕ → Type 0 };

    /// The clock, which never goes back. A call advances it by at most two: one point in time
    /// within the call, one after it.
    ghost moment: { Self → ℕ };

    /// The contents that a crash at some point in time from the given one on might have left,
    /// within a call or between two.
    ghost image_since: { Self → ℕ → List ℕ → Type 0 };

    /// Returns the number of bytes.
    fn size(&self) -> u64
        ensures { result ≡ size_of self.now };

    /// Returns the number of calls that have failed. It stays at the greatest u64 once it is
    /// reached.
    fn failures(&self) -> u64
        ensures { result ≡ failures_of self.now };

    /// Fills the buffer with the bytes from byte `at` on. Err: the device failed, and the buffer
    /// may hold anything.
    fn read_at(&mut self, at: u64, bytes: &mut [u8]) -> Result<(), DeviceFault>
        requires { at + length bytes.old ≤ size_of self.old }
        ensures read { OnOk result (IsTrue (is_honest self.new) → HasBytesAt (contents self.old) at bytes.new) }
        ensures stays { IsTrue (is_honest self.old) → Stays (contents self.old) (contents self.new) (image self.old) (image self.new) }
        ensures time { IsTrue (is_honest self.old) → TakesTime moment image_since image self.old self.new }
        ensures size { size_of self.new ≡ size_of self.old }
        ensures honest { ReadsHonestly (contents self.old) at bytes.new (is_honest self.old) (is_honest self.new) result }
        ensures fails { FailsAs DeviceFault.Read (failures_of self.old) (failures_of self.new) result };

    /// Writes the bytes from byte `at` on. Until a sync succeeds, a crash may leave any bytes in
    /// that range, whether the write succeeded or not. Err: the device failed.
    fn write_at(&mut self, at: u64, bytes: &[u8]) -> Result<(), DeviceFault>
        requires { at + length bytes.now ≤ size_of self.old }
        ensures written { OnOk result (IsTrue (is_honest self.old) → HasBytesAt (contents self.new) at bytes.now) }
        ensures writes { IsTrue (is_honest self.old) → WritesUnsynced at (length bytes.now) (contents self.old) (contents self.new)
            (image self.old) (image self.new) }
        ensures any_bytes { OnOk result (IsTrue (is_honest self.old)
            → Reaches (Torn at (length bytes.now)) (image self.old) (image self.new)) }
        ensures time { IsTrue (is_honest self.old) → TakesTime moment image_since image self.old self.new }
        ensures size { size_of self.new ≡ size_of self.old }
        ensures honest { is_honest self.new ≡ is_honest self.old }
        ensures fails { FailsAs DeviceFault.Write (failures_of self.old) (failures_of self.new) result };

    /// Brings all written bytes to the device. After `Ok`, a crash leaves what a read returns.
    /// After an `Err`, what a read returns is one of the images, and nothing more is known.
    fn sync(&mut self) -> Result<(), DeviceFault>
        ensures syncs { OnOk result (IsTrue (is_honest self.old) → Syncs (contents self.old) (contents self.new) (image self.new)) }
        ensures images { IsTrue (is_honest self.old) → (c : List ℕ) → image self.new c → image self.old c }
        ensures stay { OnErr result (IsTrue (is_honest self.old) → (c : List ℕ) → image self.old c → image self.new c) }
        ensures time { IsTrue (is_honest self.old) → TakesTime moment image_since image self.old self.new }
        ensures size { size_of self.new ≡ size_of self.old }
        ensures honest { is_honest self.new ≡ is_honest self.old }
        ensures fails { FailsAs DeviceFault.Write (failures_of self.old) (failures_of self.new) result };

    /// The count of failures is a u64.
    ghost failures_fit: { (disk : Self) → failures_of disk ≤ 2 ^ 64 - 1 };

    /// The contents that a read returns are one of the images.
    ghost contents_is_image: { (disk : Self) → IsTrue (is_honest disk) → image disk (contents disk) };

    /// Each image has the disk's size.
    ghost images_have_size: { (disk : Self) (c : List ℕ) → IsTrue (is_honest disk) → image disk c → length c ≡ size_of disk };

    /// Each image that might have been left has the disk's size.
    ghost since_have_size: { (disk : Self) (t : ℕ) (c : List ℕ) → IsTrue (is_honest disk) → image_since disk t c
        → length c ≡ size_of disk };

    /// An image of now is one of those since any earlier point in time.
    ghost counts_now: { (disk : Self) (t : ℕ) (c : List ℕ) → IsTrue (is_honest disk) → t ≤ moment disk → image disk c
        → image_since disk t c };

    /// An image since some point in time is one since any earlier point in time.
    ghost since_falls: { (disk : Self) (s t : ℕ) (c : List ℕ) → IsTrue (is_honest disk) → s ≤ t → image_since disk t c
        → image_since disk s c };

    /// The images since now are the images of now.
    ghost only_now: { (disk : Self) (c : List ℕ) → IsTrue (is_honest disk) → image_since disk (moment disk) c → image disk c };
}
