//! The head of a bank.
ghost use Rattle.std.specs.Prelude.{◌≡◌, ◌↔◌, ◌+◌, ◌<◌, ◌≤◌, ℕ, IsTrue, None, slice_index, IfOk, IfSome, IsErrOf};
ghost use Rattle.oa_disk.specs.After.{AfterCalls};
ghost use Rattle.oa_journal.specs.BankCalls.{FindsHead, RefusesHead};
ghost use Rattle.oa_journal.specs.declared.bank.BankFault.{BankFault};
ghost use Rattle.oa_journal.specs.declared.shape.BankFormat.{BankFormat as AShape};
ghost use Rattle.oa_journal.specs.promise.Bank.{from_place, HasHeader, body_bytes, format_of, told_size, IsShape};
ghost use Rattle.oa_journal.specs.Damages.{HasNoHeader};
ghost use Rattle.oa_journal.specs.Reads.{AfterReads, OnlyReads};

use crate::layout::head_bytes;
use crate::{BankFault, BankFormat, LEAST_BANK_BYTES, MOST_BANK_BYTES};
use oa_disk::Disk;

/// The contents of a bank's head: the format with the body's size, and the lengths of library and
/// snapshot.
#[derive(Clone, Copy, Debug, PartialEq, Eq)]
pub struct BankHead {
    /// The format, with the body's size in bytes.
    pub shape: BankFormat,
    /// The length of the library in bytes.
    pub library: u32,
    /// The length of the snapshot in bytes.
    pub snapshot: u32,
}

/// Returns whether two slices have the same bytes.
fn same(one: &[u8], other: &[u8]) -> bool
    ensures { IsTrue result ↔ (one.now ≡ other.now) }
{
    one == other
}

/// Returns the format with this number and this size of a body in its head; None if there is none.
fn told_shape(format: u8, size: u32) -> Option<BankFormat>
    ensures found { IfSome result (λ shape. IsShape shape × (format_of shape ≡ format) × (told_size shape ≡ size)) }
    ensures none { result ≡ None → (shape : AShape) → IsShape shape → format_of shape ≡ format → told_size shape ≡ size → ⊥ }
{
    if format == 1 && size == 0 {
        return Some(BankFormat::One);
    }
    if format == 2 && size >= LEAST_BANK_BYTES && size <= MOST_BANK_BYTES {
        return Some(BankFormat::Two(size));
    }
    None
}

/// Decodes a head. None if the bytes are not one: its number of a format, its size, a fixed byte,
/// or a length that the body does not have.
pub(crate) fn head_in(bytes: &[u8; 32]) -> Option<BankHead>
    ensures found { IfSome result (λ h. HasHeader h.shape (slice_index bytes.now) h.library h.snapshot) }
    ensures none { result ≡ None → (shape : AShape) → HasNoHeader shape (slice_index bytes.now) }
{
    let format = bytes[8];
    let library = u32::from_le_bytes([bytes[12], bytes[13], bytes[14], bytes[15]]);
    let snapshot = u32::from_le_bytes([bytes[16], bytes[17], bytes[18], bytes[19]]);
    let size = u32::from_le_bytes([bytes[20], bytes[21], bytes[22], bytes[23]]);
    let Some(shape) = told_shape(format, size) else {
        return None;
    };
    let header = head_bytes(format, size, library, snapshot);
    if !same(bytes, &header) {
        return None;
    }
    if u64::from(library) + u64::from(snapshot) >= u64::from(shape.body_bytes()) {
        return None;
    }
    Some(BankHead {
        shape,
        library,
        snapshot,
    })
}

/// Reads the head at `place`, in bytes from the start of a disk. Errors: `Damaged(place)` if there
/// is none; `Device`.
pub(crate) fn head_at<D: Disk>(disk: &mut D, place: u64) -> Result<BankHead, BankFault>
    requires { place + 32 ≤ D.size_of disk.old }

    ensures found { IfOk result (λ h. IsTrue (D.is_honest disk.new)
        → HasHeader h.shape (from_place place (D.contents disk.old)) h.library h.snapshot) }
    ensures known { IfOk result (λ h. IsShape h.shape × (h.library + h.snapshot < body_bytes h.shape)) }
    ensures damaged { (at : ℕ) → IsErrOf result (BankFault.Damaged at)
        → (at ≡ place) × (IsTrue (D.is_honest disk.new) → (shape : AShape) → HasNoHeader shape (from_place place (D.contents disk.old))) }
    ensures memory { IsErrOf result BankFault.Memory → ⊥ }

    ensures after { AfterReads D.Disk 2 disk.old disk.new result }
{
    let mut bytes = [0; 32];
    disk.read_at(place, &mut bytes)?;
    let Some(head) = head_in(&bytes) else {
        return Err(BankFault::Damaged(place));
    };
    Ok(head)
}

/// Reads the head of a bank of either format at `place`, in bytes from the start of the disk.
/// Allocates nothing. Errors: `Damaged(place)` exactly if there is no head, or the disk is too
/// small for two banks of its format; `Device`.
pub fn read_head<D: Disk>(disk: &mut D, place: u64) -> Result<BankHead, BankFault>
    requires { place + 32 ≤ D.size_of disk.old }

    ensures found { IfOk result (λ h. FindsHead D.Disk place disk.old disk.new h) }
    ensures refused { RefusesHead D.Disk place disk.old disk.new result }
    ensures reads { IsTrue (D.is_honest disk.new) → OnlyReads D.contents D.image D.moment D.image_since disk.old disk.new }
    ensures after { AfterCalls D.Disk disk.old disk.new result }
    // (one call)
    ensures calls { IsTrue (D.is_honest disk.new) → D.moment disk.new ≤ D.moment disk.old + 2 }
{
    let head = head_at(disk, place)?;
    if disk.size() < head.shape.disk_bytes() {
        return Err(BankFault::Damaged(place));
    }
    Ok(head)
}
