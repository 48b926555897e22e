//! Reading a bank from a disk: its head, and the parts of its body that are needed, each when it is
//! needed.
ghost use Rattle.std.specs.Prelude.{◌≡◌, ◌↔◌, ◌+◌, ◌-◌, ◌<◌, ◌≤◌, ℕ, List, IsTrue, length, slice_index, OnOk, IfOk, IsErrOf};
ghost use Rattle.std.specs.Int.{to_le_bytes, w32};
ghost use Rattle.oa_disk.specs.Disk.{HasBytesAt};
ghost use Rattle.oa_journal.specs.declared.bank.BankFault.{BankFault};
ghost use Rattle.oa_journal.specs.promise.Bank.{from_place, IsGroupAt, HasHeader, HasLibrary, body_bytes, IsShape};
ghost use Rattle.oa_journal.specs.Damages.{HasNoHeader, IsDamagedBank};
ghost use Rattle.oa_journal.specs.promise.Damages.{HasSnapshot, IsNoGroup, StopsAt};
ghost use Rattle.oa_journal.specs.BankCalls.{BodyWithin, PartsWithin};
ghost use Rattle.oa_journal.specs.ReadCalls.{FindsGroup, FindsGroups, FindsTable, IsAhead, IsStored};
ghost use Rattle.oa_journal.specs.ReadCalls.{PassesGroup, StaysAhead, StaysStored};
ghost use Rattle.oa_journal.specs.Reads.{AfterReads};

use crate::ahead::DiskAhead;
use crate::groups::replay;
use crate::head::{BankHead, head_at};
use crate::snapshot::read_snapshot;
use crate::{BankFault, BankFormat};
use oa_disk::Disk;
use oa_image::ImageFault;
use oa_table::Table;
use std::alloc::{AllocError, Global};

/// Returns `count` bytes of 0. Err: the allocation failed.
fn zeros(alloc: Global, count: usize) -> Result<Vec<u8>, AllocError>
    ensures { IfOk result (λ bytes. length bytes.items ≡ count) }
{
    vec![in alloc; 0; count]
}

/// Reads `count` bytes of a disk from place `at` on. Errors: `Memory`, `Device`.
pub(crate) fn read_part<D: Disk>(
    alloc: Global,
    disk: &mut D,
    at: u64,
    count: usize,
) -> Result<Vec<u8>, BankFault>
    requires { at + count ≤ D.size_of disk.old }

    ensures bytes { IfOk result (λ bytes. IsTrue (D.is_honest disk.new) → HasBytesAt (D.contents disk.old) at bytes.items) }
    ensures len { IfOk result (λ bytes. length bytes.items ≡ count) }
    ensures undamaged { (place : ℕ) → IsErrOf result (BankFault.Damaged place) → ⊥ }
    ensures memory { IsErrOf result BankFault.Memory → disk.new ≡ disk.old }

    ensures after { AfterReads D.Disk 2 disk.old disk.new result }
{
    let mut bytes = zeros(alloc, count)?;
    disk.read_at(at, &mut bytes)?;
    Ok(bytes)
}

/// Returns a copy of the bytes. Err: the allocation failed.
fn copied(alloc: Global, bytes: &[u8]) -> Result<Vec<u8>, AllocError>
    ensures { IfOk result (λ copy. copy.items ≡ bytes.now) }
{
    let mut copy = Vec::new(alloc);
    copy.extend_from_slice(bytes)?;
    Ok(copy)
}

/// Returns whether a gate with this byte is open. Any byte but 1 is a closed gate.
fn opens(gate: u8) -> bool
    ensures { IsTrue result ↔ (gate ≡ 1) }
{
    gate == 1
}

/// Reads whether the gate at place `at` of a disk is open; the body ends at place `end`. Err: the
/// read failed.
fn is_open<D: Disk>(
    disk: &mut D,
    ahead: &mut DiskAhead,
    end: u64,
    at: u64,
) -> Result<bool, BankFault>
    requires inside { at < end }
    requires on_the_disk { end ≤ D.size_of disk.old }
    requires ahead { IsAhead D.Disk disk.old ahead.old }

    ensures opened { IfOk result (λ opened. IsTrue (D.is_honest disk.new) → IsTrue opened ↔ (slice_index (D.contents disk.old) at ≡ 1)) }
    ensures undamaged { (place : ℕ) → IsErrOf result (BankFault.Damaged place) → ⊥ }

    ensures ahead { StaysAhead D.Disk disk.old disk.new ahead.old ahead.new }
    ensures after { AfterReads D.Disk 2 disk.old disk.new result }
{
    ahead.cover(disk, end, at, 1)?;
    Ok(opens(ahead.seen(at, 1)[0]))
}

/// Reads `count` bytes of a disk from place `at` on, through the read-ahead buffer if they fit into
/// it. The body ends at place `end`. Errors: `Memory`, `Device`.
fn group_bytes<D: Disk>(
    alloc: Global,
    disk: &mut D,
    ahead: &mut DiskAhead,
    end: u64,
    at: u64,
    count: usize,
) -> Result<Vec<u8>, BankFault>
    requires inside { at + count ≤ end }
    requires on_the_disk { end ≤ D.size_of disk.old }
    requires ahead { IsAhead D.Disk disk.old ahead.old }

    ensures bytes { IfOk result (λ bytes. IsTrue (D.is_honest disk.new) → HasBytesAt (D.contents disk.old) at bytes.items) }
    ensures len { IfOk result (λ bytes. length bytes.items ≡ count) }
    ensures undamaged { (place : ℕ) → IsErrOf result (BankFault.Damaged place) → ⊥ }

    ensures ahead { StaysAhead D.Disk disk.old disk.new ahead.old ahead.new }
    ensures after { AfterReads D.Disk 2 disk.old disk.new result }
{
    if !ahead.takes(count) {
        return read_part(alloc, disk, at, count);
    }
    ahead.cover(disk, end, at, count)?;
    Ok(copied(alloc, ahead.seen(at, count))?)
}

/// Returns whether two formats are the same, with the same size of a body.
fn is_same(one: BankFormat, other: BankFormat) -> bool
    ensures { IsTrue result ↔ (one ≡ other) }
{
    one == other
}

/// Returns the number that the first four bytes encode, little-endian.
fn number(bytes: &[u8]) -> u32
    requires { length bytes.now ≡ 4 }
    ensures { to_le_bytes w32 result ≡ bytes.now }
{
    u32::from_le_bytes([bytes[0], bytes[1], bytes[2], bytes[3]])
}

/// Reads the head at `place`, which must be one of that format. Errors: `Damaged(place)` if it is
/// not; `Device`.
fn head_of<D: Disk>(disk: &mut D, shape: BankFormat, place: u64) -> Result<BankHead, BankFault>
    requires { place + 32 ≤ D.size_of disk.old }

    ensures found { IfOk result (λ h. IsTrue (D.is_honest disk.new)
        → HasHeader shape (from_place place (D.contents disk.old)) h.library h.snapshot) }
    ensures known { IfOk result (λ h. IsShape shape × (h.library + h.snapshot < body_bytes shape)) }
    ensures damaged { (at : ℕ) → IsErrOf result (BankFault.Damaged at)
        → (at ≡ place) × (IsTrue (D.is_honest disk.new) → HasNoHeader shape (from_place place (D.contents disk.old))) }

    ensures after { AfterReads D.Disk 2 disk.old disk.new result }
{
    let head = head_at(disk, place)?;
    if !is_same(head.shape, shape) {
        return Err(BankFault::Damaged(place));
    }
    Ok(head)
}

/// Reads the library of the bank with its head and body at these places of a disk, and nothing
/// else. Errors: `Damaged(head)` if the head is not one of that format; `Memory`; `Device`.
pub(crate) fn library_at<D: Disk>(
    alloc: Global,
    disk: &mut D,
    shape: BankFormat,
    head: u64,
    body: u64,
) -> Result<Vec<u8>, BankFault>
    requires lies { PartsWithin (D.size_of disk.old) head body (body_bytes shape) }

    ensures found { IfOk result (λ library. IsTrue (D.is_honest disk.new)
        → HasLibrary shape (from_place head (D.contents disk.old)) (from_place body (D.contents disk.old)) library.items) }
    ensures damaged { (at : ℕ) → IsErrOf result (BankFault.Damaged at)
        → (at ≡ head) × (IsTrue (D.is_honest disk.new) → HasNoHeader shape (from_place head (D.contents disk.old))) }

    ensures after { AfterReads D.Disk 4 disk.old disk.new result }
{
    let told = head_of(disk, shape, head)?;
    read_part(alloc, disk, body, told.library as usize)
}

/// Reads the head of the bank at these places of a disk, and the table of its snapshot. Errors:
/// `Damaged` with the place of the first invalid part; `Memory`; `Device`.
fn first_at<D: Disk>(
    alloc: Global,
    disk: &mut D,
    shape: BankFormat,
    head: u64,
    body: u64,
) -> Result<(BankHead, Table), BankFault>
    requires lies { PartsWithin (D.size_of disk.old) head body (body_bytes shape) }

    ensures found { IfOk result (λ r. IsTrue (D.is_honest disk.new)
        → HasSnapshot shape (from_place head (D.contents disk.old)) (from_place body (D.contents disk.old)) r.0.library r.0.snapshot r.1) }
    ensures known { IfOk result (λ r. IsShape shape × (r.0.library + r.0.snapshot < body_bytes shape)) }
    ensures stored { IfOk result (λ r. IsStored r.1) }
    ensures damaged { (at : ℕ) → IsErrOf result (BankFault.Damaged at)
        → IsTrue (D.is_honest disk.new) → IsDamagedBank shape head body (D.contents disk.old) at }

    ensures calls { IfOk result (λ r. IsTrue (D.is_honest disk.new) → D.moment disk.new ≤ D.moment disk.old + (2 + r.0.snapshot)) }
    ensures after { AfterReads D.Disk (3 + body_bytes shape) disk.old disk.new result }
{
    let told = head_of(disk, shape, head)?;
    let at = body + u64::from(told.library);
    let first = read_snapshot(alloc, disk, at, told.snapshot)?;
    Ok((told, first))
}

/// Returns the bytes of the group after the open gate at byte `at` of a body of `size` bytes. The
/// next gate is 5 bytes and the group's length further on. Errors: `Damaged` with the gate's place
/// on the disk if the length is 0 or leaves no gate after the group; `Memory`; `Device`.
fn group_at<D: Disk>(
    alloc: Global,
    disk: &mut D,
    ahead: &mut DiskAhead,
    body: u64,
    size: u32,
    at: u32,
) -> Result<Vec<u8>, BankFault>
    requires lies { BodyWithin (D.size_of disk.old) body size }
    requires inside { at < size }
    requires ahead { IsAhead D.Disk disk.old ahead.old }

    ensures found { IfOk result (λ group. FindsGroup D.Disk body size at disk.old disk.new group.items) }
    ensures damaged { (place : ℕ) → IsErrOf result (BankFault.Damaged place)
        → (place ≡ body + at) × (IsTrue (D.is_honest disk.new) → (group : List ℕ)
        → IsGroupAt (from_place body (D.contents disk.old)) at group
        → at + (5 + length group) < size → ⊥) }

    ensures ahead { StaysAhead D.Disk disk.old disk.new ahead.old ahead.new }
    ensures after { AfterReads D.Disk 4 disk.old disk.new result }
{
    let room = size - at;
    let gate = body + u64::from(at);
    if room <= 6 {
        return Err(BankFault::Damaged(gate));
    }
    let end = body + u64::from(size);
    ahead.cover(disk, end, gate, 5)?;
    let count = number(ahead.seen(gate + 1, 4));
    if count == 0 {
        return Err(BankFault::Damaged(gate));
    }
    if room - 5 <= count {
        return Err(BankFault::Damaged(gate));
    }
    group_bytes(alloc, disk, ahead, end, gate + 5, count as usize)
}

/// Applies the group after the open gate at byte `at` of a body of `size` bytes. Returns the place
/// of the next gate in the body. Errors: `Damaged` with the gate's place on the disk; `Memory`;
/// `Device`.
fn read_group<D: Disk>(
    alloc: Global,
    disk: &mut D,
    ahead: &mut DiskAhead,
    body: u64,
    size: u32,
    at: u32,
    table: &mut Table,
) -> Result<u32, BankFault>
    requires lies { BodyWithin (D.size_of disk.old) body size }
    requires inside { at < size }
    requires ahead { IsAhead D.Disk disk.old ahead.old }

    ensures passes { IfOk result (λ next. PassesGroup D.Disk body size at table.old table.new disk.old disk.new next) }
    ensures stored { OnOk result (StaysStored table.old table.new) }
    ensures damaged { (place : ℕ) → IsErrOf result (BankFault.Damaged place)
        → (place ≡ body + at) × (IsTrue (D.is_honest disk.new) → slice_index (D.contents disk.old) (body + at) ≡ 1
        → IsNoGroup size (from_place body (D.contents disk.old)) at table.old) }

    ensures ahead { StaysAhead D.Disk disk.old disk.new ahead.old ahead.new }
    ensures after { AfterReads D.Disk 4 disk.old disk.new result }
{
    let group = group_at(alloc, disk, ahead, body, size, at)?;
    match replay(alloc, table, &group) {
        Ok(()) => Ok(at + 5 + group.len() as u32),
        Err(ImageFault::Damaged(_)) => Err(BankFault::Damaged(body + u64::from(at))),
        Err(ImageFault::Memory) => Err(BankFault::Memory),
    }
}

/// Applies the groups of a body of `size` bytes from byte `from` on. Returns the table, the place
/// in the body of the closed gate after them, and the buffer. Errors: `Damaged` with the place on
/// the disk of the first invalid group's gate; `Memory`; `Device`.
fn read_groups<D: Disk>(
    alloc: Global,
    disk: &mut D,
    body: u64,
    size: u32,
    from: u32,
    first: Table,
    buffer: Vec<u8>,
) -> Result<(Table, u32, Vec<u8>), BankFault>
    requires lies { BodyWithin (D.size_of disk.old) body size }
    requires inside { from < size }
    requires stored { IsStored first }
    requires some { 5 ≤ length buffer.items }

    ensures found { IfOk result (λ r. FindsGroups D.Disk body size from first disk.old disk.new r.0 r.1) }
    ensures buffer { IfOk result (λ r. length r.2.items ≡ length buffer.items) }
    ensures damaged { (place : ℕ) → IsErrOf result (BankFault.Damaged place) → IsTrue (D.is_honest disk.new)
        → (offset : ℕ) × (place ≡ body + offset) × StopsAt size (from_place body (D.contents disk.old)) from first offset }

    ensures after { AfterReads D.Disk (6 + (size - from)) disk.old disk.new result }
{
    let end = body + u64::from(size);
    let mut ahead = DiskAhead::over(buffer);
    let mut at = from;
    let mut table = first;
    let mut opened = is_open(disk, &mut ahead, end, body + u64::from(at))?;
    'groups: while opened {
        at = read_group(alloc, disk, &mut ahead, body, size, at, &mut table)?;
        opened = is_open(disk, &mut ahead, end, body + u64::from(at))?;
    }
    Ok((table, at, ahead.into_buffer()))
}

/// Reads the table of the bank with its head and body at these places of a disk; the library is
/// skipped. Returns the table, the place of the closed gate in the body, and the buffer. Errors:
/// `Damaged` with the place of the first invalid part; `Memory`; `Device`.
pub(crate) fn table_at<D: Disk>(
    alloc: Global,
    disk: &mut D,
    shape: BankFormat,
    head: u64,
    body: u64,
    buffer: Vec<u8>,
) -> Result<(Table, u32, Vec<u8>), BankFault>
    requires lies { PartsWithin (D.size_of disk.old) head body (body_bytes shape) }
    requires some { 5 ≤ length buffer.items }

    ensures found { IfOk result (λ r. FindsTable D.Disk shape head body disk.old disk.new r.0 r.1) }
    ensures buffer { IfOk result (λ r. length r.2.items ≡ length buffer.items) }
    ensures damaged { (at : ℕ) → IsErrOf result (BankFault.Damaged at)
        → IsTrue (D.is_honest disk.new) → IsDamagedBank shape head body (D.contents disk.old) at }

    ensures after { AfterReads D.Disk (8 + body_bytes shape) disk.old disk.new result }
{
    let (told, first) = first_at(alloc, disk, shape, head, body)?;
    read_groups(
        alloc,
        disk,
        body,
        shape.body_bytes(),
        told.library + told.snapshot,
        first,
        buffer,
    )
}
