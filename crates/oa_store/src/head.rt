//! The bytes before the banks: the first one, and the selector.
ghost use Rattle.std.specs.Prelude.{◌≡◌, ◌+◌, ◌<◌, ◌≤◌, IsTrue, length, vec_capacity, slice_index, IfOk, IfErr, IsErrOf};
ghost use Rattle.oa_disk.specs.After.{AfterCalls};
ghost use Rattle.oa_disk.specs.promise.Disk.{CountsFailures};
ghost use Rattle.oa_disk.specs.declared.disk.DeviceFault.{DeviceFault};
ghost use Rattle.oa_model.specs.promise.Limits.{max_library_bytes};
ghost use Rattle.oa_store.specs.declared.fault.FindFault.{FindFault};
ghost use Rattle.oa_store.specs.promise.Stores.{piece_bytes, store_bytes, body_place, head_place};
ghost use Rattle.oa_store.specs.Faults.{of_finding};
ghost use Rattle.oa_store.specs.promise.Faults.{moments_until};
ghost use Rattle.oa_store.specs.Openings.{FindsChosen, FindsFormatted, RefusesChosen, RefusesFormatted};
ghost use Rattle.oa_journal.specs.promise.Bank.{WritesNothing, body_bytes, disk_bytes, IsShape};

use crate::fault::FindFault;
use oa_disk::{DeviceFault, Disk};
use oa_journal::{BankFormat, BankHead, FORMAT_ONE_BODY_BYTES, FORMAT_ONE_BYTES, read_head};
use oa_model::MAX_LIBRARY_BYTES;
use std::alloc::{AllocError, Global};

/// The least size in bytes of a disk that has a store.
pub(crate) const STORE_BYTES: u64 = FORMAT_ONE_BYTES;

/// The place of the selector, in bytes from the start of the disk.
pub(crate) const SELECTOR: u64 = 4096;

/// The place of the first bank's head, in bytes from the start of the disk.
const FIRST_HEAD: u64 = 8_192;

/// The distance in bytes from the first bank's head to the second one's: a head and a body of
/// format 1.
const NEXT_HEAD: u64 = 32 + FORMAT_ONE_BODY_BYTES as u64;

/// The size in bytes of the buffer through which banks are written and read.
const PIECE_BYTES: usize = 65_536;

/// Returns `count` bytes of 0. Err: the allocation failed.
fn zeros(alloc: Global, count: usize) -> Result<Vec<u8>, AllocError>
    ensures { IfOk result (λ bytes. length bytes.items ≡ count) }
{
    vec![in alloc; 0; count]
}

/// Returns a buffer of `PIECE_BYTES` bytes, through which banks are written and read. Err: the
/// allocation failed.
pub(crate) fn buffer(alloc: Global) -> Result<Vec<u8>, AllocError>
    ensures { IfOk result (λ bytes. length bytes.items ≡ piece_bytes) }
{
    zeros(alloc, PIECE_BYTES)
}

/// Returns the place of the head of bank 0 or 1, in either format, in bytes from the start of the
/// disk.
pub(crate) fn head_place(bank: u8) -> u64
    requires { bank < 2 }
    ensures value { result ≡ head_place bank }
    ensures inside { result + 32 ≤ store_bytes }
{
    FIRST_HEAD + u64::from(bank) * NEXT_HEAD
}

/// Returns the place of the body of bank 0 or 1, in bytes from the start of the disk.
pub(crate) fn body_place(shape: BankFormat, bank: u8) -> u64
    requires two { bank < 2 }
    requires known { IsShape shape }
    ensures value { result ≡ body_place shape bank }
    ensures inside { result + body_bytes shape ≤ disk_bytes shape }
    ensures behind { head_place bank + 32 ≤ result }
{
    match shape {
        BankFormat::One => FIRST_HEAD + 32 + u64::from(bank) * NEXT_HEAD,
        BankFormat::Two(size) => FORMAT_ONE_BYTES + u64::from(bank) * u64::from(size),
    }
}

/// Reads the byte at place `at` of the disk. Err: the read failed.
fn read_byte<D: Disk>(disk: &mut D, at: u64) -> Result<u8, DeviceFault>
    requires { at < D.size_of disk.old }
    ensures byte { IfOk result (λ byte. IsTrue (D.is_honest disk.new) → slice_index (D.contents disk.old) at ≡ byte) }
    ensures contents { IsTrue (D.is_honest disk.old) → D.contents disk.new ≡ D.contents disk.old }
    ensures reads { IsTrue (D.is_honest disk.old) → WritesNothing D.image D.moment D.image_since disk.old disk.new }
    ensures size { D.size_of disk.new ≡ D.size_of disk.old }
    ensures honest { IsTrue (D.is_honest disk.new) → IsTrue (D.is_honest disk.old) }
    ensures counts { CountsFailures (D.failures_of disk.old) (D.failures_of disk.new) result }
    ensures fault { IfErr result (λ e. e ≡ DeviceFault.Read) }
    ensures calls { IsTrue (D.is_honest disk.new) → D.moment disk.new ≤ D.moment disk.old + 2 }
{
    let mut bytes = [0];
    disk.read_at(at, &mut bytes)?;
    Ok(bytes[0])
}

/// Returns the number of the bank in use, 0 or 1. It begins with a sync, so what it finds is what a
/// crash leaves. Errors: `NotAStore` if the disk has fewer than `STORE_BYTES` bytes or its first
/// byte is not 1; `Device`.
pub(crate) fn find_bank<D: Disk>(disk: &mut D) -> Result<u8, FindFault>
    ensures found { IfOk result (λ chosen. FindsFormatted D.Disk chosen disk.old disk.new) }
    ensures refused { IfErr result (λ e. RefusesFormatted D.Disk disk.old disk.new e) }
    ensures reads { IsTrue (D.is_honest disk.new) → WritesNothing D.image D.moment D.image_since disk.old disk.new }
    ensures after { AfterCalls D.Disk disk.old disk.new result }
    // (at most three calls)
    ensures calls { IsTrue (D.is_honest disk.new) → D.moment disk.new ≤ D.moment disk.old + 6 }
{
    if disk.size() < STORE_BYTES {
        return Err(FindFault::NotAStore);
    }
    disk.sync()?;
    if read_byte(disk, 0)? != 1 {
        return Err(FindFault::NotAStore);
    }
    let selector = read_byte(disk, SELECTOR)?;
    Ok(selector % 2)
}

/// Returns the number of the bank in use, 0 or 1, and its head. Errors are those of `find_bank`,
/// and `Damaged` for the head.
pub(crate) fn find_head<D: Disk>(disk: &mut D) -> Result<(u8, BankHead), FindFault>
    ensures found { IfOk result (λ r. FindsChosen D.Disk r.0 r.1 disk.old disk.new) }
    ensures refused { IfErr result (λ e. RefusesChosen D.Disk disk.old disk.new e) }
    ensures memory { IsErrOf result FindFault.Memory → ⊥ }
    ensures reads { IsTrue (D.is_honest disk.new) → WritesNothing D.image D.moment D.image_since disk.old disk.new }
    ensures after { AfterCalls D.Disk disk.old disk.new result }
    ensures calls { IsTrue (D.is_honest disk.new) → D.moment disk.new ≤ D.moment disk.old + 8 }
    ensures until { IfErr result (λ e. IsTrue (D.is_honest disk.new) → D.moment disk.new ≤ D.moment disk.old + moments_until 8 (of_finding e)) }
{
    let chosen = find_bank(disk)?;
    let head = read_head(disk, head_place(chosen))?;
    Ok((chosen, head))
}

/// The number of the bank in use, its head, and the memory that a store needs.
#[derive(Drop)]
pub(crate) struct Room {
    /// The number of the bank in use, 0 or 1.
    pub chosen: u8,
    /// The head of that bank.
    pub head: BankHead,
    /// The buffer through which banks are written and read.
    pub buffer: Vec<u8>,
    /// Empty, with capacity for any library.
    pub library: Vec<u8>,
}

/// Finds the bank in use and its head, and allocates the memory of a store before it reads the
/// head. Errors are those of `find_head`, and `Memory`.
pub(crate) fn find_room<D: Disk>(alloc: Global, disk: &mut D) -> Result<Room, FindFault>
    ensures found { IfOk result (λ r. FindsChosen D.Disk r.chosen r.head disk.old disk.new) }
    ensures refused { IfErr result (λ e. RefusesChosen D.Disk disk.old disk.new e) }
    ensures buffer { IfOk result (λ r. length r.buffer.items ≡ piece_bytes) }
    ensures library { IfOk result (λ r. max_library_bytes ≤ vec_capacity r.library) }
    ensures none { IfOk result (λ r. length r.library.items ≡ 0) }
    ensures reads { IsTrue (D.is_honest disk.new) → WritesNothing D.image D.moment D.image_since disk.old disk.new }
    ensures after { AfterCalls D.Disk disk.old disk.new result }
    ensures calls { IsTrue (D.is_honest disk.new) → D.moment disk.new ≤ D.moment disk.old + 8 }
    ensures until { IfErr result (λ e. IsTrue (D.is_honest disk.new) → D.moment disk.new ≤ D.moment disk.old + moments_until 8 (of_finding e)) }
{
    let chosen = find_bank(disk)?;
    let buffer = buffer(alloc)?;
    let library = Vec::with_capacity(alloc, MAX_LIBRARY_BYTES)?;
    let head = read_head(disk, head_place(chosen))?;
    Ok(Room {
        chosen,
        head,
        buffer,
        library,
    })
}
