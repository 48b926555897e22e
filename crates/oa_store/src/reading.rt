//! Reading a store.
ghost use Rattle.std.specs.Prelude.{◌≡◌, ◌↔◌, ◌+◌, ◌-◌, ◌<◌, ◌≤◌, ℕ, false, Some, IsTrue, IfOk, IfErr, IsErrOf};
ghost use Rattle.std.specs.Prelude.{length, vec_capacity};
ghost use Rattle.oa_model.specs.promise.Limits.{max_library_bytes};
ghost use Rattle.oa_disk.specs.After.{AfterCalls};
ghost use Rattle.oa_journal.specs.Append.{IsAt};
ghost use Rattle.oa_journal.specs.Damages.{IsDamagedBank};
ghost use Rattle.oa_journal.specs.Reads.{AfterReads};
ghost use Rattle.oa_journal.specs.promise.Bank.{WritesNothing, body_bytes, IsShape};
ghost use Rattle.oa_journal.specs.declared.bank.BankFault.{BankFault};
ghost use Rattle.oa_store.specs.Openings.{Finds, FindsAny, FindsBank, Refuses, RefusesAny};
ghost use Rattle.oa_store.specs.promise.Stores.{body_place, head_place};
ghost use Rattle.oa_store.specs.Stores.{BankWithin};

use crate::OpenFault;
use crate::head::{Room, body_place, buffer, find_head, find_room, head_place};
use oa_disk::Disk;
use oa_journal::{Bank, BankFault, BankFormat};
use oa_table::Table;
use std::alloc::Global;

/// A store that was found on a disk.
#[derive(Drop)]
pub(crate) struct Found {
    /// The text of the library, with capacity for any library.
    pub library: Vec<u8>,
    /// The table, without locks.
    pub table: Table,
    /// The number of the bank in use, 0 or 1.
    pub chosen: u8,
    /// The bank in use.
    pub bank: Bank,
    /// The buffer through which banks are written and read.
    pub buffer: Vec<u8>,
}

/// Returns whether two slices have the same bytes.
fn same(one: &[u8], other: &[u8]) -> bool
    ensures { IsTrue result ↔ (one.now ≡ other.now) }
{
    one == other
}

/// Returns the bank with this number, 0 or 1, of a store of that format.
pub(crate) fn bank_of(shape: BankFormat, number: u8) -> Bank
    requires two { number < 2 }
    requires known { IsShape shape }
    ensures { IsAt shape (head_place number) (body_place shape number) (body_bytes shape - 1) false result }
{
    Bank::at(head_place(number), body_place(shape, number), shape)
}

/// Reads the store on the disk, which must have `library` and format 2. Errors are those of
/// `OpenFault`, in its order. `library` of the result has capacity for any library.
pub(crate) fn find_store<D: Disk>(
    alloc: Global,
    disk: &mut D,
    library: &[u8],
) -> Result<Found, OpenFault>
    requires short { length library.now ≤ max_library_bytes }
    ensures found { IfOk result (λ f. Finds D.Disk library.now disk.old disk.new f) }
    // (with capacity for any other library)
    ensures library { IfOk result (λ f. f.library.items ≡ library.now) }
    ensures library_room { IfOk result (λ f. max_library_bytes ≤ vec_capacity f.library) }
    ensures refused { IfErr result (λ e. Refuses D.Disk (Some library.now) disk.old disk.new e) }
    // (nothing is written)
    ensures reads { IsTrue (D.is_honest disk.new) → WritesNothing D.image D.moment D.image_since disk.old disk.new }
    ensures after { AfterCalls D.Disk disk.old disk.new result }
{
    let found = find_room(alloc, disk)?;
    if let BankFormat::One = found.head.shape {
        return Err(OpenFault::OldFormat);
    }
    // (a head may give any length for its library, so the library is read only if the length is
    // right)
    if found.head.library as usize != library.len() {
        return Err(OpenFault::LibraryDiffers);
    }
    let Room {
        chosen,
        head,
        buffer,
        library: mut kept,
    } = found;
    let mut bank = bank_of(head.shape, chosen);
    let text = bank.read_library(alloc, disk)?;
    if !same(&text, library) {
        return Err(OpenFault::LibraryDiffers);
    }
    kept.extend_from_slice(library).unwrap();
    let (table, buffer) = bank.read_table(alloc, disk, buffer)?;
    Ok(Found {
        library: kept,
        table,
        chosen,
        bank,
        buffer,
    })
}

/// Reads library and table of bank `chosen` (0 or 1), through `buffer`, which is returned. Errors:
/// `Damaged` with the place on the disk of the first invalid part; `Memory`; `Device`.
pub(crate) fn look<D: Disk>(
    alloc: Global,
    disk: &mut D,
    chosen: u8,
    shape: BankFormat,
    buffer: Vec<u8>,
) -> Result<(Vec<u8>, Table, Bank, Vec<u8>), BankFault>
    requires some { 5 ≤ length buffer.items }
    requires lies { BankWithin (D.size_of disk.old) shape chosen }
    ensures found { IfOk result (λ r. FindsBank D.Disk shape (head_place chosen) (body_place shape chosen) disk.old disk.new r.0.items r.1
        r.2.gate) }
    ensures buffer { IfOk result (λ r. length r.3.items ≡ length buffer.items) }
    ensures damaged { (at : ℕ) → IsErrOf result (BankFault.Damaged at) → IsTrue (D.is_honest disk.new)
        → IsDamagedBank shape (head_place chosen) (body_place shape chosen) (D.contents disk.old) at }
    ensures after { AfterReads D.Disk (12 + D.size_of disk.old) disk.old disk.new result }
{
    let mut bank = bank_of(shape, chosen);
    let (library, table, buffer) = bank.read_all(alloc, disk, buffer)?;
    Ok((library, table, bank, buffer))
}

/// Returns the library and the table of the store on the disk, with any library, in either format.
/// It writes nothing, and begins with a sync. Errors: `NotAStore`; `Damaged`, with the place on the
/// disk of the first invalid part; `Memory`; `Device`.
pub fn inspect<D: Disk>(alloc: Global, disk: &mut D) -> Result<(Vec<u8>, Table), OpenFault>
    ensures found { IfOk result (λ r. FindsAny D.Disk disk.old disk.new r.0.items r.1) }
    ensures refused { IfErr result (λ e. RefusesAny D.Disk disk.old disk.new e) }
    ensures reads { IsTrue (D.is_honest disk.new) → WritesNothing D.image D.moment D.image_since disk.old disk.new }
    ensures after { AfterCalls D.Disk disk.old disk.new result }
{
    let (chosen, head) = find_head(disk)?;
    let buffer = buffer(alloc)?;
    let (library, table, _, _) = look(alloc, disk, chosen, head.shape, buffer)?;
    Ok((library, table))
}
