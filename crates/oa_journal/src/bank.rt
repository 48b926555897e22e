//! One bank at its place on a disk.
ghost use Rattle.std.specs.Prelude.{◌≡◌, ◌+◌, ◌-◌, ◌^◌, ◌<◌, ◌≤◌, ℕ, true, false, IsTrue, length, OnOk, IfOk, IsErrOf};
ghost use Rattle.std.specs.Int.{div_ceil};
ghost use Rattle.oa_disk.specs.After.{AfterAttempt, AfterCalls, AfterWrites, Leaves};
ghost use Rattle.oa_disk.specs.declared.disk.DeviceFault.{DeviceFault};
ghost use Rattle.oa_image.specs.promise.Tables.{is_numbered};
ghost use Rattle.oa_journal.specs.promise.Bank.{from_place, HasLibrary, first_gate, body_bytes, IsShape};
ghost use Rattle.oa_journal.specs.Bank.{Apart};
ghost use Rattle.oa_journal.specs.Damages.{HasNoHeader, IsDamagedBank};
ghost use Rattle.oa_journal.specs.Reads.{OnlyReads};

use crate::BankFormat;
use crate::batch::{append_group, lay_out};
use crate::layout::{BodyBytes, header_bytes};
use crate::reading::{library_at, table_at};
use oa_disk::{DeviceFault, Disk};
use oa_image::laws::is_table;
use oa_table::Table;
use std::alloc::{AllocError, Global};
use thiserror::Error;

/// Why an append failed.
#[derive(Clone, Copy, Debug, PartialEq, Eq, Error)]
pub enum AppendFault {
    /// The group does not fit. Nothing was written.
    #[error("the bank is full")]
    Full,
    /// The device failed an earlier call. Nothing was written.
    #[error("the bank has stopped")]
    Stopped,
    /// The device failed a call. The group is in the bank whole or not at all.
    #[error("device: {0}")]
    Device(DeviceFault),
}

/// Why a bank could not be read.
#[derive(Clone, Copy, Debug, PartialEq, Eq, Error)]
pub enum BankFault {
    /// It is not a bank. The number is the place on the disk of the first invalid part: the head,
    /// the snapshot, or the gate of a group.
    #[error("damaged at {0}")]
    Damaged(u64),
    /// The device failed a call.
    #[error("device: {0}")]
    Device(DeviceFault),
    /// An allocation failed.
    #[error("out of memory")]
    Memory,
}

impl From<AllocError> for BankFault {
    ghost use Rattle.oa_journal.specs.declared.bank.BankFault.TheVariants.{Memory};

    ghost from_gives = { λ _ e. e ≡ Memory };

    fn from(_: AllocError) -> BankFault {
        BankFault::Memory
    }
}

impl From<DeviceFault> for BankFault {
    ghost use Rattle.oa_journal.specs.declared.bank.BankFault.TheVariants.{Device};

    ghost from_gives = { λ f e. e ≡ Device f };

    fn from(fault: DeviceFault) -> BankFault {
        BankFault::Device(fault)
    }
}

/// A bank on a disk, which is passed to each call: its format, the places of its head and its body,
/// and the place of the closed gate in the body.
#[derive(Drop, Debug, PartialEq, Eq)]
pub struct Bank {
    shape: BankFormat,
    head: u64,
    body: u64,
    gate: u32,
    stopped: bool,
    ghost known: { IsShape shape },
    ghost inside: { gate < body_bytes shape },
    ghost on_a_disk: { head + 32 < 2 ^ 63 },
    ghost body_on_a_disk: { body + body_bytes shape < 2 ^ 63 },
    ghost apart: { Apart head body (body_bytes shape) },
}

impl Bank {
    ghost use Rattle.oa_journal.specs.declared.bank.AppendFault.{AppendFault};
    ghost use Rattle.oa_journal.specs.declared.bank.BankFault.{BankFault};
    ghost use Rattle.oa_journal.specs.Append.{group_of, IsAt, IsWithOrWithout, IsWith};
    ghost use Rattle.oa_journal.specs.BankCalls.{LiesWithin, MovesGate, ReadsBank, ReadsTable, RefusesBank, RefusesGroup, WritesBank};

    /// Makes the bank of that format with its head and its body at these places of a disk, in bytes
    /// from its start. A bank of format 1 can only be read, for a dump or an upgrade. Until the
    /// bank is written or read, its free space is 1 byte: no group fits.
    pub fn at(head: u64, body: u64, shape: BankFormat) -> Bank
        requires known { IsShape shape }
        requires on_a_disk { head + 32 < 2 ^ 63 }
        requires body_on_a_disk { body + body_bytes shape < 2 ^ 63 }
        requires apart { Apart head body (body_bytes shape) }
        ensures { IsAt shape head body (body_bytes shape - 1) false result }
    {
        Bank {
            shape,
            head,
            body,
            gate: shape.body_bytes() - 1,
            stopped: false,
        }
    }

    /// Returns how many bytes the body has from the closed gate on. A group of n bytes uses n + 5
    /// of them, and at least one is left.
    pub fn room(&self) -> u32
        ensures { result ≡ body_bytes self.now.shape - self.now.gate }
    {
        self.shape.body_bytes() - self.gate
    }

    /// Returns the size of the body in bytes.
    pub fn size(&self) -> u32
        ensures { result ≡ body_bytes self.now.shape }
    {
        self.shape.body_bytes()
    }

    /// Writes a bank with this library and table, without groups and without locks: the head in one
    /// write, the body in writes as long as the buffer. Until the next sync, a crash may leave any
    /// bytes there. Allocates nothing. Err: a write failed, and the bank has stopped; `Ok` does not
    /// change whether it has.
    pub fn start<D: Disk>(
        &mut self,
        disk: &mut D,
        buffer: &mut [u8],
        library: &[u8],
        table: &Table,
    ) -> Result<(), DeviceFault>
        requires some { 0 < length buffer.old }
        requires fits { first_gate library.now table.now < body_bytes self.old.shape }
        requires numbered { is_numbered table.now ≡ true }
        requires lies { LiesWithin (D.size_of disk.old) self.old }

        // (until the next sync, a crash may leave any bytes of the bank; the bytes outside stay)
        ensures writes { WritesBank D.Disk self.old library.now table.now disk.old disk.new result }
        ensures gate { MovesGate (first_gate library.now table.now) self.old self.new result }
        ensures buffer { length buffer.new ≡ length buffer.old }
        // (at most one write for the head, and one for each piece of the body)
        ensures after { AfterWrites D.Disk (1 + div_ceil (1 + first_gate library.now table.now) (length buffer.old)) disk.old disk.new
            result }
    {
        is_table(table);
        let header = header_bytes(self.shape, library.len() as u32, table.image_size() as u32);
        let mut bytes = BodyBytes::new(library, table);
        let size = self.shape.body_bytes();
        match lay_out(
            disk, self.head, &header, self.body, buffer, &mut bytes, size,
        ) {
            Ok(count) => {
                self.gate = (count - 1) as u32;
                Ok(())
            }
            Err(fault) => {
                self.stopped = true;
                Err(fault)
            }
        }
    }

    /// Reads the bank's library, but neither snapshot nor groups. Errors: `Damaged` for the head;
    /// `Memory`; `Device`, after which the bank has stopped.
    pub fn read_library<D: Disk>(
        &mut self,
        alloc: Global,
        disk: &mut D,
    ) -> Result<Vec<u8>, BankFault>
        requires lies { LiesWithin (D.size_of disk.old) self.old }

        ensures found { IfOk result (λ library. IsTrue (D.is_honest disk.new)
            → HasLibrary self.old.shape (from_place self.old.head (D.contents disk.old)) (from_place self.old.body (D.contents disk.old))
            library.items) }
        ensures bank { OnOk result (self.new ≡ self.old) }
        // (`Damaged` only for the head)
        ensures head { (at : ℕ) → IsErrOf result (BankFault.Damaged at) → at ≡ self.old.head }
        ensures refused { RefusesBank D.Disk (λ at. HasNoHeader self.old.shape (from_place self.old.head (D.contents disk.old)))
            self.old self.new disk.old disk.new result }
        ensures reads { IsTrue (D.is_honest disk.new) → OnlyReads D.contents D.image D.moment D.image_since disk.old disk.new }
        ensures after { AfterCalls D.Disk disk.old disk.new result }
        // at most two calls
        ensures calls { IsTrue (D.is_honest disk.new) → D.moment disk.new ≤ D.moment disk.old + 4 }
    {
        let read = library_at(alloc, disk, self.shape, self.head, self.body);
        if let Err(fault) = read {
            self.stop_after(fault);
        }
        read
    }

    /// Reads the bank's table after its groups, through `buffer`, which is returned with its full
    /// length; the library is skipped. The bank then knows the place of its closed gate. Errors:
    /// `Damaged` with the place on the disk of the first invalid part; `Memory`; `Device`, after
    /// which the bank has stopped.
    pub fn read_table<D: Disk>(
        &mut self,
        alloc: Global,
        disk: &mut D,
        buffer: Vec<u8>,
    ) -> Result<(Table, Vec<u8>), BankFault>
        requires some { 5 ≤ length buffer.items }
        requires lies { LiesWithin (D.size_of disk.old) self.old }

        ensures found { IfOk result (λ r. ReadsTable D.Disk self.old self.new disk.old disk.new r.0) }
        ensures buffer { IfOk result (λ r. length r.1.items ≡ length buffer.items) }
        // (`Damaged` with the place on the disk of the first invalid part)
        ensures refused { RefusesBank D.Disk (IsDamagedBank self.old.shape self.old.head self.old.body (D.contents disk.old)) self.old
            self.new disk.old disk.new result }
        ensures reads { IsTrue (D.is_honest disk.new) → OnlyReads D.contents D.image D.moment D.image_since disk.old disk.new }
        ensures after { AfterCalls D.Disk disk.old disk.new result }
        // (at most four calls, and one for every two bytes of the body, whatever the result)
        ensures most { IsTrue (D.is_honest disk.new) → D.moment disk.new ≤ D.moment disk.old + (8 + body_bytes self.old.shape) }
    {
        match table_at(alloc, disk, self.shape, self.head, self.body, buffer) {
            Ok((table, gate, buffer)) => {
                self.gate = gate;
                Ok((table, buffer))
            }
            Err(fault) => {
                self.stop_after(fault);
                Err(fault)
            }
        }
    }

    /// Returns the bank's library, and its table as `read_table` does, with the same errors.
    /// `buffer` is returned, too.
    pub fn read_all<D: Disk>(
        &mut self,
        alloc: Global,
        disk: &mut D,
        buffer: Vec<u8>,
    ) -> Result<(Vec<u8>, Table, Vec<u8>), BankFault>
        requires some { 5 ≤ length buffer.items }
        requires lies { LiesWithin (D.size_of disk.old) self.old }

        ensures found { IfOk result (λ r. ReadsBank D.Disk self.old self.new disk.old disk.new r.0.items r.1) }
        ensures buffer { IfOk result (λ r. length r.2.items ≡ length buffer.items) }
        // (`Damaged` with the place on the disk of the first invalid part)
        ensures refused { RefusesBank D.Disk (IsDamagedBank self.old.shape self.old.head self.old.body (D.contents disk.old)) self.old
            self.new disk.old disk.new result }
        ensures reads { IsTrue (D.is_honest disk.new) → OnlyReads D.contents D.image D.moment D.image_since disk.old disk.new }
        ensures after { AfterCalls D.Disk disk.old disk.new result }
        // (at most six calls, and one for every two bytes of the body, whatever the result)
        ensures most { IsTrue (D.is_honest disk.new) → D.moment disk.new ≤ D.moment disk.old + (12 + body_bytes self.old.shape) }
    {
        let library = self.read_library(alloc, disk)?;
        let (table, buffer) = self.read_table(alloc, disk, buffer)?;
        Ok((library, table, buffer))
    }

    /// Stops the bank if the fault is `Device`.
    fn stop_after(&mut self, fault: BankFault)
        ensures same { (at : ℕ) → fault ≡ BankFault.Damaged at → self.new ≡ self.old }
        ensures memory { fault ≡ BankFault.Memory → self.new ≡ self.old }
        ensures stopped { (why : DeviceFault) → fault ≡ BankFault.Device why → IsAt self.old.shape self.old.head self.old.body self.old.gate true self.new }
    {
        if let BankFault::Device(_) = fault {
            self.stopped = true;
        }
    }

    /// Appends a group in four calls of the disk: after a crash it is in the bank whole or not at
    /// all. The group is in `batch` between four free bytes and one, and only these may change.
    /// Allocates nothing. Errors: `Full`, `Stopped`; `Device`, after which, and only then, the bank
    /// has stopped.
    pub fn append<D: Disk>(&mut self, disk: &mut D, batch: &mut [u8]) -> Result<(), AppendFault>
        requires some { 5 < length batch.old }
        requires inside { self.old.body + body_bytes self.old.shape ≤ D.size_of disk.old }

        // (a crash at any point in time leaves an earlier image with the group or without it, and
        // at `Ok` with it)
        ensures leaves { Leaves D.Disk (IsWithOrWithout self.old.shape self.old.head self.old.body self.old.gate (group_of batch.old))
            (IsWith self.old.shape self.old.head self.old.body self.old.gate (group_of batch.old)) disk.old disk.new result }
        ensures gate { OnOk result (IsAt self.old.shape self.old.head self.old.body (self.old.gate + length batch.old) false self.new) }
        ensures stops { (fault : DeviceFault) → IsErrOf result (AppendFault.Device fault)
            → IsAt self.old.shape self.old.head self.old.body self.old.gate true self.new }
        ensures kept { group_of batch.new ≡ group_of batch.old }
        ensures refused { RefusesGroup batch.old self.old self.new disk.old disk.new result }
        // (at most four calls)
        ensures after { AfterAttempt D.Disk AppendFault.Device 4 disk.old disk.new result }
    {
        if self.stopped {
            return Err(AppendFault::Stopped);
        }
        if batch.len() >= self.room() as usize {
            return Err(AppendFault::Full);
        }
        if let Err(fault) = append_group(disk, self.body + u64::from(self.gate), batch) {
            self.stopped = true;
            return Err(AppendFault::Device(fault));
        }
        self.gate += batch.len() as u32;
        Ok(())
    }
}
