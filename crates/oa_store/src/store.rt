//! An open store.
ghost use Rattle.std.specs.Prelude.{◌≡◌, ◌↔◌, ◌+◌, ◌*◌, ◌-◌, ◌<◌, ◌≤◌, false, true, IsTrue, length, IfErr, IfOk, OnOk, vec_capacity};
ghost use Rattle.oa_disk.specs.After.{AfterCalls, Leaves};
ghost use Rattle.oa_model.specs.promise.Limits.{max_library_bytes};
ghost use Rattle.oa_table.specs.promise.Tables.{unlocked_table};
ghost use Rattle.oa_image.specs.promise.Tables.{is_numbered, reserved_bytes, table_image};
ghost use Rattle.oa_journal.specs.promise.Bank.{ample_bytes, body_bytes, disk_bytes, format_of, first_gate};
ghost use Rattle.oa_journal.specs.promise.Bank.{WritesNothing};
ghost use Rattle.oa_journal.specs.Append.{group_of};
ghost use Rattle.oa_store.specs.promise.Stores.{piece_bytes, checkpoint_calls, body_place, head_place};
ghost use Rattle.oa_store.specs.Changes.{IsCommit, IsCommitted, IsReplacement, IsReplaced, IsSwitch, IsSwitched};

use crate::reading::find_store;
use crate::switching::switch_to;
use crate::{OpenFault, WriteFault};
use oa_disk::Disk;
use oa_journal::{AMPLE_BYTES, AppendFault, Bank};
use oa_table::Table;
use std::alloc::Global;

/// An open store over a disk. Its two banks take turns: a commit appends a group to the bank in
/// use, and a checkpoint switches to the other bank. After a fault of the device the store has
/// stopped: it makes no further call, and returns `Stopped`.
#[derive(Drop)]
pub struct Store<D: Disk> {
    disk: D,
    library: Vec<u8>,
    /// The number of the bank in use, 0 or 1.
    chosen: u8,
    bank: Bank,
    stopped: bool,
    /// The buffer from which the other bank is written.
    buffer: Vec<u8>,
    ghost two: { chosen < 2 },
    ghost placed: { bank.head ≡ head_place chosen },
    ghost body_placed: { bank.body ≡ body_place bank.shape chosen },
    ghost is_new: { format_of bank.shape ≡ 2 },
    ghost goes_on: { stopped ≡ false → bank.stopped ≡ false },
    ghost small: { length library.items ≤ max_library_bytes },
    ghost room: { max_library_bytes ≤ vec_capacity library },
    ghost whole: { length buffer.items ≡ piece_bytes },
    ghost big: { disk_bytes bank.shape ≤ D.size_of disk },
}

impl<D: Disk> Store<D> {
    ghost use Rattle.oa_store.specs.declared.fault.WriteFault.{WriteFault};
    ghost use Rattle.oa_store.specs.Openings.{FindsStore, RefusesDisk, Starts};
    ghost use Rattle.oa_store.specs.Writing.{AddsGroup, StopsAtFault, SwitchesBank};
    ghost use Rattle.oa_store.specs.promise.Writing.{DeviceFrame};

    /// Opens the store of `library` on the disk, and returns it with its table, which has no locks.
    /// It writes nothing, and begins with a sync. An error returns the disk, too: `NotAStore`,
    /// `OldFormat`, `LibraryDiffers`, `Damaged`, `Memory`, `Device`, in the order of `OpenFault`.
    pub fn open(alloc: Global, disk: D, library: &[u8]) -> Result<(Store<D>, Table), (D, OpenFault)>
        requires { length library.now ≤ max_library_bytes }

        ensures found { IfOk result (λ r. FindsStore D.Disk library.now disk r.0 r.1) }
        ensures starts { IfOk result (λ r. Starts library.now r.0 r.1) }
        ensures refused { IfErr result (λ e. RefusesDisk D.Disk library.now disk e.0 e.1) }
        ensures reads { IfOk result (λ r. IsTrue (D.is_honest r.0.disk) → WritesNothing D.image D.moment D.image_since disk r.0.disk) }
        ensures reads_err { IfErr result (λ e. IsTrue (D.is_honest e.0) → WritesNothing D.image D.moment D.image_since disk e.0) }
        ensures after { IfOk result (λ r. AfterCalls D.Disk disk r.0.disk result) }
        ensures after_err { IfErr result (λ e. AfterCalls D.Disk disk e.0 result) }
    {
        let mut disk = disk;
        match find_store(alloc, &mut disk, library) {
            Ok(found) => Ok((
                Store {
                    disk,
                    library: found.library,
                    chosen: found.chosen,
                    bank: found.bank,
                    stopped: false,
                    buffer: found.buffer,
                },
                found.table,
            )),
            Err(fault) => Err((disk, fault)),
        }
    }

    /// Returns how many bytes the bank in use has from its closed gate on. A group of n bytes uses
    /// n + 5 of them, and at least one is left.
    pub fn room(&self) -> u32
        ensures { result ≡ body_bytes self.now.bank.shape - self.now.bank.gate }
    {
        self.bank.room()
    }

    /// Returns the size of a bank's body in bytes.
    pub fn bank_size(&self) -> u32
        ensures { result ≡ body_bytes self.now.bank.shape }
    {
        self.bank.size()
    }

    /// Returns whether a checkpoint must be made before the next group: the bank in use has fewer
    /// than `AMPLE_BYTES` bytes from its closed gate on.
    pub fn checkpoint_due(&self) -> bool
        ensures { IsTrue result ↔ (body_bytes self.now.bank.shape - self.now.bank.gate < ample_bytes) }
    {
        self.room() < AMPLE_BYTES
    }

    /// Returns whether a call of the device has failed. The store makes no call after that.
    pub fn has_stopped(&self) -> bool
        ensures { result ≡ self.now.stopped }
    {
        self.stopped
    }

    /// Returns `Err(Stopped)` if the store has stopped.
    fn going(&self) -> Result<(), WriteFault>
        ensures going { OnOk result (self.now.stopped ≡ false) }
        ensures stopped { IfErr result (λ e. (e ≡ WriteFault.Stopped) × (self.now.stopped ≡ true)) }
    {
        if self.stopped {
            return Err(WriteFault::Stopped);
        }
        Ok(())
    }

    /// Returns the disk, for example to read its clock. Makes no call of it.
    pub fn disk(&self) -> &D
        ensures { result.now ≡ self.now.disk }
    {
        &self.disk
    }

    /// Closes the store and returns the disk. Makes no call of it.
    pub fn into_disk(self) -> D
        ensures { result ≡ self.disk }
    {
        let Store { disk, .. } = self;
        disk
    }

    /// Commits a group of events in at most four calls of the disk. The group is in `batch` between
    /// four free bytes and one, and only these may change. Allocates nothing. Errors: `Stopped`;
    /// `Device`, after which, and only then, the store has stopped.
    ///
    /// That the events apply to the committed table is a premise of what the images hold, not a
    /// condition of the call.
    pub fn commit(&mut self, batch: &mut [u8]) -> Result<(), WriteFault>
        requires some { 5 < length batch.old }
        requires fits { self.old.bank.gate + length batch.old < body_bytes self.old.bank.shape }

        // (a crash at any point in time leaves the old store, with the group or without it, and at
        // `Ok` with it)
        ensures leaves { Leaves D.Disk (IsCommit self.old.bank.shape self.old.chosen self.old.bank.gate (group_of batch.old))
            (IsCommitted self.old.bank.shape self.old.chosen self.old.bank.gate (group_of batch.old)) self.old.disk self.new.disk result }
        ensures adds { AddsGroup batch.old self.old self.new result }
        ensures kept { group_of batch.new ≡ group_of batch.old }
        ensures stops { StopsAtFault self.old self.new result }
        ensures goes { DeviceFrame self.old self.new }
        // (at most four calls)
        ensures calls { IsTrue (D.is_honest self.old.disk) → D.moment self.new.disk ≤ D.moment self.old.disk + 8 }
    {
        self.going()?;
        match self.bank.append(&mut self.disk, batch) {
            Ok(()) => Ok(()),
            Err(AppendFault::Device(fault)) => {
                self.stopped = true;
                Err(WriteFault::Device(fault))
            }
            Err(AppendFault::Full | AppendFault::Stopped) => Err(WriteFault::Stopped),
        }
    }

    /// Writes this table to the other bank, without groups, and switches to that bank. Allocates
    /// nothing. Errors: `Stopped`; `Device`, after which, and only then, the store has stopped.
    ///
    /// That the table, its locks apart, is the committed one is a premise of what the images hold,
    /// not a condition of the call.
    pub fn checkpoint(&mut self, table: &Table) -> Result<(), WriteFault>
        requires fits { length (table_image table.now) + reserved_bytes ≤ body_bytes self.old.bank.shape }
        requires numbered { is_numbered table.now ≡ true }

        // (a crash at any point in time leaves a store of the same table, and at `Ok` in the other
        // bank)
        ensures leaves { Leaves D.Disk
            (IsSwitch self.old.bank.shape self.old.chosen self.old.bank.gate self.old.bank.shape (first_gate self.old.library.items table.now)
            self.old.library.items (unlocked_table table.now))
            (IsSwitched self.old.bank.shape self.old.chosen self.old.bank.gate self.old.bank.shape
            (first_gate self.old.library.items table.now) self.old.library.items (unlocked_table table.now))
            self.old.disk self.new.disk result }
        ensures switches { SwitchesBank self.old.library.items table.now self.old self.new result }
        ensures stops { StopsAtFault self.old self.new result }
        ensures goes { DeviceFrame self.old self.new }
        ensures calls { IsTrue (D.is_honest self.old.disk)
            → D.moment self.new.disk ≤ D.moment self.old.disk + 2 * checkpoint_calls self.old.library.items table.now }
    {
        self.going()?;
        let size = self.bank.size();
        match switch_to(
            &mut self.disk,
            &mut self.buffer,
            self.chosen,
            size,
            &self.library,
            table,
        ) {
            Ok(bank) => {
                self.chosen = 1 - self.chosen;
                self.bank = bank;
                Ok(())
            }
            Err(fault) => {
                self.stopped = true;
                Err(WriteFault::Device(fault))
            }
        }
    }

    /// Makes a checkpoint with another library, of at most `MAX_LIBRARY_BYTES` bytes, which later
    /// checkpoints then have, too. `open` has allocated the memory for it. Errors: `Stopped`;
    /// `Device`, after which, and only then, the store has stopped.
    pub fn checkpoint_with(&mut self, library: &[u8], table: &Table) -> Result<(), WriteFault>
        requires fits { length (table_image table.now) + reserved_bytes ≤ body_bytes self.old.bank.shape }
        requires numbered { is_numbered table.now ≡ true }
        requires short { length library.now ≤ max_library_bytes }

        // (a crash at any point in time leaves the old store, or one of the other library and the
        // same table, and at `Ok` the latter)
        ensures leaves { Leaves D.Disk
            (IsReplacement self.old.bank.shape self.old.chosen self.old.bank.gate self.old.bank.shape (first_gate library.now table.now)
            self.old.library.items library.now (unlocked_table table.now))
            (IsReplaced self.old.bank.shape self.old.chosen self.old.bank.gate self.old.bank.shape (first_gate library.now table.now)
            self.old.library.items library.now (unlocked_table table.now))
            self.old.disk self.new.disk result }
        ensures switches { SwitchesBank library.now table.now self.old self.new result }
        ensures stops { StopsAtFault self.old self.new result }
        ensures goes { DeviceFrame self.old self.new }
        ensures calls { IsTrue (D.is_honest self.old.disk)
            → D.moment self.new.disk ≤ D.moment self.old.disk + 2 * checkpoint_calls library.now table.now }
    {
        self.going()?;
        let size = self.bank.size();
        match switch_to(
            &mut self.disk,
            &mut self.buffer,
            self.chosen,
            size,
            library,
            table,
        ) {
            Ok(bank) => {
                self.chosen = 1 - self.chosen;
                self.bank = bank;
                self.library.clear();
                self.library.extend_from_slice(library).unwrap();
                Ok(())
            }
            Err(fault) => {
                self.stopped = true;
                Err(WriteFault::Device(fault))
            }
        }
    }
}
