//! Banks on disks in memory, used as a store never uses them: filled to the last byte, and used
//! after a failure of the disk.
ghost use Rattle.std.specs.Prelude.{◌≡◌, ◌+◌, ◌≤◌, false, length, IfOk};
ghost use Rattle.oa_table.specs.Tables.{first_table};
ghost use Rattle.oa_journal.specs.Append.{IsAt};
ghost use Rattle.oa_journal.specs.promise.Bank.{first_gate, body_bytes};
ghost use Rattle.oa_journal.specs.declared.shape.BankFormat.TheVariants.{Two};

use oa_disk::{DeviceFault, Disk, MemoryDisk};
use oa_journal::{AppendFault, Bank, BankFormat, laws};
use oa_table::Table;
use std::alloc::Global;
use std::rt::HostRuntime;

/// The size in bytes of the body of the bank, which begins at 0; its head is after it.
const BODY: u32 = 20_971_520;

/// The size of the disk in bytes.
const DISK: usize = 20_971_552;

/// Writes the bank of a library and of the table with no objects.
fn begin(disk: &mut MemoryDisk, library: &[u8], table: &Table) -> Result<Bank, DeviceFault>
    requires few { length library.now ≤ 300 }
    requires first { table.now ≡ first_table }
    requires inside { 20971552 ≤ ⟦<MemoryDisk as Disk>⟧.size_of disk.old }
    ensures bank { IfOk result (IsAt (Two 20971520) 20971520 0 (first_gate library.now first_table) false) }
    ensures size { ⟦<MemoryDisk as Disk>⟧.size_of disk.new ≡ ⟦<MemoryDisk as Disk>⟧.size_of disk.old }
{
    let mut bank = Bank::at(20_971_520, 0, BankFormat::Two(BODY));
    let mut buffer = [0; 512];
    bank.start(disk, &mut buffer, library, table)?;
    Ok(bank)
}

/// A bank and its disk.
#[derive(Drop)]
struct Tried {
    alloc: Global,
    disk: MemoryDisk,
    bank: Bank,
    ghost inside: { bank.body + body_bytes bank.shape ≤ ⟦<MemoryDisk as Disk>⟧.size_of disk },
}

impl Tried {
    /// Makes a bank with a library of 7 bytes and the table with no objects, in three calls of its
    /// disk.
    fn new(alloc: Global, calls: usize) -> Option<Tried> {
        let mut disk = MemoryDisk::new(alloc, DISK, calls, 21_000_000).ok()?;
        let bank = begin(&mut disk, b"library", &Table::new(alloc)).ok()?;
        disk.sync().ok()?;
        Some(Tried { alloc, disk, bank })
    }

    /// Adds a group whose buffer has this many bytes, six at least.
    fn add(&mut self, count: usize) -> Result<(), AppendFault> {
        match vec![in self.alloc; 0; count] {
            Ok(mut batch) if batch.len() > 5 => self.bank.append(&mut self.disk, &mut batch),
            _ => Err(AppendFault::Full),
        }
    }
}

/// The length of a group's buffer, how often it is added, the result, and the free space after it.
const FRAMES: [(usize, u32, Result<(), AppendFault>, u32); 4] = [
    (26, 1, Ok(()), 20_971_479),
    (4_000_000, 5, Ok(()), 971_479),
    (971_479, 1, Err(AppendFault::Full), 971_479),
    (971_478, 1, Ok(()), 1),
];

/// Returns the first of these lengths with another result, or `None` if the free space of the new
/// bank is not as expected.
fn filled(alloc: Global) -> Option<Option<usize>> {
    let mut tried = Tried::new(alloc, 50)?;
    if tried.bank.room() != 20_971_505 || tried.bank.size() != BODY {
        return None;
    }
    for (count, times, wanted, left) in FRAMES {
        let mut well = true;
        for _ in 0..times {
            well = tried.add(count) == wanted && well;
        }
        if !well || tried.bank.room() != left {
            return Some(Some(count));
        }
    }
    Some(None)
}

/// Returns whether a bank fails and is stopped from then on. Its disk has capacity for the calls of
/// one group, and fails at the next one.
fn stops(alloc: Global) -> Option<bool> {
    let mut tried = Tried::new(alloc, 7)?;
    let is_added = tried.add(26) == Ok(());
    let has_failed = tried.add(38) == Err(AppendFault::Device(DeviceFault::Write));
    Some(is_added && has_failed && tried.add(38) == Err(AppendFault::Stopped))
}

#[test]
fn a_bank_takes_groups_as_long_as_they_fit(rt: HostRuntime) {
    laws::one_bank();
    laws::one_shape();
    laws::one_replay();
    laws::damage_is_no_bank();
    laws::bank_has_its_library();
    let found = (filled(rt.alloc()), stops(rt.alloc()));
    assert_eq!(rt; found, (Some(None), Some(true)));
}
