//! Crashes during the upgrade and during the inspection of a store of format 1, at each point in
//! time with each tear. Each crash leaves the same library and the same table, in the old format or
//! in the new one, and an upgrade completes from there. All allocations succeed.
use oa_disk::{Disk, MemoryDisk, Tear};
use oa_store::{UpgradeFault, inspect, upgrade};
use std::alloc::Global;
use std::rt::HostRuntime;

/// The size of the disk: that of a store of format 2 with banks of `BANK` bytes.
const SIZE: usize = 75_505_664;

/// The size of a bank in bytes.
const BANK: u32 = 20_971_520;

/// A store of format 1: the first byte, the head of bank 0, its library, the snapshot of no
/// objects, and the group that creates object 1.
const PARTS: [(u64, &[u8]); 5] = [
    (0, &[1]),
    (
        8_192,
        b"OAUTBK01\x01\0\0\0\x07\0\0\0\x08\0\0\0\0\0\0\0\0\0\0\0\0\0\0\0",
    ),
    (8_224, b"library"),
    (8_231, &[1, 0, 0, 0, 0, 0, 0, 0]),
    (
        8_239,
        &[
            1, 21, 0, 0, 0, 1, 1, 0, 0, 0, 0x44, 0x33, 0x22, 0x11, 0x66, 0x55, 0x88, 0x77, 0x99,
            0xaa, 0xbb, 0xcc, 0xdd, 0xee, 0xff, 3, 0,
        ],
    ),
];

/// The tears with which a disk is crashed.
const TEARS: [Tear; 9] = [
    Tear::Lost,
    Tear::Kept,
    Tear::Filled(0),
    Tear::Filled(1),
    Tear::Filled(255),
    Tear::Cut(0),
    Tear::Cut(1),
    Tear::Cut(5),
    Tear::Cut(50),
];

/// Writes one part of the store. Returns whether that succeeds.
fn lay(disk: &mut MemoryDisk, at: u64, bytes: &[u8]) -> bool {
    at < 10_000
        && bytes.len() < 100
        && disk.size() == SIZE as u64
        && disk.write_at(at, bytes).is_ok()
}

/// Returns a disk with the store of format 1.
fn old_store(alloc: Global) -> Option<MemoryDisk> {
    let mut disk = MemoryDisk::new(alloc, SIZE, 60, 1000).ok()?;
    for (at, bytes) in PARTS {
        if !lay(&mut disk, at, bytes) {
            return None;
        }
    }
    disk.crash(disk.moments(), Tear::Kept).ok()
}

/// Returns whether the library and object 1 are read from the store.
fn is_held(alloc: Global, disk: &mut MemoryDisk) -> bool {
    match inspect(alloc, disk) {
        Ok((library, table)) => {
            library.as_slice() == b"library".as_slice() && table.len() == 1 && table.next() == 2
        }
        Err(_) => false,
    }
}

/// Returns whether the library and object 1 are read after a crash, and again after an upgrade. The
/// upgrade may fail only because the store already has format 2.
fn goes_on(alloc: Global, disk: &mut MemoryDisk) -> bool {
    if !is_held(alloc, disk) {
        return false;
    }
    match upgrade(alloc, disk, BANK) {
        Ok(()) | Err(UpgradeFault::AlreadyNew) => is_held(alloc, disk),
        Err(_) => false,
    }
}

/// Crashes the disk at each point in time with each tear. Returns the last point, and how many
/// crashes lose something, or `None` if an allocation fails.
fn stopped(alloc: Global, disk: &MemoryDisk) -> Option<(u64, u64)> {
    let mut wrong = 0_u64;
    for moment in 0..=disk.moments() {
        for tear in TEARS {
            if !goes_on(alloc, &mut disk.crash(moment, tear).ok()?) {
                wrong = wrong.saturating_add(1);
            }
        }
    }
    Some((disk.moments(), wrong))
}

/// Crashes an upgrade at each point in time. Returns `None` also if the upgrade fails.
fn stopped_upgrading(alloc: Global) -> Option<(u64, u64)> {
    let mut disk = old_store(alloc)?;
    upgrade(alloc, &mut disk, BANK).ok()?;
    stopped(alloc, &disk)
}

/// Crashes an inspection at each point in time.
fn stopped_inspecting(alloc: Global) -> Option<(u64, u64)> {
    let mut disk = old_store(alloc)?;
    if !is_held(alloc, &mut disk) {
        return None;
    }
    stopped(alloc, &disk)
}

/// Nine of the fourteen calls of an upgrade are those of an inspection: a sync, and reads of the
/// first byte, the selector, the head three times, its parts and the groups. After them it writes a
/// head and a body, syncs, writes the selector, and syncs.
#[test]
fn an_upgrade_is_stopped_at_each_moment(rt: HostRuntime) {
    assert_eq!(rt; stopped_upgrading(rt.alloc()), Some((28, 0)));
}

#[test]
fn an_inspection_is_stopped_at_each_moment(rt: HostRuntime) {
    assert_eq!(rt; stopped_inspecting(rt.alloc()), Some((18, 0)));
}
