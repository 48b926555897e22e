//! Disks in memory that crash at each point in time, and the errors of the other disks.
use crate::moments::begun_at;
use oa_disk::{DeviceFault, Disk, FuseDisk, MemoryDisk, NoDisk, Tear, flip, write_then_flip};
use std::alloc::Global;
use std::rt::HostRuntime;

/// The size of a disk in bytes.
const SIZE: usize = 16;

/// The kind of a call.
#[derive(Clone, Copy)]
enum Kind {
    Read,
    Write,
    Sync,
}

use Kind::{Read, Sync, Write};

/// A call, its offset, and the bytes that it writes or reads.
type Step = (Kind, u64, &'static [u8]);

/// Writes that overlap between syncs, writes that do not overlap, and writes without a sync after
/// them.
const SCRIPT: [Step; 12] = [
    (Write, 0, &[1, 2, 3, 4]),
    (Read, 2, &[3]),
    (Sync, 0, &[]),
    (Write, 2, &[5, 6, 7, 8]),
    (Write, 4, &[9, 10, 11, 12]),
    (Sync, 0, &[]),
    (
        Read,
        0,
        &[1, 2, 5, 6, 9, 10, 11, 12, 0, 0, 0, 0, 0, 0, 0, 0],
    ),
    (Write, 8, &[21, 22, 23, 24, 25, 26, 27, 28]),
    (Write, 0, &[30]),
    (Sync, 0, &[]),
    (Write, 15, &[40]),
    (Write, 14, &[41, 42]),
];

/// The contents of the disk after the script.
const LAST: [u8; SIZE] = [30, 2, 5, 6, 9, 10, 11, 12, 21, 22, 23, 24, 25, 26, 41, 42];

/// A byte that a call writes: the number of the call, from 1, the offset, and the byte.
type Written = (u64, usize, u8);

/// All bytes that the script writes, in order.
const WRITTEN: [Written; 24] = [
    (1, 0, 1),
    (1, 1, 2),
    (1, 2, 3),
    (1, 3, 4),
    (4, 2, 5),
    (4, 3, 6),
    (4, 4, 7),
    (4, 5, 8),
    (5, 4, 9),
    (5, 5, 10),
    (5, 6, 11),
    (5, 7, 12),
    (8, 8, 21),
    (8, 9, 22),
    (8, 10, 23),
    (8, 11, 24),
    (8, 12, 25),
    (8, 13, 26),
    (8, 14, 27),
    (8, 15, 28),
    (9, 0, 30),
    (11, 15, 40),
    (12, 14, 41),
    (12, 15, 42),
];

/// The tears with which a disk is crashed.
const TEARS: [Tear; 9] = [
    Tear::Lost,
    Tear::Kept,
    Tear::Filled(0),
    Tear::Filled(1),
    Tear::Filled(255),
    Tear::Cut(0),
    Tear::Cut(1),
    Tear::Cut(5),
    Tear::Cut(100),
];

/// Reads these bytes from byte `at` on, if the disk has them. Err: the read failed, or the disk has
/// other bytes.
fn gives<D: Disk>(disk: &mut D, at: u64, wanted: &[u8]) -> Result<(), DeviceFault> {
    let size = disk.size();
    let mut bytes = [0; SIZE];
    let Some(part) = bytes.get_mut(..wanted.len()) else {
        return Ok(());
    };
    if at > size || part.len() as u64 > size - at {
        return Ok(());
    }
    disk.read_at(at, part)?;
    if *part == *wanted {
        Ok(())
    } else {
        Err(DeviceFault::Read)
    }
}

/// Writes these bytes from byte `at` on, if the disk has them. Err: the write failed.
fn puts<D: Disk>(disk: &mut D, at: u64, bytes: &[u8]) -> Result<(), DeviceFault> {
    let size = disk.size();
    if at > size || bytes.len() as u64 > size - at {
        return Ok(());
    }
    disk.write_at(at, bytes)
}

/// Makes one call if its range is inside the disk. Err: the call failed.
fn make<D: Disk>(disk: &mut D, step: Step) -> Result<(), DeviceFault> {
    let (kind, at, bytes) = step;
    match kind {
        Read => gives(disk, at, bytes),
        Write => puts(disk, at, bytes),
        Sync => disk.sync(),
    }
}

/// Makes the calls in order, up to the first that fails, and returns how many succeeded.
fn play<D: Disk>(disk: &mut D, steps: &[Step]) -> u64 {
    let mut made = 0u64;
    for step in steps {
        if make(disk, *step).is_err() {
            return made;
        }
        made = made.saturating_add(1);
    }
    made
}

/// A call, its result, and the count of failures after it.
type Row = (Step, Result<(), DeviceFault>, u64);

/// Returns whether each call has its result and its count.
fn answers<D: Disk>(disk: &mut D, rows: &[Row]) -> bool {
    for (step, wanted, failures) in rows {
        if make(disk, *step) != *wanted || disk.failures() != *failures {
            return false;
        }
    }
    true
}

/// Returns the byte that the tear leaves of a pending write with this number among the pending
/// bytes.
fn torn_byte(before: u8, written: u8, tear: Tear, number: u64) -> u8 {
    match tear {
        Tear::Lost => before,
        Tear::Kept => written,
        Tear::Filled(byte) => byte,
        Tear::Cut(count) => { if number < count { written } else { before } }
    }
}

/// Returns the disk after a crash, computed byte by byte. It has the bytes written before the last
/// sync that ended, and then those that the tear leaves of the calls that had begun.
fn image_left(written: &[Written], synced: u64, moment: u64, tear: Tear) -> [u8; SIZE] {
    let begun = begun_at(moment);
    let mut image = [0; SIZE];
    let mut number = 0u64;
    for (call, place, value) in written {
        if let Some(byte) = image.get_mut(*place) {
            if *call <= synced {
                *byte = *value;
            } else if *call <= begun {
                *byte = torn_byte(*byte, *value, tear, number);
                number = number.saturating_add(1);
            }
        }
    }
    image
}

/// The points in time at which the syncs of the script end, and the numbers of their calls.
const SYNCS: [(u64, u64); 3] = [(6, 3), (12, 6), (20, 10)];

/// Returns the call of the last of these syncs that has ended at a point in time, or 0.
fn synced_at(syncs: &[(u64, u64)], moment: u64) -> u64 {
    let mut last = 0u64;
    for (ended, call) in syncs {
        if *ended <= moment {
            last = *call;
        }
    }
    last
}

/// Returns whether the disk has these contents.
fn holds(disk: &MemoryDisk, wanted: &[u8]) -> bool {
    match disk.bytes() {
        Ok(bytes) => bytes.as_slice() == wanted,
        Err(_) => false,
    }
}

/// Returns whether the disk has these contents after a crash at that point in time.
fn leaves(disk: &MemoryDisk, moment: u64, tear: Tear, wanted: &[u8]) -> bool {
    if moment > disk.moments() {
        return false;
    }
    match disk.crash(moment, tear) {
        Ok(left) => holds(&left, wanted),
        Err(_) => false,
    }
}

/// Returns the first point in time and tear for which a crash leaves other contents than those
/// computed from these writes and syncs.
fn first_other_image(
    disk: &MemoryDisk,
    written: &[Written],
    syncs: &[(u64, u64)],
) -> Option<(u64, Tear)> {
    for moment in 0..disk.moments().saturating_add(1) {
        for tear in TEARS {
            let wanted = image_left(written, synced_at(syncs, moment), moment, tear);
            if !leaves(disk, moment, tear, &wanted) {
                return Some((moment, tear));
            }
        }
    }
    None
}

/// Some of these contents, computed by hand.
const BY_HAND: [(u64, Tear, [u8; SIZE]); 5] = [
    (4, Tear::Lost, [0; SIZE]),
    (
        9,
        Tear::Kept,
        [1, 2, 5, 6, 9, 10, 11, 12, 0, 0, 0, 0, 0, 0, 0, 0],
    ),
    (
        9,
        Tear::Cut(5),
        [1, 2, 5, 6, 9, 8, 0, 0, 0, 0, 0, 0, 0, 0, 0, 0],
    ),
    (
        19,
        Tear::Filled(7),
        [7, 2, 5, 6, 9, 10, 11, 12, 7, 7, 7, 7, 7, 7, 7, 7],
    ),
    (24, Tear::Kept, LAST),
];

/// Returns the first of these rows whose contents a crash does not leave.
fn first_other_by_hand(disk: &MemoryDisk) -> Option<(u64, Tear)> {
    for (moment, tear, wanted) in BY_HAND {
        if !leaves(disk, moment, tear, &wanted) {
            return Some((moment, tear));
        }
    }
    None
}

/// Returns a disk whose log has capacity for the script.
fn new(alloc: Global) -> Option<MemoryDisk> {
    MemoryDisk::new(alloc, SIZE, SCRIPT.len(), WRITTEN.len()).ok()
}

/// Plays the script, and returns the first crash of the disk that leaves other contents, or `None`
/// if the script failed.
fn torn(alloc: Global) -> Option<Option<(u64, Tear)>> {
    let mut disk = new(alloc)?;
    if play(&mut disk, &SCRIPT) != 12 || disk.moments() != 24 {
        return None;
    }
    match first_other_image(&disk, &WRITTEN, &SYNCS) {
        None => Some(first_other_by_hand(&disk)),
        other => Some(other),
    }
}

/// Returns whether the disk after a crash has made no calls, and has capacity for the same calls
/// again.
fn starts_again(alloc: Global) -> Option<bool> {
    let mut disk = new(alloc)?;
    play(&mut disk, &SCRIPT);
    let mut left = disk.crash(0, Tear::Kept).ok()?;
    let fresh = left.moments() == 0 && left.failures() == 0;
    Some(fresh && play(&mut left, &SCRIPT) == 12 && holds(&left, &LAST))
}

/// Calls of a disk whose log has capacity for three calls and five bytes.
const PAST_THE_ROOM: [Row; 7] = [
    ((Write, 0, &[1, 2, 3]), Ok(()), 0),
    ((Write, 4, &[4, 5, 6]), Err(DeviceFault::Write), 1),
    ((Write, 4, &[4, 5]), Ok(()), 1),
    ((Write, 6, &[6]), Err(DeviceFault::Write), 2),
    ((Read, 1, &[2]), Ok(()), 2),
    ((Read, 1, &[2]), Err(DeviceFault::Read), 3),
    ((Sync, 0, &[]), Err(DeviceFault::Write), 4),
];

/// Returns whether a disk with capacity for three calls and five bytes fails and counts the calls
/// that exceed it, and makes the others.
fn keeps_its_room(alloc: Global) -> bool {
    let Ok(mut disk) = MemoryDisk::new(alloc, 8, 3, 5) else {
        return false;
    };
    let is_told = answers(&mut disk, &PAST_THE_ROOM) && disk.moments() == 6;
    is_told && holds(&disk, &[1, 2, 3, 0, 4, 5, 0, 0])
}

/// Returns whether the calls before this one succeed, all others fail with the error of their kind,
/// and only the former reach the inner disk.
fn blows_at(alloc: Global, first_failing: u64) -> Option<bool> {
    let mut disk = FuseDisk::new(new(alloc)?, first_failing);
    let passed = first_failing.saturating_sub(1).min(12);
    let mut good = true;
    let mut number = 0u64;
    for step in SCRIPT {
        let wanted = match step.0 {
            _ if number < passed => Ok(()),
            Read => Err(DeviceFault::Read),
            _ => Err(DeviceFault::Write),
        };
        good = make(&mut disk, step) == wanted && good;
        number = number.saturating_add(1);
    }
    good = disk.failures() == number - passed.min(number) && good;
    Some(good && disk.into_inner().moments() == passed.saturating_mul(2))
}

/// Returns the first call at which a fuse does not fail as it should.
fn first_unblown(alloc: Global) -> Option<u64> {
    for first_failing in 0..15 {
        if blows_at(alloc, first_failing) != Some(true) {
            return Some(first_failing);
        }
    }
    None
}

/// Returns whether each call of a disk of size 0 succeeds.
fn is_of_no_bytes() -> bool {
    let mut disk = NoDisk::new();
    let is_read = disk.read_at(0, &mut []).is_ok();
    let is_written = disk.write_at(0, &[]).is_ok() && disk.sync().is_ok();
    is_read && is_written && disk.size() == 0 && disk.failures() == 0
}

#[test]
fn a_fuse_passes_the_calls_before_it_on(rt: HostRuntime) {
    assert_eq!(rt; (first_unblown(rt.alloc()), is_of_no_bytes()), (None, true));
}

/// Three bytes and, after a sync, their gate byte.
const GATED: [Written; 4] = [(1, 5, 7), (1, 6, 8), (1, 7, 9), (3, 4, 1)];

/// The points in time at which the syncs of these four calls end, and the numbers of their calls.
const GATE_SYNCS: [(u64, u64); 2] = [(4, 2), (8, 4)];

/// Sets the gate byte, clears it, and then fails to set it because the log of the disk is full.
/// Returns the first crash that leaves other contents, or `None` if a call has another result.
fn gated(alloc: Global) -> Option<Option<(u64, Tear)>> {
    let mut disk = MemoryDisk::new(alloc, SIZE, 7, 16).ok()?;
    let is_made = write_then_flip(&mut disk, 5, &[7, 8, 9], 4, 1).is_ok() && disk.moments() == 8;
    let other = first_other_image(&disk, &GATED, &GATE_SYNCS);
    let is_closed = flip(&mut disk, 4, 0).is_ok();
    let is_full = flip(&mut disk, 4, 1) == Err(DeviceFault::Write);
    let is_kept = holds(&disk, &[0, 0, 0, 0, 0, 7, 8, 9, 0, 0, 0, 0, 0, 0, 0, 0]);
    if is_made && is_closed && is_full && is_kept {
        Some(other)
    } else {
        None
    }
}

#[test]
fn disks_in_memory(rt: HostRuntime) {
    let crashed = (torn(rt.alloc()), gated(rt.alloc()));
    let is_well = keeps_its_room(rt.alloc()) && starts_again(rt.alloc()) == Some(true);
    assert_eq!(rt; (crashed, is_well), ((Some(None), Some(None)), true));
}

/// Crashes a disk of this size `count` times. Returns how many crashes leave its last byte, which
/// was written without a sync.
fn crashes(alloc: Global, size: usize, count: u64) -> Option<u64> {
    let mut disk = MemoryDisk::new(alloc, size, 8, 16).ok()?;
    let last = disk.size().saturating_sub(1);
    let _ = puts(&mut disk, last, &[7]);
    let mut kept = 0u64;
    for _ in 0..count {
        let mut left = disk.crash(disk.moments(), Tear::Kept).ok()?;
        if gives(&mut left, last, &[7]).is_ok() {
            kept = kept.saturating_add(1);
        }
    }
    Some(kept)
}

/// A crash costs a copy of the written bytes only. With two copies of the disk for each crash, the
/// test would need minutes.
#[test]
fn thousands_of_crashes_of_a_large_disk(rt: HostRuntime) {
    assert_eq!(rt; crashes(rt.alloc(), 33_562_624, 5000), Some(5000));
}
