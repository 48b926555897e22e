//! Histories with larger banks than the smallest, and histories of a store of format 1.
ghost use Rattle.std.specs.Prelude.{IfSome};
ghost use Rattle.oa_history.specs.promise.CrashHistories.{IsFreshDisk};

use crate::script::{
    BANK, END, are_told, calls_of, first, left_by, library, place_in, read_by, reads,
};
use oa_disk::{Disk, MemoryDisk, Tear};
use oa_history::{
    Asked, CrashHistory, CrashedSession, Step, Stop, run_history, run_history_on,
    run_with_faults_on, upgraded,
};
use oa_typelib::Library;
use std::alloc::Global;
use std::rt::HostRuntime;

/// A crash at the end.
const AT_END: Stop = Stop {
    moment: END,
    tear: Tear::Lost,
};

/// Returns a session of these requests, one per group, with a crash at its end.
fn session_of(alloc: Global, lines: &[&str]) -> Option<Step> {
    Some(Step::CrashedSession(CrashedSession {
        asked: Asked::Calls(calls_of(alloc, lines, 1)?),
        moment: END,
        tear: Tear::Lost,
    }))
}

/// Returns a session of these requests, and a session that reads.
fn steps_of(alloc: Global, lines: &[&str]) -> Option<Vec<Step>> {
    let mut steps = Vec::new(alloc);
    steps.push(session_of(alloc, lines)?).ok()?;
    steps.push(session_of(alloc, reads())?).ok()?;
    Some(steps)
}

/// Returns whether all requests of the first session are kept at the end of a history.
fn holds_all(alloc: Global, library: &Library, lived: &mut CrashHistory) -> bool {
    let Some(last) = lived.heard.last() else {
        return false;
    };
    place_in(alloc, last, 5, 5) == Some(5)
        && read_by(alloc, &mut lived.opened.server, 5, 5) == Some(5)
        && are_told(library, lived.library.as_slice(), &lived.table, 5)
}

/// Runs a history with banks of 40 MiB.
fn over_larger_banks(alloc: Global) -> Option<bool> {
    let library = library(alloc)?;
    let disk = MemoryDisk::new(alloc, 117_448_704, 200, 4000).ok()?;
    let steps = steps_of(alloc, first())?;
    match run_history(alloc, &library, 41_943_040, disk, steps.as_slice()) {
        Ok(mut lived) => Some(holds_all(alloc, &library, &mut lived)),
        Err(_) => None,
    }
}

/// Writes a part of a store of format 1.
fn lay(disk: &mut MemoryDisk, at: usize, bytes: &[u8]) -> Option<()> {
    if at < 100_000 && bytes.len() < 100_000 && disk.size() > 200_000 {
        disk.write_at(at as u64, bytes).ok()
    } else {
        None
    }
}

/// The gate byte of the group that creates object 1 of the coclass, and the group.
static CREATED: [u8; 27] = [
    1, 21, 0, 0, 0, 1, 1, 0, 0, 0, 0x44, 0x33, 0x22, 0x11, 0x66, 0x55, 0x88, 0x77, 0x99, 0xaa,
    0xbb, 0xcc, 0xdd, 0xee, 0xff, 3, 0,
];

/// Returns a store of format 1 with the library: in bank 0 the head, the library, a snapshot of no
/// objects, and that group.
fn old_store(alloc: Global, library: &Library) -> Option<MemoryDisk>
    ensures { IfSome result IsFreshDisk }
{
    let mut disk = MemoryDisk::new(alloc, 75_505_664, 200, 8000).ok()?;
    let text = library.text();
    let length = u32::try_from(text.len()).ok()?;
    let behind = text.len().saturating_add(8_224);
    lay(&mut disk, 0, &[1])?;
    lay(&mut disk, 8_192, b"OAUTBK01\x01\0\0\0")?;
    lay(&mut disk, 8_204, &length.to_le_bytes())?;
    lay(&mut disk, 8_208, &[8])?;
    lay(&mut disk, 8_224, text)?;
    lay(&mut disk, behind, &[1])?;
    lay(&mut disk, behind.saturating_add(8), &CREATED)?;
    left_by(&disk, Tear::Kept)
}

/// Returns such a store after an upgrade to format 2.
fn new_store_of(alloc: Global, library: &Library) -> Option<MemoryDisk>
    ensures { IfSome result IsFreshDisk }
{
    match upgraded(alloc, old_store(alloc, library)?, BANK, AT_END) {
        Ok((_, store)) => Some(store),
        Err(_) => None,
    }
}

/// Runs a history on the upgraded store, with all requests of the first session except the first.
fn over_an_old_store(alloc: Global) -> Option<bool> {
    let library = library(alloc)?;
    let steps = steps_of(alloc, first().get(1..)?)?;
    match run_history_on(alloc, new_store_of(alloc, &library)?, steps.as_slice()) {
        Ok(mut lived) => Some(holds_all(alloc, &library, &mut lived)),
        Err(_) => None,
    }
}

/// Runs this history with `run_with_faults_on`, on a disk whose calls do not fail.
fn survives_over_an_old_store(alloc: Global) -> Option<bool> {
    let library = library(alloc)?;
    let calls = calls_of(alloc, first().get(1..)?, 1)?;
    match run_with_faults_on(alloc, new_store_of(alloc, &library)?, calls.as_slice(), END) {
        Ok(mut survived) => Some(read_by(alloc, &mut survived.opened.server, 5, 5) == Some(5)),
        Err(_) => None,
    }
}

#[test]
fn begins_with_larger_banks(rt: HostRuntime) {
    assert_eq!(rt; over_larger_banks(rt.alloc()), Some(true));
}

#[test]
fn begins_with_a_store_of_format_1(rt: HostRuntime) {
    assert_eq!(rt; over_an_old_store(rt.alloc()), Some(true));
    assert_eq!(rt; survives_over_an_old_store(rt.alloc()), Some(true));
}
