//! Each of the two sessions of the script, on disks that fail from each call on.
ghost use Rattle.std.specs.Prelude.{◌≤◌};

use crate::counts::{COMMIT, OPENING};
use crate::script::{
    BANK, TEARS, are_told, calls_of, expect, first, left_by, library, new_disk, new_store,
    next_store, read_by, read_of, second,
};
use oa_disk::{DeviceFault, MemoryDisk, Tear};
use oa_history::{CallOutcome, FaultHistory, ServerCall, run_with_faults, session_with_faults};
use oa_model::HResult;
use oa_server::Server;
use oa_typelib::Library;
use std::alloc::Global;
use std::rt::HostRuntime;

/// The expected state after a session on a disk that fails: how many requests are kept without and
/// with the group that failed, whether a call failed, and whether the store was opened.
#[derive(Clone, Copy)]
struct Due {
    least: usize,
    most: usize,
    failed: bool,
    opened: bool,
}

/// Returns the expected state after calls with these replies, or `None` if the replies or the
/// counts of failures are wrong. Successful requests come first, then those of the group that
/// failed, and then all others.
fn due_of_calls(all: &[CallOutcome], first: usize) -> Option<Due> {
    let mut least = first;
    let mut most = first;
    let mut late = false;
    for told in all {
        for reply in told.replies.as_slice() {
            let code = reply.code();
            if code == HResult::S_OK && least == most && !late {
                least = least.saturating_add(1);
                most = least;
            } else if code == HResult::STG_E_WRITEFAULT && !late {
                most = most.saturating_add(1);
            } else if code == HResult::E_FAIL && least < most {
                late = true;
            } else {
                return None;
            }
        }
        if told.failures != u64::from(least < most) {
            return None;
        }
    }
    Some(Due {
        least,
        most,
        failed: least < most,
        opened: true,
    })
}

/// Returns the expected state after these calls. An open that fails returns the kind of call that
/// failed: the first call is a sync, the others are reads.
fn due_of(
    told: &Result<Vec<CallOutcome>, DeviceFault>,
    first: usize,
    first_failing: u64,
) -> Option<Due> {
    match told {
        Ok(all) => due_of_calls(all.as_slice(), first),
        Err(fault) => {
            if (first_failing == 1) != (*fault == DeviceFault::Write) {
                return None;
            }
            Some(Due {
                least: first,
                most: first,
                failed: true,
                opened: false,
            })
        }
    }
}

/// Opens a server on this disk without a crash. Returns how many of the requests it has kept.
fn read_as_it_is(alloc: Global, disk: MemoryDisk, least: usize, most: usize) -> Option<usize> {
    match Server::open(alloc, disk, library(alloc)?) {
        Ok(mut server) => read_by(alloc, &mut server, least, most),
        Err(_) => None,
    }
}

/// Cuts the power now with each tear. Returns the number of power losses if each keeps the expected
/// requests, with or without the group that failed.
fn losses_of(alloc: Global, disk: &MemoryDisk, due: Due) -> Option<u64> {
    let mut count = 0u64;
    for tear in TEARS {
        let place = read_of(alloc, left_by(disk, tear)?, due.least, due.most)?;
        if place != due.least && place != due.most {
            return None;
        }
        count = count.saturating_add(1);
    }
    Some(count)
}

/// Returns the kind of failure if this many requests are kept: 0 if the open failed, 1 if the group
/// that failed is kept whole, 2 if it is not kept.
fn kind_of(due: Due, place: usize) -> Option<usize> {
    if !due.opened {
        Some(0)
    } else if place == due.most {
        Some(1)
    } else if place == due.least {
        Some(2)
    } else {
        None
    }
}

/// Returns three results of calls on a disk: the expected state after them, the number of requests
/// that are kept on the disk that they returned, and the number of power losses that were tried.
fn found_behind(
    alloc: Global,
    told: &Result<Vec<CallOutcome>, DeviceFault>,
    back: MemoryDisk,
    first: usize,
    first_failing: u64,
) -> Option<(Due, usize, u64)> {
    let due = due_of(told, first, first_failing)?;
    let losses = losses_of(alloc, &back, due)?;
    let place = read_as_it_is(alloc, back, due.least, due.most)?;
    Some((due, place, losses))
}

/// Runs these calls on a disk that fails from call `first_failing` on.
fn failed(
    alloc: Global,
    disk: &MemoryDisk,
    calls: &[ServerCall],
    first: usize,
    first_failing: u64,
) -> Option<(Due, usize, u64)> {
    let disk = left_by(disk, Tear::Kept)?;
    let (told, back) = session_with_faults(alloc, disk, calls, first_failing).ok()?;
    found_behind(alloc, &told, back, first, first_failing)
}

/// Runs these calls, after `first` requests, on disks that fail from each call on, up to one that
/// does not fail. Counts what happened: the open failed, the group that failed was kept whole, it
/// was not kept. The last count is the number of power losses that were tried.
fn failures(
    alloc: Global,
    disk: &MemoryDisk,
    calls: &[ServerCall],
    first: usize,
) -> Option<[u64; 4]> {
    let mut found = [0u64; 4];
    for first_failing in 1..300u64 {
        let (due, place, losses) = failed(alloc, disk, calls, first, first_failing)?;
        if !due.failed {
            return Some(found);
        }
        let kind = kind_of(due, place)?;
        if let Some(count) = found.get_mut(kind) {
            *count = count.saturating_add(1);
        }
        found[3] = found[3].saturating_add(losses);
    }
    None
}

/// Returns the expected state after the calls of `run_with_faults`, and how many of the requests are kept.
fn found_by(
    alloc: Global,
    library: &Library,
    survived: &mut FaultHistory,
    first_failing: u64,
) -> Option<(Due, usize)> {
    let due = due_of(&survived.told, 0, first_failing)?;
    let place = read_by(alloc, &mut survived.opened.server, due.least, due.most)?;
    if are_told(library, survived.library.as_slice(), &survived.table, place) {
        Some((due, place))
    } else {
        None
    }
}

/// Runs these calls with `run_with_faults` on a new store, on a disk that fails from call `first_failing`
/// on.
fn survived(alloc: Global, calls: &[ServerCall], first_failing: u64) -> Option<(Due, usize)> {
    let library = library(alloc)?;
    let disk = new_disk(alloc)?;
    match run_with_faults(alloc, &library, BANK, disk, calls, first_failing) {
        Ok(mut survived) => found_by(alloc, &library, &mut survived, first_failing),
        Err(_) => None,
    }
}

/// Runs the first session as `failures` does, but with `run_with_faults`, without power losses, and checks
/// the library and the table that it returns.
fn survivals(alloc: Global, group: usize) -> Option<[u64; 4]>
    requires { 1 ≤ group }
{
    let calls = calls_of(alloc, first(), group)?;
    let mut found = [0u64; 4];
    for first_failing in 1..300u64 {
        let (due, place) = survived(alloc, calls.as_slice(), first_failing)?;
        if !due.failed {
            return if place == 5 { Some(found) } else { None };
        }
        let kind = kind_of(due, place)?;
        if let Some(count) = found.get_mut(kind) {
            *count = count.saturating_add(1);
        }
    }
    None
}

/// Runs the first session in groups of this many requests.
fn first_failures(alloc: Global, group: usize) -> Option<[u64; 4]>
    requires { 1 ≤ group }
{
    let calls = calls_of(alloc, first(), group)?;
    failures(alloc, &new_store(alloc)?, calls.as_slice(), 0)
}

/// Runs the second session after a checkpoint.
fn second_failures(alloc: Global, group: usize) -> Option<[u64; 4]>
    requires { 1 ≤ group }
{
    let calls = calls_of(alloc, second(), group)?;
    let store = next_store(alloc, new_store(alloc)?, group)?;
    failures(alloc, &store, calls.as_slice(), 5)
}

/// Returns the expected counts for a session of this many groups, with this many power losses after
/// each failure. Each call of the disk fails once. If the write of a group, its sync or the write
/// of its gate byte fails, the group is not kept: a call that fails has no effect. If the sync
/// after the gate byte fails, the gate byte is written, and the group is read.
fn due_by(groups: u16, losses: u16) -> [u64; 4] {
    let whole = u64::from(groups);
    let calls = OPENING + COMMIT * whole;
    [
        OPENING,
        whole,
        (COMMIT - 1) * whole,
        calls * u64::from(losses),
    ]
}

/// The names of the counts.
const COUNTS: &str = "openings that fail, groups found, groups not found, and losses of power";

#[test]
fn fails_in_groups_of_1(rt: HostRuntime) {
    // seven groups in two sessions, and seven tears
    expect(&rt, COUNTS, first_failures(rt.alloc(), 1), due_by(5, 7));
    expect(&rt, COUNTS, second_failures(rt.alloc(), 1), due_by(2, 7));
}

#[test]
fn fails_in_groups_of_3(rt: HostRuntime) {
    expect(&rt, COUNTS, first_failures(rt.alloc(), 3), due_by(2, 7));
    expect(&rt, COUNTS, second_failures(rt.alloc(), 3), due_by(1, 7));
}

/// The first session has five groups of 1 or two groups of 3.
#[test]
fn survives_in_groups_of_1_and_3(rt: HostRuntime) {
    expect(&rt, COUNTS, survivals(rt.alloc(), 1), due_by(5, 0));
    expect(&rt, COUNTS, survivals(rt.alloc(), 3), due_by(2, 0));
}
