//! The bytes that a crash leaves, computed from the calls of a disk and the bytes that they wrote.
ghost use Rattle.std.specs.Prelude.{◌≡◌, ◌+◌, ◌*◌, ◌<◌, ◌≤◌, length, OnOk, IfOk};
ghost use Rattle.oa_disk.specs.promise.CallLog.{laid};
ghost use Rattle.oa_disk.specs.Replay.{AllInside};
ghost use Rattle.oa_disk.specs.promise.Disk.{contents_after, count_all, torn, tear_behind, torn_all, IsLastSync};
ghost use Rattle.oa_disk.specs.promise.Disk.{IsTorn};

use crate::DeviceCall;
use crate::layers::SparseImage;
use std::alloc::{AllocError, Global};

/// How a crash tears the writes that no sync has brought to the device.
#[derive(Clone, Copy, Debug, PartialEq, Eq)]
pub enum Tear {
    /// Each range keeps the bytes that it had before.
    Lost,
    /// Each range has the bytes that were written.
    Kept,
    /// Each range is filled with this byte.
    Filled(u8),
    /// The first bytes of the writes, in order: this many in all.
    Cut(u64),
}

/// Tears the range of one write of `bytes` at `at`, and sets `tear` for the writes after it: a cut
/// has fewer bytes left. Err: an allocation failed.
fn tear_range(
    alloc: Global,
    disk: &mut SparseImage,
    at: usize,
    bytes: &[u8],
    tear: &mut Tear,
) -> Result<(), AllocError>
    requires { at + length bytes.now ≤ disk.old.size }
    ensures bytes { OnOk result (laid disk.new ≡ torn tear.old (laid disk.old) at bytes.now) }
    ensures rest { OnOk result (tear.new ≡ tear_behind tear.old (length bytes.now)) }
    ensures size { disk.new.size ≡ disk.old.size }
{
    match *tear {
        Tear::Lost => Ok(()),
        Tear::Kept => disk.put(at, bytes),
        Tear::Filled(byte) => {
            let filled = vec![in alloc; byte; bytes.len()]?;
            disk.put(at, &filled)
        }
        Tear::Cut(left) => {
            let count = (bytes.len() as u64).min(left);
            *tear = Tear::Cut(left - count);
            disk.put(at, &bytes[..count as usize])
        }
    }
}

/// Returns the number of calls up to and including the last sync; 0 if there is no sync.
fn last_sync(calls: &[DeviceCall]) -> usize
    ensures { IsLastSync calls.now result }
{
    let mut end = 0;
    for (i, call) in calls.iter().enumerate() {
        if let DeviceCall::Sync = *call {
            end = i + 1;
        }
    }
    end
}

/// Replays the calls on the disk, whose writes wrote `written`, and returns how many bytes they
/// wrote. Err: an allocation failed.
fn replay(disk: &mut SparseImage, calls: &[DeviceCall], written: &[u8]) -> Result<usize, AllocError>
    requires inside { AllInside disk.old.size calls.now }
    requires written { count_all calls.now ≤ length written.now }
    ensures contents { OnOk result (laid disk.new ≡ contents_after (laid disk.old) calls.now written.now) }
    ensures size { disk.new.size ≡ disk.old.size }
    ensures count { IfOk result (λ count. count ≡ count_all calls.now) }
{
    let mut from = 0;
    for call in calls {
        if let DeviceCall::Write(at, count) = *call {
            disk.put(at, &written[from..from + count])?;
            from += count;
        }
    }
    Ok(from)
}

/// Replays the calls on the disk with their writes torn. Err: an allocation failed.
fn tear_all(
    alloc: Global,
    disk: &mut SparseImage,
    calls: &[DeviceCall],
    written: &[u8],
    tear: Tear,
) -> Result<(), AllocError>
    requires inside { AllInside disk.old.size calls.now }
    requires written { count_all calls.now ≤ length written.now }
    ensures torn { OnOk result (laid disk.new ≡ torn_all tear (laid disk.old) calls.now written.now) }
    ensures size { disk.new.size ≡ disk.old.size }
{
    let mut tear = tear;
    let mut from = 0;
    for call in calls {
        if let DeviceCall::Write(at, count) = *call {
            tear_range(alloc, disk, at, &written[from..from + count], &mut tear)?;
            from += count;
        }
    }
    Ok(())
}

/// Replays the calls up to the point in time `moment`, and tears the writes after the last sync
/// before it. `moment` is `2k - 1` within call k, and `2k` after it. Err: an allocation failed.
pub(crate) fn leave_at(
    alloc: Global,
    disk: &mut SparseImage,
    calls: &[DeviceCall],
    written: &[u8],
    moment: u64,
    tear: Tear,
) -> Result<(), AllocError>
    requires among { moment ≤ 2 * length calls.now }
    requires inside { AllInside disk.old.size calls.now }
    requires written { count_all calls.now ≤ length written.now }
    ensures torn { OnOk result (IsTorn tear (laid disk.old) calls.now written.now moment (laid disk.new)) }
    ensures size { disk.new.size ≡ disk.old.size }
{
    let ended = (moment / 2) as usize;
    let begun = moment.div_ceil(2) as usize;
    let synced = last_sync(&calls[..ended]);
    let from = replay(disk, &calls[..synced], written)?;
    tear_all(alloc, disk, &calls[synced..begun], &written[from..], tear)
}
