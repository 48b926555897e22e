//! Points in time of disks in memory.
ghost use Rattle.std.specs.Prelude.{◌*◌, ◌+◌, ◌≤◌};

/// Returns the number of calls that have begun at the point in time `moment`: `2k - 1` is within
/// call k, and `2k` is after it.
pub fn begun_at(moment: u64) -> u64
    ensures all { moment ≤ 2 * result }
    ensures no_more { 2 * result ≤ moment + 1 }
{
    moment.div_ceil(2)
}
