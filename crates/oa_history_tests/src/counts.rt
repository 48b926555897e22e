//! The numbers of calls of the disk that the script makes, and the time on the clock of the disk
//! then. docs/reference/store.md counts these calls.
ghost use Rattle.std.specs.Prelude.{◌≡◌, ◌+◌, ◌*◌, ◌<◌, ◌≤◌};

/// The number of calls of an open. They are a sync, and reads of the first byte, the selector, the
/// head (three times), the library, the snapshot and the first gate byte. The last read returns all
/// groups of the script.
pub const OPENING: u64 = 9;

/// The number of calls of a commit of a group: its bytes, a sync, its gate byte, a sync.
pub const COMMIT: u64 = 4;

/// The number of calls of a checkpoint: the head, the body in one piece, a sync, the selector, a
/// sync.
pub const CHECKPOINT: u64 = 5;

/// Returns the number of crash points of a session of this many groups, each with a log record: its
/// start, and two for each call of the disk.
pub fn session_moments(groups: u16) -> u64
    ensures { result ≡ 19 + 8 * groups }
{
    1 + 2 * (OPENING + COMMIT * u64::from(groups))
}

/// Returns the number of crash points of a checkpoint and of the open before it.
pub fn checkpoint_moments() -> u64
    ensures { result ≡ 29 }
{
    1 + 2 * (OPENING + CHECKPOINT)
}

/// Returns the number of groups of a session, each with a log record, that are committed at the
/// point in time `moment`: the last call of their commits has ended.
pub fn groups_over(moment: u64) -> u64
    ensures all { moment < 26 + 8 * result }
    ensures no_more { 0 < result → 18 + 8 * result ≤ moment }
{
    moment.saturating_sub(2 * OPENING) / (2 * COMMIT)
}
