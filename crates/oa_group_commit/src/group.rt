//! The end of a group.
ghost use Rattle.std.specs.Prelude.{◌≡◌, ◌<◌, false};
ghost use Rattle.oa_model.specs.promise.Limits.{group_bytes};
ghost use Rattle.oa_group_commit.specs.promise.Groups.{fills};

use oa_model::GROUP_BYTES;

/// Returns whether `count` requests, whose events have `bytes` bytes together, are a whole group of
/// at most `size` requests.
#[tactic(auto, unfolding(crate::specs::promise::Groups::fills))]
pub fn is_full(size: usize, count: usize, bytes: usize) -> bool
    ensures fills { result ≡ fills size count bytes }
    // (an open group has space for the largest event)
    ensures few { result ≡ false → bytes < group_bytes }
{
    size <= count || GROUP_BYTES <= bytes
}
