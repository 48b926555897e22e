//! A format with a crash at each point in time returns. What each crash leaves is a test of the
//! program (`tests/program/test_crashes.py`).
use crate::script::{BANK, library, new_disk};
use oa_disk::Tear;
use oa_history::formatted;
use std::alloc::Global;
use std::rt::HostRuntime;

/// Crashes a format at each point in time. Its eight calls end at point 16.
fn answers(alloc: Global) -> Option<()> {
    let library = library(alloc)?;
    for moment in 0..17u64 {
        let disk = new_disk(alloc)?;
        let _ = formatted(alloc, disk, &library, BANK, moment, Tear::Lost).ok()?;
    }
    Some(())
}

#[test]
fn a_format_answers_at_each_moment(rt: HostRuntime) {
    assert!(rt; answers(rt.alloc()).is_some(), "17 moments");
}
