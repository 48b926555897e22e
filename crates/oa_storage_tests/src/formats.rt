//! A disk that is one byte too small for a store is refused before its first call. The tests of the
//! program check format and upgrade with crashes and failures.
use oa_disk::MemoryDisk;
use oa_store::{FormatFault, UpgradeFault, format, laws, upgrade};
use std::alloc::Global;
use std::rt::HostRuntime;

/// The least size of a store with banks of `BANK` bytes.
const SIZE: usize = 75_505_664;

/// The size of a bank in bytes.
const BANK: u32 = 20_971_520;

/// The results of a format of a disk of zeros, and of an upgrade after it. Each is the error and
/// the point in time of the disk.
type Answers = (Option<FormatFault>, u64, Option<UpgradeFault>, u64);

/// An upgrade of a store of format 2 makes four calls: a sync, and reads of the first byte, the
/// selector and the head.
const SIZES: [(usize, Answers); 2] = [
    (SIZE, (None, 16, Some(UpgradeFault::AlreadyNew), 24)),
    (
        SIZE - 1,
        (
            Some(FormatFault::TooSmall),
            0,
            Some(UpgradeFault::TooSmall),
            0,
        ),
    ),
];

/// Returns the results for a disk of `size` zeros; None if an allocation fails.
fn answers(alloc: Global, size: usize) -> Option<Answers> {
    let mut disk = MemoryDisk::new(alloc, size, 60, 1000).ok()?;
    let of_format = format(alloc, &mut disk, b"library", BANK).err();
    let behind_it = disk.moments();
    let of_upgrade = upgrade(alloc, &mut disk, BANK).err();
    Some((of_format, behind_it, of_upgrade, disk.moments()))
}

/// Returns the first size with another result.
fn first_other(alloc: Global) -> Option<usize> {
    for (size, wanted) in SIZES {
        if answers(alloc, size) != Some(wanted) {
            return Some(size);
        }
    }
    None
}

#[test]
fn one_byte_decides_whether_a_disk_is_large_enough(rt: HostRuntime) {
    laws::upgrade_leaves_a_store();
    laws::replacement_leaves_a_store();
    assert_eq!(rt; first_other(rt.alloc()), None);
}
