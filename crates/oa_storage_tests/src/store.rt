//! An open store allocates nothing. The tests of the program, and those of oa_history_tests on
//! disks in memory, check crashes at any point and calls of the device that fail.
ghost use Rattle.std.specs.Prelude.{◌≡◌, true};
ghost use Rattle.oa_image.specs.promise.Tables.{is_numbered};

use oa_disk::{Disk, MemoryDisk};
use oa_image::laws::images_are_counted;
use oa_store::{Store, format};
use oa_table::Table;
use std::alloc::Global;
use std::rt::HostRuntime;

/// The library of the store. Any bytes are valid here.
const LIBRARY: &[u8; 7] = b"library";

/// The buffer of a group with the log record that creates object 1.
const CREATE: [u8; 26] = [
    0, 0, 0, 0, 1, 1, 0, 0, 0, 0x44, 0x33, 0x22, 0x11, 0x66, 0x55, 0x88, 0x77, 0x99, 0xaa, 0xbb,
    0xcc, 0xdd, 0xee, 0xff, 3, 0,
];

/// The buffer of a group with the log record that puts 7 into a property of object 1.
const PUT: [u8; 38] = [
    0, 0, 0, 0, 3, 1, 0, 0, 0, 0x44, 0x33, 0x22, 0x11, 0x66, 0x55, 0x88, 0x77, 0x99, 0xaa, 0xbb,
    0xcc, 0xdd, 0xee, 0xff, 2, 1, 0, 0, 0, 0, 0, 3, 0, 7, 0, 0, 0, 0,
];

/// Commits the group in this buffer. Returns whether that succeeds.
fn add<D: Disk>(store: &mut Store<D>, batch: &mut [u8]) -> bool {
    batch.len() > 5 && batch.len() < store.room() as usize && store.commit(batch).is_ok()
}

/// Commits the group that creates object 1. Returns whether that succeeds.
fn create<D: Disk>(store: &mut Store<D>) -> bool {
    let mut batch = CREATE;
    add(store, &mut batch)
}

/// Commits the group that puts 7 into a property of object 1. Returns whether that succeeds.
fn put<D: Disk>(store: &mut Store<D>) -> bool {
    let mut batch = PUT;
    add(store, &mut batch)
}

/// Makes a checkpoint of this table. Returns whether that succeeds.
fn settle<D: Disk>(store: &mut Store<D>, table: &Table) -> bool
    requires { is_numbered table.now ≡ true }
{
    images_are_counted();
    let is_small = table.image_size() <= 15_728_640 && store.bank_size() >= 20_971_520;
    is_small && store.checkpoint(table).is_ok()
}

/// Creates an object, puts its property, makes a checkpoint, and puts the property again. Returns
/// whether each call succeeds.
fn is_written<D: Disk>(store: &mut Store<D>, table: &Table) -> bool
    requires { is_numbered table.now ≡ true }
{
    let is_begun = create(store) && put(store) && !store.checkpoint_due();
    is_begun && settle(store, table) && put(store)
}

/// Makes and opens a store, and then calls `is_written`. Returns `None` if the store is not made.
/// Only the calls before `is_written` allocate: `tests/program/test_raw_memory.py` fails all
/// allocations from each call of the allocator on.
fn written(alloc: Global) -> Option<bool> {
    let mut disk = MemoryDisk::new(alloc, 75_505_664, 100, 2000).ok()?;
    format(alloc, &mut disk, LIBRARY, 20_971_520).ok()?;
    let (mut store, table) = Store::open(alloc, disk, LIBRARY).ok()?;
    Some(is_written(&mut store, &table))
}

#[test]
fn an_open_store_takes_no_memory(rt: HostRuntime) {
    let found = written(rt.alloc());
    assert!(rt; found.is_some(), "not made");
    assert_eq!(rt; found, Some(true));
}
