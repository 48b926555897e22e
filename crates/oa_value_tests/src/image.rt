//! The encoding of a single log record, and the place that is reported if a record is cut off. The
//! tests of the program check everything else that is encoded and decoded.
use crate::asserts::expect;
use oa_image::{ImageFault, event_len, read_event, write_event};
use oa_table::Event;
use std::alloc::Global;
use std::rt::HostRuntime;

/// The encoding of a put of 7 into a property of object 1. The first ten bytes end within the
/// interface identifier, which begins at byte 5.
static PUT: [u8; 33] = [
    3, 1, 0, 0, 0, 0x44, 0x33, 0x22, 0x11, 0x66, 0x55, 0x88, 0x77, 0x99, 0xaa, 0xbb, 0xcc, 0xdd,
    0xee, 0xff, 2, 1, 0, 0, 0, 0, 0, 3, 0, 7, 0, 0, 0,
];

/// Returns whether a log record has this encoding.
fn is_imaged(alloc: Global, event: &Event, image: &[u8]) -> bool {
    let mut written = Vec::new(alloc);
    if let Err(_) = written.resize(event_len(event), 0) {
        return false;
    }
    write_event(event, 0, &mut written);
    written.as_slice() == image
}

/// Returns whether decoding these bytes returns a log record that is encoded as the same bytes.
fn is_read(alloc: Global, image: &[u8]) -> bool {
    match read_event(alloc, image) {
        Ok(event) => is_imaged(alloc, &event, image),
        Err(_) => false,
    }
}

#[test]
fn an_event_is_read_whole_or_damaged_where_its_part_begins(rt: HostRuntime) {
    let alloc = rt.alloc();
    expect(&rt, "a put", is_read(alloc, &PUT));
    let fault = read_event(alloc, &PUT[..10]).err();
    expect(
        &rt,
        "an event that is cut",
        fault == Some(ImageFault::Damaged(5)),
    );
}
