//! The position of a reader after a read that is too short, and a writer that begins after other
//! bytes.
use crate::asserts::expect;
use oa_ndr::{Ndr, NdrOut};
use std::alloc::Global;
use std::rt::HostRuntime;

/// Returns for each kind of part whether its read fails with two bytes left at an unaligned
/// position.
fn are_short(reader: &mut Ndr<'_>) -> [bool; 6] {
    [
        reader.u16().is_err(),
        reader.u32().is_err(),
        reader.u64().is_err(),
        reader.referent().is_err(),
        reader.align(8).is_err(),
        reader.bytes(3).is_err(),
    ]
}

/// Reads parts after the first five of these bytes. Returns which reads fail, the position of the
/// reader then, and the byte there.
fn behind_five(bytes: &[u8]) -> ([bool; 6], usize, Option<u8>) {
    let mut reader = Ndr::new(bytes);
    let _ = reader.bytes(5);
    let short = are_short(&mut reader);
    (short, reader.position(), reader.u8().ok())
}

/// Writes a byte and a number. Returns the positions after these, after a truncation to a greater
/// length, and after one to the byte.
fn cut(writer: &mut NdrOut) -> [usize; 3] {
    let _ = writer.u8(1);
    let _ = writer.u32(9);
    let behind = writer.position();
    writer.truncate(9);
    let uncut = writer.position();
    writer.truncate(1);
    [behind, uncut, writer.position()]
}

/// Returns whether a writer that begins after a byte of another field counts from its own start,
/// and returns both.
fn is_cut(alloc: Global) -> bool {
    let mut before = Vec::new(alloc);
    let _ = before.push(7);
    let mut writer = NdrOut::new(before);
    let is_so = cut(&mut writer) == [8, 8, 1] && writer.written() == [1].as_slice();
    is_so && writer.into_vec().as_slice() == [7, 1].as_slice()
}

#[test]
fn short_moves_nothing_and_a_writer_counts_from_the_start_of_its_field(rt: HostRuntime) {
    let found = behind_five(&[1, 0xAA, 2, 0, 3, 4, 0]);
    expect(&rt, "seven bytes", found == ([true; 6], 5, Some(4)));
    expect(&rt, "a cut", is_cut(rt.alloc()));
}
