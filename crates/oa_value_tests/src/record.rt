//! A value that is written after other fields, a scalar by itself, and the opcode of a body. The
//! tests of the program check the other fields of replies.
use crate::asserts::expect;
use crate::shown::is_shown;
use oa_ndr::Ndr;
use oa_record::{Opcode, Query, opcode_of, put_variant_field};
use oa_variant::{Scalar, Variant};
use oa_wire_array::read_scalar;
use std::alloc::Global;
use std::rt::HostRuntime;

/// After an earlier byte, a count of bytes and a VARIANT of that many bytes.
static PUT: [u8; 33] = [
    9, 0x18, 0, 0, 0, 0, 0, 0, 0, 3, 0, 0, 0, 0, 0, 0, 0, 3, 0, 0, 0, 0, 0, 0, 0, 3, 0, 0, 0, 7, 0,
    0, 0,
];

/// Returns whether 7 is written this way after a byte.
fn is_put(alloc: Global) -> bool {
    let mut out = Vec::new(alloc);
    let _ = out.push(9);
    let is_done = put_variant_field(&mut out, &Variant::One(Scalar::I4(7))).is_ok();
    is_done && out.as_slice() == PUT.as_slice()
}

/// A wireVARIANT of the string "Hi".
static TEXT: [u8; 40] = [
    5, 0, 0, 0, 0, 0, 0, 0, 8, 0, 0, 0, 0, 0, 0, 0, 8, 0, 0, 0, 0, 0, 2, 0, 2, 0, 0, 0, 4, 0, 0, 0,
    2, 0, 0, 0, 72, 0, 105, 0,
];

/// Returns whether the string is read.
fn is_read(alloc: Global) -> bool {
    let read = read_scalar(alloc, &mut Ndr::new(&TEXT));
    is_shown(alloc, &read, "Ok(Bstr([72, 0, 105, 0]))")
}

#[test]
fn a_value_an_opcode_and_a_scalar(rt: HostRuntime) {
    let alloc = rt.alloc();
    let opcode = opcode_of(&[9, 0, 0, 0, 11, 0, 0, 0]);
    expect(&rt, "a value", is_put(alloc));
    let listing = Some(Opcode::Query(Query::Objects));
    expect(&rt, "a list of objects", opcode == listing);
    expect(&rt, "a text", is_read(alloc));
}
