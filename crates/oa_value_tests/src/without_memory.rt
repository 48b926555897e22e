//! Calls that allocate nothing, one after another, on values that are made first. With enough
//! memory each call succeeds; `tests/program/test_raw_memory.py` fails all allocations from each
//! call of the allocator on, and then the values are not made.
use crate::arrays::array;
use crate::asserts::expect;
use crate::bstr::{ODD, is_told};
use crate::cells::made;
use crate::table::{cell, with_array};
use oa_array::SafeArray;
use oa_bstr::Bstr;
use oa_cells::Cells;
use oa_idl::parse;
use oa_image::ImageChunks;
use oa_model::{Bound, ValueType, VarType};
use oa_ndr::Ndr;
use oa_record::{RecordFault, read_request, tag_of};
use oa_table::{CellName, Event, Table};
use oa_typelib::{Access, Library, check};
use oa_variant::{Scalar, Variant};
use oa_wire_variant::wire_len;
use std::alloc::Global;
use std::rt::HostRuntime;
use uuid::Uuid;

/// Returns whether a string has its bytes, and null none; None if an allocation fails.
fn text(alloc: Global) -> Option<bool> {
    let text = Bstr::from_bytes(alloc, &ODD).ok()?;
    Some(is_told(&text) && Bstr::null().is_null())
}

/// Returns whether one of two cells with the value 7 is replaced.
fn is_replaced(cells: &mut Cells<u8>) -> bool {
    cells.len() == 2 && *cells.get(0) == 7 && cells.replace(1, 9) == 7
}

/// Returns whether one of two cells is replaced; None if an allocation fails.
fn cells(alloc: Global) -> Option<bool> {
    let mut cells = made(alloc, 2, 2, 7u8).ok()?;
    Some(is_replaced(&mut cells))
}

/// The bound of an array of two elements.
const TWO: [Bound; 1] = [Bound { count: 2, lower: 0 }];

/// Returns whether an element of a locked array is put and found.
fn is_put(array: &mut SafeArray<Scalar>) -> bool {
    let found = [
        array.lock().is_ok(),
        array.put_element(&[1], Scalar::I4(7)).is_ok(),
        array.element(&[1]).is_ok(),
        array.element(&[2]).is_err(),
        array.locks() == 1,
        array.bounds().len() == 1,
        array.unlock().is_ok(),
    ];
    found == [true; 7]
}

/// Returns whether an element of a locked array is put and found; None if an allocation fails.
fn elements(alloc: Global) -> Option<bool> {
    let mut array: SafeArray<Scalar> = SafeArray::create(alloc, VarType::I4, &TWO).ok()?;
    Some(is_put(&mut array))
}

/// A byte, numbers of 2, 4 and 8 bytes, a referent, and two bytes, each aligned.
const PARTS: [u8; 22] = [
    1, 0, 2, 0, 3, 0, 0, 0, 4, 0, 0, 0, 0, 0, 0, 0, 0, 0, 2, 0, 5, 6,
];

/// Returns whether a part of each kind is read, and nothing after them.
fn are_read() -> bool {
    let mut reader = Ndr::new(&PARTS);
    let found = [
        reader.u8().ok() == Some(1),
        reader.align(2).is_ok(),
        reader.u16().ok() == Some(2),
        reader.u32().ok() == Some(3),
        reader.u64().ok() == Some(4),
        reader.referent().ok() == Some(true),
        reader.bytes(2).is_ok(),
        reader.u8().is_err(),
    ];
    found == [true; 8]
}

/// Returns whether the encoded length and the type of an array of two cells are correct.
fn is_measured(value: &Variant) -> bool {
    let is_array = matches!(value.value_type(), ValueType::Array(VarType::I4));
    are_read() && is_array && wire_len(value) == 76
}

/// A body, its tag, and whether it is valid.
type Row = (&'static [u8], u32, bool);

/// A release, a body that is too short, and a body with an unknown opcode.
static BODIES: [Row; 3] = [
    (&[7, 0, 0, 0, 2, 0, 0, 0, 1, 0, 0, 0, 0, 0, 0, 0], 7, true),
    (&[7, 0, 0, 0, 2, 0], 0, false),
    (&[7, 0, 0, 0, 99, 0, 0, 0], 7, false),
];

/// Returns whether a body is read, or refused as bad stub data, as the row requires.
fn is_judged(alloc: Global, body: &[u8], is_read: bool) -> bool {
    match read_request(alloc, body) {
        Ok(_) => is_read,
        Err(fault) => !is_read && matches!(fault, RecordFault::Stub),
    }
}

/// Returns whether each body has the tag and the result of its row.
fn are_told(alloc: Global, rows: &[Row]) -> bool {
    for (body, tag, is_read) in rows {
        if tag_of(*body) != *tag || !is_judged(alloc, *body, *is_read) {
            return false;
        }
    }
    true
}

/// Returns whether an array is measured and each body has its result; None if an allocation fails.
fn fields(alloc: Global) -> Option<bool> {
    let value = array(alloc, VarType::I4, &TWO)?;
    Some(is_measured(&value) && are_told(alloc, &BODIES))
}

/// Returns whether the array in a cell is locked, and the table reports it.
fn is_locked(table: &mut Table, name: &CellName) -> bool {
    let mut front = [0u8; 8];
    let found = [
        table.lock(name).is_ok(),
        table.locked(1),
        table.get(name).is_some(),
        table.class_of(1).is_some(),
        table.next() == 2,
        ImageChunks::new(table).fill(&mut front) == 8,
        table.size_after(&Event::Release { number: 2 }) == table.image_size(),
        table.unlock(name).is_ok(),
    ];
    found == [true; 8] && front[0] == 2
}

/// Returns whether the array in a cell is locked; None if an allocation fails.
fn table(alloc: Global) -> Option<bool> {
    let mut table = with_array(alloc)?;
    Some(is_locked(&mut table, &cell(alloc, 8)))
}

/// No coclass of this library names its first interface.
const LIBRARY: &str = "[uuid(11223344-5566-7788-99aa-bbccddeeff01)] library L {
[uuid(11223344-5566-7788-99aa-bbccddeeff04)] dispinterface E { properties: [id(2)] long Size; }
[uuid(11223344-5566-7788-99aa-bbccddeeff02)] dispinterface D { properties: [id(1)] long Count; }
[uuid(11223344-5566-7788-99aa-bbccddeeff03)] coclass C { dispinterface D; } }";

/// Returns whether the interface that no coclass names is found, with its property.
fn is_found_alone(library: &Library) -> bool {
    let interface = Uuid::from_u128(0x1122_3344_5566_7788_99aa_bbcc_ddee_ff04);
    match library.interface(&interface) {
        Some(interface) => interface.property(2).is_some(),
        None => false,
    }
}

/// Returns whether a coclass, its interface and the member of that are found.
fn is_found(library: &Library) -> bool {
    let class = Uuid::from_u128(0x1122_3344_5566_7788_99aa_bbcc_ddee_ff03);
    match library.select(&class, &Uuid::nil()) {
        Some(interface) => {
            library.class(&class).is_some() && interface.member(1, Access::Get).is_ok()
        }
        None => false,
    }
}

/// Returns whether the interfaces of a library are found; None if an allocation fails.
fn library(alloc: Global) -> Option<bool> {
    let tree = parse(alloc, LIBRARY).ok()?;
    let library = check(alloc, tree).ok()?;
    Some(is_found(&library) && is_found_alone(&library))
}

/// Returns whether each of these calls succeeds, in order, or `None` if a value is not made.
fn each(alloc: Global) -> Option<bool> {
    let values = text(alloc)? && cells(alloc)? && elements(alloc)?;
    Some(values && fields(alloc)? && table(alloc)? && library(alloc)?)
}

#[test]
fn calls_without_memory(rt: HostRuntime) {
    let found = each(rt.alloc());
    expect(&rt, "not made", found.is_some());
    expect(&rt, "answered otherwise", found == Some(true));
}
