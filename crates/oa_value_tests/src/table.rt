//! The calls of a table that each apply one log record. No request makes them, since a server
//! applies log records. The tests check their errors, the table after them, and the theorems about
//! tables.
use crate::arrays::array;
use crate::asserts::expect;
use oa_array::{ArrayFault, Indices};
use oa_image::write_table;
use oa_model::{Bound, VarType};
use oa_table::{CellName, Event, Place, Table, TableFault, laws};
use oa_variant::Scalar;
use std::alloc::Global;
use std::rt::HostRuntime;
use uuid::Uuid;

/// Returns the cell of the property with this DISPID, without parameters, in object 1.
pub fn cell(alloc: Global, dispid: i32) -> CellName {
    let place = Place::new(Uuid::nil(), dispid, Vec::new(alloc));
    CellName { object: 1, place }
}

/// The bounds of the array.
const BOUNDS: [Bound; 2] = [
    Bound {
        count: 2,
        lower: -1,
    },
    Bound { count: 3, lower: 5 },
];

/// Returns a table whose object 1 has an array of zeros in its cell 8; None if an allocation fails.
pub fn with_array(alloc: Global) -> Option<Table> {
    let value = array(alloc, VarType::I2, &BOUNDS)?;
    let mut table = Table::new(alloc);
    table.create(1, Uuid::nil()).ok()?;
    table.put(cell(alloc, 8), value).ok()?;
    Some(table)
}

/// Returns the error of a change.
fn refusal(answer: Result<(), (Event, TableFault)>) -> Option<TableFault> {
    match answer {
        Ok(()) => None,
        Err((_, fault)) => Some(fault),
    }
}

/// Puts the element of the array at the indices -1 and 7.
fn put(alloc: Global, table: &mut Table, value: Scalar) -> Option<TableFault> {
    let mut indices = Vec::new(alloc);
    let _ = indices.push(-1);
    let _ = indices.push(7);
    refusal(table.put_element(cell(alloc, 8), Indices::new(indices), value))
}

/// Changes the first bound of the array in a cell.
fn shorten(alloc: Global, table: &mut Table, dispid: i32) -> Option<TableFault> {
    refusal(table.redim(cell(alloc, dispid), Bound { count: 1, lower: 0 }))
}

/// Makes changes that fail, and one of each kind that succeeds. Returns the errors.
fn refusals(alloc: Global, table: &mut Table) -> [Option<TableFault>; 6] {
    [
        refusal(table.create(1, Uuid::nil())),
        put(alloc, table, Scalar::I4(6)),
        put(alloc, table, Scalar::I2(6)),
        shorten(alloc, table, 9),
        shorten(alloc, table, 8),
        refusal(table.release(2)),
    ]
}

/// The errors of the changes.
const REFUSED: [Option<TableFault>; 6] = [
    Some(TableFault::WrongNumber),
    Some(TableFault::Array(ArrayFault::TypeMismatch)),
    None,
    Some(TableFault::NotArray),
    None,
    Some(TableFault::NoObject),
];

/// The snapshot of the table then: object 1, and in its cell 8 an array of one by three with a 6 in
/// its last element.
static LEFT: [u8; 80] = [
    2, 0, 0, 0, 1, 0, 0, 0, 1, 0, 0, 0, 0, 0, 0, 0, 0, 0, 0, 0, 0, 0, 0, 0, 0, 0, 0, 0, 1, 0, 0, 0,
    0, 0, 0, 0, 0, 0, 0, 0, 0, 0, 0, 0, 0, 0, 0, 0, 8, 0, 0, 0, 0, 0, 2, 32, 2, 0, 1, 0, 0, 0, 0,
    0, 0, 0, 3, 0, 0, 0, 5, 0, 0, 0, 0, 0, 0, 0, 6, 0,
];

/// Returns whether the table has this snapshot.
fn is_imaged(alloc: Global, table: &Table, wanted: &[u8]) -> bool {
    let mut image = Vec::new(alloc);
    let is_written = write_table(table, &mut image).is_ok();
    is_written && image.as_slice() == wanted
}

/// Returns whether the changes have these results, and whether the table is empty after its object
/// is released.
fn is_changed(alloc: Global, table: &mut Table) -> [bool; 4] {
    [
        refusals(alloc, table) == REFUSED,
        is_imaged(alloc, table, &LEFT),
        table.release(1).is_ok(),
        is_imaged(alloc, table, &[2, 0, 0, 0, 0, 0, 0, 0]),
    ]
}

/// Returns whether the changes of a table have their results; None if an allocation fails.
fn changes(alloc: Global) -> Option<[bool; 4]> {
    let mut table = with_array(alloc)?;
    Some(is_changed(alloc, &mut table))
}

#[test]
fn a_table_is_changed_by_calls(rt: HostRuntime) {
    laws::locks_change_no_event();
    expect(&rt, "changes", changes(rt.alloc()) == Some([true; 4]));
}
