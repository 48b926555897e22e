//! Whether an event applies to a table.
ghost use Rattle.std.specs.Prelude.{◌≡◌, ℕ, List};
ghost use Rattle.oa_decision.specs.Limits.{GivesReason};
ghost use Rattle.oa_table.specs.promise.Elements.{with_element_put, redimensioned_value};
ghost use Rattle.oa_table.specs.promise.Events.{applied};
ghost use Rattle.oa_table.specs.declared.event.Event.TheVariants as events;
ghost use Rattle.oa_variant.specs.declared.variant.Variant.TheVariants as variants;
ghost use Rattle.oa_variant.specs.declared.variant.Variant.{Variant as AVariant};

use oa_array::{ArrayFault, Cell, Indices, SafeArray};
use oa_model::{Bound, GREATEST_OBJECT_NUMBER};
use oa_table::{CellName, Event, Table, TableFault};
use oa_variant::{Scalar, Variant};

/// Returns why a table refuses an event; None if the event applies. Allocates nothing.
pub(crate) fn refusal_of(table: &Table, event: &Event) -> Option<TableFault>
    ensures { GivesReason (applied event.now table.now) result }
{
    match event {
        Event::Create { number, .. } => of_create(table, *number),
        Event::Release { number } => of_release(table, *number),
        Event::Put { name, .. } => of_put(table, name),
        Event::PutElement { name, index, value } => of_element(table, name, index, value),
        Event::Redim { name, bound } => of_redim(table, name, *bound),
    }
}

/// Returns why a creation is refused: `number` is not the table's next one, or is above the
/// greatest number. None if it applies.
fn of_create(table: &Table, number: u32) -> Option<TableFault>
    ensures { (class : List ℕ) → GivesReason (applied (events.Create number class) table.now) result }
{
    if number != table.next() || number > GREATEST_OBJECT_NUMBER {
        return Some(TableFault::WrongNumber);
    }
    None
}

/// Returns why a release is refused: the object is not live, or has a locked array. None if it
/// applies.
fn of_release(table: &Table, number: u32) -> Option<TableFault>
    ensures { GivesReason (applied (events.Release number) table.now) result }
{
    if table.class_of(number).is_none() {
        return Some(TableFault::NoObject);
    }
    if table.locked(number) {
        return Some(TableFault::Array(ArrayFault::IsLocked));
    }
    None
}

/// Returns why a put is refused: the object is not live, or the array in the cell is locked. None
/// if it applies.
fn of_put(table: &Table, name: &CellName) -> Option<TableFault>
    ensures { (value : AVariant) → GivesReason (applied (events.Put name.now value) table.now) result }
{
    let Some(object) = table.object(name.object) else {
        return Some(TableFault::NoObject);
    };
    if let Some(Variant::Array(array)) = object.get(&name.place)
        && array.locks() != 0
    {
        return Some(TableFault::Array(ArrayFault::IsLocked));
    }
    None
}

/// Returns why an element is refused: the object is not live, the cell has no array, or the array
/// refuses it. None if it applies.
fn of_element(
    table: &Table,
    name: &CellName,
    index: &Indices,
    element: &Scalar,
) -> Option<TableFault>
    ensures { GivesReason (applied (events.PutElement name.now index.now element.now) table.now) result }
{
    let Some(object) = table.object(name.object) else {
        return Some(TableFault::NoObject);
    };
    match object.get(&name.place) {
        Some(Variant::Array(array)) => of_array_element(array, index.as_slice(), element),
        _ => Some(TableFault::NotArray),
    }
}

/// Returns why an array refuses an element: the index list is not within its bounds, or else the
/// element is of another type. None if it does not.
fn of_array_element(
    array: &SafeArray<Scalar>,
    index: &[i32],
    element: &Scalar,
) -> Option<TableFault>
    ensures { GivesReason (with_element_put index.now element.now (variants.Array array.now)) result }
{
    let fits = element.fits(array.elem());
    match array.element(index) {
        Err(_) => Some(TableFault::Array(ArrayFault::BadIndex)),
        Ok(_) => {
            if fits {
                return None;
            }
            Some(TableFault::Array(ArrayFault::TypeMismatch))
        }
    }
}

/// Returns why a bound is refused: the object is not live, the cell has no array, or the array
/// refuses it. None if it applies.
fn of_redim(table: &Table, name: &CellName, bound: Bound) -> Option<TableFault>
    ensures { GivesReason (applied (events.Redim name.now bound) table.now) result }
{
    let Some(object) = table.object(name.object) else {
        return Some(TableFault::NoObject);
    };
    match object.get(&name.place) {
        Some(Variant::Array(array)) => of_array_redim(array, bound),
        _ => Some(TableFault::NotArray),
    }
}

/// Returns why an array refuses a bound: the array is locked, or else cannot have it. None if it
/// does not.
fn of_array_redim(array: &SafeArray<Scalar>, bound: Bound) -> Option<TableFault>
    ensures { GivesReason (redimensioned_value bound (variants.Array array.now)) result }
{
    if array.locks() > 0 {
        return Some(TableFault::Array(ArrayFault::IsLocked));
    }
    if array.redim_count(bound).is_none() {
        return Some(TableFault::Array(ArrayFault::InvalidArgument));
    }
    None
}
