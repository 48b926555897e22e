//! Changes of the value in a cell.
ghost use Rattle.std.specs.Prelude.{◌≡◌, ◌≤◌, ◌+◌, Ok, IfOk, IfErr, OnErr, OnOk};
ghost use Rattle.oa_variant.specs.declared.variant.Variant.TheVariants as variants;
ghost use Rattle.oa_formats.specs.Lengths.{max_value_image};
ghost use Rattle.oa_formats.specs.promise.Lengths.{value_size};
ghost use Rattle.oa_table.specs.promise.Elements.{with_element_put, locked_value, locks_of, redimensioned_value};
ghost use Rattle.oa_table.specs.promise.Elements.{released_value};
ghost use Rattle.oa_table.specs.Elements.{of_array, replaced_value};
ghost use Rattle.oa_table.specs.Outcomes.{CountsLocks, Does};
ghost use Rattle.oa_table.specs.Sizes.{largest_image};

use crate::TableFault;
use crate::difference::Difference;
use crate::size::value_size;
use oa_array::{ArrayFault, Cell, SafeArray};
use oa_model::Bound;
use oa_variant::{Scalar, Variant};
use std::alloc::Global;

/// Returns the number of locks of the array in a value; 0 for another value.
pub(crate) fn locks_of(value: &Variant) -> u16
    ensures { result ≡ locks_of value.now }
{
    match value {
        Variant::One(_) => 0,
        Variant::Array(array) => array.locks(),
    }
}

/// Replaces a value, and returns the difference in size. Err: its array is locked; the new value is
/// returned.
pub(crate) fn replace(
    old: &mut Variant,
    value: Variant,
) -> Result<Difference, (Variant, TableFault)>
    ensures does { Does value (replaced_value value old.old) old.old old.new result }
    ensures gone { IfOk result (λ change. change.gone ≡ value_size old.old) }
    ensures come { IfOk result (λ change. change.come ≡ value_size old.new) }
    ensures small { IfOk result (λ change. change.come ≤ max_value_image) }
    ensures starved { IfErr result (λ e. e.1 ≡ TableFault.Memory → ⊥) }
{
    if locks_of(old) != 0 {
        return Err((value, TableFault::Array(ArrayFault::IsLocked)));
    }
    let gone = value_size(old);
    let come = value_size(&value);
    *old = value;
    Ok(Difference { gone, come })
}

/// The limits of a replaced value, in bytes: the greatest length of the new value's image, the
/// present length of the table's image, and its greatest length afterwards.
#[derive(Clone, Copy)]
pub(crate) struct Room {
    /// The greatest length of the new value's image, in bytes.
    pub longest: u64,
    /// The present length of the table's image, in bytes.
    pub size: u64,
    /// The greatest length of the table's image afterwards, in bytes.
    pub most: u64,
}

/// Replaces a value, and returns the difference in size. Err: the new value is not within the
/// limits of `room`, or the array is locked; the new value is returned, and nothing changes.
pub(crate) fn replace_within(
    old: &mut Variant,
    value: Variant,
    room: Room,
) -> Result<Difference, Variant>
    requires { (room.size ≤ largest_image) × (room.most ≤ largest_image) }
    ensures done { OnOk result (replaced_value value old.old ≡ Ok old.new) }
    ensures set { OnOk result (old.new ≡ value) }
    ensures gone { IfOk result (λ change. change.gone ≡ value_size old.old) }
    ensures come { IfOk result (λ change. change.come ≡ value_size value) }
    ensures small { IfOk result (λ change. change.come ≤ max_value_image) }
    ensures longest { IfOk result (λ change. change.come ≤ room.longest) }
    ensures within { IfOk result (λ change. room.size + change.come ≤ room.most + change.gone) }
    ensures back { IfErr result (λ back. (back ≡ value) × (old.new ≡ old.old)) }
    ensures refused { OnErr result (locks_of old.old ≡ 0 → value_size value ≤ room.longest
        → room.size + value_size value ≤ room.most + value_size old.old → ⊥) }
{
    let (gone, come) = (value_size(old), value_size(&value));
    if locks_of(old) > 0 || come > room.longest || room.size + come > room.most + gone {
        return Err(value);
    }
    *old = value;
    Ok(Difference { gone, come })
}

/// Sets the element at an index list of the array in a value. Err: the value is no array, or the
/// array refuses the element, which is returned.
pub(crate) fn put_element(
    value: &mut Variant,
    index: &[i32],
    element: Scalar,
) -> Result<(), (Scalar, TableFault)>
    ensures does { Does element (with_element_put index.now element value.old) value.old value.new result }
    ensures starved { IfErr result (λ e. e.1 ≡ TableFault.Memory → ⊥) }
{
    match value {
        Variant::One(_) => Err((element, TableFault::NotArray)),
        Variant::Array(array) => put_into(array, index, element),
    }
}

/// Sets the element at an index list of an array. Err: the array refuses it; the element is
/// returned.
fn put_into(
    array: &mut SafeArray<Scalar>,
    index: &[i32],
    element: Scalar,
) -> Result<(), (Scalar, TableFault)>
    ensures does { Does element (with_element_put index.now element (variants.Array array.old))
        (variants.Array array.old) (variants.Array array.new) result }
    ensures starved { IfErr result (λ e. e.1 ≡ TableFault.Memory → ⊥) }
{
    // For the prover: the result of `fits` is the definition `fits_type`.
    let _fits = element.fits(array.elem());
    match array.put_element(index, element) {
        Ok(_) => Ok(()),
        Err((element, fault)) => Err((element, TableFault::Array(fault))),
    }
}

/// Replaces the first bound of the array in a value. Err: the value is no array, the array refuses
/// the bound, or an allocation failed; the bound is returned.
pub(crate) fn redim(
    alloc: Global,
    value: &mut Variant,
    bound: Bound,
) -> Result<(), (Bound, TableFault)>
    ensures { Does bound (redimensioned_value bound value.old) value.old value.new result }
{
    match value {
        Variant::One(_) => Err((bound, TableFault::NotArray)),
        Variant::Array(array) => array
            .redim(alloc, bound)
            .map_err(|fault| (bound, of_array(fault))),
    }
}

/// Converts the refusal of an array into that of a change of the table.
fn of_array(fault: ArrayFault) -> TableFault
    ensures { result ≡ of_array fault }
{
    match fault {
        ArrayFault::Memory => TableFault::Memory,
        _ => TableFault::Array(fault),
    }
}

/// Adds a lock to the array in a value, and returns the new number of locks. Err: the value is no
/// array, or the array refuses the lock.
pub(crate) fn lock(value: &mut Variant) -> Result<u16, TableFault>
    ensures { CountsLocks (locked_value value.old) locks_of value.old value.new result }
{
    match value {
        Variant::One(_) => Err(TableFault::NotArray),
        Variant::Array(array) => array.lock().map_err(TableFault::Array),
    }
}

/// Removes a lock from the array in a value, and returns the new number of locks. Err: the value is
/// no array, or the array has no lock.
pub(crate) fn unlock(value: &mut Variant) -> Result<u16, TableFault>
    ensures { CountsLocks (released_value value.old) locks_of value.old value.new result }
{
    match value {
        Variant::One(_) => Err(TableFault::NotArray),
        Variant::Array(array) => array.unlock().map_err(TableFault::Array),
    }
}
