//! The array in a cell.
ghost use Rattle.std.specs.Prelude.{◌≡◌, None, Err, ℤ, List};
ghost use Rattle.std.specs.Result.{result_map_both};
ghost use Rattle.oa_decision.specs.promise.ArrayCells.{array_element_at, array_in_value, array_locks, element_of};
ghost use Rattle.oa_decision.specs.promise.ArrayCells.{element_type_at, element_type_of, locks_found};
ghost use Rattle.oa_variant.specs.promise.Variants.{zero_value};

use super::Decider;
use super::cell::BoundCell;
use crate::refusal::Refusal;
use oa_array::{ArrayFault, SafeArray};
use oa_model::{ValueType, VarType};
use oa_table::TableFault;
use oa_variant::{Scalar, Variant};

impl Decider<'_> {
    /// Returns the number of locks of the array in a cell. Err: the cell has no array
    /// (DISP_E_TYPEMISMATCH), or was never put.
    pub(super) fn find_locks(&self, cell: &BoundCell) -> Result<u16, Refusal>
        ensures { result ≡ locks_found self.now cell.now }
    {
        match self.table.get(&cell.name) {
            Some(value) => Ok(array_of(value)?.locks()),
            None => Err(no_lock(cell.declared)),
        }
    }
}

/// Returns the array in a value. Err: DISP_E_TYPEMISMATCH if the value is none.
fn array_of(value: &Variant) -> Result<&SafeArray<Scalar>, Refusal>
    ensures { result_map_both (λ a. a.now) (λ e. e) result ≡ array_in_value value.now }
{
    match value {
        Variant::One(_) => Err(Refusal::of(TableFault::NotArray.code())),
        Variant::Array(array) => Ok(array),
    }
}

/// Returns the element of a value at an index list, by reference. Err: the value is no array
/// (DISP_E_TYPEMISMATCH), or has no such element (DISP_E_BADINDEX).
pub(super) fn element_of<'a>(index: &[i32], value: &'a Variant) -> Result<&'a Scalar, Refusal>
    ensures { result_map_both (λ s. s.now) (λ e. e) result ≡ element_of index.now value.now }
{
    element_at(index, array_of(value)?)
}

/// Returns the type of the elements of a value, if it has one at an index list. Errors are those of
/// `element_of`.
pub(super) fn element_type_of(index: &[i32], value: &Variant) -> Result<VarType, Refusal>
    ensures { result ≡ element_type_of index.now value.now }
{
    type_at(index, array_of(value)?)
}

/// Returns the element of an array at an index list. Err: there is none.
fn element_at<'a>(index: &[i32], array: &'a SafeArray<Scalar>) -> Result<&'a Scalar, Refusal>
    ensures { result_map_both (λ s. s.now) (λ e. e) result ≡ array_element_at index.now array.now }
{
    Ok(array.element(index)?)
}

/// Returns the type of the elements of an array. Err: there is none at the index list.
fn type_at(index: &[i32], array: &SafeArray<Scalar>) -> Result<VarType, Refusal>
    ensures { result ≡ element_type_at index.now array.now }
{
    array.element(index)?;
    Ok(array.elem())
}

/// Returns why a cell that was never put has no element at any index list: the zero of its type is
/// no array, or an array without elements.
pub(super) fn no_element(declared: ValueType) -> Refusal
    ensures read { (index : List ℤ) → element_of index (zero_value declared) ≡ Err result }
    ensures typed { (index : List ℤ) → element_type_of index (zero_value declared) ≡ Err result }
{
    match declared {
        ValueType::One(_) => Refusal::of(TableFault::NotArray.code()),
        ValueType::Array(_) => Refusal::of(ArrayFault::BadIndex.code()),
    }
}

/// Returns why the array of a cell that was never put can be neither locked nor unlocked.
fn no_lock(declared: ValueType) -> Refusal
    ensures { array_locks declared None ≡ Err result }
{
    match declared {
        ValueType::One(_) => Refusal::of(TableFault::NotArray.code()),
        ValueType::Array(_) => Refusal::of(ArrayFault::Unexpected.code()),
    }
}
