//! Arrays for values and cells.
ghost use Rattle.std.specs.Prelude.{◌≡◌, IfSome};
ghost use Rattle.oa_table.specs.promise.Elements.{locks_of};

use oa_array::SafeArray;
use oa_model::{Bound, VarType};
use oa_variant::{Scalar, Variant};
use std::alloc::Global;

/// Returns an array of zeros; None if the type and bounds are not valid or the allocation fails.
pub fn array(alloc: Global, elem: VarType, bounds: &[Bound]) -> Option<Variant>
    ensures { IfSome result (λ value. locks_of value ≡ 0) }
{
    Some(Variant::Array(SafeArray::create(alloc, elem, bounds).ok()?))
}

/// Returns an array of zeros, locked once; None if the type and bounds are not valid or the
/// allocation fails.
pub fn locked(alloc: Global, elem: VarType, bounds: &[Bound]) -> Option<SafeArray<Scalar>>
    ensures { IfSome result (λ array. array.locks ≡ 1) }
{
    let mut array = SafeArray::create(alloc, elem, bounds).ok()?;
    array.lock().ok()?;
    Some(array)
}
