//! Calls that allocate, with enough memory; the value that a failed coercion returns; the size of a
//! cell. The tests of the program check coercions and the order of keys.
use crate::arrays::locked;
use crate::asserts::expect;
use crate::shown::is_shown;
use oa_coerce::coerce;
use oa_model::{Bound, ValueType, VarType};
use oa_variant::{Scalar, Variant};
use std::alloc::Global;
use std::mem::size_of;
use std::rt::HostRuntime;

/// Returns whether a copy is equal and printed as `shown`.
fn is_copied_so(alloc: Global, value: &Variant, shown: &str) -> bool {
    match value.copy(alloc) {
        Ok(copy) => copy == *value && is_shown(alloc, &copy, shown),
        Err(_) => false,
    }
}

/// Returns whether a copy of a locked array has no lock.
fn is_copied_without_locks(alloc: Global) -> bool {
    let texts =
        "Array(SafeArray { elem: Bstr, bounds: [Bound { count: 0, lower: 0 }], cells: [], locks: 0 })";
    match locked(alloc, VarType::Bstr, &[Bound { count: 0, lower: 0 }]) {
        Some(array) => is_copied_so(alloc, &Variant::Array(array), texts),
        None => false,
    }
}

/// Returns whether the coercion of a number to an array fails and returns the number.
fn is_handed_back(alloc: Global) -> bool {
    let answer = coerce(
        alloc,
        Variant::One(Scalar::I4(7)),
        ValueType::Array(VarType::I4),
    );
    is_shown(alloc, &answer, "Err((One(I4(7)), TypeMismatch))")
}

/// A cell of an array is a scalar of at most 24 bytes.
#[test]
fn values_are_copied_or_handed_back(rt: HostRuntime) {
    let alloc = rt.alloc();
    let is_small = size_of::<Scalar>() <= 24;
    expect(
        &rt,
        "copies, refusals and sizes",
        is_copied_without_locks(alloc) && is_handed_back(alloc) && is_small,
    );
}
