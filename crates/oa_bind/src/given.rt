//! Finds the argument for a DISPID.
ghost use Rattle.std.specs.Prelude.{◌≡◌, ◌≢◌, ◌<◌, ◌≤◌, ℕ, length, slice_get, Some, IfSome};
ghost use Rattle.std.specs.List.{position_from};
ghost use Rattle.std.specs.Ordering.{int_eq};
ghost use Rattle.oa_bind.specs.promise.Given.{argument_index, is_parameter, says_missing};

use oa_model::HResult;
use oa_variant::{Scalar, Variant};

/// The code of an argument that is marked as missing: the ERROR DISP_E_PARAMNOTFOUND.
pub(crate) const MISSING: u32 = HResult::DISP_E_PARAMNOTFOUND.0;

/// Returns whether a DISPID is that of one of the first n parameters.
pub(crate) fn is_parameter(n: usize, id: i32) -> bool
    ensures { result ≡ is_parameter n id }
{
    id >= 0 && (id.unsigned_abs() as usize) < n
}

/// Returns the index in rgvarg of the argument for a DISPID, among `count` arguments; None if there
/// is none.
#[tactic(auto, unfolding(crate::specs::promise::Given::argument_index))]
pub(crate) fn index_of(named: &[i32], count: usize, id: i32) -> Option<usize>
    requires { length named.now ≤ count }
    ensures value { result ≡ argument_index named.now count id }
    ensures within { IfSome result (λ i. i < count) }
{
    if is_parameter(count - named.len(), id) {
        return Some(count - 1 - id.unsigned_abs() as usize);
    }
    first_named(named, id)
}

/// Returns the first index of a DISPID in `named`; None if it is not there.
fn first_named(named: &[i32], id: i32) -> Option<usize>
    ensures value { result ≡ position_from (λ n. int_eq n id) 0 named.now }
    ensures within { IfSome result (λ i. i < length named.now) }
{
    'named: for i in 0..named.len() {
        if named[i] == id {
            return Some(i);
        }
    }
    None
}

/// Returns whether an argument is marked as missing.
pub(crate) fn says_missing(argument: &Variant) -> bool
    ensures { result ≡ says_missing argument.now }
{
    match argument {
        Variant::One(Scalar::Error(code)) => *code == MISSING,
        _ => false,
    }
}

/// Moves the argument at index `i` out and returns it. EMPTY is left in its place, so that no other
/// argument is moved or copied.
pub(crate) fn take(arguments: &mut Vec<Variant>, i: usize) -> Variant
    requires { i < length arguments.old.items }
    ensures taken { slice_get arguments.old.items i ≡ Some result }
    ensures others { (j : ℕ) → j ≢ i → slice_get arguments.new.items j ≡ slice_get arguments.old.items j }
    ensures len { length arguments.new.items ≡ length arguments.old.items }
{
    std::mem::replace(&mut arguments[i], Variant::One(Scalar::Empty))
}
