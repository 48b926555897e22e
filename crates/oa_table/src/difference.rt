//! The difference that a change makes to the length of an image.
ghost use Rattle.std.specs.Prelude.{◌≡◌, ◌≤◌, ◌+◌};
ghost use Rattle.std.specs.List.{sum_by};
ghost use Rattle.oa_array.specs.promise.Arrays.{kept_by_position};
ghost use Rattle.oa_model.specs.promise.Limits.{max_cells};
ghost use Rattle.oa_table.specs.promise.Elements.{with_element_put, redimensioned_value};
ghost use Rattle.oa_formats.specs.promise.Lengths.{element_size, value_size};
ghost use Rattle.oa_formats.specs.Lengths.{max_value_image};
ghost use Rattle.oa_table.specs.Sizes.{size_due};
ghost use Rattle.oa_variant.specs.promise.Scalars.{zero_of};
ghost use Rattle.oa_variant.specs.declared.variant.Variant.TheVariants as variants;

use oa_array::{Cell, SafeArray};
use oa_formats::{element_len, elements_len};
use oa_model::Bound;
use oa_variant::{Scalar, Variant};

/// The bytes that a change removes from an image, and those that it adds. Both are 0 for a change
/// that is refused.
#[derive(Clone, Copy)]
pub(crate) struct Difference {
    /// The bytes that the change removes.
    pub gone: u64,
    /// The bytes that the change adds.
    pub come: u64,
}

/// Returns the difference of no change.
pub(crate) fn no_difference() -> Difference
    ensures gone { result.gone ≡ 0 }
    ensures come { result.come ≡ 0 }
{
    Difference { gone: 0, come: 0 }
}

/// Returns the difference of setting the element at an index list of the array in a value.
#[tactic(auto, unfolding(oa_formats::specs::promise::Lengths::value_size))]
pub(crate) fn element_difference(value: &Variant, index: &[i32], element: &Scalar) -> Difference
    ensures size { size_due value_size (with_element_put index.now element.now value.now) value.now + result.gone
        ≡ value_size value.now + result.come }
    ensures small { result.come ≤ max_value_image }
{
    match value {
        Variant::One(_) => no_difference(),
        Variant::Array(array) => element_set(array, index, element),
    }
}

/// Returns the difference of setting an element of an array; none if the array refuses it.
#[tactic(auto, unfolding(oa_formats::specs::promise::Lengths::value_size))]
fn element_set(array: &SafeArray<Scalar>, index: &[i32], element: &Scalar) -> Difference
    ensures size { let value = variants.Array array.now in
        size_due value_size (with_element_put index.now element.now value) value + result.gone ≡ value_size value + result.come }
    ensures small { result.come ≤ max_value_image }
{
    let elem = array.elem();
    let fits = element.fits(elem);
    match array.element(index) {
        Ok(old) => {
            if !fits {
                return no_difference();
            }
            Difference {
                gone: element_len(elem, old) as u64,
                come: element_len(elem, element) as u64,
            }
        }
        Err(_) => no_difference(),
    }
}

/// Returns the difference of replacing the first bound of the array in a value.
#[tactic(auto, unfolding(oa_formats::specs::promise::Lengths::value_size))]
pub(crate) fn redim_difference(value: &Variant, bound: Bound) -> Difference
    ensures size { size_due value_size (redimensioned_value bound value.now) value.now + result.gone ≡ value_size value.now + result.come }
    ensures small { result.come ≤ max_value_image }
{
    match value {
        Variant::One(_) => no_difference(),
        Variant::Array(array) => array_resized(array, bound),
    }
}

/// Returns the difference of replacing the first bound of an array; none if the array refuses it.
#[tactic(auto, unfolding(oa_formats::specs::promise::Lengths::value_size))]
fn array_resized(array: &SafeArray<Scalar>, bound: Bound) -> Difference
    ensures size { let value = variants.Array array.now in
        size_due value_size (redimensioned_value bound value) value + result.gone ≡ value_size value + result.come }
    ensures small { result.come ≤ max_value_image }
{
    // For the prover: an array has a bound, which the new one replaces.
    let _cells = array.cells();
    if array.locks() > 0 {
        return no_difference();
    }
    match array.redim_count(bound) {
        Some(count) => elements_kept(array, count),
        None => no_difference(),
    }
}

/// Returns the difference of keeping the first `count` elements, or of adding zeros up to `count`.
/// Reads the elements that are removed.
fn elements_kept(array: &SafeArray<Scalar>, count: usize) -> Difference
    requires { count ≤ max_cells }
    ensures size { sum_by (element_size array.now.elem) (kept_by_position (zero_of array.now.elem) count array.now.cells) + result.gone
        ≡ sum_by (element_size array.now.elem) array.now.cells + result.come }
    ensures small { result.come ≤ max_value_image }
{
    let elem = array.elem();
    let cells = array.cells();
    if count < cells.len() {
        let gone = elements_len(elem, &cells[count..]) as u64;
        return Difference { gone, come: 0 };
    }
    let more = count - cells.len();
    let come = (more * element_len(elem, &Scalar::zero(elem))) as u64;
    Difference { gone: 0, come }
}
