//! The lengths of the parts of an image.
ghost use Rattle.std.specs.Prelude.{◌≡◌, ◌≤◌};
ghost use Rattle.oa_formats.specs.Lengths.{max_value_image};
ghost use Rattle.oa_formats.specs.promise.Lengths.{value_size};
ghost use Rattle.oa_table.specs.promise.Sizes as sizes;

use crate::Place;
use oa_formats::{elements_len, value_image_len};
use oa_model::VarType;
use oa_variant::Variant;

/// Returns the length in bytes of a value's image.
#[inline(always)]
pub(crate) fn value_size(value: &Variant) -> u64
    ensures value { result ≡ value_size value.now }
    ensures small { result ≤ max_value_image }
{
    value_image_len(value) as u64
}

/// Returns the length in bytes of a place's image: its interface, its DISPID, the number of scalars
/// in its key, and the scalars.
#[tactic(auto, unfolding(crate::specs::promise::Sizes::place_size, oa_formats::specs::promise::Lengths::element_size))]
pub fn place_size(place: &Place) -> u64
    ensures value { result ≡ sizes.place_size place.now }
    ensures small { result ≤ max_value_image }
{
    let key = place.key();
    22 + elements_len(VarType::Variant, key) as u64
}
