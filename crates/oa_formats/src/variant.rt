//! The images of values.
ghost use Rattle.std.specs.Prelude.{◌≡◌, ◌≤◌, length};
ghost use Rattle.oa_formats.specs.Answers.{ReadsImage};
ghost use Rattle.oa_formats.specs.Lengths.{max_value_image};
ghost use Rattle.oa_formats.specs.promise.Lengths.{value_size};
ghost use Rattle.oa_formats.specs.promise.Variants as variants;

use crate::array::{array_image_len, put_array, read_array};
use crate::image::{PutImage, ReadImage};
use crate::reading::read_u16;
use crate::scalar::{put_content, read_content, scalar_image_len};
use crate::writing::put_u16;
use crate::{OutputCursor, ReadFault};
use oa_model::{VT_ARRAY, ValueType, VarType};
use oa_ndr::Ndr;
use oa_variant::Variant;
use std::alloc::Global;

/// Reads the type of a value: that of a scalar, or with VT_ARRAY that of an array's elements. Err:
/// `Broken`.
#[tactic(auto, unfolding(oa_ndr::specs::promise::Reading::bind, crate::specs::promise::Formats::coded, crate::specs::promise::Variants::kind))]
fn read_kind(r: &mut Ndr<'_>) -> Result<ValueType, ReadFault>
    ensures { ReadsImage result r.new (variants.kind.read r.old) }
{
    let n = read_u16(r)?;
    let found = if n >= VT_ARRAY {
        VarType::from_vt(n - VT_ARRAY).map(ValueType::Array)
    } else {
        VarType::from_vt(n).map(ValueType::One)
    };
    found.ok_or(ReadFault::Broken)
}

/// The format of values: the number of the type as u16, with VT_ARRAY (0x2000) for an array; and
/// the scalar's content, or the array.
pub struct VariantFormat;

impl ReadImage for VariantFormat {
    type Value = Variant;

    ghost format = { variants.value };

    #[tactic(auto, unfolding(crate::specs::Formats::combinators, crate::specs::Variants::contents))]
    fn read(alloc: Global, r: &mut Ndr<'_>) -> Result<Variant, ReadFault> {
        match read_kind(r)? {
            ValueType::One(one) => Ok(Variant::One(read_content(alloc, one, r)?)),
            ValueType::Array(elem) => Ok(Variant::Array(read_array(alloc, elem, r)?)),
        }
    }
}

impl PutImage for VariantFormat {
    #[tactic(auto, unfolding(crate::specs::Formats::combinators, crate::specs::Variants::contents), using(crate::specs::Windows::added_added))]
    fn put(value: &Variant, w: &mut OutputCursor, out: &mut [u8]) {
        put_u16(value.value_type().vt(), w, out);
        match value {
            Variant::One(scalar) => put_content(scalar, w, out),
            Variant::Array(array) => put_array(array, w, out),
        }
    }
}

/// Returns the length in bytes of a value's image. It reads each element of an array.
#[inline(always)]
#[tactic(auto, unfolding(crate::specs::promise::Lengths::value_size), using(crate::proofs::Lengths::value_sized))]
pub fn value_image_len(value: &Variant) -> usize
    ensures value { result ≡ length (variants.value.image value.now) }
    ensures counted { result ≡ value_size value.now }
    ensures small { result ≤ max_value_image }
{
    match value {
        Variant::One(scalar) => scalar_image_len(scalar),
        Variant::Array(array) => array_image_len(array),
    }
}
