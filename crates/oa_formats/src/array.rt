//! The images of arrays.
ghost use Rattle.std.specs.Prelude.{◌≡◌, ◌≤◌, ◌*◌, All, IfOk, length};
ghost use Rattle.std.specs.List.{AllByRecursion, flat_map, sum_by};
ghost use Rattle.oa_model.specs.promise.Limits.{max_cells};
ghost use Rattle.oa_array.specs.promise.Arrays.{IsArrayShape};
ghost use Rattle.oa_array.specs.promise.Boxes.{box_size};
ghost use Rattle.oa_variant.specs.promise.Scalars.{FitsType};
ghost use Rattle.oa_variant.specs.declared.variant.Variant.TheVariants as variants;
ghost use Rattle.oa_formats.specs.Answers.{ReadsImage, ReadsImageBy};
ghost use Rattle.oa_formats.specs.promise.Arrays as arrays;
ghost use Rattle.oa_formats.specs.Elements.{array_head, element_image};
ghost use Rattle.oa_formats.specs.promise.Formats.{times};
ghost use Rattle.oa_formats.specs.promise.Lengths.{element_size, value_size};
ghost use Rattle.oa_formats.specs.Lengths.{max_scalar_bytes, max_value_image};
ghost use Rattle.oa_formats.specs.Windows.{Adds};

use crate::image::{PutImage, ReadImage, put_each, read_times};
use crate::reading::{read_i32, read_u16, read_u32};
use crate::scalar::{ScalarFormat, content_len, put_content, read_content, scalar_image_len};
use crate::writing::{put_i32, put_u16, put_u32};
use crate::{OutputCursor, ReadFault};
use oa_array::{SafeArray, cell_count};
use oa_cells::Cells;
use oa_model::{Bound, ValueType, VarType};
use oa_ndr::Ndr;
use oa_variant::Scalar;
use std::alloc::{AllocError, Global};

/// The format of bounds: the count as u32, the lowest index as i32.
pub struct BoundFormat;

impl ReadImage for BoundFormat {
    type Value = Bound;

    ghost format = { arrays.bound_format };

    #[tactic(auto, unfolding(crate::specs::Formats::combinators, crate::specs::promise::Arrays::bound_format))]
    fn read(_alloc: Global, r: &mut Ndr<'_>) -> Result<Bound, ReadFault> {
        let count = read_u32(r)?;
        let lower = read_i32(r)?;
        Ok(Bound { count, lower })
    }
}

impl PutImage for BoundFormat {
    #[tactic(auto, unfolding(crate::specs::Formats::combinators, crate::specs::promise::Arrays::bound_format), using(crate::specs::Windows::added_added))]
    fn put(value: &Bound, w: &mut OutputCursor, out: &mut [u8]) {
        put_u32(value.count, w, out);
        put_i32(value.lower, w, out)
    }
}

/// Reads one element of an array of type `elem`. Errors: `Broken`, `Memory`.
#[tactic(auto, unfolding(crate::specs::promise::Arrays::cell_of))]
fn read_cell(alloc: Global, elem: VarType, r: &mut Ndr<'_>) -> Result<Scalar, ReadFault>
    ensures read { ReadsImage result r.new ((arrays.cell_of elem).read r.old) }
    ensures fits { IfOk result (λ s. FitsType s elem) }
{
    match elem {
        VarType::Variant => ScalarFormat::read(alloc, r),
        _ => read_content(alloc, elem, r),
    }
}

/// Allocates `count` elements to be filled. Err: the allocation failed.
fn blank(alloc: Global, count: usize) -> Result<Cells<Scalar>, AllocError>
    ensures { IfOk result (λ cells. length cells ≡ count) }
{
    Cells::filled_by(
        alloc,
        count,
        move |_| Ok::<Scalar, AllocError>(Scalar::Empty),
    )
}

/// Reads `count` elements of an array of type `elem`. Errors: `Broken`, `Memory`.
#[tactic(auto, unfolding(crate::specs::promise::Formats::times), using(crate::proofs::Loops::cells_full, crate::proofs::Loops::cells_err))]
fn read_cells(
    alloc: Global,
    elem: VarType,
    count: usize,
    r: &mut Ndr<'_>,
) -> Result<Cells<Scalar>, ReadFault>
    ensures read { ReadsImage result r.new ((times (arrays.cell_of elem) count).read r.old) }
    ensures len { IfOk result (λ cells. length cells ≡ count) }
    ensures fits { IfOk result (λ cells. AllByRecursion (λ s. FitsType s elem) cells) }
{
    let mut cells = blank(alloc, count)?;
    'cells: for i in 0..count {
        let next = read_cell(alloc, elem, r)?;
        cells.replace(i, next);
    }
    Ok(cells)
}

/// Reads the bounds of an array of type `elem`. Returns them and the number of elements. Errors:
/// `Broken`, also if no array has such bounds; `Memory`.
#[tactic(auto, unfolding(crate::specs::Formats::combinators, crate::specs::promise::Arrays::bounds_of), using(crate::specs::Arrays::shape_here, crate::proofs::Loops::shape_not))]
fn read_bounds(
    alloc: Global,
    elem: VarType,
    r: &mut Ndr<'_>,
) -> Result<(Vec<Bound>, usize), ReadFault>
    ensures read { ReadsImageBy (λ p. p.0.items) result r.new ((arrays.bounds_of elem).read r.old) }
    ensures shape { IfOk result (λ p. IsArrayShape elem p.0.items × (p.1 ≡ box_size p.0.items)) }
{
    let count = read_u16(r)?;
    let bounds = read_times::<BoundFormat>(alloc, count as usize, r)?;
    match cell_count(elem, &bounds) {
        Some(cells) => Ok((bounds, cells)),
        None => Err(ReadFault::Broken),
    }
}

/// Reads the part of an array's image after the number of the type: the number of bounds, the
/// bounds, and the elements of type `elem`. Errors: `Broken`, `Memory`.
#[tactic(auto, unfolding(crate::specs::Formats::combinators, crate::specs::promise::Arrays::array_format), using(crate::proofs::Loops::all_fit))]
pub(crate) fn read_array(
    alloc: Global,
    elem: VarType,
    r: &mut Ndr<'_>,
) -> Result<SafeArray<Scalar>, ReadFault>
    ensures { ReadsImage result r.new ((arrays.array_format elem).read r.old) }
{
    let (bounds, count) = read_bounds(alloc, elem, r)?;
    let cells = read_cells(alloc, elem, count, r)?;
    let array = SafeArray::of_cells(alloc, elem, &bounds, cells)?;
    Ok(array)
}

/// Writes one element of an array of type `elem`.
fn put_cell(elem: VarType, s: &Scalar, w: &mut OutputCursor, out: &mut [u8])
    requires { FitsType s.now elem }
    ensures { Adds ((arrays.cell_of elem).image s.now) w.old w.new out.old out.new }
{
    put_element(elem, s, w, out)
}

/// Writes the elements of an array of type `elem`, one after the other.
fn put_cells(elem: VarType, cells: &[Scalar], w: &mut OutputCursor, out: &mut [u8])
    requires { All (λ s. FitsType s elem) cells.now }
    ensures { Adds (flat_map (arrays.cell_of elem).image cells.now) w.old w.new out.old out.new }
{
    'cells: for s in cells {
        put_cell(elem, s, w, out);
    }
}

/// Writes the part of an array's image after the number of the type: the number of bounds, the
/// bounds, and the elements.
#[tactic(auto, unfolding(crate::specs::Formats::combinators, crate::specs::promise::Arrays::bounds_of, crate::specs::promise::Arrays::array_format), using(crate::specs::Windows::added_added))]
pub(crate) fn put_array(a: &SafeArray<Scalar>, w: &mut OutputCursor, out: &mut [u8])
    ensures { Adds ((arrays.array_format a.now.elem).image a.now) w.old w.new out.old out.new }
{
    let cells = a.cells();
    let bounds = a.bounds();
    put_u16(bounds.len() as u16, w, out);
    put_each::<BoundFormat>(bounds, w, out);
    put_cells(a.elem(), cells, w, out)
}

/// Writes one element to a window, as it is in the image of an array of type `elem`: in an array of
/// VARIANT with the number of its type. Allocates nothing.
#[tactic(auto, unfolding(crate::specs::Elements::element_image))]
pub fn put_element(elem: VarType, s: &Scalar, w: &mut OutputCursor, out: &mut [u8])
    ensures { Adds (element_image elem s.now) w.old w.new out.old out.new }
{
    match elem {
        VarType::Variant => ScalarFormat::put(s, w, out),
        _ => put_content(s, w, out),
    }
}

/// Writes the part of an array's image before its elements: the number of their type with VT_ARRAY
/// (0x2000) as u16, the number of bounds as u16, and each bound in 8 bytes. These are its count as
/// u32 and its lowest index as i32. Allocates nothing.
#[tactic(auto, unfolding(crate::specs::Formats::combinators, crate::specs::promise::Arrays::bounds_of, crate::specs::promise::Variants::kind, crate::specs::Elements::array_head), using(crate::specs::Windows::added_added))]
pub fn put_array_head(a: &SafeArray<Scalar>, w: &mut OutputCursor, out: &mut [u8])
    ensures { Adds (array_head a.now) w.old w.new out.old out.new }
{
    // For the prover: an array has at most 16 bounds.
    let _cells = a.cells();
    let bounds = a.bounds();
    put_u16(ValueType::Array(a.elem()).vt(), w, out);
    put_u16(bounds.len() as u16, w, out);
    put_each::<BoundFormat>(bounds, w, out)
}

/// Returns the length in bytes of an element in the image of an array of the type.
#[tactic(auto, unfolding(crate::specs::promise::Lengths::element_size))]
pub fn element_len(elem: VarType, s: &Scalar) -> usize
    ensures value { result ≡ element_size elem s.now }
    ensures small { result ≤ max_scalar_bytes }
{
    match elem {
        VarType::Variant => scalar_image_len(s),
        _ => content_len(elem, s),
    }
}

/// Returns the length in bytes of elements in the image of an array of the type.
pub fn elements_len(elem: VarType, elements: &[Scalar]) -> usize
    requires { length elements.now ≤ max_cells }
    ensures value { result ≡ sum_by (element_size elem) elements.now }
    ensures small { result ≤ max_scalar_bytes * length elements.now }
{
    let mut len = 0;
    'elements: for s in elements {
        len += element_len(elem, s);
    }
    len
}

/// Returns the length in bytes of an array's image: the number of the type, the number of bounds,
/// the bounds, and the elements.
#[tactic(auto, unfolding(crate::specs::promise::Lengths::value_size))]
pub(crate) fn array_image_len(a: &SafeArray<Scalar>) -> usize
    ensures value { result ≡ value_size (variants.Array a.now) }
    ensures small { result ≤ max_value_image }
{
    let elements = a.cells();
    4 + 8 * a.bounds().len() + elements_len(a.elem(), elements)
}
