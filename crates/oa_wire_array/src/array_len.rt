//! The length of encoded arrays, computed without encoding them.

ghost use Rattle.std.specs.Prelude.{◌≡◌, ◌≤◌, ◌<◌, ◌+◌, ◌*◌, ◌%◌, ◌^◌, All, length, List, ℕ};
ghost use Rattle.oa_ndr.specs.promise.Forms.{padding};
ghost use Rattle.oa_ndr.specs.promise.Writing.{put_all};
ghost use Rattle.oa_variant.specs.promise.Scalars.{text_of, FitsType};
ghost use Rattle.std.specs.Option.{IsSome};
ghost use Rattle.std.specs.Prelude.{false, Some, ◌⊎◌};
ghost use Rattle.oa_model.specs.promise.Limits.{max_cells};
ghost use Rattle.oa_model.specs.promise.Types.{sf_type_of, element_size_of};
ghost use Rattle.oa_wire_array.specs.promise.Canon.{put_arm};
ghost use Rattle.oa_wire_array.specs.ArrayCanon.{is_pointed, max_wire_cell, max_wire_pointee};
ghost use Rattle.oa_wire_array.specs.promise.ArrayCanon.{put_text, put_pointee, put_elements, put_array};

use crate::scalar::scalar_len;
use oa_array::SafeArray;
use oa_model::VarType;
use oa_variant::Scalar;

/// Returns the next multiple of `n` from `place` on.
fn aligned(n: usize, place: usize) -> usize
    requires above { 0 < n }
    requires small { n ≤ 16 }
    requires room { place < 2 ^ 60 }
    ensures value { result ≡ place + padding n place }
    ensures near { result < place + n }
{
    let over = place % n;
    if over == 0 { place } else { place + n - over }
}

/// Returns the offset after the text of an element, from offset `place` on; a null text needs no
/// bytes.
fn text_end(cell: &Scalar, place: usize) -> usize
    requires { place < 2 ^ 59 }
    ensures value { (out : List ℕ) → length out ≡ place → length (put_text (text_of cell.now) out) ≡ result }
    ensures near { result ≤ place + max_wire_pointee }
{
    match cell {
        Scalar::Bstr(text) => {
            if text.is_null() {
                return place;
            }
            let len = text.as_bytes().len();
            aligned(4, place) + 12 + len + len % 2
        }
        _ => place,
    }
}

/// Returns the offset after the pointee of an element, from offset `place` on.
fn pointee_end(elem: VarType, cell: &Scalar, place: usize) -> usize
    requires { place < 2 ^ 59 }
    ensures value { (out : List ℕ) → length out ≡ place → length (put_pointee elem cell.now out) ≡ result }
    ensures near { result ≤ place + max_wire_pointee }
{
    match elem {
        VarType::Bstr => text_end(cell, place),
        _ => aligned(8, place) + scalar_len(cell),
    }
}

/// Returns the offset after the pointees of elements, from offset `place` on.
fn pointees_end(elem: VarType, cells: &[Scalar], place: usize) -> usize
    requires few { length cells.now ≤ max_cells }
    requires room { place < 2 ^ 58 }
    ensures value { (out : List ℕ) → length out ≡ place → length (put_all (put_pointee elem) cells.now out) ≡ result }
    ensures near { result ≤ place + max_wire_pointee * length cells.now }
{
    let mut end = place;
    for cell in cells {
        end = pointee_end(elem, cell, end);
    }
    end
}

/// Returns whether the elements of a type have referents and pointees.
pub(crate) fn is_pointed(elem: VarType) -> bool
    ensures { result ≡ is_pointed elem }
{
    matches!(elem, VarType::Bstr | VarType::Variant)
}

/// Returns the number of bytes of an element without a pointee.
fn plain_len(elem: VarType) -> usize
    requires plain { is_pointed elem ≡ false }
    requires typed { IsSome (sf_type_of elem) }
    ensures value { element_size_of elem ≡ Some result }
    ensures width { (result ≡ 1) ⊎ (result ≡ 2) ⊎ (result ≡ 4) ⊎ (result ≡ 8) }
    ensures above { 0 < result }
    ensures small { result ≤ 8 }
{
    elem.element_size().unwrap_or(0) as usize
}

/// Returns the offset after elements without pointees, from offset `place` on.
fn plain_end(elem: VarType, cells: &[Scalar], place: usize) -> usize
    requires plain { is_pointed elem ≡ false }
    requires typed { IsSome (sf_type_of elem) }
    requires fits { All (λ cell. FitsType cell elem) cells.now }
    requires few { length cells.now ≤ max_cells }
    requires room { place < 2 ^ 57 }
    ensures value { (out : List ℕ) → length out ≡ place → length (put_all put_arm cells.now out) ≡ result }
    ensures near { result ≤ place + max_wire_cell * length cells.now }
{
    let count = cells.len();
    if count == 0 {
        return place;
    }
    let width = plain_len(elem);
    aligned(width, place) + width * count
}

/// Returns the offset after the elements of an array, from offset `place` on.
fn elements_end(elem: VarType, cells: &[Scalar], place: usize) -> usize
    requires typed { IsSome (sf_type_of elem) }
    requires fits { All (λ cell. FitsType cell elem) cells.now }
    requires few { length cells.now ≤ max_cells }
    requires place { place % 4 ≡ 0 }
    requires room { place < 2 ^ 57 }
    ensures value { (out : List ℕ) → length out ≡ place → length (put_elements elem cells.now out) ≡ result }
    ensures near { result ≤ place + max_wire_cell * length cells.now }
{
    if is_pointed(elem) {
        return pointees_end(elem, cells, place + 4 * cells.len());
    }
    plain_end(elem, cells, place)
}

/// Returns the end of an array that `write_array` writes from the offset `place` on. Both are
/// offsets in bytes from the first byte of the field. `place` is a multiple of 4, as that of a
/// referent is, and at most 64.
pub fn array_end(array: &SafeArray<Scalar>, place: usize) -> usize
    requires place { place % 4 ≡ 0 }
    requires small { place ≤ 64 }
    ensures value { (out : List ℕ) → length out ≡ place → length (put_array array.now out) ≡ result }
    ensures near { result < 2 ^ 40 }
{
    let cells = array.cells();
    let first = place + 36 + 8 * array.bounds().len();
    elements_end(array.elem(), cells, first)
}
