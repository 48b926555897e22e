//! Decodes arrays.

ghost use Rattle.std.specs.Prelude.{◌≡◌, ◌*◌, ◌≤◌, ◌<◌, true, IfOk, length, nat_le};
ghost use Rattle.oa_ndr.specs.promise.Reading.{many};
ghost use Rattle.oa_ndr.specs.Reading.{map_at, referent_at};
ghost use Rattle.oa_wire_text.specs.Reading.{ReadsField, OnMemory};
ghost use Rattle.oa_wire_array.specs.Reading.{arm_at};
ghost use Rattle.oa_wire_array.specs.Arrays.{IsArrayFront};
ghost use Rattle.oa_wire_array.specs.ArrayCanon.{plain_width};
ghost use Rattle.oa_wire_array.specs.ArrayReading.{
  ReadsFieldBy,
  bound_at,
  text_cell_at,
  variant_cell_at,
  pointee_at,
  pointed_at,
  elements_at,
  has_sf_type,
  is_count,
  cells_at,
  data_at,
  header_at,
  array_at,
};

use crate::array_len::is_pointed;
use crate::fault::WireFault;
use crate::scalar::{arm, scalar};
use oa_array::{SafeArray, cell_count};
use oa_bstr::Bstr;
use oa_cells::Cells;
use oa_model::{Bound, MAX_DIMENSIONS, VarType};
use oa_ndr::Ndr;
use oa_variant::Scalar;
use oa_wire_text::{StubFault, read_blob};
use std::alloc::{AllocError, Global};

/// Reads a bound of 8 bytes. Err: `BadStub`.
#[tactic(auto, unfolding(oa_ndr::specs::Reading::steps, crate::specs::ArrayReading::bound_at, crate::specs::Reading::signed_at))]
fn bound(r: &mut Ndr<'_>) -> Result<Bound, StubFault>
    ensures { ReadsField result r.new (bound_at r.old) }
{
    let count = r.u32()?;
    let lower = r.u32()?.cast_signed();
    Ok(Bound { count, lower })
}

/// Reads `dims` bounds. Errors: `BadStub`, `Memory`.
fn bounds(alloc: Global, dims: u16, r: &mut Ndr<'_>) -> Result<Vec<Bound>, StubFault>
    ensures { ReadsFieldBy (λ v. v.items) result r.new (many bound_at dims r.old) }
{
    let mut all = Vec::new(alloc);
    for _ in 0..dims {
        let next = bound(r)?;
        all.push(next)?;
    }
    Ok(all)
}

/// Reads `count` referents and returns which are set. Errors: `BadStub`, `Memory`.
fn flags(alloc: Global, count: u32, r: &mut Ndr<'_>) -> Result<Vec<bool>, StubFault>
    ensures { ReadsFieldBy (λ v. v.items) result r.new (many referent_at count r.old) }
{
    let mut all = Vec::new(alloc);
    for _ in 0..count {
        let next = r.referent()?;
        all.push(next)?;
    }
    Ok(all)
}

/// Makes `count` elements, to be replaced. Err: the allocation fails.
fn blank(alloc: Global, count: usize) -> Result<Cells<Scalar>, AllocError>
    ensures { IfOk result (λ cells. length cells ≡ count) }
{
    Cells::filled_by(
        alloc,
        count,
        move |_| Ok::<Scalar, AllocError>(Scalar::Empty),
    )
}

/// Reads the text after a referent; null if the referent is null. Errors: `BadStub`, `Memory`.
#[tactic(auto, unfolding(oa_ndr::specs::Reading::steps, crate::specs::ArrayReading::text_cell_at))]
fn text_cell(alloc: Global, is_set: bool, r: &mut Ndr<'_>) -> Result<Scalar, StubFault>
    ensures { ReadsField result r.new (text_cell_at is_set r.old) }
{
    if is_set {
        return Ok(Scalar::Bstr(read_blob(alloc, r)?));
    }
    Ok(Scalar::Bstr(Bstr::null()))
}

/// Reads the scalar after a referent; EMPTY if the referent is null. Errors: `BadStub`, `Memory`.
#[tactic(auto, unfolding(oa_ndr::specs::Reading::steps, crate::specs::ArrayReading::variant_cell_at))]
fn variant_cell(alloc: Global, is_set: bool, r: &mut Ndr<'_>) -> Result<Scalar, StubFault>
    ensures { ReadsField result r.new (variant_cell_at is_set r.old) }
{
    if is_set {
        return scalar(alloc, r);
    }
    Ok(Scalar::Empty)
}

/// Reads the pointee of an element's referent. Errors: `BadStub`, `Memory`.
#[tactic(auto, unfolding(oa_ndr::specs::promise::Reading::fail, crate::specs::ArrayReading::pointee_at))]
fn pointee(alloc: Global, elem: VarType, is_set: bool, r: &mut Ndr<'_>) -> Result<Scalar, StubFault>
    ensures { ReadsField result r.new (pointee_at elem is_set r.old) }
{
    match elem {
        VarType::Bstr => text_cell(alloc, is_set, r),
        VarType::Variant => variant_cell(alloc, is_set, r),
        _ => Err(StubFault::BadStub),
    }
}

/// Reads the pointees, one for each referent. Errors: `BadStub`, `Memory`.
#[tactic(auto, using(crate::proofs::Loops::map_full, crate::proofs::Loops::map_put, crate::proofs::Loops::map_err))]
fn pointees(
    alloc: Global,
    elem: VarType,
    flags: &[bool],
    r: &mut Ndr<'_>,
) -> Result<Cells<Scalar>, StubFault>
    ensures { ReadsField result r.new (map_at (pointee_at elem) flags.now r.old) }
{
    let mut cells = blank(alloc, flags.len())?;
    for i in 0..flags.len() {
        let next = pointee(alloc, elem, flags[i], r)?;
        cells.replace(i, next);
    }
    Ok(cells)
}

/// Returns whether the bytes that `count` elements without pointees need are left.
fn are_there(elem: VarType, count: u32, r: &Ndr<'_>) -> bool
    ensures { result ≡ nat_le (count * plain_width elem) (length r.now.rest) }
{
    let width = if is_pointed(elem) {
        0
    } else {
        elem.element_size().unwrap_or(0)
    };
    count as u64 * width as u64 <= r.rest().len() as u64
}

/// Reads `count` elements without pointees. Allocates nothing if the bytes are not there. Errors:
/// `BadStub`, `Memory`.
#[tactic(auto, using(crate::proofs::Loops::cells_full, crate::proofs::Loops::cells_put, crate::proofs::Loops::cells_err))]
fn plain(
    alloc: Global,
    elem: VarType,
    count: u32,
    r: &mut Ndr<'_>,
) -> Result<Cells<Scalar>, StubFault>
    ensures { ReadsField result r.new (many (arm_at elem) count r.old) }
{
    if !are_there(elem, count, r) {
        return Err(StubFault::BadStub);
    }
    let mut cells = blank(alloc, count as usize)?;
    for i in 0..count as usize {
        let next = arm(alloc, elem, r)?;
        cells.replace(i, next);
    }
    Ok(cells)
}

/// Reads `count` elements with pointees: first all referents, then the pointees. Errors: `BadStub`,
/// `Memory`.
#[tactic(auto, unfolding(oa_ndr::specs::promise::Reading::bind, crate::specs::ArrayReading::pointed_at))]
fn pointed(
    alloc: Global,
    elem: VarType,
    count: u32,
    r: &mut Ndr<'_>,
) -> Result<Cells<Scalar>, StubFault>
    ensures { ReadsField result r.new (pointed_at elem count r.old) }
{
    let flags = flags(alloc, count, r)?;
    pointees(alloc, elem, &flags, r)
}

/// Reads the `count` elements of an array. Errors: `BadStub`, `Memory`.
#[tactic(auto, unfolding(crate::specs::ArrayReading::elements_at))]
fn elements(
    alloc: Global,
    elem: VarType,
    count: u32,
    r: &mut Ndr<'_>,
) -> Result<Cells<Scalar>, StubFault>
    ensures { ReadsField result r.new (elements_at elem count r.old) }
{
    match elem {
        VarType::Bstr | VarType::Variant => pointed(alloc, elem, count, r),
        _ => plain(alloc, elem, count, r),
    }
}

/// Returns whether arrays of the type have this sfType.
fn has_sf_type(elem: VarType, sf_type: u32) -> bool
    ensures { result ≡ has_sf_type elem sf_type }
{
    elem.sf_type() == Some(sf_type)
}

/// Returns whether there is an array of this type and these bounds, and it has `count` elements.
fn is_count(elem: VarType, bounds: &[Bound], count: u32) -> bool
    ensures { result ≡ is_count elem bounds.now count }
{
    match cell_count(elem, bounds) {
        Some(all) => all == count as usize,
        None => false,
    }
}

/// Reads the `count` elements and makes the array. Errors: `BadStub`, `Memory`.
#[tactic(auto, unfolding(oa_ndr::specs::Reading::steps, crate::specs::ArrayReading::cells_at))]
fn cells(
    alloc: Global,
    elem: VarType,
    bounds: &[Bound],
    count: u32,
    r: &mut Ndr<'_>,
) -> Result<SafeArray<Scalar>, StubFault>
    requires { is_count elem bounds.now count ≡ true }
    ensures { ReadsField result r.new (cells_at elem bounds.now count r.old) }
{
    let cells = elements(alloc, elem, count, r)?;
    let array = SafeArray::of_cells(alloc, elem, bounds, cells)?;
    Ok(array)
}

/// Reads the bounds, the maximum count of the data, and the data. Errors: `BadStub`, `Memory`.
#[tactic(auto, unfolding(oa_ndr::specs::Reading::steps, crate::specs::ArrayReading::data_at))]
fn data(
    alloc: Global,
    elem: VarType,
    dims: u16,
    size: u32,
    r: &mut Ndr<'_>,
) -> Result<SafeArray<Scalar>, StubFault>
    ensures { ReadsField result r.new (data_at elem dims size r.old) }
{
    let bounds = bounds(alloc, dims, r)?;
    let maximum = r.u32()?;
    if maximum == size && is_count(elem, &bounds, size) {
        return cells(alloc, elem, &bounds, size, r);
    }
    Err(StubFault::BadStub)
}

/// Reads the maximum count, cDims, fFeatures, cbElements, cLocks, sfType, Size and the pointer,
/// with its pointee. Errors: `BadStub`, `Memory`.
#[tactic(auto, unfolding(oa_ndr::specs::Reading::steps, crate::specs::ArrayReading::header_at))]
fn header(alloc: Global, elem: VarType, r: &mut Ndr<'_>) -> Result<SafeArray<Scalar>, StubFault>
    ensures value { ReadsField result r.new (header_at elem r.old) }
    ensures memory { OnMemory result (28 ≤ length r.old.rest) }
{
    let maximum = r.u32()?;
    let dims = r.u16()?;
    r.u16()?;
    r.u32()?;
    r.u32()?;
    let sf_type = r.u32()?;
    let size = r.u32()?;
    r.u32()?;
    if maximum == dims as u32 && dims as usize <= MAX_DIMENSIONS && has_sf_type(elem, sf_type) {
        return data(alloc, elem, dims, size, r);
    }
    Err(StubFault::BadStub)
}

/// Reads an array from its second referent on. Errors: `BadStub`, `Memory`; the reader may have
/// moved.
#[tactic(auto, unfolding(oa_ndr::specs::Reading::steps, crate::specs::ArrayReading::array_at))]
fn array(alloc: Global, elem: VarType, r: &mut Ndr<'_>) -> Result<SafeArray<Scalar>, StubFault>
    ensures value { ReadsField result r.new (array_at elem r.old) }
    ensures memory { OnMemory result (32 ≤ length r.old.rest) }
{
    if r.referent()? {
        return header(alloc, elem, r);
    }
    Err(StubFault::BadStub)
}

/// Reads an array of elements of the type `elem`, from the second of its two referents on, with all
/// its pointees (wireSAFEARRAY, MS-OAUT section 2.2.30.10). fFeatures, cbElements, cLocks and the
/// value of the pointer are ignored. A null referent in an array of VARIANT is EMPTY. The array has
/// no locks. After an error the reader has not moved.
///
/// Errors:
/// - `BadVarType`: there are no arrays of the type (EMPTY, NULL, ERROR and DECIMAL).
/// - `BadStub`: otherwise, no bytes from the reader on encode such an array. For example, the
///   referent is null, cDims is not its maximum count or not 1 to 16, or sfType is not that of the
///   type. Size or the maximum count of the data may also not be the product of the counts, or be
///   above 65,536.
/// - `Memory`: an allocation fails. This occurs only if the 32 bytes before the bounds are there.
pub fn read_array(
    alloc: Global,
    r: &mut Ndr<'_>,
    elem: VarType,
) -> Result<SafeArray<Scalar>, WireFault>
    ensures exact { IsArrayFront elem result r.old r.new }
{
    if elem.sf_type().is_none() {
        return Err(WireFault::BadVarType);
    }
    let mut ahead = r.fork();
    match array(alloc, elem, &mut ahead) {
        Ok(array) => {
            *r = ahead;
            Ok(array)
        }
        Err(StubFault::BadStub) => Err(WireFault::BadStub),
        Err(StubFault::Memory) => Err(WireFault::Memory),
    }
}
