//! Encodes arrays.

ghost use Rattle.std.specs.Prelude.{◌≡◌, ◌<◌, ◌*◌, OnOk, OnErr};
ghost use Rattle.oa_ndr.specs.Writing.{TakesNothingBack, in_field};
ghost use Rattle.oa_ndr.specs.promise.Writing.{put_all};
ghost use Rattle.oa_variant.specs.promise.Scalars.{text_of};
ghost use Rattle.oa_wire_array.specs.promise.Canon.{put_arm};
ghost use Rattle.oa_wire_array.specs.promise.ArrayCanon.{put_bound, has_pointee, put_text, put_pointee};
ghost use Rattle.oa_wire_array.specs.promise.ArrayCanon.{put_cell_referent, put_pointed, put_elements, features_of};
ghost use Rattle.oa_wire_array.specs.promise.ArrayCanon.{put_shape, put_size, put_array};

use crate::scalar::{add_scalar, write_arm};
use oa_array::SafeArray;
use oa_model::{Bound, VarType};
use oa_ndr::NdrOut;
use oa_variant::Scalar;
use oa_wire_text::add_blob;
use std::alloc::AllocError;

/// Writes a bound in 8 bytes. Err: an allocation fails.
fn write_bound(out: &mut NdrOut, bound: Bound) -> Result<(), AllocError>
    ensures ok { OnOk result (out.new ≡ in_field (put_bound bound) out.old) }
    ensures kept { TakesNothingBack out.old out.new }
{
    out.u32(bound.count)?;
    out.u32(bound.lower.cast_unsigned())
}

/// Writes the bounds. Err: an allocation fails.
fn write_bounds(out: &mut NdrOut, bounds: &[Bound]) -> Result<(), AllocError>
    ensures ok { OnOk result (out.new ≡ in_field (put_all put_bound bounds.now) out.old) }
    ensures kept { TakesNothingBack out.old out.new }
{
    for bound in bounds {
        write_bound(out, *bound)?;
    }
    Ok(())
}

/// Writes elements without pointees. Err: an allocation fails.
fn write_plain(out: &mut NdrOut, cells: &[Scalar]) -> Result<(), AllocError>
    ensures ok { OnOk result (out.new ≡ in_field (put_all put_arm cells.now) out.old) }
    ensures kept { TakesNothingBack out.old out.new }
{
    for cell in cells {
        write_arm(out, cell)?;
    }
    Ok(())
}

/// Returns whether the referent of an element is set.
fn has_pointee(elem: VarType, cell: &Scalar) -> bool
    ensures { result ≡ has_pointee elem cell.now }
{
    match (elem, cell) {
        (VarType::Bstr, Scalar::Bstr(text)) => !text.is_null(),
        (VarType::Bstr, _) => false,
        _ => true,
    }
}

/// Writes the referents of elements. Err: an allocation fails.
fn write_referents(out: &mut NdrOut, elem: VarType, cells: &[Scalar]) -> Result<(), AllocError>
    ensures ok { OnOk result (out.new ≡ in_field (put_all (put_cell_referent elem) cells.now) out.old) }
    ensures kept { TakesNothingBack out.old out.new }
{
    for cell in cells {
        out.referent(has_pointee(elem, cell))?;
    }
    Ok(())
}

/// Writes the text of an element, unless it is null. Err: an allocation fails.
fn write_cell_text(out: &mut NdrOut, cell: &Scalar) -> Result<(), AllocError>
    ensures ok { OnOk result (out.new ≡ in_field (put_text (text_of cell.now)) out.old) }
    ensures kept { TakesNothingBack out.old out.new }
{
    match cell {
        Scalar::Bstr(text) => {
            if text.is_null() {
                return Ok(());
            }
            add_blob(out, text)
        }
        _ => Ok(()),
    }
}

/// Writes the pointee of an element. Err: an allocation fails.
fn write_pointee(out: &mut NdrOut, elem: VarType, cell: &Scalar) -> Result<(), AllocError>
    ensures ok { OnOk result (out.new ≡ in_field (put_pointee elem cell.now) out.old) }
    ensures kept { TakesNothingBack out.old out.new }
{
    match elem {
        VarType::Bstr => write_cell_text(out, cell),
        _ => add_scalar(out, cell),
    }
}

/// Writes the pointees of elements. Err: an allocation fails.
fn write_pointees(out: &mut NdrOut, elem: VarType, cells: &[Scalar]) -> Result<(), AllocError>
    ensures ok { OnOk result (out.new ≡ in_field (put_all (put_pointee elem) cells.now) out.old) }
    ensures kept { TakesNothingBack out.old out.new }
{
    for cell in cells {
        write_pointee(out, elem, cell)?;
    }
    Ok(())
}

/// Writes elements with pointees: first all referents, then the pointees. Err: an allocation fails.
fn write_pointed(out: &mut NdrOut, elem: VarType, cells: &[Scalar]) -> Result<(), AllocError>
    ensures ok { OnOk result (out.new ≡ in_field (put_pointed elem cells.now) out.old) }
    ensures kept { TakesNothingBack out.old out.new }
{
    write_referents(out, elem, cells)?;
    write_pointees(out, elem, cells)
}

/// Writes the elements of an array. Err: an allocation fails.
fn write_elements(out: &mut NdrOut, elem: VarType, cells: &[Scalar]) -> Result<(), AllocError>
    ensures ok { OnOk result (out.new ≡ in_field (put_elements elem cells.now) out.old) }
    ensures kept { TakesNothingBack out.old out.new }
{
    match elem {
        VarType::Bstr | VarType::Variant => write_pointed(out, elem, cells),
        _ => write_plain(out, cells),
    }
}

/// Returns fFeatures for an array of this type.
fn features_of(elem: VarType) -> u16
    ensures { result ≡ features_of elem }
{
    match elem {
        VarType::Bstr => 0x180,
        VarType::Variant => 0x880,
        _ => 0x80,
    }
}

/// Writes the second referent, the maximum count, cDims, fFeatures and cbElements. Err: an
/// allocation fails.
fn write_shape(out: &mut NdrOut, elem: VarType, dims: u16) -> Result<(), AllocError>
    ensures ok { OnOk result (out.new ≡ in_field (put_shape elem dims) out.old) }
    ensures kept { TakesNothingBack out.old out.new }
{
    out.referent(true)?;
    out.u32(dims as u32)?;
    out.u16(dims)?;
    out.u16(features_of(elem))?;
    out.u32(elem.element_size().unwrap_or(0))
}

/// Writes cLocks, sfType, Size and the pointer. Err: an allocation fails.
fn write_size(out: &mut NdrOut, elem: VarType, count: u32) -> Result<(), AllocError>
    ensures ok { OnOk result (out.new ≡ in_field (put_size elem count) out.old) }
    ensures kept { TakesNothingBack out.old out.new }
{
    out.u32(elem.vt() as u32 * 0x1_0000)?;
    out.u32(elem.sf_type().unwrap_or(0))?;
    out.u32(count)?;
    out.referent(true)
}

/// Writes an array as `write_array` does. Err: an allocation fails, and a part of the array may
/// have been written.
#[tactic(auto, unfolding(crate::specs::promise::ArrayCanon::put_array))]
fn add_array(out: &mut NdrOut, array: &SafeArray<Scalar>) -> Result<(), AllocError>
    ensures ok { OnOk result (out.new ≡ in_field (put_array array.now) out.old) }
    ensures kept { TakesNothingBack out.old out.new }
{
    let elem = array.elem();
    let bounds = array.bounds();
    let cells = array.cells();
    write_shape(out, elem, bounds.len() as u16)?;
    write_size(out, elem, cells.len() as u32)?;
    write_bounds(out, bounds)?;
    out.u32(cells.len() as u32)?;
    write_elements(out, elem, cells)
}

/// Writes an array from the second of its two referents on, with all its pointees (see
/// `read_array`). fFeatures is 0x80, with 0x100 added for BSTR and 0x800 for VARIANT. cbElements is
/// that of a 32-bit process. The high half of cLocks is the vt of the elements. A null text is a
/// null referent. Locks are not written. Err: an allocation fails; the output is unchanged.
pub fn write_array(out: &mut NdrOut, array: &SafeArray<Scalar>) -> Result<(), AllocError>
    ensures ok { OnOk result (out.new ≡ in_field (put_array array.now) out.old) }
    ensures err { OnErr result (out.new ≡ out.old) }
{
    let start = out.position();
    if let Err(e) = add_array(out, array) {
        out.truncate(start);
        return Err(e);
    }
    Ok(())
}
