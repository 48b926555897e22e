//! Formats as code, and functions that serve every format.
ghost use Rattle.std.specs.Prelude.{◌≡◌, ◌≤◌, ◌↔◌, ◌++◌, ◌+◌, ◌-◌, [], IsOk, IsTrue, OnOk, OnErr, IfOk, length, take, vec_capacity};
ghost use Rattle.std.specs.List.{flat_map};
ghost use Rattle.oa_formats.specs.Answers.{ReadsImage, ReadsImageBy, HasBytes, ReadsWholeImage, IsRowReading, placed};
ghost use Rattle.oa_formats.specs.promise.Formats.{Format, times};
ghost use Rattle.oa_formats.specs.Windows.{Adds};

use crate::{ImageFault, OutputCursor, ReadFault};
use oa_ndr::Ndr;
use std::alloc::{AllocError, Global};

/// A format whose values can be read.
pub trait ReadImage {
    /// The values.
    type Value: Drop;

    ghost format: { Format Self.Value };

    /// Reads the value whose image the remaining bytes begin with, and moves to the byte after it.
    /// Errors: `Broken` if they begin with no image, for example because bytes are missing;
    /// `Memory` if an allocation fails, whatever the bytes are. After an error the reader may have
    /// moved.
    fn read(alloc: Global, r: &mut Ndr<'_>) -> Result<Self::Value, ReadFault>
        ensures { ReadsImage result r.new (format.read r.old) };
}

/// A format whose images can be written.
pub trait PutImage: ReadImage {
    /// Writes the image of a value to a window of `out`. Allocates nothing.
    fn put(value: &Self::Value, w: &mut OutputCursor, out: &mut [u8])
        ensures { Adds (Self.format.image value.now) w.old w.new out.old out.new };
}

/// The greatest number of values for which memory is allocated at once. A greater count is not
/// trusted before the values are read.
const FEW: usize = 8;

/// Reads `count` values, one after the other. Errors are those of `ReadImage::read`.
pub fn read_times<F: ReadImage>(
    alloc: Global,
    count: usize,
    r: &mut Ndr<'_>,
) -> Result<Vec<F::Value>, ReadFault>
    ensures read { ReadsImageBy (λ v. v.items) result r.new ((times F.format count).read r.old) }
    ensures len { IfOk result (λ v. length v.items ≡ count) }
{
    let room = if count <= FEW { count } else { 0 };
    let mut all = Vec::with_capacity(alloc, room)?;
    'values: for _ in 0..count {
        let next = F::read(alloc, r)?;
        all.push(next)?;
    }
    Ok(all)
}

/// Writes the images of values to a window of `out`, one after the other. Allocates nothing.
pub fn put_each<F: PutImage>(values: &[F::Value], w: &mut OutputCursor, out: &mut [u8])
    ensures { Adds (flat_map F.format.image values.now) w.old w.new out.old out.new }
{
    'values: for value in values {
        F::put(value, w, out);
    }
}

/// Writes an image to `out` from byte `start` on. It fills the slice exactly.
fn put_tail<F: PutImage>(value: &F::Value, start: usize, out: &mut [u8])
    requires { length out.old ≡ start + length (F.format.image value.now) }
    ensures { out.new ≡ take start out.old ++ F.format.image value.now }
{
    let mut w = OutputCursor::new(0, start);
    F::put(value, &mut w, out);
}

/// Appends the image of a value, which has `len` bytes, to a vector. It allocates only if the
/// capacity is too small. Err: the allocation failed, and the vector has not changed.
pub fn append_image<F: PutImage>(
    value: &F::Value,
    len: usize,
    out: &mut Vec<u8>,
) -> Result<(), AllocError>
    requires { len ≡ length (F.format.image value.now) }
    ensures ok { OnOk result (out.new.items ≡ out.old.items ++ F.format.image value.now) }
    ensures err { OnErr result (out.new.items ≡ out.old.items) }
    ensures room { length out.old.items + len ≤ vec_capacity out.old → IsOk result }
{
    let start = out.len();
    let Some(end) = start.checked_add(len) else {
        return Err(AllocError);
    };
    out.resize(end, 0)?;
    put_tail::<F>(value, start, out);
    Ok(())
}

/// Returns whether all bytes were read.
fn is_done(r: &Ndr<'_>) -> bool
    ensures { IsTrue result ↔ (r.now.rest ≡ []) }
{
    r.rest().is_empty()
}

/// Returns the number of bytes that a reader has read.
fn place_in(bytes: &[u8], r: &Ndr<'_>) -> usize
    ensures place { result ≡ length bytes.now - length r.now.rest }
    ensures within { result ≤ length bytes.now }
{
    bytes.len().saturating_sub(r.rest().len())
}

/// Converts the fault of a part into that of the whole image.
fn placed(fault: ReadFault, place: usize) -> ImageFault
    ensures { result ≡ placed fault place }
{
    match fault {
        ReadFault::Broken => ImageFault::Damaged(place),
        ReadFault::Memory => ImageFault::Memory,
    }
}

/// Reads the value whose image is exactly these bytes.
///
/// Errors: `Damaged` if they are the image of no value, with a place among the bytes (if they begin
/// with an image, the place after it); `Memory` if an allocation fails.
pub fn read_exactly<F: ReadImage>(alloc: Global, bytes: &[u8]) -> Result<F::Value, ImageFault>
    ensures exact { ReadsWholeImage F.format bytes.now result }
{
    let mut r = Ndr::new(bytes);
    match F::read(alloc, &mut r) {
        Ok(value) => {
            if is_done(&r) {
                return Ok(value);
            }
            Err(ImageFault::Damaged(place_in(bytes, &r)))
        }
        Err(fault) => Err(placed(fault, place_in(bytes, &r))),
    }
}

/// Reads a list of values whose images, one after the other, are exactly these bytes.
///
/// Errors: `Damaged` if they are no such images, with a place among the bytes; `Memory` if an
/// allocation fails.
pub fn read_row<F: ReadImage>(alloc: Global, bytes: &[u8]) -> Result<Vec<F::Value>, ImageFault>
    requires { HasBytes F.format }
    ensures row { IsRowReading F.format bytes.now result }
{
    let mut r = Ndr::new(bytes);
    let mut all = Vec::new(alloc);
    'row: while !is_done(&r) {
        match F::read(alloc, &mut r) {
            Ok(value) => all.push(value)?,
            Err(fault) => return Err(placed(fault, place_in(bytes, &r))),
        }
    }
    Ok(all)
}
