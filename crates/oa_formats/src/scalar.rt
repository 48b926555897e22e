//! The images of texts, DECIMAL and scalars.
ghost use Rattle.std.specs.Prelude.{◌≡◌, ◌≤◌, ◌+◌, length, IfOk};
ghost use Rattle.oa_bstr.specs.promise.Text.{bytes_of};
ghost use Rattle.oa_variant.specs.promise.Scalars.{type_of, text_of};
ghost use Rattle.oa_formats.specs.Answers.{ReadsImage};
ghost use Rattle.oa_formats.specs.promise.Lengths.{content_size, scalar_size};
ghost use Rattle.oa_formats.specs.Lengths.{max_content_bytes, max_scalar_bytes};
ghost use Rattle.oa_formats.specs.promise.Values as values;
ghost use Rattle.oa_formats.specs.Windows.{Adds};

use crate::image::{PutImage, ReadImage};
use crate::reading::{
    read_bytes, read_i8, read_i16, read_i32, read_i64, read_truth, read_u8, read_u16, read_u32,
    read_u64,
};
use crate::writing::{
    put_bytes, put_i8, put_i16, put_i32, put_i64, put_truth, put_u8, put_u16, put_u32, put_u64,
};
use crate::{OutputCursor, ReadFault};
use oa_bstr::Bstr;
use oa_model::{MAX_TEXT_BYTES, VarType};
use oa_ndr::Ndr;
use oa_variant::{Decimal, Scalar};
use std::alloc::Global;

/// The number of bytes as it is written for the null text.
const NULL_TEXT: u32 = 0xFFFF_FFFF;

/// The greatest scale of a DECIMAL.
const MAX_SCALE: u8 = 28;

/// The factor of a magnitude's high bits: 2^64.
const ABOVE_LOW: u128 = 0x1_0000_0000_0000_0000;

/// Reads the number of bytes of a text; None for the null text. Err: `Broken`, also if no text has
/// that number.
#[tactic(auto, unfolding(oa_ndr::specs::promise::Reading::bind, crate::specs::promise::Formats::coded, crate::specs::promise::Values::text_header))]
fn read_text_header(r: &mut Ndr<'_>) -> Result<Option<u32>, ReadFault>
    ensures { ReadsImage result r.new (values.text_header.read r.old) }
{
    let n = read_u32(r)?;
    if n == NULL_TEXT {
        return Ok(None);
    }
    if n <= MAX_TEXT_BYTES {
        return Ok(Some(n));
    }
    Err(ReadFault::Broken)
}

/// Reads a text: the number of its bytes, and the bytes. Errors: `Broken`, `Memory`.
#[tactic(auto, unfolding(crate::specs::Formats::combinators, crate::specs::Values::texts))]
fn read_text(alloc: Global, r: &mut Ndr<'_>) -> Result<Bstr, ReadFault>
    ensures { ReadsImage result r.new (values.text.read r.old) }
{
    match read_text_header(r)? {
        None => Ok(Bstr::null()),
        Some(n) => {
            let bytes = read_bytes(n as usize, r)?;
            Bstr::from_bytes(alloc, bytes).map_err(|_| ReadFault::Memory)
        }
    }
}

/// Reads a DECIMAL of 14 bytes: its scale, its sign, the high 32 and the low 64 bits of its
/// magnitude. Err: `Broken`, also for a scale above 28.
#[tactic(auto, unfolding(crate::specs::Formats::combinators, crate::specs::promise::Values::decimal_format))]
fn read_decimal(r: &mut Ndr<'_>) -> Result<Decimal, ReadFault>
    ensures { ReadsImage result r.new (values.decimal_format.read r.old) }
{
    let scale = read_u8(r)?;
    let negative = read_truth(r)?;
    let high = read_u32(r)?;
    let low = read_u64(r)?;
    if scale <= MAX_SCALE {
        let magnitude = high as u128 * ABOVE_LOW + low as u128;
        return Ok(Decimal::new(negative, scale, magnitude));
    }
    Err(ReadFault::Broken)
}

/// Reads the number of a scalar's type. Err: `Broken`, also if no type has it.
#[tactic(auto, unfolding(oa_ndr::specs::promise::Reading::bind, crate::specs::promise::Formats::coded, crate::specs::promise::Values::vt))]
fn read_vt(r: &mut Ndr<'_>) -> Result<VarType, ReadFault>
    ensures { ReadsImage result r.new (values.vt.read r.old) }
{
    VarType::from_vt(read_u16(r)?).ok_or(ReadFault::Broken)
}

/// Reads the part of a scalar's image after the number of the type, for this type. Errors:
/// `Broken`, `Memory`.
#[tactic(auto, unfolding(crate::specs::Formats::combinators, crate::specs::promise::Values::of_type))]
pub(crate) fn read_content(
    alloc: Global,
    var_type: VarType,
    r: &mut Ndr<'_>,
) -> Result<Scalar, ReadFault>
    ensures read { ReadsImage result r.new ((values.of_type var_type).read r.old) }
    ensures fits { IfOk result (λ s. type_of s ≡ var_type) }
{
    Ok(match var_type {
        VarType::Empty => Scalar::Empty,
        VarType::Null => Scalar::Null,
        VarType::I1 => Scalar::I1(read_i8(r)?),
        VarType::I2 => Scalar::I2(read_i16(r)?),
        VarType::I4 => Scalar::I4(read_i32(r)?),
        VarType::I8 => Scalar::I8(read_i64(r)?),
        VarType::Int => Scalar::Int(read_i32(r)?),
        VarType::Ui1 => Scalar::Ui1(read_u8(r)?),
        VarType::Ui2 => Scalar::Ui2(read_u16(r)?),
        VarType::Ui4 => Scalar::Ui4(read_u32(r)?),
        VarType::Ui8 => Scalar::Ui8(read_u64(r)?),
        VarType::Uint => Scalar::Uint(read_u32(r)?),
        VarType::Cy => Scalar::Cy(read_i64(r)?),
        VarType::Bool => Scalar::Bool(read_truth(r)?),
        VarType::Error => Scalar::Error(read_u32(r)?),
        VarType::Bstr => Scalar::Bstr(read_text(alloc, r)?),
        VarType::Decimal => Scalar::Decimal(read_decimal(r)?),
        VarType::Variant => return Err(ReadFault::Broken),
    })
}

/// Writes a text: the number of its bytes, and the bytes.
#[tactic(auto, unfolding(crate::specs::Formats::combinators, crate::specs::Values::texts), using(crate::specs::Windows::added_added))]
fn put_text(text: &Bstr, w: &mut OutputCursor, out: &mut [u8])
    ensures { Adds (values.text.image text.now) w.old w.new out.old out.new }
{
    if text.is_null() {
        return put_u32(NULL_TEXT, w, out);
    }
    put_u32(text.byte_len(), w, out);
    put_bytes(text.as_bytes(), w, out)
}

/// Writes a DECIMAL in 14 bytes, as `read_decimal` reads it.
#[tactic(auto, unfolding(crate::specs::Formats::combinators, crate::specs::promise::Values::decimal_format), using(crate::specs::Windows::added_added))]
fn put_decimal(d: &Decimal, w: &mut OutputCursor, out: &mut [u8])
    ensures { Adds (values.decimal_format.image d.now) w.old w.new out.old out.new }
{
    let magnitude = d.magnitude();
    put_u8(d.scale(), w, out);
    put_truth(d.is_negative(), w, out);
    put_u32((magnitude / ABOVE_LOW) as u32, w, out);
    put_u64((magnitude % ABOVE_LOW) as u64, w, out)
}

/// Writes the part of a scalar's image that follows the number of the type.
#[tactic(auto, unfolding(crate::specs::Formats::combinators, crate::specs::promise::Values::of_type), using(crate::proofs::Adding::added_none))]
pub(crate) fn put_content(s: &Scalar, w: &mut OutputCursor, out: &mut [u8])
    ensures { Adds ((values.of_type (type_of s.now)).image s.now) w.old w.new out.old out.new }
{
    match s {
        Scalar::Empty => {}
        Scalar::Null => {}
        Scalar::I1(x) => put_i8(*x, w, out),
        Scalar::I2(x) => put_i16(*x, w, out),
        Scalar::I4(x) => put_i32(*x, w, out),
        Scalar::I8(x) => put_i64(*x, w, out),
        Scalar::Int(x) => put_i32(*x, w, out),
        Scalar::Ui1(x) => put_u8(*x, w, out),
        Scalar::Ui2(x) => put_u16(*x, w, out),
        Scalar::Ui4(x) => put_u32(*x, w, out),
        Scalar::Ui8(x) => put_u64(*x, w, out),
        Scalar::Uint(x) => put_u32(*x, w, out),
        Scalar::Cy(x) => put_i64(*x, w, out),
        Scalar::Bool(x) => put_truth(*x, w, out),
        Scalar::Error(x) => put_u32(*x, w, out),
        Scalar::Bstr(text) => put_text(text, w, out),
        Scalar::Decimal(d) => put_decimal(d, w, out),
    }
}

/// The format of scalars: the number of the type as u16, and the content.
pub struct ScalarFormat;

impl ReadImage for ScalarFormat {
    type Value = Scalar;

    ghost format = { values.scalar_format };

    #[tactic(auto, unfolding(oa_ndr::specs::promise::Reading::bind, crate::specs::promise::Formats::tagged, crate::specs::promise::Values::scalar_format))]
    fn read(alloc: Global, r: &mut Ndr<'_>) -> Result<Scalar, ReadFault> {
        let var_type = read_vt(r)?;
        read_content(alloc, var_type, r)
    }
}

impl PutImage for ScalarFormat {
    #[tactic(auto, unfolding(crate::specs::Formats::combinators, crate::specs::Values::scalar_parts), using(crate::specs::Windows::added_added))]
    fn put(value: &Scalar, w: &mut OutputCursor, out: &mut [u8]) {
        put_u16(value.var_type().vt(), w, out);
        put_content(value, w, out)
    }
}

/// Returns the length in bytes of a text's content: the number of its bytes, and the bytes.
fn text_len(s: &Scalar) -> usize
    ensures value { result ≡ 4 + length (bytes_of (text_of s.now)) }
    ensures small { result ≤ max_content_bytes }
{
    match s {
        Scalar::Bstr(text) => 4 + text.as_bytes().len(),
        _ => 4,
    }
}

/// Returns the length in bytes of a scalar's image after the number of its type.
#[inline(always)]
#[tactic(auto, unfolding(crate::specs::promise::Lengths::content_size))]
pub(crate) fn content_len(elem: VarType, s: &Scalar) -> usize
    ensures value { result ≡ content_size elem s.now }
    ensures small { result ≤ max_content_bytes }
{
    match elem {
        VarType::Empty | VarType::Null | VarType::Variant => 0,
        VarType::I1 | VarType::Ui1 | VarType::Bool => 1,
        VarType::I2 | VarType::Ui2 => 2,
        VarType::I4 | VarType::Int | VarType::Ui4 | VarType::Uint | VarType::Error => 4,
        VarType::I8 | VarType::Ui8 | VarType::Cy => 8,
        VarType::Decimal => 14,
        VarType::Bstr => text_len(s),
    }
}

/// Returns the length in bytes of a scalar's image: for a text at most six more than the text has.
#[inline(always)]
#[tactic(auto, unfolding(crate::specs::promise::Lengths::scalar_size), using(crate::proofs::Lengths::scalar_sized))]
pub fn scalar_image_len(s: &Scalar) -> usize
    ensures value { result ≡ length (values.scalar_format.image s.now) }
    ensures counted { result ≡ scalar_size s.now }
    ensures small { result ≤ max_scalar_bytes }
{
    2 + content_len(s.var_type(), s)
}
