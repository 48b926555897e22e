//! Decodes and encodes scalars.

ghost use Rattle.std.specs.Prelude.{◌≡◌, ◌≤◌, ◌<◌, [], OnOk, OnErr, length};
ghost use Rattle.oa_model.specs.declared.var_type.VarType.TheVariants as types;
ghost use Rattle.oa_ndr.specs.Writing.{TakesNothingBack, in_field};
ghost use Rattle.oa_wire_array.specs.promise.Scalars.{scalar};
ghost use Rattle.oa_wire_array.specs.Scalars.{union_of, TakesText};
ghost use Rattle.oa_wire_text.specs.Reading.{ReadsField, IsFront, OnMemory, from_multiple};
ghost use Rattle.oa_wire_array.specs.Reading.{sign_at, decimal_at, arm_at, union_at, scalar_at};
ghost use Rattle.oa_wire_array.specs.Canon.{max_wire_scalar};
ghost use Rattle.oa_wire_array.specs.promise.Canon.{put_truth, put_decimal, put_arm, put_head, put_sized, put_scalar};
ghost use Rattle.oa_wire_array.specs.promise.Canon.{scalar_len};

use oa_model::VarType;
use oa_ndr::{Ndr, NdrOut};
use oa_variant::{Decimal, Scalar};
use oa_wire_text::{StubFault, read_bstr, write_bstr};
use std::alloc::{AllocError, Global};

/// Reads the sign of a DECIMAL. Err: `BadStub` if it is neither 0 nor 0x80.
#[tactic(auto, unfolding(oa_ndr::specs::Reading::steps, crate::specs::Reading::sign_at))]
fn sign(r: &mut Ndr<'_>) -> Result<bool, StubFault>
    ensures value { ReadsField result r.new (sign_at r.old) }
    ensures memory { OnMemory result ⊥ }
{
    match r.u8()? {
        0 => Ok(false),
        0x80 => Ok(true),
        _ => Err(StubFault::BadStub),
    }
}

/// Reads a DECIMAL. Err: `BadStub`, also for a scale above 28.
#[tactic(auto, unfolding(oa_ndr::specs::Reading::steps, crate::specs::Reading::decimal_at))]
fn decimal(r: &mut Ndr<'_>) -> Result<Decimal, StubFault>
    ensures value { ReadsField result r.new (decimal_at r.old) }
    ensures memory { OnMemory result ⊥ }
{
    r.align(8)?;
    r.u16()?;
    let scale = r.u8()?;
    let negative = sign(r)?;
    let high = r.u32()?;
    let low = r.u64()?;
    if scale > 28 {
        return Err(StubFault::BadStub);
    }
    let magnitude = high as u128 * 0x1_0000_0000_0000_0000 + low as u128;
    Ok(Decimal::new(negative, scale, magnitude))
}

/// Reads the arm of a type, with its pointee. Errors: `BadStub`, `Memory`; the reader may have
/// moved.
#[tactic(auto, unfolding(oa_ndr::specs::Reading::steps, crate::specs::Reading::arm_at, crate::specs::Reading::integer_at, crate::specs::Reading::signed_at, crate::specs::Reading::truth_at))]
pub(crate) fn arm(alloc: Global, var_type: VarType, r: &mut Ndr<'_>) -> Result<Scalar, StubFault>
    ensures value { ReadsField result r.new (arm_at var_type r.old) }
    ensures memory { OnMemory result ((var_type ≡ types.Bstr) × (16 ≤ length r.old.rest)) }
{
    Ok(match var_type {
        VarType::Empty => Scalar::Empty,
        VarType::Null => Scalar::Null,
        VarType::I1 => Scalar::I1(r.u8()?.cast_signed()),
        VarType::I2 => Scalar::I2(r.u16()?.cast_signed()),
        VarType::I4 => Scalar::I4(r.u32()?.cast_signed()),
        VarType::I8 => Scalar::I8(r.u64()?.cast_signed()),
        VarType::Int => Scalar::Int(r.u32()?.cast_signed()),
        VarType::Ui1 => Scalar::Ui1(r.u8()?),
        VarType::Ui2 => Scalar::Ui2(r.u16()?),
        VarType::Ui4 => Scalar::Ui4(r.u32()?),
        VarType::Ui8 => Scalar::Ui8(r.u64()?),
        VarType::Uint => Scalar::Uint(r.u32()?),
        VarType::Cy => Scalar::Cy(r.u64()?.cast_signed()),
        VarType::Bool => Scalar::Bool(r.u16()? != 0),
        VarType::Error => Scalar::Error(r.u32()?),
        VarType::Bstr => Scalar::Bstr(read_bstr(alloc, r)?),
        VarType::Decimal => Scalar::Decimal(decimal(r)?),
        VarType::Variant => return Err(StubFault::BadStub),
    })
}

/// Reads a union, as `read_union` does. Errors are those of `read_union`, but the reader may have
/// moved.
#[tactic(auto, unfolding(oa_ndr::specs::Reading::steps, crate::specs::Reading::arm_of, crate::specs::Reading::union_at))]
fn union(alloc: Global, vt: u16, r: &mut Ndr<'_>) -> Result<Scalar, StubFault>
    ensures value { ReadsField result r.new (union_at vt r.old) }
    ensures memory { OnMemory result ((vt ≡ 8) × (20 ≤ length r.old.rest)) }
{
    let discriminant = r.u32()?;
    if discriminant != vt as u32 {
        return Err(StubFault::BadStub);
    }
    match VarType::from_vt(vt) {
        Some(var_type) => arm(alloc, var_type, r),
        None => Err(StubFault::BadStub),
    }
}

/// Reads the union of a wireVARIANT without VT_ARRAY (MS-OAUT section 2.2.29.1), whose vt has been
/// read before: the discriminant, which must be that vt, and the arm with its pointee. After an
/// error the reader has not moved.
///
/// Errors: `BadStub` if no bytes from the reader on are those of a scalar with that vt; `Memory` if
/// the allocation of a BSTR fails, which occurs only if the 20 bytes before a text are there.
pub fn read_union(alloc: Global, vt: u16, r: &mut Ndr<'_>) -> Result<Scalar, StubFault>
    ensures exact { IsFront (union_of vt) result r.old r.new }
    ensures memory { OnMemory result ((vt ≡ 8) × (20 ≤ length r.old.rest)) }
{
    let mut ahead = r.fork();
    let answer = union(alloc, vt, &mut ahead);
    if answer.is_ok() {
        *r = ahead;
    }
    answer
}

/// Reads a scalar as `read_scalar` does. Errors are those of `read_scalar`, but the reader may have
/// moved.
#[tactic(auto, unfolding(oa_ndr::specs::promise::Reading::bind, crate::specs::Reading::scalar_at))]
pub(crate) fn scalar(alloc: Global, r: &mut Ndr<'_>) -> Result<Scalar, StubFault>
    ensures value { ReadsField result r.new (scalar_at r.old) }
    ensures memory { OnMemory result (TakesText (from_multiple 8 r.old)) }
{
    r.align(8)?;
    r.u32()?;
    r.u32()?;
    let vt = r.u16()?;
    r.u16()?;
    r.u16()?;
    r.u16()?;
    union(alloc, vt, r)
}

/// Reads a wireVARIANT without VT_ARRAY at the next multiple of 8, with its pointee (MS-OAUT
/// section 2.2.29): clSize at its first byte, vt at 8, the discriminant at 16, the arm from 20 on.
/// clSize and reserved numbers are ignored. After an error the reader has not moved.
///
/// Errors: `BadStub` if no bytes from the reader on encode a scalar; `Memory` if the allocation of
/// a BSTR fails, which occurs only if the 36 bytes before a text are there.
pub fn read_scalar(alloc: Global, r: &mut Ndr<'_>) -> Result<Scalar, StubFault>
    ensures exact { IsFront scalar result r.old r.new }
    ensures memory { OnMemory result (TakesText (from_multiple 8 r.old)) }
{
    let mut ahead = r.fork();
    let answer = scalar(alloc, &mut ahead);
    if answer.is_ok() {
        *r = ahead;
    }
    answer
}

/// Writes a VARIANT_BOOL. Err: an allocation fails.
fn write_truth(out: &mut NdrOut, truth: bool) -> Result<(), AllocError>
    ensures ok { OnOk result (out.new ≡ in_field (put_truth truth) out.old) }
    ensures kept { TakesNothingBack out.old out.new }
{
    out.u16(if truth { 0xFFFF } else { 0 })
}

/// Writes a DECIMAL. Err: an allocation fails.
fn write_decimal(out: &mut NdrOut, decimal: &Decimal) -> Result<(), AllocError>
    ensures ok { OnOk result (out.new ≡ in_field (put_decimal decimal.now) out.old) }
    ensures kept { TakesNothingBack out.old out.new }
{
    let magnitude = decimal.magnitude();
    out.align(8)?;
    out.u16(0)?;
    out.u8(decimal.scale())?;
    out.u8(if decimal.is_negative() { 0x80 } else { 0 })?;
    out.u32((magnitude / 0x1_0000_0000_0000_0000) as u32)?;
    out.u64((magnitude % 0x1_0000_0000_0000_0000) as u64)
}

/// Writes the arm of a scalar, with its pointee. Err: an allocation fails, and a part may have been
/// written.
pub(crate) fn write_arm(out: &mut NdrOut, value: &Scalar) -> Result<(), AllocError>
    ensures ok { OnOk result (out.new ≡ in_field (put_arm value.now) out.old) }
    ensures kept { TakesNothingBack out.old out.new }
{
    match value {
        Scalar::Empty => Ok(()),
        Scalar::Null => Ok(()),
        Scalar::I1(z) => out.u8(z.cast_unsigned()),
        Scalar::I2(z) => out.u16(z.cast_unsigned()),
        Scalar::I4(z) => out.u32(z.cast_unsigned()),
        Scalar::I8(z) => out.u64(z.cast_unsigned()),
        Scalar::Int(z) => out.u32(z.cast_unsigned()),
        Scalar::Ui1(n) => out.u8(*n),
        Scalar::Ui2(n) => out.u16(*n),
        Scalar::Ui4(n) => out.u32(*n),
        Scalar::Ui8(n) => out.u64(*n),
        Scalar::Uint(n) => out.u32(*n),
        Scalar::Cy(z) => out.u64(z.cast_unsigned()),
        Scalar::Bool(b) => write_truth(out, *b),
        Scalar::Error(code) => out.u32(*code),
        Scalar::Bstr(text) => write_bstr(out, text),
        Scalar::Decimal(decimal) => write_decimal(out, decimal),
    }
}

/// Returns the bytes of a head at a multiple of 8. They are made at once, since a head is most of a
/// scalar.
fn head_bytes(size: u32, vt: u16) -> [u8; 16]
    ensures { result ≡ put_head size vt [] }
{
    let [a, b, c, d] = size.to_le_bytes();
    let [e, f] = vt.to_le_bytes();
    [a, b, c, d, 0, 0, 0, 0, e, f, 0, 0, 0, 0, 0, 0]
}

/// Writes a head as `write_head` does. Err: an allocation fails, and a part of the head may have
/// been written.
fn add_head(out: &mut NdrOut, size: u32, vt: u16) -> Result<(), AllocError>
    ensures ok { OnOk result (out.new ≡ in_field (put_head size vt) out.old) }
    ensures kept { TakesNothingBack out.old out.new }
{
    out.align(8)?;
    out.bytes(&head_bytes(size, vt))
}

/// Writes the start of a wireVARIANT (MS-OAUT section 2.2.29) at the next multiple of 8: clSize,
/// rpcReserved, vt and three reserved numbers. Err: an allocation fails; the output is unchanged.
pub fn write_head(out: &mut NdrOut, size: u32, vt: u16) -> Result<(), AllocError>
    ensures ok { OnOk result (out.new ≡ in_field (put_head size vt) out.old) }
    ensures err { OnErr result (out.new ≡ out.old) }
{
    let start = out.position();
    if let Err(e) = add_head(out, size, vt) {
        out.truncate(start);
        return Err(e);
    }
    Ok(())
}

/// Writes a scalar with a given clSize. Err: an allocation fails, and a part may have been written.
fn write_sized(out: &mut NdrOut, size: u32, value: &Scalar) -> Result<(), AllocError>
    ensures ok { OnOk result (out.new ≡ in_field (put_sized size value.now) out.old) }
    ensures kept { TakesNothingBack out.old out.new }
{
    let vt = value.var_type().vt();
    add_head(out, size, vt)?;
    out.u32(vt as u32)?;
    write_arm(out, value)
}

/// Returns the number of bytes that `write_scalar` writes at a multiple of 8, from the first of
/// clSize to the last of the pointee.
#[tactic(auto, unfolding(crate::specs::promise::Canon::scalar_len))]
pub fn scalar_len(value: &Scalar) -> usize
    ensures value { result ≡ scalar_len value.now }
    ensures small { result ≤ max_wire_scalar }
{
    match value {
        Scalar::Empty | Scalar::Null => 20,
        Scalar::I1(_) | Scalar::Ui1(_) => 21,
        Scalar::I2(_) | Scalar::Ui2(_) | Scalar::Bool(_) => 22,
        Scalar::I4(_) | Scalar::Ui4(_) | Scalar::Int(_) | Scalar::Uint(_) | Scalar::Error(_) => 24,
        Scalar::I8(_) | Scalar::Ui8(_) | Scalar::Cy(_) => 32,
        Scalar::Decimal(_) => 40,
        Scalar::Bstr(text) => {
            if text.is_null() {
                return 24;
            }
            let len = text.as_bytes().len();
            36 + len + len % 2
        }
    }
}

/// Writes a scalar as `write_scalar` does. Err: an allocation fails, and a part of the scalar may
/// have been written.
pub(crate) fn add_scalar(out: &mut NdrOut, value: &Scalar) -> Result<(), AllocError>
    ensures ok { OnOk result (out.new ≡ in_field (put_scalar value.now) out.old) }
    ensures kept { TakesNothingBack out.old out.new }
{
    let size = (scalar_len(value) + 7) / 8 % 0x1_0000_0000;
    write_sized(out, size as u32, value)
}

/// Writes a wireVARIANT without VT_ARRAY at the next multiple of 8, with its pointee (see
/// `read_scalar`). clSize is the number of its bytes in units of 8, rounded up. Err: an allocation
/// fails; the output is unchanged.
pub fn write_scalar(out: &mut NdrOut, value: &Scalar) -> Result<(), AllocError>
    ensures ok { OnOk result (out.new ≡ in_field (put_scalar value.now) out.old) }
    ensures err { OnErr result (out.new ≡ out.old) }
{
    let start = out.position();
    if let Err(e) = add_scalar(out, value) {
        out.truncate(start);
        return Err(e);
    }
    Ok(())
}
