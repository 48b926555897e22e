//! The fields of replies. Each is built as a `Vec` of its own, or appended to one.
ghost use Rattle.std.specs.Prelude.{[], ◌≡◌, ◌↔◌, ◌<◌, ◌≤◌, ◌+◌, ◌++◌, length, replicate, take, IfOk, IsErrOf, OnErr, OnOk};
ghost use Rattle.std.specs.List.{flat_map};
ghost use Rattle.oa_model.specs.promise.Limits.{max_names};
ghost use Rattle.oa_ndr.specs.promise.Forms.{padding};
ghost use Rattle.oa_variant.specs.declared.variant.Variant.TheVariants.{One};
ghost use Rattle.oa_ndr.specs.promise.Writing.{put_unit};
ghost use Rattle.oa_wire_array.specs.Canon.{max_wire_scalar};
ghost use Rattle.oa_wire_array.specs.promise.Canon.{put_head};
ghost use Rattle.oa_wire_variant.specs.promise.Canon.{canon};
ghost use Rattle.oa_record.specs.promise.Replies.{word, half_word, lost_field, signed_word, number_field, object_field};
ghost use Rattle.oa_record.specs.promise.Replies.{variant_field, ids_field, string_field};
ghost use Rattle.oa_record.specs.Replies.{max_fields_bytes, max_value_bytes};
ghost use Rattle.oa_record.specs.declared.fault.FieldFault.TheVariants.{TooLong};

use crate::FieldFault;
use oa_model::guid_to_wire;
use oa_ndr::NdrOut;
use oa_variant::{Scalar, Variant};
use oa_wire_array::{scalar_len, write_scalar};
use oa_wire_variant::{wire_len, write_variant};
use std::alloc::{AllocError, Global};
use std::mem;
use uuid::Uuid;

/// The largest number of bytes that the fields of a reply can have.
pub const MAX_FIELDS_BYTES: usize = 4_294_967_275;

/// The largest encoded value, in bytes, that fits a reply: after the 8 bytes of count and reserved
/// number, and with its padding.
const MAX_VALUE_BYTES: usize = (MAX_FIELDS_BYTES - 8) / 8 * 8;

/// Encodes a u32 and a reserved u32, which is 0, in 8 bytes.
#[tactic(auto, unfolding(crate::specs::promise::Replies::word))]
fn two_words(number: u32) -> [u8; 8]
    ensures { result ≡ number_field number }
{
    let [a, b, c, d] = number.to_le_bytes();
    [a, b, c, d, 0, 0, 0, 0]
}

/// Appends the zeros that pad `len` bytes to a multiple of 8. Err: the allocation fails; `out` is
/// unchanged.
fn pad(out: &mut Vec<u8>, len: usize) -> Result<(), AllocError>
    requires { len ≤ 8589934592 }
    ensures ok { OnOk result (out.new.items ≡ out.old.items ++ replicate (padding 8 len) 0) }
    ensures err { OnErr result (out.new.items ≡ out.old.items) }
{
    out.resize(out.len() + (len.next_multiple_of(8) - len), 0)
}

/// Truncates `out` to `len` bytes if `added` is an error, and returns `added`.
fn undone(out: &mut Vec<u8>, len: usize, added: Result<(), AllocError>) -> Result<(), AllocError>
    ensures same { result ≡ added }
    ensures ok { OnOk result (out.new.items ≡ out.old.items) }
    ensures err { OnErr result (out.new.items ≡ take len out.old.items) }
{
    if added.is_err() {
        out.truncate(len);
    }
    added
}

/// Returns a number field: u32 number, u32 reserved. Err: the allocation fails.
pub fn number_field(alloc: Global, number: u32) -> Result<Vec<u8>, AllocError>
    ensures value { IfOk result (λ v. v.items ≡ number_field number) }
    ensures len { IfOk result (λ v. length v.items ≡ 8) }
{
    Vec::from_slice(alloc, &two_words(number))
}

/// Appends a number field: u32 number, u32 reserved. Err: the allocation fails; `out` is unchanged.
pub fn put_number_field(out: &mut Vec<u8>, number: u32) -> Result<(), AllocError>
    ensures value { OnOk result (out.new.items ≡ out.old.items ++ number_field number) }
    ensures len { OnOk result (length out.new.items ≡ length out.old.items + 8) }
    ensures err { OnErr result (out.new.items ≡ out.old.items) }
{
    out.extend_from_slice(&two_words(number))
}

/// Appends an object field. After Err, `out` may end with a part of it.
fn add_object(out: &mut Vec<u8>, number: u32, class: &Uuid) -> Result<(), AllocError>
    ensures value { OnOk result (out.new.items ≡ out.old.items ++ object_field number class.now) }
    ensures len { OnOk result (length out.new.items ≡ length out.old.items + 24) }
    ensures front { OnErr result (take (length out.old.items) out.new.items ≡ out.old.items) }
{
    put_number_field(out, number)?;
    out.extend_from_slice(&guid_to_wire(class))?;
    Ok(())
}

/// Appends an object field, for a list of objects: u32 number, u32 reserved, the 16 bytes of its
/// coclass's GUID. Err: the allocation fails; `out` is unchanged.
pub fn put_object_field(out: &mut Vec<u8>, number: u32, class: &Uuid) -> Result<(), AllocError>
    ensures value { OnOk result (out.new.items ≡ out.old.items ++ object_field number class.now) }
    ensures len { OnOk result (length out.new.items ≡ length out.old.items + 24) }
    ensures err { OnErr result (out.new.items ≡ out.old.items) }
{
    let len = out.len();
    let added = add_object(out, number, class);
    undone(out, len, added)
}

/// Returns the fields of the refusal of a library that would lose something: the 16 bytes of the
/// GUID of its interface or coclass in wire order, i32 DISPID, u32 reserved. Err: the allocation
/// fails.
pub fn lost_field(alloc: Global, guid: &Uuid, dispid: i32) -> Result<Vec<u8>, AllocError>
    ensures value { IfOk result (λ v. v.items ≡ lost_field guid.now dispid) }
    ensures len { IfOk result (λ v. length v.items ≡ 24) }
{
    let mut field = Vec::with_capacity(alloc, 24)?;
    field.extend_from_slice(&guid_to_wire(guid))?;
    put_number_field(&mut field, dispid.cast_unsigned())?;
    Ok(field)
}

/// Encodes a value field with a long (VT_I4), all 32 bytes at once.
#[tactic(auto, unfolding(crate::specs::promise::Replies::word))]
fn long_field(bits: u32) -> [u8; 32]
    ensures { result ≡ number_field 24 ++ put_unit 4 bits (put_unit 4 3 (put_head 3 3 [])) }
{
    let [a, b, c, d] = bits.to_le_bytes();
    [
        24, 0, 0, 0, 0, 0, 0, 0, 3, 0, 0, 0, 0, 0, 0, 0, 3, 0, 0, 0, 0, 0, 0, 0, 3, 0, 0, 0, a, b,
        c, d,
    ]
}

/// Appends a value field. `len` is the number of bytes of the encoded value. After Err, `out` may
/// end with a part of it.
fn add_value(out: &mut Vec<u8>, value: &Variant, len: usize) -> Result<(), AllocError>
    requires counted { len ≡ length (canon value.now) }
    requires few { len ≤ max_value_bytes }
    ensures ok { OnOk result (out.new.items ≡ out.old.items ++ variant_field value.now) }
    ensures front { OnErr result (take (length out.old.items) out.new.items ≡ out.old.items) }
{
    out.extend_from_slice(&two_words(len as u32))?;
    write_variant(value, out)?;
    pad(out, len)
}

/// Appends a value field: u32 count of the value's bytes, u32 reserved, these bytes, zeros up to a
/// multiple of 8. After Err, `out` is unchanged.
///
/// Errors: `TooLong` if and only if the encoded value, an array, has more than 4,294,967,264 bytes;
/// `Memory` if an allocation fails.
pub fn put_variant_field(out: &mut Vec<u8>, value: &Variant) -> Result<(), FieldFault>
    ensures value { OnOk result (out.new.items ≡ out.old.items ++ variant_field value.now) }
    ensures err { OnErr result (out.new.items ≡ out.old.items) }
    ensures long { IsErrOf result TooLong ↔ (max_value_bytes < length (canon value.now)) }
{
    let len = wire_len(value);
    if len > MAX_VALUE_BYTES {
        return Err(FieldFault::TooLong);
    }
    let before = out.len();
    let added = add_value(out, value, len);
    undone(out, before, added)?;
    Ok(())
}

/// Returns a value field: u32 count of the value's bytes, u32 reserved, these bytes, zeros up to a
/// multiple of 8.
///
/// Errors: `TooLong` if and only if the encoded value, an array, has more than 4,294,967,264 bytes;
/// `Memory` if an allocation fails.
#[tactic(auto, using(crate::proofs::Longs::long_is))]
pub fn variant_field(alloc: Global, value: &Variant) -> Result<Vec<u8>, FieldFault>
    ensures value { IfOk result (λ v. v.items ≡ variant_field value.now) }
    ensures len { IfOk result (λ v. length v.items ≤ max_fields_bytes) }
    ensures long { IsErrOf result TooLong ↔ (max_value_bytes < length (canon value.now)) }
{
    if let Variant::One(Scalar::I4(number)) = value {
        return Ok(Vec::from_slice(alloc, &long_field(number.cast_unsigned()))?);
    }
    let len = wire_len(value);
    if len > MAX_VALUE_BYTES {
        return Err(FieldFault::TooLong);
    }
    let mut field = Vec::with_capacity(alloc, 16 + len)?;
    add_value(&mut field, value, len)?;
    Ok(field)
}

/// Returns the length in bytes of the encoding of a scalar as a value.
#[tactic(auto, unfolding(oa_wire_array::specs::promise::Canon::scalar_len))]
fn one_len(value: &Scalar) -> usize
    ensures value { result ≡ length (canon (One value.now)) }
    ensures small { result ≤ max_wire_scalar }
{
    scalar_len(value)
}

/// Appends the encoding of a scalar, aligned as if it began at offset 0. Err: an allocation fails;
/// `out` is unchanged.
fn add_scalar(out: &mut Vec<u8>, value: &Scalar) -> Result<(), AllocError>
    ensures ok { OnOk result (out.new.items ≡ out.old.items ++ canon (One value.now)) }
    ensures err { OnErr result (out.new.items ≡ out.old.items) }
{
    let mut field = NdrOut::new(mem::replace(out, Vec::new(*out.allocator())));
    let answer = write_scalar(&mut field, value);
    *out = field.into_vec();
    answer
}

/// Appends a value field with a scalar. After Err, `out` may end with a part of it.
fn add_scalar_field(out: &mut Vec<u8>, value: &Scalar) -> Result<(), AllocError>
    ensures ok { OnOk result (out.new.items ≡ out.old.items ++ variant_field (One value.now)) }
    ensures front { OnErr result (take (length out.old.items) out.new.items ≡ out.old.items) }
{
    let len = one_len(value);
    out.extend_from_slice(&two_words(len as u32))?;
    add_scalar(out, value)?;
    pad(out, len)?;
    Ok(())
}

/// Appends a value field with a scalar, without a copy into a `Variant`. Err: an allocation fails;
/// `out` is unchanged.
fn put_scalar_field(out: &mut Vec<u8>, value: &Scalar) -> Result<(), AllocError>
    ensures value { OnOk result (out.new.items ≡ out.old.items ++ variant_field (One value.now)) }
    ensures err { OnErr result (out.new.items ≡ out.old.items) }
{
    let len = out.len();
    let added = add_scalar_field(out, value);
    undone(out, len, added)
}

/// Returns a value field with a scalar: u32 count of the value's bytes at 0, u32 reserved at 4,
/// from 8 on these bytes, zeros up to a multiple of 8. The bytes are those of
/// `oa_wire_variant::write_variant` (wireVARIANT, MS-OAUT section 2.2.29). Err: an allocation
/// fails.
pub fn scalar_field(alloc: Global, value: &Scalar) -> Result<Vec<u8>, AllocError>
    ensures value { IfOk result (λ v. v.items ≡ variant_field (One value.now)) }
    ensures len { IfOk result (λ v. length v.items ≤ max_fields_bytes) }
{
    let mut field = Vec::with_capacity(alloc, 16 + one_len(value))?;
    put_scalar_field(&mut field, value)?;
    Ok(field)
}

/// Encodes a DISPID in 4 bytes, little-endian.
#[tactic(auto, unfolding(crate::specs::promise::Replies::word))]
fn signed_bytes(id: i32) -> [u8; 4]
    ensures { result ≡ signed_word id }
{
    id.to_le_bytes()
}

/// Appends DISPIDs, 4 bytes each. Err: the allocation fails, and some may have been appended.
fn put_ids(out: &mut Vec<u8>, ids: &[i32]) -> Result<(), AllocError>
    ensures { OnOk result (out.new.items ≡ out.old.items ++ flat_map signed_word ids.now) }
{
    'ids: for id in ids {
        out.extend_from_slice(&signed_bytes(*id))?;
    }
    Ok(())
}

/// Returns a field of at most 17 DISPIDs: u32 count, u32 reserved, i32 each, zeros up to a multiple
/// of 8. Err: an allocation fails.
pub fn ids_field(alloc: Global, ids: &[i32]) -> Result<Vec<u8>, AllocError>
    requires { length ids.now ≤ max_names }
    ensures value { IfOk result (λ v. v.items ≡ ids_field ids.now) }
    ensures len { IfOk result (λ v. length v.items ≤ max_fields_bytes) }
{
    let len = 4 * ids.len();
    let mut field = Vec::with_capacity(alloc, 12 + len)?;
    field.extend_from_slice(&two_words(ids.len() as u32))?;
    put_ids(&mut field, ids)?;
    pad(&mut field, len)?;
    Ok(field)
}

/// Encodes an ASCII character as a UTF-16 unit of 2 bytes, little-endian.
#[tactic(auto, unfolding(crate::specs::promise::Replies::half_word))]
fn unit_bytes(character: u8) -> [u8; 2]
    ensures { result ≡ half_word character }
{
    (character as u16).to_le_bytes()
}

/// Appends a UTF-16 unit for each character of `text`. Err: the allocation fails, and some may have
/// been appended.
fn put_units(out: &mut Vec<u8>, text: &[u8]) -> Result<(), AllocError>
    ensures ok { OnOk result (out.new.items ≡ out.old.items ++ flat_map half_word text.now) }
    ensures front { OnErr result (take (length out.old.items) out.new.items ≡ out.old.items) }
{
    'units: for character in text {
        out.extend_from_slice(&unit_bytes(*character))?;
    }
    Ok(())
}

/// Appends a string field. After Err, `out` may end with a part of it.
fn add_string(out: &mut Vec<u8>, text: &[u8]) -> Result<(), AllocError>
    requires { length text.now ≤ 4294967295 }
    ensures ok { OnOk result (out.new.items ≡ out.old.items ++ string_field text.now) }
    ensures front { OnErr result (take (length out.old.items) out.new.items ≡ out.old.items) }
{
    out.extend_from_slice(&two_words(text.len() as u32))?;
    put_units(out, text)?;
    pad(out, 2 * text.len())?;
    Ok(())
}

/// Appends a string field of ASCII characters: u32 count, u32 reserved, a UTF-16 unit for each,
/// zeros up to a multiple of 8. After Err, `out` is unchanged.
///
/// Errors: `TooLong` if and only if the text has more than 4,294,967,295 characters; `Memory` if an
/// allocation fails.
fn put_string_field(out: &mut Vec<u8>, text: &[u8]) -> Result<(), FieldFault>
    ensures value { OnOk result (out.new.items ≡ out.old.items ++ string_field text.now) }
    ensures err { OnErr result (out.new.items ≡ out.old.items) }
    ensures long { IsErrOf result TooLong ↔ (4294967295 < length text.now) }
{
    if text.len() > u32::MAX as usize {
        return Err(FieldFault::TooLong);
    }
    let len = out.len();
    let added = add_string(out, text);
    undone(out, len, added)?;
    Ok(())
}

/// Returns a string field of ASCII characters: u32 count of the characters at 0, u32 reserved at 4.
/// From 8 on it has a UTF-16 unit of 2 bytes for each, and zeros up to a multiple of 8.
///
/// Errors: `TooLong` if and only if the text has more than 4,294,967,295 characters; `Memory` if an
/// allocation fails.
pub fn string_field(alloc: Global, text: &[u8]) -> Result<Vec<u8>, FieldFault>
    ensures value { IfOk result (λ v. v.items ≡ string_field text.now) }
    ensures long { IsErrOf result TooLong ↔ (4294967295 < length text.now) }
{
    if text.len() > u32::MAX as usize {
        return Err(FieldFault::TooLong);
    }
    let mut field = Vec::with_capacity(alloc, 16 + 2 * text.len())?;
    put_string_field(&mut field, text)?;
    Ok(field)
}
