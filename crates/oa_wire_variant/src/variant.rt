//! Decodes and encodes whole fields.

ghost use Rattle.std.specs.Prelude.{◌≡◌, ◌++◌, ◌-◌, ◌<◌, ◌≤◌, ◌^◌, length, IfSome, IsSome, OnOk, OnErr, Some};
ghost use Rattle.oa_model.specs.promise.Invoke.{vt_array};
ghost use Rattle.oa_model.specs.promise.Types.{type_at, sf_type_of};
ghost use Rattle.oa_ndr.specs.Reading.{whole};
ghost use Rattle.oa_ndr.specs.Writing.{in_field};
ghost use Rattle.oa_wire_text.specs.Reading.{ReadsField, OnMemory, from_multiple};
ghost use Rattle.oa_wire_array.specs.Reading.{union_at};
ghost use Rattle.oa_wire_array.specs.ArrayReading.{array_at};
ghost use Rattle.oa_wire_variant.specs.Variants.{ReadsVariant, IsArrayVt, TakesMemory};
ghost use Rattle.oa_wire_variant.specs.promise.Variants.{is_value_type, field_fault};
ghost use Rattle.oa_wire_variant.specs.Reading.{
  ReadsWholeField,
  scalar_value_at,
  array_union_at,
  array_value_at,
  variant_at,
};
ghost use Rattle.oa_variant.specs.declared.scalar.Scalar.TheVariants.{I4};
ghost use Rattle.oa_variant.specs.declared.variant.Variant.TheVariants.{One};
ghost use Rattle.oa_wire_variant.specs.promise.Canon.{canon, put_variant, put_array_head, put_sized_array};
ghost use Rattle.oa_wire_variant.specs.Canon.{IsArrayLen};

use byteorder::{ByteOrder, LittleEndian};
use oa_array::SafeArray;
use oa_model::{VT_ARRAY, VT_I4, ValueType, VarType};
use oa_ndr::{Ndr, NdrOut};
use oa_variant::{Scalar, Variant};
use oa_wire_array::{
    WireFault, array_end, read_array, read_union, scalar_len, write_array, write_head, write_scalar,
};
use oa_wire_text::StubFault;
use std::alloc::{AllocError, Global};
use std::mem;

// The number of bytes of the field of a long. Its discriminant is its vt (MS-OAUT section 2.2.7).
const LONG_BYTES: usize = 24;

// The offset of the second referent of an array.
const SECOND_REFERENT: usize = 24;

/// Reads the union of a scalar, after its vt. Errors: `BadStub`, `Memory`.
fn union(alloc: Global, vt: u16, r: &mut Ndr<'_>) -> Result<Scalar, StubFault>
    ensures value { ReadsField result r.new (union_at vt r.old) }
    ensures memory { OnMemory result ((vt ≡ 8) × (20 ≤ length r.old.rest)) }
{
    read_union(alloc, vt, r)
}

/// Reads an array from its second referent on. Errors: `BadStub`, also for a type of which there
/// are no arrays; `Memory`.
fn array(alloc: Global, elem: VarType, r: &mut Ndr<'_>) -> Result<SafeArray<Scalar>, StubFault>
    ensures value { ReadsField result r.new (array_at elem r.old) }
    ensures memory { OnMemory result (IsSome (sf_type_of elem) × (32 ≤ length r.old.rest)) }
{
    read_array(alloc, r, elem).map_err(|fault| match fault {
        WireFault::BadStub | WireFault::BadVarType => StubFault::BadStub,
        WireFault::Memory => StubFault::Memory,
    })
}

/// Reads a scalar, after its vt. Errors: `BadStub`, `Memory`.
#[tactic(auto, unfolding(oa_ndr::specs::Reading::steps, crate::specs::Reading::scalar_value_at))]
fn scalar_value(alloc: Global, vt: u16, r: &mut Ndr<'_>) -> Result<Variant, StubFault>
    ensures value { ReadsField result r.new (scalar_value_at vt r.old) }
    ensures memory { OnMemory result ((vt ≡ 8) × (20 ≤ length r.old.rest)) }
{
    Ok(Variant::One(union(alloc, vt, r)?))
}

/// Reads the discriminant, the first referent and the array. Errors: `BadStub`, `Memory`.
#[tactic(auto, unfolding(oa_ndr::specs::Reading::steps, crate::specs::Reading::array_union_at))]
fn array_union(
    alloc: Global,
    elem: VarType,
    vt: u16,
    r: &mut Ndr<'_>,
) -> Result<SafeArray<Scalar>, StubFault>
    ensures value { ReadsField result r.new (array_union_at elem vt r.old) }
    ensures memory { OnMemory result (IsSome (sf_type_of elem) × (40 ≤ length r.old.rest)) }
{
    let discriminant = r.u32()?;
    let is_set = r.referent()?;
    if (discriminant == VT_ARRAY as u32 || discriminant == vt as u32) && is_set {
        return array(alloc, elem, r);
    }
    Err(StubFault::BadStub)
}

/// Reads an array, after its vt. Errors: `BadStub`, `Memory`.
#[tactic(auto, unfolding(oa_ndr::specs::Reading::steps, crate::specs::Reading::array_value_at))]
fn array_value(alloc: Global, vt: u16, r: &mut Ndr<'_>) -> Result<Variant, StubFault>
    requires { vt_array ≤ vt }
    ensures value { ReadsField result r.new (array_value_at (type_at (vt - vt_array)) vt r.old) }
    ensures memory { OnMemory result (IsArrayVt vt × (40 ≤ length r.old.rest)) }
{
    match VarType::from_vt(vt - VT_ARRAY) {
        Some(elem) => Ok(Variant::Array(array_union(alloc, elem, vt, r)?)),
        None => Err(StubFault::BadStub),
    }
}

/// Reads a value. Errors: `BadStub`, `Memory`.
#[tactic(auto, unfolding(oa_ndr::specs::Reading::steps, crate::specs::Reading::variant_at))]
fn variant(alloc: Global, r: &mut Ndr<'_>) -> Result<Variant, StubFault>
    ensures value { ReadsField result r.new (variant_at r.old) }
    ensures memory { OnMemory result (TakesMemory (from_multiple 8 r.old)) }
{
    r.align(8)?;
    r.u32()?;
    r.u32()?;
    let vt = r.u16()?;
    r.u16()?;
    r.u16()?;
    r.u16()?;
    if vt < VT_ARRAY {
        return scalar_value(alloc, vt, r);
    }
    array_value(alloc, vt, r)
}

/// Returns the number of a long, which is the value of most fields. None for any other field.
#[tactic(auto, using(crate::proofs::Longs::long_reads))]
fn long(bytes: &[u8]) -> Option<i32>
    ensures { IfSome result (λ number. whole variant_at bytes.now ≡ Some (One (I4 number))) }
{
    if bytes.len() == LONG_BYTES
        && LittleEndian::read_u16(&bytes[8..]) == VT_I4
        && LittleEndian::read_u32(&bytes[16..]) == VT_I4 as u32
    {
        return Some(LittleEndian::read_u32(&bytes[20..]).cast_signed());
    }
    None
}

/// Reads a value that uses all of the bytes. Errors: `BadStub`, also if some are left over;
/// `Memory`.
fn whole(alloc: Global, bytes: &[u8]) -> Result<Variant, StubFault>
    ensures value { ReadsWholeField result (whole variant_at bytes.now) }
    ensures memory { OnMemory result (TakesMemory bytes.now) }
{
    let mut r = Ndr::new(bytes);
    let value = variant(alloc, &mut r)?;
    if !r.rest().is_empty() {
        return Err(StubFault::BadStub);
    }
    Ok(value)
}

/// Returns whether some value has this vt.
fn is_value_type(vt: u16) -> bool
    ensures { result ≡ is_value_type vt }
{
    if vt < VT_ARRAY {
        return match VarType::from_vt(vt) {
            None => false,
            Some(VarType::Variant) => false,
            Some(_) => true,
        };
    }
    match VarType::from_vt(vt - VT_ARRAY) {
        None => false,
        Some(elem) => elem.sf_type().is_some(),
    }
}

/// Returns the error of a field that encodes no value.
fn field_fault(bytes: &[u8]) -> WireFault
    ensures { result ≡ field_fault bytes.now }
{
    if bytes.len() >= 20 && !is_value_type(LittleEndian::read_u16(&bytes[8..])) {
        WireFault::BadVarType
    } else {
        WireFault::BadStub
    }
}

/// Decodes the value that all of the bytes encode (MS-OAUT section 2.2.29): a scalar, or an array,
/// which has no locks.
///
/// Errors:
/// - `BadVarType`: they encode no value, are at least 20 bytes, and no value has the vt at offset
///   8: it is outside the types of `VarType`, it is VARIANT, or it is VT_ARRAY with a type of which
///   there are no arrays.
/// - `BadStub`: they encode no value for another reason; for example, some bytes are left over.
/// - `Memory`: the allocation of the value fails. Either the vt is that of BSTR, and the field has
///   at least the 36 bytes before the text; or the vt is VT_ARRAY with a type of which there are
///   arrays, and the field has at least the 56 bytes before the bounds.
#[inline(always)]
pub fn read_variant(alloc: Global, bytes: &[u8]) -> Result<Variant, WireFault>
    ensures exact { ReadsVariant bytes.now result }
{
    if let Some(number) = long(bytes) {
        return Ok(Variant::One(Scalar::I4(number)));
    }
    read_other(alloc, bytes)
}

/// Decodes any field as `read_variant` does, with the same errors.
fn read_other(alloc: Global, bytes: &[u8]) -> Result<Variant, WireFault>
    ensures exact { ReadsVariant bytes.now result }
{
    whole(alloc, bytes).map_err(|fault| match fault {
        StubFault::Memory => WireFault::Memory,
        StubFault::BadStub => field_fault(bytes),
    })
}

/// Returns the number of bytes that `write_variant` appends. For an array these are the bytes that
/// clSize counts.
#[tactic(auto, unfolding(oa_wire_array::specs::promise::Canon::scalar_len))]
fn measure(value: &Variant) -> usize
    ensures value { result ≡ length (canon value.now) }
    ensures array { IsArrayLen result value.now }
    ensures small { result < 2 ^ 40 }
{
    match value {
        Variant::One(one) => scalar_len(one),
        Variant::Array(array) => array_end(array, SECOND_REFERENT),
    }
}

/// Returns the number of bytes that `write_variant` appends.
pub fn wire_len(value: &Variant) -> usize
    ensures value { result ≡ length (canon value.now) }
    ensures small { result < 2 ^ 40 }
{
    measure(value)
}

/// Writes the bytes before the second referent of an array. Err: an allocation fails.
fn write_array_head(out: &mut NdrOut, size: u32, vt: u16) -> Result<(), AllocError>
    ensures ok { OnOk result (out.new ≡ in_field (put_array_head size vt) out.old) }
    ensures before { out.new.before ≡ out.old.before }
{
    write_head(out, size, vt)?;
    out.u32(VT_ARRAY as u32)?;
    out.referent(true)
}

/// Writes an array with the given clSize. Err: an allocation fails.
fn write_sized_array(
    out: &mut NdrOut,
    size: u32,
    array: &SafeArray<Scalar>,
) -> Result<(), AllocError>
    ensures ok { OnOk result (out.new ≡ in_field (put_sized_array size array.now) out.old) }
    ensures before { out.new.before ≡ out.old.before }
{
    let vt = ValueType::Array(array.elem()).vt();
    write_array_head(out, size, vt)?;
    write_array(out, array)
}

/// Writes the bytes of a value; `len` is the length in bytes of the encoding of an array. Err: an
/// allocation fails.
fn write_field(out: &mut NdrOut, value: &Variant, len: usize) -> Result<(), AllocError>
    requires counted { IsArrayLen len value.now }
    requires small { len < 2 ^ 40 }
    ensures ok { OnOk result (out.new ≡ in_field (put_variant value.now) out.old) }
    ensures before { out.new.before ≡ out.old.before }
{
    match value {
        Variant::One(one) => write_scalar(out, one),
        Variant::Array(array) => {
            let size = (len + 7) / 8 % 0x1_0000_0000;
            write_sized_array(out, size as u32, array)
        }
    }
}

/// Appends the encoding of a value to `out`, as a field of its own: its offsets count from the end
/// of `out`. In this encoding reserved numbers and padding are 0, a referent is 0x00020000, and
/// clSize counts units of 8 bytes. Locks are not encoded. Err: an allocation fails; `out` is
/// unchanged.
pub fn write_variant(value: &Variant, out: &mut Vec<u8>) -> Result<(), AllocError>
    ensures ok { OnOk result (out.new.items ≡ out.old.items ++ canon value.now) }
    ensures err { OnErr result (out.new.items ≡ out.old.items) }
{
    let len = measure(value);
    out.reserve(len)?;
    let mut field = NdrOut::new(mem::replace(out, Vec::new(*out.allocator())));
    let answer = write_field(&mut field, value, len);
    if answer.is_err() {
        field.truncate(0);
    }
    *out = field.into_vec();
    answer
}
