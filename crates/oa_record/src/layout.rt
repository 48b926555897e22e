//! Parses the layout of a body. The fields of values stay encoded.
ghost use Rattle.std.specs.Prelude.{◌≡◌, ◌≤◌, ◌+◌, map, length, None, Some, IfOk};
ghost use Rattle.std.specs.Int.{cast_signed, w32};
ghost use Rattle.std.specs.Option.{option_map};
ghost use Rattle.oa_ndr.specs.promise.Reading.{many};
ghost use Rattle.oa_ndr.specs.Reading.{unit_at, whole};
ghost use Rattle.oa_wire_array.specs.ArrayReading.{bound_at};
ghost use Rattle.oa_record.specs.Reading.{
  ReadsBody,
  ReadsBodyToItsEnd,
  ReadsFixed,
  IsBehind,
  Starves,
  StarvesAt,
  guid_at,
  dispid_at,
  field_at,
  call_head_at,
  lists_at,
  call_at,
  index_list_at,
  indices_at,
  parts_of_element,
  element_at,
  string_at,
  names_at,
  get_ids_at,
  number_at,
  fields_at,
  layout_at,
};
ghost use Rattle.oa_record.specs.promise.Layouts.{Layout};
ghost use Rattle.oa_record.specs.Shown.{shown};
ghost use Rattle.oa_record.specs.ValueCalls.{body_number, guid_in, head_in, invoke_front, lists_behind, parts_bringing};
ghost use Rattle.oa_record.specs.declared.opcode.Opcode.TheVariants as opcodes;
ghost use Rattle.oa_record.specs.declared.opcode.ByCall.TheVariants as by_call;

use crate::body_parts::Parts;
use crate::raw_call::{RawCall, ValueParts};
use crate::{ByCall, CallHead, GetIds, Names, Opcode, RecordFault};
use byteorder::{ByteOrder, LittleEndian};
use oa_array::Indices;
use oa_model::{
    Bound, MAX_ARGUMENTS, MAX_DIMENSIONS, MAX_NAMES, PROPERTY_PUT_DISPID, guid_from_wire,
};
use oa_ndr::{Ndr, Short};
use std::alloc::Global;
use uuid::Uuid;

// The number of bytes of an INVOKE before its lists.
const INVOKE_FRONT: usize = 64;

/// Reads a GUID of 16 bytes in wire order. Err: fewer bytes are left.
#[tactic(auto, unfolding(oa_ndr::specs::promise::Reading::bind, oa_ndr::specs::promise::Reading::give, crate::specs::Reading::guid_at))]
fn guid(r: &mut Ndr<'_>) -> Result<Uuid, Short>
    ensures { ReadsFixed (λ x. x) result r.new (guid_at r.old) }
{
    match r.bytes(16)?.first_chunk::<16>() {
        Some(bytes) => Ok(guid_from_wire(*bytes)),
        None => Err(Short),
    }
}

/// Reads a DISPID of 4 bytes. Err: fewer bytes are left.
#[tactic(auto, unfolding(oa_ndr::specs::promise::Reading::bind, oa_ndr::specs::promise::Reading::give, crate::specs::Reading::dispid_at))]
fn dispid(r: &mut Ndr<'_>) -> Result<i32, Short>
    ensures { ReadsFixed (λ x. x) result r.new (dispid_at r.old) }
{
    let number = r.u32()?;
    Ok(number.cast_signed())
}

/// Reads a variant field and returns its bytes. Err: fewer bytes are left.
#[inline(always)]
#[tactic(auto, unfolding(oa_ndr::specs::promise::Reading::bind, oa_ndr::specs::promise::Reading::give, crate::specs::Reading::field_at))]
fn field<'a>(r: &mut Ndr<'a>) -> Result<&'a [u8], Short>
    ensures { ReadsFixed (λ x. x.now) result r.new (field_at r.old) }
{
    let n = r.u32()?;
    r.u32()?;
    let bytes = r.bytes(n as usize)?;
    r.align(8)?;
    Ok(bytes)
}

/// Reads `count` DISPIDs. Errors: `Stub` if fewer bytes are left; `Memory`.
fn dispids(alloc: Global, count: u32, r: &mut Ndr<'_>) -> Result<Vec<i32>, RecordFault>
    ensures answers { ReadsBody (λ v. v.items) result r.new (many dispid_at count r.old) }
    ensures count { IfOk result (λ v. length v.items ≡ count) }
{
    let mut all = Vec::with_capacity(alloc, count as usize)?;
    'dispids: for _ in 0..count {
        let next = dispid(r)?;
        all.push(next)?;
    }
    Ok(all)
}

/// Reads `count` variant fields, and returns the bytes of each. Errors: `Stub` if fewer bytes are
/// left; `Memory`.
fn fields<'a>(alloc: Global, count: u32, r: &mut Ndr<'a>) -> Result<Vec<&'a [u8]>, RecordFault>
    ensures answers { ReadsBody (λ v. map (λ x. x.now) v.items) result r.new (many field_at count r.old) }
    ensures count { IfOk result (λ v. length v.items ≡ count) }
{
    let mut all = Vec::with_capacity(alloc, count as usize)?;
    'fields: for _ in 0..count {
        let next = field(r)?;
        all.push(next)?;
    }
    Ok(all)
}

/// Reads the head of a call: object, DISPID, GUIDs, lcid, flags and a reserved number. Err: fewer
/// bytes are left.
#[inline(always)]
#[tactic(auto, unfolding(oa_ndr::specs::Reading::steps, crate::specs::Reading::call_head_at))]
fn call_head(r: &mut Ndr<'_>) -> Result<CallHead, Short>
    ensures { ReadsFixed (λ x. x) result r.new (call_head_at r.old) }
{
    let object = r.u32()?;
    let dispid = dispid(r)?;
    let interface = guid(r)?;
    let riid = guid(r)?;
    let lcid = r.u32()?;
    let flags = r.u16()?;
    r.u16()?;
    Ok(CallHead {
        object,
        dispid,
        interface,
        riid,
        lcid,
        flags,
    })
}

/// Reads the head of a call, its counts, and the lists after them. Errors: `Stub` if a count is
/// above 32 or fewer bytes are left; `Memory`.
#[tactic(auto, unfolding(oa_ndr::specs::Reading::steps, crate::specs::Reading::call_at, crate::specs::Reading::lists_at))]
fn call<'a>(alloc: Global, r: &mut Ndr<'a>) -> Result<RawCall<'a>, RecordFault>
    ensures answers { ReadsBody (λ x. x) result r.new (call_at r.old) }
    ensures long { IsBehind 56 result r.old }
{
    let head = call_head(r)?;
    let count = r.u32()?;
    let named_count = r.u32()?;
    if count > MAX_ARGUMENTS || named_count > MAX_ARGUMENTS {
        return Err(RecordFault::Stub);
    }
    let named = dispids(alloc, named_count, r)?;
    r.align(8)?;
    let fields = fields(alloc, count, r)?;
    Ok(RawCall::new(head, named, fields))
}

/// Skips the padding of empty lists. Err: fewer bytes are left.
#[tactic(auto, unfolding(oa_ndr::specs::Reading::steps, crate::specs::Reading::lists_at), using(crate::proofs::Bringing::many_none))]
fn no_lists(head: CallHead, r: &mut Ndr<'_>) -> Result<(), Short>
    ensures { IfOk result (λ u. lists_at head 0 0 r.old ≡ Some (parts_bringing head None, r.new)) }
{
    r.align(8)
}

/// Reads lists of one entry each: the DISPID of the named argument, which must be
/// DISPID_PROPERTYPUT, and the bytes of its field. Err: it is another DISPID, or fewer bytes are
/// left.
#[inline(always)]
#[tactic(auto, unfolding(oa_ndr::specs::Reading::steps, crate::specs::Reading::lists_at), using(crate::proofs::Bringing::many_one))]
fn new_value<'a>(head: CallHead, r: &mut Ndr<'a>) -> Result<&'a [u8], Short>
    ensures { IfOk result (λ f. lists_at head 1 1 r.old ≡ Some (parts_bringing head (Some f.now), r.new)) }
{
    if dispid(r)? != PROPERTY_PUT_DISPID {
        return Err(Short);
    }
    r.align(8)?;
    field(r)
}

/// Returns the little-endian u16 at byte `place` of a body.
#[inline(always)]
fn u16_at(body: &[u8], place: usize) -> u16
    requires { place + 2 ≤ length body.now }
    ensures { result ≡ body_number 2 place body.now }
{
    LittleEndian::read_u16(&body[place..])
}

/// Returns the little-endian u32 at byte `place` of a body.
#[inline(always)]
fn u32_at(body: &[u8], place: usize) -> u32
    requires { place + 4 ≤ length body.now }
    ensures { result ≡ body_number 4 place body.now }
{
    LittleEndian::read_u32(&body[place..])
}

/// Returns the DISPID at byte `place` of a body.
#[inline(always)]
fn dispid_at(body: &[u8], place: usize) -> i32
    requires { place + 4 ≤ length body.now }
    ensures { result ≡ cast_signed w32 (body_number 4 place body.now) }
{
    u32_at(body, place).cast_signed()
}

/// Returns the GUID of the first 16 bytes, in wire order.
#[inline(always)]
fn first_guid(bytes: &[u8]) -> Uuid
    requires { 16 ≤ length bytes.now }
    ensures { result ≡ guid_in 0 bytes.now }
{
    match bytes.first_chunk::<16>() {
        Some(bytes) => guid_from_wire(*bytes),
        None => Uuid::nil(),
    }
}

/// Returns the GUID at byte `place` of a body, in wire order.
#[inline(always)]
fn guid_at(body: &[u8], place: usize) -> Uuid
    requires { place + 16 ≤ length body.now }
    ensures { result ≡ guid_in place body.now }
{
    first_guid(&body[place..])
}

/// Returns the head of the call of an INVOKE.
#[inline(always)]
fn head_in(body: &[u8]) -> CallHead
    requires { invoke_front ≤ length body.now }
    ensures { result ≡ head_in body.now }
{
    CallHead {
        object: u32_at(body, 8),
        dispid: dispid_at(body, 12),
        interface: guid_at(body, 16),
        riid: guid_at(body, 32),
        lcid: u32_at(body, 48),
        flags: u16_at(body, 52),
    }
}

/// Reads the lists of an INVOKE that has no arguments, or a new value only. `r` is at the start of
/// the lists. Err for any other call.
#[inline(always)]
fn call_behind<'a>(body: &[u8], r: &mut Ndr<'a>) -> Result<ValueParts<'a>, Short>
    requires { invoke_front ≤ length body.now }
    ensures { IfOk result (λ c. lists_behind body.now r.old ≡ Some (parts_bringing c.head (option_map (λ f. f.now) c.field), r.new)) }
{
    let head = head_in(body);
    let count = u32_at(body, 56);
    let named_count = u32_at(body, 60);
    if count == 0 && named_count == 0 {
        no_lists(head, r)?;
        return Ok(ValueParts { head, field: None });
    }
    if count == 1 && named_count == 1 {
        let field = Some(new_value(head, r)?);
        return Ok(ValueParts { head, field });
    }
    Err(Short)
}

/// Parses the body of an INVOKE without arguments or with a property's new value only. Err for any
/// other body.
#[inline(always)]
pub(crate) fn read_value_parts(body: &[u8]) -> Result<ValueParts<'_>, Short>
    ensures { IfOk result (λ c. whole layout_at body.now ≡ Some (Layout.CallBody by_call.Invoke (parts_bringing c.head (option_map (λ f. f.now) c.field)))) }
{
    // The fields before the lists have fixed offsets: the length is checked once and not for each
    // field.
    if body.len() < INVOKE_FRONT || u16_at(body, 4) != Opcode::ByCall(ByCall::Invoke).number() {
        return Err(Short);
    }
    let mut r = Ndr::new(body);
    r.bytes(INVOKE_FRONT)?;
    let Ok(call) = call_behind(body, &mut r) else {
        return Err(Short);
    };
    if r.rest().is_empty() {
        Ok(call)
    } else {
        Err(Short)
    }
}

/// Reads an index list. Errors: `Stub` for more than 16 indices or if fewer bytes are left;
/// `Memory`.
#[tactic(auto, unfolding(oa_ndr::specs::Reading::steps, crate::specs::Reading::indices_at, crate::specs::Reading::index_list_at))]
fn indices(alloc: Global, r: &mut Ndr<'_>) -> Result<Indices, RecordFault>
    ensures { ReadsBody (λ x. x) result r.new (indices_at r.old) }
{
    let count = r.u32()?;
    r.u32()?;
    if count > MAX_DIMENSIONS as u32 {
        return Err(RecordFault::Stub);
    }
    let indices = dispids(alloc, count, r)?;
    r.align(8)?;
    Ok(Indices::new(indices))
}

/// Reads a call that names an array, and the index list of an element. Errors: `Stub`, `Memory`.
#[tactic(auto, unfolding(oa_ndr::specs::Reading::steps, crate::specs::Reading::element_at))]
fn element<'a>(alloc: Global, r: &mut Ndr<'a>) -> Result<(RawCall<'a>, Indices), RecordFault>
    ensures answers { ReadsBody (λ x. parts_of_element x.0 x.1) result r.new (element_at r.old) }
    ensures long { IsBehind 56 result r.old }
{
    let call = call(alloc, r)?;
    let indices = indices(alloc, r)?;
    Ok((call, indices))
}

/// Reads a new first listed bound of 8 bytes. Err: fewer bytes are left.
#[tactic(auto, unfolding(oa_ndr::specs::Reading::steps, oa_wire_array::specs::ArrayReading::bound_at, oa_wire_array::specs::Reading::signed_at))]
fn bound(r: &mut Ndr<'_>) -> Result<Bound, Short>
    ensures { ReadsFixed (λ x. x) result r.new (bound_at r.old) }
{
    let count = r.u32()?;
    let lower = r.u32()?;
    Ok(Bound {
        count,
        lower: lower.cast_signed(),
    })
}

/// Reads `count` UTF-16 units. Errors: `Stub` if fewer bytes are left; `Memory`.
fn units(alloc: Global, count: u32, r: &mut Ndr<'_>) -> Result<Vec<u16>, RecordFault>
    ensures { ReadsBody (λ v. v.items) result r.new (many (unit_at 2) count r.old) }
{
    let mut all = Vec::new(alloc);
    'units: for _ in 0..count {
        let next = r.u16()?;
        all.push(next)?;
    }
    Ok(all)
}

/// Reads a string and returns its UTF-16 units. Errors: `Stub` if fewer bytes are left; `Memory`.
#[tactic(auto, unfolding(oa_ndr::specs::promise::Reading::bind, oa_ndr::specs::promise::Reading::give, crate::specs::Reading::string_at))]
fn string(alloc: Global, r: &mut Ndr<'_>) -> Result<Vec<u16>, RecordFault>
    ensures { ReadsBody (λ v. v.items) result r.new (string_at r.old) }
{
    let n = r.u32()?;
    r.u32()?;
    let units = units(alloc, n, r)?;
    r.align(8)?;
    Ok(units)
}

/// Reads `count` strings, and returns the UTF-16 units of each. Errors: `Stub` if fewer bytes are
/// left; `Memory`.
#[tactic(auto, using(oa_ndr::proofs::Loop::many_done, oa_ndr::proofs::Loop::many_goes_on, oa_ndr::proofs::Loop::many_ends, std::proofs::lemmas::List::map_push))]
fn strings(alloc: Global, count: u32, r: &mut Ndr<'_>) -> Result<Vec<Vec<u16>>, RecordFault>
    ensures answers { ReadsBody (λ v. map (λ x. x.items) v.items) result r.new (many string_at count r.old) }
    ensures count { IfOk result (λ v. length v.items ≡ count) }
{
    let mut all = Vec::new(alloc);
    'strings: for _ in 0..count {
        let next = string(alloc, r)?;
        all.push(next)?;
    }
    Ok(all)
}

/// Reads a look-up of names: object, GUIDs, lcid, count and the names after it. Errors: `Stub`
/// unless there are 1 to 17 names, or if fewer bytes are left; `Memory`.
#[tactic(auto, unfolding(oa_ndr::specs::Reading::steps, crate::specs::Reading::get_ids_at, crate::specs::Reading::names_at))]
fn get_ids(alloc: Global, r: &mut Ndr<'_>) -> Result<GetIds, RecordFault>
    ensures answers { ReadsBody (λ x. x) result r.new (get_ids_at r.old) }
    ensures long { IsBehind 48 result r.old }
{
    let object = r.u32()?;
    r.u32()?;
    let interface = guid(r)?;
    let riid = guid(r)?;
    let lcid = r.u32()?;
    let count = r.u32()?;
    if count < 1 || count > MAX_NAMES {
        return Err(RecordFault::Stub);
    }
    let names = strings(alloc, count, r)?;
    Ok(GetIds {
        object,
        interface,
        riid,
        lcid,
        names: Names::new(names),
    })
}

/// Reads a u32 and a reserved one, and returns the first. Err: fewer bytes are left.
#[tactic(auto, unfolding(oa_ndr::specs::promise::Reading::bind, oa_ndr::specs::promise::Reading::give, crate::specs::Reading::number_at))]
fn number(r: &mut Ndr<'_>) -> Result<u32, Short>
    ensures { ReadsFixed (λ x. x) result r.new (number_at r.old) }
{
    let number = r.u32()?;
    r.u32()?;
    Ok(number)
}

/// Reads the fields of GETELEM: a call that names an array, and the indices of an element. Errors:
/// `Stub`, `Memory`.
#[tactic(auto, unfolding(oa_ndr::specs::promise::Reading::bind, oa_ndr::specs::promise::Reading::give, crate::specs::Reading::fields_at))]
fn get_element<'a>(alloc: Global, r: &mut Ndr<'a>) -> Result<Parts<'a>, RecordFault>
    ensures answers { ReadsBody shown result r.new (fields_at opcodes.GetElement r.old) }
    ensures long { IsBehind 56 result r.old }
{
    let (call, indices) = element(alloc, r)?;
    Ok(Parts::GetElement(call, indices))
}

/// Reads the fields of PUTELEM: a call that names an array, the indices of an element, and its new
/// value. Errors: `Stub`, `Memory`.
#[tactic(auto, unfolding(oa_ndr::specs::Reading::steps, crate::specs::Reading::fields_at, crate::specs::Reading::put_at))]
fn put_element<'a>(alloc: Global, r: &mut Ndr<'a>) -> Result<Parts<'a>, RecordFault>
    ensures answers { ReadsBody shown result r.new (fields_at opcodes.PutElement r.old) }
    ensures long { IsBehind 56 result r.old }
{
    let (call, indices) = element(alloc, r)?;
    Ok(Parts::PutElement(call, indices, field(r)?))
}

/// Reads the fields of REDIM: a call that names an array, and its new first listed bound. Errors:
/// `Stub`, `Memory`.
#[tactic(auto, unfolding(oa_ndr::specs::Reading::steps, crate::specs::Reading::fields_at, crate::specs::Reading::redim_at))]
fn redimension<'a>(alloc: Global, r: &mut Ndr<'a>) -> Result<Parts<'a>, RecordFault>
    ensures answers { ReadsBody shown result r.new (fields_at opcodes.Redimension r.old) }
    ensures long { IsBehind 56 result r.old }
{
    let call = call(alloc, r)?;
    let bound = bound(r)?;
    Ok(Parts::Redimension(call, bound))
}

/// Reads the fields of an opcode. REPLACE LIBRARY has none that are read here. Errors: `Stub`, also
/// for REPLACE LIBRARY; `Memory`.
#[tactic(auto, unfolding(oa_ndr::specs::promise::Reading::bind, oa_ndr::specs::promise::Reading::give, oa_ndr::specs::promise::Reading::fail, crate::specs::Reading::fields_at))]
fn fields_of<'a>(alloc: Global, opcode: Opcode, r: &mut Ndr<'a>) -> Result<Parts<'a>, RecordFault>
    ensures answers { ReadsBody shown result r.new (fields_at opcode r.old) }
    ensures memory { StarvesAt result opcode r.old }
{
    match opcode {
        Opcode::Create => Ok(Parts::Create(guid(r)?)),
        Opcode::ByNumber(kind) => Ok(Parts::Number(kind, number(r)?)),
        Opcode::GetIds => Ok(Parts::GetIds(get_ids(alloc, r)?)),
        Opcode::ByCall(kind) => Ok(Parts::Call(kind, call(alloc, r)?)),
        Opcode::GetElement => get_element(alloc, r),
        Opcode::PutElement => put_element(alloc, r),
        Opcode::Redimension => redimension(alloc, r),
        Opcode::Query(query) => Ok(Parts::Query(query)),
        Opcode::Replace => Err(RecordFault::Stub),
    }
}

/// Parses a whole body. Errors: `Stub` if it has the layout of no request; `Memory` only if the
/// opcode's fields need memory and the body has the bytes before the first allocation.
#[tactic(auto, unfolding(oa_ndr::specs::Reading::steps, crate::specs::Reading::layout_at, crate::specs::Reading::layout_by_opcode))]
pub(crate) fn read_parts(alloc: Global, body: &[u8]) -> Result<Parts<'_>, RecordFault>
    ensures all { ReadsBodyToItsEnd shown result (whole layout_at body.now) }
    ensures memory { Starves result body.now }
{
    let mut r = Ndr::new(body);
    r.u32()?;
    let number = r.u16()?;
    r.u16()?;
    let Some(opcode) = Opcode::from_number(number) else {
        return Err(RecordFault::Stub);
    };
    let parts = fields_of(alloc, opcode, &mut r)?;
    if !r.rest().is_empty() {
        return Err(RecordFault::Stub);
    }
    Ok(parts)
}
