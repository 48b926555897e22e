//! Decodes the bodies of requests.
ghost use Rattle.std.specs.Prelude.{◌≡◌, ◌≤◌, ◌+◌, ◌++◌, ◌∷◌, [], map, length, IfOk, IfErr, IfSome};
ghost use Rattle.oa_model.specs.promise.Limits.{max_arguments};
ghost use Rattle.oa_record.specs.promise.Asks.{Asks, call_of, tag_at};
ghost use Rattle.oa_record.specs.Asks.{IsRequest};
ghost use Rattle.oa_record.specs.Judging.{AnswersFields, Requests, TestsFields, TestsField, put_fault};
ghost use Rattle.oa_record.specs.promise.Layouts.{Layout};
ghost use Rattle.oa_record.specs.Reading.{parts_of_element, put_of};
ghost use Rattle.oa_record.specs.Shown.{shown};
ghost use Rattle.oa_record.specs.ValueCalls.{SpellsNew, bringing};
ghost use Rattle.std.specs.Option.{option_map};
ghost use Rattle.oa_record.specs.declared.fault.RecordFault.TheVariants.{Memory};
ghost use Rattle.oa_record.specs.declared.opcode.ByCall.TheVariants.{Invoke};
ghost use Rattle.oa_record.specs.declared.request.Request.TheVariants.{ByCall};

use crate::body_parts::Parts;
use crate::layout::{read_parts, read_value_parts};
use crate::raw_call::{RawCall, ValueParts};
use crate::{Call, RecordFault, Request, ValueCall};
use byteorder::{ByteOrder, LittleEndian};
use oa_array::Indices;
use oa_model::MAX_REQUEST_BYTES;
use oa_variant::Variant;
use oa_wire_variant::{WireFault, read_variant};
use std::alloc::Global;

/// Returns the tag of a body, which is the u32 at its offset 0, or 0 if the body has fewer than 8
/// bytes.
pub fn tag_of(body: &[u8]) -> u32
    ensures { result ≡ tag_at body.now }
{
    if body.len() < 8 {
        0
    } else {
        LittleEndian::read_u32(body)
    }
}

/// Checks one field. A type outside the profile is no error here; `Stub` if the field is broken,
/// `Memory` if an allocation fails.
fn unbroken(alloc: Global, field: &[u8]) -> Result<(), RecordFault>
    ensures { TestsField field.now result }
{
    match read_variant(alloc, field) {
        Ok(_) | Err(WireFault::BadVarType) => Ok(()),
        Err(WireFault::BadStub) => Err(RecordFault::Stub),
        Err(WireFault::Memory) => Err(RecordFault::Memory),
    }
}

/// Checks each field as `unbroken` does. Err: the first error.
fn sound(alloc: Global, fields: &[&[u8]]) -> Result<(), RecordFault>
    ensures { TestsFields (map (λ f. f.now) fields.now) result }
{
    'fields: for field in fields {
        unbroken(alloc, field)?;
    }
    Ok(())
}

/// Decodes all fields. Errors: `Stub` if some field is broken; `BadVarType` with the position of
/// the first field of a type outside the profile, counted from 0; `Memory`.
fn values(alloc: Global, fields: &[&[u8]]) -> Result<Vec<Variant>, RecordFault>
    requires { length fields.now ≤ max_arguments + 1 }
    ensures judged { AnswersFields (λ v. v.items) (map (λ f. f.now) fields.now) result }
    ensures count { IfOk result (λ v. length v.items ≡ length fields.now) }
{
    let mut values = Vec::with_capacity(alloc, fields.len())?;
    'fields: for field in fields {
        let at = values.len();
        match read_variant(alloc, field) {
            Ok(value) => values.push(value)?,
            Err(WireFault::BadVarType) => {
                sound(alloc, &fields[at + 1..])?;
                return Err(RecordFault::BadVarType(Some(at as u32)));
            }
            Err(WireFault::BadStub) => return Err(RecordFault::Stub),
            Err(WireFault::Memory) => return Err(RecordFault::Memory),
        }
    }
    Ok(values)
}

/// Decodes the arguments of a call. Errors are those of `values`.
fn called(alloc: Global, call: RawCall<'_>) -> Result<Call, RecordFault>
    ensures judged { AnswersFields (λ q. q.arguments) call.entry.fields result }
    ensures is { IfOk result (λ q. q ≡ call_of call.entry q.arguments) }
{
    let values = values(alloc, call.fields())?;
    Ok(call.with(values))
}

/// Returns the bytes of the arguments' fields followed by those of an element's new value. Err:
/// `Memory`.
fn with_value<'a>(
    alloc: Global,
    call: &RawCall<'a>,
    value: &'a [u8],
) -> Result<Vec<&'a [u8]>, RecordFault>
    ensures all { IfOk result (λ v. map (λ f. f.now) v.items ≡ call.now.fields ++ value.now ∷ []) }
    ensures few { IfOk result (λ v. length v.items ≤ max_arguments + 1) }
    ensures err { IfErr result (λ e. e ≡ Memory) }
{
    let mut fields = Vec::from_slice(alloc, call.fields())?;
    fields.push(value)?;
    Ok(fields)
}

/// Drops the index of the error of a PUTELEM with `count` arguments if it is that of the new value.
/// This follows the arguments and has no index in rgvarg.
fn without_index(count: usize, fault: RecordFault) -> RecordFault
    ensures { result ≡ put_fault count fault }
{
    match fault {
        RecordFault::BadVarType(Some(place)) if place as usize == count => RecordFault::BadVarType(
            None,
        ),
        other => other,
    }
}

/// Decodes the arguments and the new value of a PUTELEM. Errors are those of `values`, without an
/// index for the new value.
fn put_element(
    alloc: Global,
    call: RawCall<'_>,
    indices: Indices,
    value: &[u8],
) -> Result<Request, RecordFault>
    ensures { Requests (Layout.PutElementBody (put_of (parts_of_element call.entry indices) value.now)) result }
{
    let count = call.fields().len();
    let fields = with_value(alloc, &call, value)?;
    let mut values = match values(alloc, &fields) {
        Ok(values) => values,
        Err(fault) => return Err(without_index(count, fault)),
    };
    let Some(value) = values.pop() else {
        return Err(RecordFault::Stub);
    };
    Ok(Request::PutElement {
        call: call.with(values),
        indices,
        value,
    })
}

/// Decodes the values in the parts of a body and returns the request. Errors are those of
/// `read_request`.
fn request(alloc: Global, parts: Parts<'_>) -> Result<Request, RecordFault>
    ensures { Requests (shown parts.entry) result }
{
    match parts {
        Parts::Create(class) => Ok(Request::Create { class }),
        Parts::Number(kind, number) => Ok(Request::ByNumber(kind, number)),
        Parts::GetIds(call) => Ok(Request::GetIds(call)),
        Parts::Call(kind, call) => Ok(Request::ByCall(kind, called(alloc, call)?)),
        Parts::GetElement(call, indices) => {
            let call = called(alloc, call)?;
            Ok(Request::GetElement { call, indices })
        }
        Parts::PutElement(call, indices, value) => put_element(alloc, call, indices, value),
        Parts::Redimension(call, bound) => {
            let call = called(alloc, call)?;
            Ok(Request::Redimension { call, bound })
        }
        Parts::Query(query) => Ok(Request::Query(query)),
    }
}

/// Decodes a request: the tag at offset 0, which `tag_of` reads, the opcode at 4, the fields from 8
/// to the end (this project's choice).
///
/// Errors:
/// - `Stub`: the body has the layout of no request, or the field of some value is broken. It has
///   more than `MAX_REQUEST_BYTES`, more than 32 arguments or named arguments, no name or more than
///   17, or more than 16 indices.
/// - `BadVarType`: otherwise, some value has a type outside the profile. It contains the index of
///   the first of these in rgvarg, or None if it is the new value of an element.
/// - `Memory`: an allocation fails. Only an opcode whose bodies need memory to be decoded can fail
///   so. The body then has at most `MAX_REQUEST_BYTES` and at least 64 bytes, or 56 for a look-up
///   of names.
pub fn read_request(alloc: Global, body: &[u8]) -> Result<Request, RecordFault>
    ensures { IsRequest body.now result }
{
    if body.len() > MAX_REQUEST_BYTES as usize {
        return Err(RecordFault::Stub);
    }
    let parts = read_parts(alloc, body)?;
    request(alloc, parts)
}

/// Decodes the field of the new value, if there is one. Returns None if that fails.
fn value_call(alloc: Global, parts: ValueParts<'_>) -> Option<ValueCall>
    ensures { IfSome result (λ call. (call.head ≡ parts.entry.head) × SpellsNew (option_map (λ f. f.now) parts.entry.field) call.value) }
{
    let ValueParts { head, field } = parts;
    let Some(bytes) = field else {
        return Some(ValueCall { head, value: None });
    };
    match read_variant(alloc, bytes) {
        Ok(value) => Some(ValueCall {
            head,
            value: Some(value),
        }),
        Err(_) => None,
    }
}

/// Decodes an INVOKE without arguments or with a property's new value only. It allocates no lists.
/// Returns None for any other body, for one that `read_request` refuses, and if the allocation of
/// the value fails; the caller then calls `read_request`.
pub fn read_value_call(alloc: Global, body: &[u8]) -> Option<ValueCall>
    ensures { IfSome result (λ call. Asks body.now (ByCall Invoke (bringing call.head call.value))) }
{
    if body.len() <= MAX_REQUEST_BYTES as usize {
        let Ok(parts) = read_value_parts(body) else {
            return None;
        };
        return value_call(alloc, parts);
    }
    None
}
