//! Reading numbers, GUIDs and truth values, one after the other without alignment.
ghost use Rattle.std.specs.Prelude.{◌≡◌, length, IfOk};
ghost use Rattle.oa_ndr.specs.Reading.{Gives};
ghost use Rattle.oa_formats.specs.Answers.{ReadsImage};
ghost use Rattle.oa_formats.specs.promise.Formats.{raw};
ghost use Rattle.oa_formats.specs.promise.Numbers as numbers;

use crate::ReadFault;
use oa_model::guid_from_wire;
use oa_ndr::{Ndr, Short};
use uuid::Uuid;

/// Reads `n` bytes. Err: fewer are left.
#[tactic(auto, unfolding(crate::specs::promise::Formats::raw))]
pub(crate) fn read_bytes<'a>(n: usize, r: &mut Ndr<'a>) -> Result<&'a [u8], Short>
    ensures read { Gives (λ x. x.now) result r.old r.new ((raw n).read r.old) }
    ensures len { IfOk result (λ x. length x.now ≡ n) }
{
    r.bytes(n)
}

/// Reads a byte. Err: none is left.
#[tactic(auto, unfolding(oa_ndr::specs::Reading::steps, crate::specs::promise::Formats::made_where, crate::specs::promise::Numbers::u8))]
pub fn read_u8(r: &mut Ndr<'_>) -> Result<u8, Short>
    ensures { Gives (λ x. x) result r.old r.new (numbers.u8.read r.old) }
{
    let b = read_bytes(1, r)?;
    Ok(b[0])
}

/// Reads a number of 2 bytes, lowest first. Err: fewer bytes are left.
#[tactic(auto, unfolding(oa_ndr::specs::Reading::steps, crate::specs::promise::Formats::made_where, crate::specs::promise::Numbers::u16))]
pub fn read_u16(r: &mut Ndr<'_>) -> Result<u16, Short>
    ensures { Gives (λ x. x) result r.old r.new (numbers.u16.read r.old) }
{
    let b = read_bytes(2, r)?;
    Ok(u16::from_le_bytes([b[0], b[1]]))
}

/// Reads a number of 4 bytes, lowest first. Err: fewer bytes are left.
#[tactic(auto, unfolding(oa_ndr::specs::Reading::steps, crate::specs::promise::Formats::made_where, crate::specs::promise::Numbers::u32))]
pub fn read_u32(r: &mut Ndr<'_>) -> Result<u32, Short>
    ensures { Gives (λ x. x) result r.old r.new (numbers.u32.read r.old) }
{
    let b = read_bytes(4, r)?;
    Ok(u32::from_le_bytes([b[0], b[1], b[2], b[3]]))
}

/// Reads a number of 8 bytes, lowest first. Err: fewer bytes are left.
#[tactic(auto, unfolding(oa_ndr::specs::Reading::steps, crate::specs::promise::Formats::made_where, crate::specs::promise::Numbers::u64))]
pub(crate) fn read_u64(r: &mut Ndr<'_>) -> Result<u64, Short>
    ensures { Gives (λ x. x) result r.old r.new (numbers.u64.read r.old) }
{
    match read_bytes(8, r)?.first_chunk::<8>() {
        Some(bytes) => Ok(u64::from_le_bytes(*bytes)),
        None => Err(Short),
    }
}

/// Reads a signed number of one byte. Err: none is left.
#[tactic(auto, unfolding(oa_ndr::specs::Reading::steps, crate::specs::promise::Formats::made_where, crate::specs::promise::Numbers::i8))]
pub(crate) fn read_i8(r: &mut Ndr<'_>) -> Result<i8, Short>
    ensures { Gives (λ x. x) result r.old r.new (numbers.i8.read r.old) }
{
    Ok(read_u8(r)?.cast_signed())
}

/// Reads a signed number of 2 bytes, lowest first. Err: fewer bytes are left.
#[tactic(auto, unfolding(oa_ndr::specs::Reading::steps, crate::specs::promise::Formats::made_where, crate::specs::promise::Numbers::i16))]
pub(crate) fn read_i16(r: &mut Ndr<'_>) -> Result<i16, Short>
    ensures { Gives (λ x. x) result r.old r.new (numbers.i16.read r.old) }
{
    Ok(read_u16(r)?.cast_signed())
}

/// Reads a signed number of 4 bytes, lowest first. Err: fewer bytes are left.
#[tactic(auto, unfolding(oa_ndr::specs::Reading::steps, crate::specs::promise::Formats::made_where, crate::specs::promise::Numbers::i32))]
pub fn read_i32(r: &mut Ndr<'_>) -> Result<i32, Short>
    ensures { Gives (λ x. x) result r.old r.new (numbers.i32.read r.old) }
{
    Ok(read_u32(r)?.cast_signed())
}

/// Reads a signed number of 8 bytes, lowest first. Err: fewer bytes are left.
#[tactic(auto, unfolding(oa_ndr::specs::Reading::steps, crate::specs::promise::Formats::made_where, crate::specs::promise::Numbers::i64))]
pub(crate) fn read_i64(r: &mut Ndr<'_>) -> Result<i64, Short>
    ensures { Gives (λ x. x) result r.old r.new (numbers.i64.read r.old) }
{
    Ok(read_u64(r)?.cast_signed())
}

/// Reads a GUID of 16 bytes in wire order (MS-DTYP section 2.3.4.2). Err: fewer bytes are left.
#[tactic(auto, unfolding(oa_ndr::specs::Reading::steps, crate::specs::promise::Formats::made_where, crate::specs::promise::Numbers::guid_format))]
pub fn read_guid(r: &mut Ndr<'_>) -> Result<Uuid, Short>
    ensures { Gives (λ x. x) result r.old r.new (numbers.guid_format.read r.old) }
{
    match read_bytes(16, r)?.first_chunk::<16>() {
        Some(bytes) => Ok(guid_from_wire(*bytes)),
        None => Err(Short),
    }
}

/// Reads a truth value: one byte, 0 or 1. Err: `Broken` for any other byte, or if none is left.
#[tactic(auto, unfolding(oa_ndr::specs::Reading::steps, crate::specs::promise::Formats::coded, crate::specs::promise::Numbers::truth_format))]
pub(crate) fn read_truth(r: &mut Ndr<'_>) -> Result<bool, ReadFault>
    ensures { ReadsImage result r.new (numbers.truth_format.read r.old) }
{
    match read_u8(r)? {
        0 => Ok(false),
        1 => Ok(true),
        _ => Err(ReadFault::Broken),
    }
}
