//! Writing numbers, GUIDs and truth values to a window. Nothing is allocated.
ghost use Rattle.oa_formats.specs.Windows.{Adds};
ghost use Rattle.oa_formats.specs.promise.Numbers as numbers;

use crate::OutputCursor;
use oa_model::guid_to_wire;
use uuid::Uuid;

/// Writes bytes as they are to a window of `out`.
pub(crate) fn put_bytes(bytes: &[u8], w: &mut OutputCursor, out: &mut [u8])
    ensures { Adds bytes.now w.old w.new out.old out.new }
{
    w.add(bytes, out)
}

/// Writes a byte to a window of `out`.
#[tactic(auto, unfolding(crate::specs::promise::Formats::made_where, crate::specs::promise::Formats::raw, crate::specs::promise::Numbers::u8))]
pub fn put_u8(n: u8, w: &mut OutputCursor, out: &mut [u8])
    ensures { Adds (numbers.u8.image n) w.old w.new out.old out.new }
{
    put_bytes(&n.to_le_bytes(), w, out)
}

/// Writes a number in 2 bytes, lowest first, to a window of `out`.
#[tactic(auto, unfolding(crate::specs::promise::Formats::made_where, crate::specs::promise::Formats::raw, crate::specs::promise::Numbers::u16))]
pub fn put_u16(n: u16, w: &mut OutputCursor, out: &mut [u8])
    ensures { Adds (numbers.u16.image n) w.old w.new out.old out.new }
{
    put_bytes(&n.to_le_bytes(), w, out)
}

/// Writes a number in 4 bytes, lowest first, to a window of `out`.
#[tactic(auto, unfolding(crate::specs::promise::Formats::made_where, crate::specs::promise::Formats::raw, crate::specs::promise::Numbers::u32))]
pub fn put_u32(n: u32, w: &mut OutputCursor, out: &mut [u8])
    ensures { Adds (numbers.u32.image n) w.old w.new out.old out.new }
{
    put_bytes(&n.to_le_bytes(), w, out)
}

/// Writes a number in 8 bytes, lowest first.
#[tactic(auto, unfolding(crate::specs::promise::Formats::made_where, crate::specs::promise::Formats::raw, crate::specs::promise::Numbers::u64))]
pub(crate) fn put_u64(n: u64, w: &mut OutputCursor, out: &mut [u8])
    ensures { Adds (numbers.u64.image n) w.old w.new out.old out.new }
{
    put_bytes(&n.to_le_bytes(), w, out)
}

/// Writes a signed number in one byte.
#[tactic(auto, unfolding(crate::specs::promise::Formats::made_where, crate::specs::promise::Numbers::i8))]
pub(crate) fn put_i8(n: i8, w: &mut OutputCursor, out: &mut [u8])
    ensures { Adds (numbers.i8.image n) w.old w.new out.old out.new }
{
    put_u8(n.cast_unsigned(), w, out)
}

/// Writes a signed number in 2 bytes, lowest first.
#[tactic(auto, unfolding(crate::specs::promise::Formats::made_where, crate::specs::promise::Numbers::i16))]
pub(crate) fn put_i16(n: i16, w: &mut OutputCursor, out: &mut [u8])
    ensures { Adds (numbers.i16.image n) w.old w.new out.old out.new }
{
    put_u16(n.cast_unsigned(), w, out)
}

/// Writes a signed number in 4 bytes, lowest first, to a window of `out`.
#[tactic(auto, unfolding(crate::specs::promise::Formats::made_where, crate::specs::promise::Numbers::i32))]
pub fn put_i32(n: i32, w: &mut OutputCursor, out: &mut [u8])
    ensures { Adds (numbers.i32.image n) w.old w.new out.old out.new }
{
    put_u32(n.cast_unsigned(), w, out)
}

/// Writes a signed number in 8 bytes, lowest first.
#[tactic(auto, unfolding(crate::specs::promise::Formats::made_where, crate::specs::promise::Numbers::i64))]
pub(crate) fn put_i64(n: i64, w: &mut OutputCursor, out: &mut [u8])
    ensures { Adds (numbers.i64.image n) w.old w.new out.old out.new }
{
    put_u64(n.cast_unsigned(), w, out)
}

/// Writes the 16 bytes of a GUID in wire order (MS-DTYP section 2.3.4.2) to a window of `out`.
pub fn put_guid(id: &Uuid, w: &mut OutputCursor, out: &mut [u8])
    ensures { Adds (numbers.guid_format.image id.now) w.old w.new out.old out.new }
{
    put_bytes(&guid_to_wire(id), w, out)
}

/// Writes a truth value as one byte, 0 or 1.
#[tactic(auto, unfolding(crate::specs::promise::Formats::coded, crate::specs::promise::Numbers::truth_format))]
pub(crate) fn put_truth(b: bool, w: &mut OutputCursor, out: &mut [u8])
    ensures { Adds (numbers.truth_format.image b) w.old w.new out.old out.new }
{
    put_u8(if b { 1 } else { 0 }, w, out)
}
