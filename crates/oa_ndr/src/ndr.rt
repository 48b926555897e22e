//! Reads fields.

ghost use Rattle.std.specs.Prelude.{◌≡◌, ◌<◌, ◌≤◌, length, IfOk};
ghost use Rattle.oa_ndr.specs.promise.Forms.{padding};
ghost use Rattle.oa_ndr.specs.promise.Reading.{at, bytes_at};
ghost use Rattle.oa_ndr.specs.Reading.{Gives, align_at, slot_at, unit_at, referent_at};

use byteorder::{ByteOrder, LittleEndian};
use std::marker::Model;
use thiserror::Error;

/// The bytes end too early.
#[derive(Clone, Copy, Debug, PartialEq, Eq, Error)]
#[error("the bytes end too early")]
pub struct Short;

/// A reader of one field, which knows its offset from the first byte of the field.
///
/// Each call reads at the next multiple of its own size and moves past the value. The padding
/// before the value may have any content. If the bytes end too early, the call returns `Short` and
/// does not move.
#[derive(Drop)]
pub struct Ndr<'a> {
    position: usize,
    rest: &'a [u8],
}

impl<'a> Model for Ndr<'a> {
    ghost use Rattle.std.specs.Prelude.{◌+◌, ◌<◌, ◌^◌, length};
    ghost use Rattle.oa_ndr.specs.promise.Reading.{Cursor, at};

    ghost Value = { Cursor };

    ghost view = { λ r. at r.position r.rest.now };

    ghost invariant = { λ r. r.position + length r.rest.now < 2 ^ 64 };
}

/// Returns the number of bytes between offset `place` and the next multiple of `n`.
pub(crate) fn padding(n: usize, place: usize) -> usize
    requires { 0 < n }
    ensures value { result ≡ padding n place }
    ensures small { result < n }
{
    // A remainder by a constant is a mask. A division takes longer than the rest of a read or a
    // write.
    match n {
        1 => 0,
        2 => (2 - place % 2) % 2,
        4 => (4 - place % 4) % 4,
        8 => (8 - place % 8) % 8,
        _ => {
            let over = place % n;
            if over == 0 { 0 } else { n - over }
        }
    }
}

impl<'a> Ndr<'a> {
    /// Makes a reader at the first byte of a field.
    pub fn new(bytes: &'a [u8]) -> Ndr<'a>
        ensures { result ≡ at 0 bytes.now }
    {
        Ndr {
            position: 0,
            rest: bytes,
        }
    }

    /// Makes a second reader at the same offset, to look ahead.
    pub fn fork(&self) -> Ndr<'a>
        ensures { result ≡ self.now }
    {
        Ndr {
            position: self.position,
            rest: self.rest,
        }
    }

    /// Returns the offset from the first byte of the field.
    pub fn position(&self) -> usize
        ensures { result ≡ self.now.position }
    {
        self.position
    }

    /// Returns the bytes that have not been read.
    pub fn rest(&self) -> &'a [u8]
        ensures { result.now ≡ self.now.rest }
    {
        self.rest
    }

    /// Moves to the next multiple of `n`, which is 1 to 8, past padding of any content (C706
    /// 14.2.2). Err: the bytes end too early, and the reader does not move.
    #[tactic(auto, unfolding(crate::specs::Reading::align_at))]
    pub fn align(&mut self, n: usize) -> Result<(), Short>
        requires above { 0 < n }
        requires small { n ≤ 8 }
        ensures { Gives (λ x. x) result self.old self.new (align_at n self.old) }
    {
        let gap = padding(n, self.position);
        if self.rest.len() < gap {
            return Err(Short);
        }
        let (_, rest) = self.rest.split_at(gap);
        self.position += gap;
        self.rest = rest;
        Ok(())
    }

    /// Reads the next `n` bytes, without alignment. Err: fewer are left, and the reader does not
    /// move.
    #[tactic(auto, unfolding(crate::specs::promise::Reading::bytes_at))]
    pub fn bytes(&mut self, n: usize) -> Result<&'a [u8], Short>
        ensures bytes { Gives (λ x. x.now) result self.old self.new (bytes_at n self.old) }
        ensures len { IfOk result (λ x. length x.now ≡ n) }
    {
        if self.rest.len() < n {
            return Err(Short);
        }
        let (front, rest) = self.rest.split_at(n);
        self.position += n;
        self.rest = rest;
        Ok(front)
    }

    /// Reads the `n` bytes at the next multiple of `n`. Err: the bytes end too early.
    #[tactic(auto, unfolding(crate::specs::Reading::slot_at))]
    fn slot(&mut self, n: usize) -> Result<&'a [u8], Short>
        requires above { 0 < n }
        requires small { n ≤ 8 }
        ensures slot { Gives (λ x. x.now) result self.old self.new (slot_at n self.old) }
        ensures len { IfOk result (λ x. length x.now ≡ n) }
    {
        let gap = padding(n, self.position);
        let wide = gap + n;
        if self.rest.len() < wide {
            return Err(Short);
        }
        let (front, rest) = self.rest.split_at(wide);
        self.position += wide;
        self.rest = rest;
        Ok(&front[gap..])
    }

    /// Reads the next byte. Err: none is left.
    #[tactic(auto, unfolding(crate::specs::Reading::unit_at, crate::specs::promise::Reading::bind, crate::specs::promise::Reading::give))]
    pub fn u8(&mut self) -> Result<u8, Short>
        ensures { Gives (λ x. x) result self.old self.new (unit_at 1 self.old) }
    {
        Ok(self.slot(1)?[0])
    }

    /// Reads the little-endian u16 at the next multiple of 2. Err: the bytes end too early.
    #[tactic(auto, unfolding(crate::specs::Reading::unit_at, crate::specs::promise::Reading::bind, crate::specs::promise::Reading::give))]
    pub fn u16(&mut self) -> Result<u16, Short>
        ensures { Gives (λ x. x) result self.old self.new (unit_at 2 self.old) }
    {
        Ok(LittleEndian::read_u16(self.slot(2)?))
    }

    /// Reads the little-endian u32 at the next multiple of 4. Err: the bytes end too early.
    #[tactic(auto, unfolding(crate::specs::Reading::unit_at, crate::specs::promise::Reading::bind, crate::specs::promise::Reading::give))]
    pub fn u32(&mut self) -> Result<u32, Short>
        ensures { Gives (λ x. x) result self.old self.new (unit_at 4 self.old) }
    {
        Ok(LittleEndian::read_u32(self.slot(4)?))
    }

    /// Reads the little-endian u64 at the next multiple of 8. Err: the bytes end too early.
    #[tactic(auto, unfolding(crate::specs::Reading::unit_at, crate::specs::promise::Reading::bind, crate::specs::promise::Reading::give))]
    pub fn u64(&mut self) -> Result<u64, Short>
        ensures { Gives (λ x. x) result self.old self.new (unit_at 8 self.old) }
    {
        Ok(LittleEndian::read_u64(self.slot(8)?))
    }

    /// Reads the referent of a unique pointer at the next multiple of 4, and returns whether it is
    /// set: 0 is null, every other number is not (C706 14.3.12). Err: the bytes end too early.
    #[tactic(auto, unfolding(crate::specs::Reading::referent_at, crate::specs::promise::Reading::bind, crate::specs::promise::Reading::give))]
    pub fn referent(&mut self) -> Result<bool, Short>
        ensures { Gives (λ x. x) result self.old self.new (referent_at self.old) }
    {
        let referent = self.u32()?;
        Ok(referent != 0)
    }
}
