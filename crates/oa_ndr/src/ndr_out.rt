//! Writes fields.

ghost use Rattle.std.specs.Prelude.{◌≡◌, ◌<◌, ◌≤◌, ◌++◌, OnOk, OnErr, length, replicate, take};
ghost use Rattle.oa_ndr.specs.Writing.{TakesNothingBack, field_after, in_field};
ghost use Rattle.oa_ndr.specs.promise.Writing.{put_align, put_unit, put_bytes, put_referent, put_slot};

use crate::ndr::padding;
use std::alloc::AllocError;
use std::marker::Model;

/// The bytes of the longest padding.
const ZEROS: [u8; 8] = [0; 8];

// The referent of a unique pointer that is set.
const REFERENT: u32 = 0x0002_0000;

/// A writer of one field at the end of a vector.
///
/// Each call writes at the next multiple of its own size, counted from the first byte of the field,
/// after zeros as padding. If an allocation fails, nothing is written. Only `truncate` removes
/// bytes that have been written.
#[derive(Drop)]
pub struct NdrOut {
    out: Vec<u8>,
    start: usize,
}

impl Model for NdrOut {
    ghost use Rattle.std.specs.Prelude.{◌≤◌, length, take, drop};
    ghost use Rattle.oa_ndr.specs.Writing.{FieldOutput};

    ghost Value = { FieldOutput };

    ghost view = { λ w. record { before = take w.start w.out.items; field = drop w.start w.out.items } };

    ghost invariant = { λ w. w.start ≤ length w.out.items };
}

/// Appends `n` zeros, at most eight. Err: the allocation fails, and nothing is written.
fn append_zeros(out: &mut Vec<u8>, n: usize) -> Result<(), AllocError>
    requires { n ≤ 8 }
    ensures ok { OnOk result (out.new.items ≡ out.old.items ++ replicate n 0) }
    ensures err { OnErr result (out.new.items ≡ out.old.items) }
{
    out.extend_from_slice(&ZEROS[..n])
}

/// Appends zeros and then these bytes. The length is a part of the type, so that a number is stored
/// directly and not copied. Err: an allocation fails, and nothing is written.
fn append_behind_zeros<const N: usize>(
    out: &mut Vec<u8>,
    zeros: usize,
    text: &[u8; N],
) -> Result<(), AllocError>
    requires { zeros ≤ 8 }
    ensures ok { OnOk result (out.new.items ≡ out.old.items ++ (replicate zeros 0 ++ text.now)) }
    ensures err { OnErr result (out.new.items ≡ out.old.items) }
{
    if zeros == 0 {
        return out.extend_from_slice(text);
    }
    let before = out.len();
    append_zeros(out, zeros)?;
    if let Err(e) = out.extend_from_slice(text) {
        out.truncate(before);
        return Err(e);
    }
    Ok(())
}

impl NdrOut {
    /// Makes a writer of a field that begins at the end of `out`. Offsets count from there.
    pub fn new(out: Vec<u8>) -> NdrOut
        ensures { result ≡ field_after out.items }
    {
        let start = out.len();
        NdrOut { out, start }
    }

    /// Returns the number of bytes of the field so far.
    pub fn position(&self) -> usize
        ensures { result ≡ length self.now.field }
    {
        self.out.len() - self.start
    }

    /// Returns the bytes of the field so far.
    pub fn written(&self) -> &[u8]
        ensures { result.now ≡ self.now.field }
    {
        &self.out[self.start..]
    }

    /// Returns the vector, which ends with the field.
    pub fn into_vec(self) -> Vec<u8>
        ensures { result.items ≡ self.before ++ self.field }
    {
        self.out
    }

    /// Removes the bytes of the field after the first `len`. If the field is not longer, it is
    /// unchanged.
    pub fn truncate(&mut self, len: usize)
        ensures { self.new ≡ in_field (take len) self.old }
    {
        if len < self.position() {
            self.out.truncate(self.start + len);
        }
    }

    /// Writes zeros up to the next multiple of `n`, which is 1 to 8. Err: an allocation fails.
    pub fn align(&mut self, n: usize) -> Result<(), AllocError>
        requires above { 0 < n }
        requires small { n ≤ 8 }
        ensures ok { OnOk result (self.new ≡ in_field (put_align n) self.old) }
        ensures err { OnErr result (self.new ≡ self.old) }
        ensures kept { TakesNothingBack self.old self.new }
    {
        let gap = padding(n, self.position());
        self.bytes(&ZEROS[..gap])
    }

    /// Writes these bytes, without alignment. Err: an allocation fails.
    pub fn bytes(&mut self, text: &[u8]) -> Result<(), AllocError>
        ensures ok { OnOk result (self.new ≡ in_field (put_bytes text.now) self.old) }
        ensures err { OnErr result (self.new ≡ self.old) }
        ensures kept { TakesNothingBack self.old self.new }
    {
        self.out.extend_from_slice(text)
    }

    /// Writes `n` zeros, at most eight, without alignment. Err: an allocation fails.
    pub fn zeros(&mut self, n: usize) -> Result<(), AllocError>
        requires { n ≤ 8 }
        ensures ok { OnOk result (self.new ≡ in_field (put_bytes (replicate n 0)) self.old) }
        ensures err { OnErr result (self.new ≡ self.old) }
        ensures kept { TakesNothingBack self.old self.new }
    {
        self.bytes(&ZEROS[..n])
    }

    /// Writes these bytes at the next multiple of `n`. Err: an allocation fails, and nothing is
    /// written.
    fn slot<const N: usize>(&mut self, n: usize, number: &[u8; N]) -> Result<(), AllocError>
        requires above { 0 < n }
        requires small { n ≤ 8 }
        ensures ok { OnOk result (self.new ≡ in_field (put_slot n number.now) self.old) }
        ensures err { OnErr result (self.new ≡ self.old) }
        ensures kept { TakesNothingBack self.old self.new }
    {
        let gap = padding(n, self.position());
        append_behind_zeros(&mut self.out, gap, number)
    }

    /// Writes the byte `x`. Err: an allocation fails.
    pub fn u8(&mut self, x: u8) -> Result<(), AllocError>
        ensures ok { OnOk result (self.new ≡ in_field (put_unit 1 x) self.old) }
        ensures err { OnErr result (self.new ≡ self.old) }
        ensures kept { TakesNothingBack self.old self.new }
    {
        self.slot(1, &x.to_le_bytes())
    }

    /// Writes `x` as a little-endian u16 at the next multiple of 2. Err: an allocation fails.
    pub fn u16(&mut self, x: u16) -> Result<(), AllocError>
        ensures ok { OnOk result (self.new ≡ in_field (put_unit 2 x) self.old) }
        ensures err { OnErr result (self.new ≡ self.old) }
        ensures kept { TakesNothingBack self.old self.new }
    {
        self.slot(2, &x.to_le_bytes())
    }

    /// Writes `x` as a little-endian u32 at the next multiple of 4. Err: an allocation fails.
    pub fn u32(&mut self, x: u32) -> Result<(), AllocError>
        ensures ok { OnOk result (self.new ≡ in_field (put_unit 4 x) self.old) }
        ensures err { OnErr result (self.new ≡ self.old) }
        ensures kept { TakesNothingBack self.old self.new }
    {
        self.slot(4, &x.to_le_bytes())
    }

    /// Writes `x` as a little-endian u64 at the next multiple of 8. Err: an allocation fails.
    pub fn u64(&mut self, x: u64) -> Result<(), AllocError>
        ensures ok { OnOk result (self.new ≡ in_field (put_unit 8 x) self.old) }
        ensures err { OnErr result (self.new ≡ self.old) }
        ensures kept { TakesNothingBack self.old self.new }
    {
        self.slot(8, &x.to_le_bytes())
    }

    /// Writes the referent of a unique pointer: 0x00020000 if it is set, 0 if it is null. Err: an
    /// allocation fails.
    pub fn referent(&mut self, is_set: bool) -> Result<(), AllocError>
        ensures ok { OnOk result (self.new ≡ in_field (put_referent is_set) self.old) }
        ensures err { OnErr result (self.new ≡ self.old) }
        ensures kept { TakesNothingBack self.old self.new }
    {
        self.u32(if is_set { REFERENT } else { 0 })
    }
}
