//! Decodes and encodes texts.

ghost use Rattle.std.specs.Prelude.{◌≡◌, ◌≤◌, ◌<◌, OnOk, OnErr, length};
ghost use Rattle.oa_ndr.specs.Writing.{TakesNothingBack, in_field};
ghost use Rattle.oa_wire_text.specs.promise.Texts.{units, blob};
ghost use Rattle.oa_wire_text.specs.Reading.{ReadsField, IsFront, OnMemory, text_at, blob_at, bstr_at};
ghost use Rattle.oa_wire_text.specs.promise.Canon.{put_blob, put_bstr};

use crate::fault::StubFault;
use oa_bstr::Bstr;
use oa_model::MAX_TEXT_BYTES;
use oa_ndr::{Ndr, NdrOut};
use std::alloc::{AllocError, Global};

// The value of cBytes for the null text.
const NULL_TEXT: u32 = 0xFFFF_FFFF;

/// Returns the number of 16-bit units that contain `n` bytes.
fn units(n: u32) -> u32
    ensures { result ≡ units n }
{
    n / 2 + n % 2
}

/// Reads the `len` bytes after the three numbers, and the byte that pads an odd number of them.
/// Errors: `BadStub` if fewer are left; `Memory`.
#[tactic(auto, unfolding(oa_ndr::specs::Reading::steps, crate::specs::Reading::body_at, crate::specs::Reading::text_at))]
fn text(alloc: Global, len: u32, r: &mut Ndr<'_>) -> Result<Bstr, StubFault>
    ensures { ReadsField result r.new (text_at len r.old) }
{
    let bytes = r.bytes(len as usize)?;
    r.bytes(len as usize % 2)?;
    Bstr::from_bytes(alloc, bytes).map_err(|_| StubFault::Memory)
}

/// Reads a text as `read_text` does: the maximum count, cBytes, clSize and the bytes. Errors are
/// those of `read_text`, but the reader may have moved.
#[tactic(auto, unfolding(oa_ndr::specs::Reading::steps, crate::specs::Reading::blob_at))]
pub fn read_blob(alloc: Global, r: &mut Ndr<'_>) -> Result<Bstr, StubFault>
    ensures value { ReadsField result r.new (blob_at r.old) }
    ensures memory { OnMemory result (12 ≤ length r.old.rest) }
{
    let maximum = r.u32()?;
    let len = r.u32()?;
    let size = r.u32()?;
    if len == NULL_TEXT {
        if maximum == 0 && size == 0 {
            return Ok(Bstr::null());
        }
        return Err(StubFault::BadStub);
    }
    if maximum == units(len) && size == units(len) && len <= MAX_TEXT_BYTES {
        return text(alloc, len, r);
    }
    Err(StubFault::BadStub)
}

/// Reads a referent and its pointee (MS-OAUT section 2.2.23); a null referent is the null text.
/// After an error the reader may have moved.
///
/// Errors: `BadStub` if the bytes end too early or `read_text` refuses the pointee; `Memory` if the
/// allocation of the text fails.
#[tactic(auto, unfolding(oa_ndr::specs::Reading::steps, crate::specs::Reading::bstr_at))]
pub fn read_bstr(alloc: Global, r: &mut Ndr<'_>) -> Result<Bstr, StubFault>
    ensures value { ReadsField result r.new (bstr_at r.old) }
    ensures memory { OnMemory result (16 ≤ length r.old.rest) }
{
    if r.referent()? {
        return read_blob(alloc, r);
    }
    Ok(Bstr::null())
}

/// Reads a text at the reader's offset, as it follows its referent: FLAGGED_WORD_BLOB (MS-OAUT
/// section 2.2.23), from the maximum count on. After an error the reader has not moved.
///
/// Errors:
/// - `BadStub`: the bytes end too early; the maximum count or clSize is not cBytes / 2 rounded up,
///   or not 0 for the null text, whose cBytes is 0xFFFFFFFF; or the text has more than
///   `MAX_TEXT_BYTES`.
/// - `Memory`: the allocation of the text fails. This occurs only if at least 12 bytes are there.
pub fn read_text(alloc: Global, r: &mut Ndr<'_>) -> Result<Bstr, StubFault>
    ensures exact { IsFront blob result r.old r.new }
    ensures memory { OnMemory result (12 ≤ length r.old.rest) }
{
    let mut ahead = r.fork();
    let answer = read_blob(alloc, &mut ahead);
    if answer.is_ok() {
        *r = ahead;
    }
    answer
}

/// Writes a text as `write_text` does. Err: an allocation fails, and a part of the text may have
/// been written.
pub fn add_blob(out: &mut NdrOut, text: &Bstr) -> Result<(), AllocError>
    ensures ok { OnOk result (out.new ≡ in_field (put_blob text.now) out.old) }
    ensures kept { TakesNothingBack out.old out.new }
{
    if text.is_null() {
        out.u32(0)?;
        out.u32(NULL_TEXT)?;
        return out.u32(0);
    }
    let bytes = text.as_bytes();
    let len = text.byte_len();
    out.u32(units(len))?;
    out.u32(len)?;
    out.u32(units(len))?;
    out.bytes(bytes)?;
    out.zeros(len as usize % 2)
}

/// Writes a text as it follows its referent (see `read_text`): the null text with cBytes
/// 0xFFFFFFFF, an odd last byte followed by a 0. Err: an allocation fails; the output is unchanged.
pub fn write_text(out: &mut NdrOut, text: &Bstr) -> Result<(), AllocError>
    ensures ok { OnOk result (out.new ≡ in_field (put_blob text.now) out.old) }
    ensures err { OnErr result (out.new ≡ out.old) }
{
    let start = out.position();
    if let Err(e) = add_blob(out, text) {
        out.truncate(start);
        return Err(e);
    }
    Ok(())
}

/// Writes a referent and its pointee; the null text is a null referent. Err: an allocation fails; a
/// part may have been written.
pub fn write_bstr(out: &mut NdrOut, text: &Bstr) -> Result<(), AllocError>
    ensures ok { OnOk result (out.new ≡ in_field (put_bstr text.now) out.old) }
    ensures kept { TakesNothingBack out.old out.new }
{
    if text.is_null() {
        return out.referent(false);
    }
    out.referent(true)?;
    add_blob(out, text)
}
