//! Bodies of the REPLACE LIBRARY request.
ghost use Rattle.std.specs.Prelude.{◌≡◌, None, Some, IfSome, IsNone};
ghost use Rattle.oa_record.specs.promise.Replacement.{is_replacement, text_in, padded_text};

use crate::Opcode;
use byteorder::{ByteOrder, LittleEndian};
use oa_model::MAX_REQUEST_BYTES;

/// Returns whether the body is a REPLACE LIBRARY request: it has at least 8 bytes and the opcode 12
/// (`Opcode::Replace`). `read_request` refuses such a body. The fields are not checked.
pub fn is_replacement(body: &[u8]) -> bool
    ensures { result ≡ is_replacement body.now }
{
    if body.len() < 8 {
        return false;
    }
    LittleEndian::read_u16(&body[4..]) == Opcode::Replace.number()
}

/// Returns the library's text in the body of a REPLACE LIBRARY request: u32 length at 8, u32
/// reserved at 12, the text from 16 on, padding up to a multiple of 8. Returns None if these do not
/// fill the body exactly, or if it has more than `MAX_REQUEST_BYTES`. Neither the opcode nor the
/// characters of the text are checked. Allocates nothing.
pub fn replacement_text(body: &[u8]) -> Option<&[u8]>
    ensures found { IfSome result (λ text. text_in body.now ≡ Some text.now) }
    ensures none { IsNone result → text_in body.now ≡ None }
{
    if body.len() < 16 {
        return None;
    }
    if body.len() > MAX_REQUEST_BYTES as usize {
        return None;
    }
    let len = LittleEndian::read_u32(&body[8..]) as usize;
    text_of(&body[16..], len)
}

/// Returns the first `len` bytes if these and their padding up to a multiple of 8 are all of
/// `bytes`; otherwise None.
fn text_of(bytes: &[u8], len: usize) -> Option<&[u8]>
    ensures found { IfSome result (λ text. padded_text len bytes.now ≡ Some text.now) }
    ensures none { IsNone result → padded_text len bytes.now ≡ None }
{
    if len > bytes.len() {
        return None;
    }
    if bytes.len() != len.next_multiple_of(8) {
        return None;
    }
    Some(&bytes[..len])
}
