//! Writing replies.
ghost use Rattle.std.specs.Prelude.{◌≡◌, ◌<◌, ◌≤◌, ◌+◌, ◌*◌, ◌++◌, ◌∷◌, [], false, length, slice_index, take};
ghost use Rattle.std.specs.Int.{to_le_bytes, w32};
ghost use Rattle.hex.specs.Hex.{encode_lower, lower_digits};
ghost use Rattle.oa_stream.specs.Sink.{Puts};
ghost use Rattle.oa_frame.specs.promise.Framings.{frames};

use crate::Framing;
use oa_stream::{Sink, Unwritten};

/// The number of bytes that are converted to digits at a time, so that writing allocates nothing.
const PIECE: usize = 128;

/// The greatest number of bytes whose digits are put together with the end of their line.
const SHORT: usize = 63;

/// Writes a reply, given in two parts: as a line of lower-case digits, or with its length in bytes
/// before it (a little-endian u32). Err: the writer failed.
#[inline(always)]
pub fn put_reply<W: Sink>(
    framing: Framing,
    writer: &mut W,
    head: &[u8; 16],
    fields: &[u8],
) -> Result<(), Unwritten>
    requires short { length head.now + length fields.now ≤ 4294967295 }
    requires unbroken { (W.out writer.old).broken ≡ false }
    ensures { Puts result (W.out writer.old) (W.out writer.new) ((frames framing).spelled (head.now ++ fields.now)) }
{
    match framing {
        Framing::HexLines => put_line(writer, head, fields),
        Framing::Records => put_record(writer, head, fields),
    }
}

/// Writes a reply in two parts as one line of digits. Err: the writer failed.
#[inline(never)]
fn put_line<W: Sink>(writer: &mut W, head: &[u8; 16], fields: &[u8]) -> Result<(), Unwritten>
    requires unbroken { (W.out writer.old).broken ≡ false }
    ensures { Puts result (W.out writer.old) (W.out writer.new) (encode_lower (head.now ++ fields.now) ++ 10 ∷ []) }
{
    put_head(writer, head)?;
    put_rest(writer, fields)
}

/// Writes the digits of a reply's head. Err: the writer failed.
fn put_head<W: Sink>(writer: &mut W, head: &[u8; 16]) -> Result<(), Unwritten>
    requires unbroken { (W.out writer.old).broken ≡ false }
    ensures { Puts result (W.out writer.old) (W.out writer.new) (encode_lower head.now) }
{
    let mut digits = [0u8; 32];
    encode(head, &mut digits);
    writer.put(&digits[..2 * head.len()])
}

/// Writes the digits of bytes, and a line feed. Err: the writer failed.
fn put_rest<W: Sink>(writer: &mut W, fields: &[u8]) -> Result<(), Unwritten>
    requires unbroken { (W.out writer.old).broken ≡ false }
    ensures { Puts result (W.out writer.old) (W.out writer.new) (encode_lower fields.now ++ 10 ∷ []) }
{
    if 0 < fields.len() && fields.len() <= SHORT {
        return put_short(writer, fields);
    }
    put_hex(writer, fields)?;
    writer.put(b"\n")
}

/// Writes the digits of at most 63 bytes, and a line feed, in one call. Err: the writer failed.
fn put_short<W: Sink>(writer: &mut W, fields: &[u8]) -> Result<(), Unwritten>
    requires short { length fields.now ≤ 63 }
    requires unbroken { (W.out writer.old).broken ≡ false }
    ensures { Puts result (W.out writer.old) (W.out writer.new) (encode_lower fields.now ++ 10 ∷ []) }
{
    let mut line = [0u8; 128];
    let end = spell(fields, &mut line);
    writer.put(&line[..end])
}

/// Puts the digits of at most 63 bytes and a line feed at the start of a buffer. Returns the number
/// of characters.
fn spell(fields: &[u8], line: &mut [u8; 128]) -> usize
    requires { length fields.now ≤ 63 }
    ensures within { result ≤ 128 }
    ensures line { take result line.new ≡ encode_lower fields.now ++ 10 ∷ [] }
{
    let end = 2 * fields.len();
    encode(fields, line);
    line[end] = b'\n';
    end + 1
}

/// Writes the length of both parts of a reply together, in 4 bytes, and then the parts. Err: the
/// writer failed.
#[inline(always)]
fn put_record<W: Sink>(writer: &mut W, head: &[u8; 16], fields: &[u8]) -> Result<(), Unwritten>
    requires short { length head.now + length fields.now ≤ 4294967295 }
    requires unbroken { (W.out writer.old).broken ≡ false }
    ensures { Puts result (W.out writer.old) (W.out writer.new)
        (to_le_bytes w32 (length (head.now ++ fields.now)) ++ (head.now ++ fields.now)) }
{
    put_front(writer, head, fields)?;
    put_some(writer, fields)
}

/// Writes bytes; without bytes it makes no call. Err: the writer failed.
#[inline(always)]
pub fn put_some<W: Sink>(writer: &mut W, bytes: &[u8]) -> Result<(), Unwritten>
    requires unbroken { (W.out writer.old).broken ≡ false }
    ensures { Puts result (W.out writer.old) (W.out writer.new) bytes.now }
{
    if bytes.is_empty() {
        return Ok(());
    }
    writer.put(bytes)
}

/// Writes the length of both parts of a reply together, in 4 bytes, and then the first part. Err:
/// the writer failed.
#[inline(always)]
fn put_front<W: Sink>(writer: &mut W, head: &[u8; 16], fields: &[u8]) -> Result<(), Unwritten>
    requires short { length head.now + length fields.now ≤ 4294967295 }
    requires unbroken { (W.out writer.old).broken ≡ false }
    ensures { Puts result (W.out writer.old) (W.out writer.new) (to_le_bytes w32 (length (head.now ++ fields.now)) ++ head.now) }
{
    let mut bytes = [0u8; 20];
    lay_out(head, fields, &mut bytes);
    writer.put(&bytes[..20])
}

/// Puts the length of both parts of a reply together and then the first part into a buffer.
#[inline(always)]
fn lay_out(head: &[u8; 16], fields: &[u8], bytes: &mut [u8; 20])
    requires { length head.now + length fields.now ≤ 4294967295 }
    ensures { take 20 bytes.new ≡ to_le_bytes w32 (length (head.now ++ fields.now)) ++ head.now }
{
    bytes[..4].copy_from_slice(&length_bytes(head, fields));
    bytes[4..20].copy_from_slice(head);
}

/// Returns the length in bytes of two parts together, as a little-endian u32.
fn length_bytes(head: &[u8; 16], fields: &[u8]) -> [u8; 4]
    requires { length head.now + length fields.now ≤ 4294967295 }
    ensures { result ≡ to_le_bytes w32 (length (head.now ++ fields.now)) }
{
    ((head.len() + fields.len()) as u32).to_le_bytes()
}

/// Writes bytes as lower-case hexadecimal digits, at most 128 bytes at a time. Allocates nothing.
/// Err: the writer failed.
pub fn put_hex<W: Sink>(writer: &mut W, bytes: &[u8]) -> Result<(), Unwritten>
    requires unbroken { (W.out writer.old).broken ≡ false }
    ensures { Puts result (W.out writer.old) (W.out writer.new) (encode_lower bytes.now) }
{
    let mut at = 0;
    'pieces: while at < bytes.len() {
        let end = at + PIECE.min(bytes.len() - at);
        put_piece(writer, &bytes[at..end])?;
        at = end;
    }
    Ok(())
}

/// Writes at most 128 bytes as digits. Err: the writer failed.
fn put_piece<W: Sink>(writer: &mut W, piece: &[u8]) -> Result<(), Unwritten>
    requires short { length piece.now ≤ 128 }
    requires unbroken { (W.out writer.old).broken ≡ false }
    ensures { Puts result (W.out writer.old) (W.out writer.new) (encode_lower piece.now) }
{
    let mut digits = [0u8; 256];
    encode(piece, &mut digits);
    writer.put(&digits[..2 * piece.len()])
}

/// Puts the lower-case digits of bytes at the start of a buffer, two for each byte.
fn encode(piece: &[u8], digits: &mut [u8])
    requires { 2 * length piece.now ≤ length digits.old }
    ensures len { length digits.new ≡ length digits.old }
    ensures digits { take (2 * length piece.now) digits.new ≡ encode_lower piece.now }
{
    let count = piece.len();
    'bytes: for i in 0..count {
        let byte = piece[i];
        digits[2 * i] = digit(byte / 16);
        digits[2 * i + 1] = digit(byte % 16);
    }
}

/// Returns the lower-case digit of a value from 0 to 15. It uses sums instead of a table, so that
/// the compiler can convert many at a time.
fn digit(value: u8) -> u8
    requires { value < 16 }
    ensures { result ≡ slice_index lower_digits value }
{
    if value < 10 {
        b'0' + value
    } else {
        b'a' - 10 + value
    }
}
