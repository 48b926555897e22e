//! Writing frames of replies.
ghost use Rattle.std.specs.Prelude.{◌≡◌, ◌≤◌, ◌+◌, ◌++◌, [], false, length, take};
ghost use Rattle.std.specs.Int.{to_le_bytes, w32};
ghost use Rattle.oa_mux.specs.promise.Frames as frames;
ghost use Rattle.oa_mux.specs.promise.Outgoing.{spelled_frame};
ghost use Rattle.oa_stream.specs.Sink.{Puts};

use crate::frame_head;
use oa_frame::put_some;
use oa_stream::{Sink, Unwritten};

/// Writes a frame with one reply, given in two parts, for the client with this number: the frame's
/// head, the reply's length in 4 bytes, the reply. Err: the writer failed.
pub fn put_reply_of<W: Sink>(
    writer: &mut W,
    client: u32,
    head: &[u8; 16],
    fields: &[u8],
) -> Result<(), Unwritten>
    requires short { length head.now + length fields.now ≤ 4294967291 }
    requires unbroken { (W.out writer.old).broken ≡ false }
    ensures { Puts result (W.out writer.old) (W.out writer.new) (spelled_frame (client, head.now ++ fields.now)) }
{
    put_front(writer, client, head, fields)?;
    put_some(writer, fields)
}

/// Writes everything before the second part: the head of the frame, the reply's length, and the
/// first part. Err: the writer failed.
#[inline(always)]
fn put_front<W: Sink>(
    writer: &mut W,
    client: u32,
    head: &[u8; 16],
    fields: &[u8],
) -> Result<(), Unwritten>
    requires short { 16 + length fields.now ≤ 4294967291 }
    requires unbroken { (W.out writer.old).broken ≡ false }
    ensures { Puts result (W.out writer.old) (W.out writer.new)
        ((frames.frame_head client (4 + (16 + length fields.now)) ++ to_le_bytes w32 (16 + length fields.now)) ++ head.now) }
{
    let mut bytes = [0u8; 32];
    lay_out(client, head, fields, &mut bytes);
    writer.put(&bytes[..28])
}

/// Puts everything before the second part at the start of a buffer.
#[inline(always)]
fn lay_out(client: u32, head: &[u8; 16], fields: &[u8], bytes: &mut [u8; 32])
    requires { 16 + length fields.now ≤ 4294967291 }
    ensures { take 28 bytes.new
        ≡ (frames.frame_head client (4 + (16 + length fields.now)) ++ to_le_bytes w32 (16 + length fields.now)) ++ head.now }
{
    bytes[..12].copy_from_slice(&lengths(client, head.len() + fields.len()));
    bytes[12..28].copy_from_slice(head);
}

/// Returns the bytes before a reply of `count` bytes: the head of its frame, and its length.
fn lengths(client: u32, count: usize) -> [u8; 12]
    requires { count ≤ 4294967291 }
    ensures { result ≡ frames.frame_head client (4 + count) ++ to_le_bytes w32 count }
{
    let [a, b, c, d, e, f, g, h] = frame_head(client, 4 + count as u32);
    let [i, j, k, l] = (count as u32).to_le_bytes();
    [a, b, c, d, e, f, g, h, i, j, k, l]
}

/// Writes the frame that ends the replies of the client with this number. Err: the writer failed.
pub fn put_last_of<W: Sink>(writer: &mut W, client: u32) -> Result<(), Unwritten>
    requires unbroken { (W.out writer.old).broken ≡ false }
    ensures { Puts result (W.out writer.old) (W.out writer.new) (spelled_frame (client, [])) }
{
    writer.put(&frame_head(client, 0))
}
