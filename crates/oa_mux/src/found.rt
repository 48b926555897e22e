//! The end of a record.
ghost use Rattle.std.specs.Prelude.{◌≡◌, ◌≤◌, ◌<◌, ◌+◌, ◌++◌, length, take, IfSome, IsNone};
ghost use Rattle.oa_mux.specs.Readers.{IsPartRecord};
ghost use Rattle.oa_mux.specs.promise.Readers.{said};
ghost use Rattle.oa_mux.specs.Steps.{FindsEnd};

use oa_frame::End;

/// The greatest number of bytes of a body.
const BODY_LIMIT: usize = oa_model::MAX_REQUEST_BYTES as usize;

/// The bytes that follow the part of a record that came before.
#[derive(Clone, Copy)]
pub(crate) enum Found {
    /// Not all of the rest.
    Part,
    /// The rest, of this many bytes.
    Whole(usize),
    /// After this many bytes, a length that ends the stream.
    Ends(End, usize),
}

/// Finds the end of the record that begins with `front` and continues with `bytes`; `front` is not
/// a whole record.
pub(crate) fn find(front: &[u8], bytes: &[u8]) -> Found
    requires part { IsPartRecord front.now }
    requires some { 0 < length bytes.now }
    ensures { FindsEnd result front.now bytes.now }
{
    match length_of(front, bytes) {
        None => Found::Part,
        Some(n) => find_of(n, front, bytes),
    }
}

/// Finds the end of a record whose body has `n` bytes. An invalid length ends the stream when its
/// fourth byte comes.
fn find_of(n: usize, front: &[u8], bytes: &[u8]) -> Found
    requires part { IsPartRecord front.now }
    requires some { 0 < length bytes.now }
    requires said { n ≡ said (front.now ++ bytes.now) }
    requires four { 4 ≤ length front.now + length bytes.now }
    ensures { FindsEnd result front.now bytes.now }
{
    if front.len() < 4 && n == 0 {
        return Found::Ends(End::Closed, 4 - front.len());
    }
    if front.len() < 4 && n > BODY_LIMIT {
        return Found::Ends(End::TooLong, 4 - front.len());
    }
    if bytes.len() < 4 + n - front.len() {
        Found::Part
    } else {
        Found::Whole(4 + n - front.len())
    }
}

/// Returns the length in bytes of a record's body, from its first four bytes; None if they have not
/// all come.
fn length_of(front: &[u8], bytes: &[u8]) -> Option<usize>
    ensures none { IsNone result → length front.now + length bytes.now < 4 }
    ensures some { IfSome result (λ n. (n ≡ said (front.now ++ bytes.now)) × (4 ≤ length front.now + length bytes.now)) }
{
    if let Some((head, _)) = front.split_first_chunk::<4>() {
        return Some(u32::from_le_bytes(*head) as usize);
    }
    let more = 4 - front.len();
    if bytes.len() < more {
        return None;
    }
    let mut head = [0u8; 4];
    head[..front.len()].copy_from_slice(front);
    head[front.len()..].copy_from_slice(&bytes[..more]);
    Some(u32::from_le_bytes(head) as usize)
}
