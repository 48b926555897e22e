//! Frames for the server.
ghost use Rattle.std.specs.Prelude.{◌≡◌, ◌<◌, ◌≤◌, ◌+◌, ◌∷◌, [], ◌++◌, length, take, ℕ, List, IfSome, IsNone};
ghost use Rattle.oa_mux.specs.promise.Frames.{InHead, all_clients, frame_of, max_frame_bytes, pieces_in};
ghost use Rattle.oa_mux.specs.promise.Marks.{Flush, Last, Of};
ghost use Rattle.oa_mux.specs.Marks.{pieces};
ghost use Rattle.oa_gateway.specs.Frames.{SpellsFrames, gateway_number, room_for};

use oa_mux::laws::frames_are_read;
use oa_mux::{ALL_CLIENTS, MAX_FRAME_BYTES, frame_head};

/// The number by which the gateway itself ends as a client after a batch. Its end is answered after
/// all earlier requests.
pub const GATEWAY: u32 = 4_294_967_294;

/// The number of bytes that end a batch in a stream to the server.
pub const NOW_BYTES: usize = 16;

/// The greatest number of bytes of a frame without its head.
const MOST: usize = MAX_FRAME_BYTES as usize;

/// Puts a client's bytes into frames with its number, at the beginning of `out`. Returns the number
/// of bytes of the frames; None if `out` may be too short for them.
pub(crate) fn put_bytes(number: u32, bytes: &[u8], out: &mut [u8]) -> Option<usize>
    requires { number < all_clients }
    ensures some { IfSome result (λ n. (n ≤ length out.new) × SpellsFrames number (take n out.new) (pieces bytes.now)) }
    ensures none { IsNone result → length out.old < room_for (length bytes.now) }
{
    if out.len() < bytes.len() || (out.len() - bytes.len()) / 8 < bytes.len() / MOST + 1 {
        return None;
    }
    let mut at = 0;
    let mut done = 0;
    frames_are_read();
    'frames: while done < bytes.len() {
        let count = (bytes.len() - done).min(MOST);
        put_frame(
            number,
            &bytes[done..done + count],
            &mut out[at..at + 8 + count],
        );
        at += 8 + count;
        done += count;
    }
    Some(at)
}

/// Fills `out`, which has 8 bytes more than `bytes`, with one frame of the client with this number.
fn put_frame(number: u32, bytes: &[u8], out: &mut [u8])
    requires short { length bytes.now ≤ max_frame_bytes }
    requires room { length out.old ≡ 8 + length bytes.now }
    ensures { out.new ≡ frame_of number bytes.now }
{
    out[..8].copy_from_slice(&frame_head(number, bytes.len() as u32));
    out[8..].copy_from_slice(bytes);
}

/// Puts the end of a client's stream at the beginning of `out`. Returns 8, its number of bytes;
/// None if `out` is shorter.
pub(crate) fn put_last(number: u32, out: &mut [u8]) -> Option<usize>
    requires { number < all_clients }
    ensures some { IfSome result (λ n. (n ≤ length out.new) × SpellsFrames number (take n out.new) (Last ∷ [])) }
    ensures none { IsNone result → length out.old < 8 }
{
    if out.len() < 8 {
        return None;
    }
    frames_are_read();
    put_frame(number, &[], &mut out[..8]);
    Some(8)
}

/// Puts the frames that end a batch at the beginning of `out`: the gateway's own end, and a *now*.
/// Returns 16, the number of their bytes; None if `out` is shorter.
pub fn put_now(out: &mut [u8]) -> Option<usize>
    ensures some { IfSome result (λ n. (n ≤ length out.new) × ((rest : List ℕ)
        → pieces_in (InHead []) (take n out.new ++ rest) ≡ Of gateway_number Last ∷ Flush ∷ pieces_in (InHead []) rest)) }
    ensures none { IsNone result → length out.old < 16 }
{
    if out.len() < NOW_BYTES {
        return None;
    }
    frames_are_read();
    put_frame(GATEWAY, &[], &mut out[..8]);
    put_frame(ALL_CLIENTS, &[], &mut out[8..16]);
    Some(NOW_BYTES)
}
