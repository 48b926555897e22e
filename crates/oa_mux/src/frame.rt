//! The heads of frames.
ghost use Rattle.std.specs.Prelude.{◌≡◌, ◌<◌, ◌≤◌};
ghost use Rattle.oa_mux.specs.Frames.{SaysSome};
ghost use Rattle.oa_mux.specs.promise.Frames.{frame_head_of};
ghost use Rattle.oa_mux.specs.promise.Frames as frames;

/// The number for all clients, which no client has.
pub const ALL_CLIENTS: u32 = u32::MAX;

/// The greatest number of bytes of a frame, without its head.
pub const MAX_FRAME_BYTES: u32 = 1_048_576;

/// The meaning of a frame's head.
#[derive(Clone, Copy, Debug, PartialEq, Eq)]
pub enum FrameHead {
    /// This many bytes of this client follow, from 1 to `MAX_FRAME_BYTES`.
    Bytes { client: u32, count: u32 },
    /// This client's stream ends here.
    Last(u32),
    /// *Now*: the held requests of all clients are to be committed and answered.
    Flush,
    /// An invalid head: a length above `MAX_FRAME_BYTES`, or one above 0 for all clients.
    Unknown,
}

impl FrameHead {
    /// Decodes eight bytes: the client's number, then the length in bytes, both little-endian.
    pub fn from_bytes(bytes: &[u8; 8]) -> FrameHead
        ensures head { result ≡ frame_head_of bytes.now }
        ensures some { SaysSome result }
    {
        let [a, b, c, d, e, f, g, h] = *bytes;
        let client = u32::from_le_bytes([a, b, c, d]);
        let count = u32::from_le_bytes([e, f, g, h]);
        if client == ALL_CLIENTS {
            return if count == 0 {
                FrameHead::Flush
            } else {
                FrameHead::Unknown
            };
        }
        if count == 0 {
            FrameHead::Last(client)
        } else if count > MAX_FRAME_BYTES {
            FrameHead::Unknown
        } else {
            FrameHead::Bytes { client, count }
        }
    }
}

/// Returns the head of a frame with `count` bytes of the client with this number.
pub fn frame_head(client: u32, count: u32) -> [u8; 8]
    ensures { result ≡ frames.frame_head client count }
{
    let [a, b, c, d] = client.to_le_bytes();
    let [e, f, g, h] = count.to_le_bytes();
    [a, b, c, d, e, f, g, h]
}
