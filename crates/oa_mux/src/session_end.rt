//! How a session of many clients ends.

/// Why a session of many clients ended.
#[derive(Clone, Copy, Debug, PartialEq, Eq)]
pub enum SessionEnd {
    /// The input ended between two frames.
    Closed,
    /// The input ended inside a frame. The part of it that came counts.
    Cut,
    /// A head was invalid: a length above `MAX_FRAME_BYTES`, or one above 0 for all clients.
    /// Nothing after it was consumed.
    Unknown,
    /// An allocation for a part of a record or for a new client failed.
    Memory,
    /// The reader failed, or `MAX_RECORDS` bytes and calls of it were used up.
    ReadFault,
    /// The writer failed.
    WriteFault,
}
