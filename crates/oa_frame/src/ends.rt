//! How a session ends.

/// Why a session ended.
#[derive(Clone, Copy, Debug, PartialEq, Eq)]
pub enum End {
    /// The input ended between two bodies, or an empty line or a length of 0 was read.
    Closed,
    /// The input ended inside a record.
    Cut,
    /// A line has more than `MAX_LINE_CHARACTERS` characters, or a record's length is above
    /// `MAX_REQUEST_BYTES`.
    TooLong,
    /// The line with this number, counted from 1, is not hexadecimal.
    BadHex(u64),
    /// The reader failed, or was called `MAX_READ_CALLS` times for one body; or `MAX_RECORDS`
    /// bodies were answered.
    ReadFault,
    /// The writer failed.
    WriteFault,
}
