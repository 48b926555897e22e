//! The calls of a disk, as a log keeps them.

/// One call of a disk.
#[derive(Clone, Copy, Debug, PartialEq, Eq)]
pub enum DeviceCall {
    /// A read.
    Read,
    /// A write: the place of its first byte, and the number of its bytes.
    Write(usize, usize),
    /// A sync.
    Sync,
}
