//! Why a field is not decoded.

use thiserror::Error;

/// Why a field, or an array in it, is not decoded.
#[derive(Clone, Copy, Debug, PartialEq, Eq, Error)]
pub enum WireFault {
    /// The bytes encode no value, for another reason than that of `BadVarType`.
    #[error("bad stub data")]
    BadStub,
    /// Of a field: the bytes encode no value, are at least 20, and no value has the vt at offset 8.
    /// Of an array: there are no arrays of its type.
    #[error("bad variable type")]
    BadVarType,
    /// The allocation of the value fails.
    #[error("out of memory")]
    Memory,
}
