//! Why bytes are not decoded as a text.

ghost use Rattle.std.specs.Prelude.{◌≡◌};
ghost use Rattle.oa_wire_text.specs.declared.fault.StubFault.TheVariants.{BadStub, Memory};

use oa_ndr::Short;
use std::alloc::{AllocError, AllocFailed};
use thiserror::Error;

/// Why a part of a field is not decoded.
#[derive(Clone, Copy, Debug, PartialEq, Eq, Error)]
pub enum StubFault {
    /// The bytes encode no value.
    #[error("bad stub data")]
    BadStub,
    /// The allocation of the value fails.
    #[error("out of memory")]
    Memory,
}

impl From<Short> for StubFault {
    ghost from_gives = { λ _ e. e ≡ BadStub };

    fn from(_e: Short) -> StubFault {
        StubFault::BadStub
    }
}

impl From<AllocError> for StubFault {
    ghost from_gives = { λ _ e. e ≡ Memory };

    fn from(_e: AllocError) -> StubFault {
        StubFault::Memory
    }
}

impl<T: Drop> From<AllocFailed<T>> for StubFault {
    ghost from_gives = { λ _ e. e ≡ Memory };

    fn from(_e: AllocFailed<T>) -> StubFault {
        StubFault::Memory
    }
}
