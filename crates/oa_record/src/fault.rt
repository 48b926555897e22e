//! Why a body is refused, and why a value cannot be written as a field.
ghost use Rattle.std.specs.Prelude.{◌≡◌};
ghost use Rattle.oa_record.specs.declared.fault.FieldFault.TheVariants as field_faults;
ghost use Rattle.oa_record.specs.declared.fault.RecordFault.TheVariants.{Stub, Memory};
ghost use Rattle.oa_record.specs.Faults.{record_code, index_told};

use oa_model::HResult;
use oa_ndr::Short;
use std::alloc::{AllocError, AllocFailed};
use thiserror::Error;

/// Why a body is not decoded as a request.
#[derive(Clone, Copy, Debug, PartialEq, Eq, Error)]
pub enum RecordFault {
    /// The body has the layout of no request, or the field of a value is broken.
    #[error("bad stub data")]
    Stub,
    /// A value has a type outside this server's profile. The number is its index in rgvarg, the
    /// lowest of such values; None for a value that is not an argument.
    #[error("bad variable type")]
    BadVarType(Option<u32>),
    /// The allocation of a value, a name or a list of the request fails.
    #[error("out of memory")]
    Memory,
}

impl RecordFault {
    /// Returns the code of the reply (MS-ERREF section 2.1): RPC_X_BAD_STUB_DATA as an HRESULT,
    /// DISP_E_BADVARTYPE or E_OUTOFMEMORY.
    pub fn code(self) -> HResult
        ensures { result ≡ record_code self }
    {
        match self {
            RecordFault::Stub => HResult::BAD_STUB_DATA,
            RecordFault::BadVarType(_) => HResult::DISP_E_BADVARTYPE,
            RecordFault::Memory => HResult::E_OUTOFMEMORY,
        }
    }

    /// Returns the index in rgvarg that the reply contains; None if it contains none.
    pub fn index(self) -> Option<u32>
        ensures { result ≡ index_told self }
    {
        match self {
            RecordFault::BadVarType(index) => index,
            RecordFault::Stub | RecordFault::Memory => None,
        }
    }
}

impl From<Short> for RecordFault {
    ghost from_gives = { λ _ e. e ≡ Stub };

    fn from(_: Short) -> RecordFault {
        RecordFault::Stub
    }
}

impl From<AllocError> for RecordFault {
    ghost from_gives = { λ _ e. e ≡ Memory };

    fn from(_: AllocError) -> RecordFault {
        RecordFault::Memory
    }
}

impl<T: Drop> From<AllocFailed<T>> for RecordFault {
    ghost from_gives = { λ _ e. e ≡ Memory };

    fn from(_: AllocFailed<T>) -> RecordFault {
        Self::Memory
    }
}

/// Why a value or a text is not written as a field of a reply.
#[derive(Clone, Copy, Debug, PartialEq, Eq, Error)]
pub enum FieldFault {
    /// The value or text is longer than a field can be.
    #[error("field too long")]
    TooLong,
    /// The allocation of its bytes fails.
    #[error("out of memory")]
    Memory,
}

impl From<AllocError> for FieldFault {
    ghost from_gives = { λ _ e. e ≡ field_faults.Memory };

    fn from(_: AllocError) -> FieldFault {
        FieldFault::Memory
    }
}

// Treats a reply that is too long like one that does not fit the memory.
impl From<FieldFault> for AllocError {
    fn from(_: FieldFault) -> AllocError {
        AllocError
    }
}
