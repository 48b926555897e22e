//! Why a call is refused.
use oa_model::HResult;
use std::alloc::{AllocError, AllocFailed};

/// Why a call is refused: the code of the reply, and the index in rgvarg of the argument that it is
/// about.
#[derive(Clone, Copy, Debug, PartialEq, Eq)]
pub struct BindFault {
    /// The code (MS-ERREF section 2.1); E_OUTOFMEMORY if an allocation fails.
    pub code: HResult,
    /// The index; None if the error is about no argument.
    pub index: Option<u32>,
}

impl BindFault {
    ghost use Rattle.std.specs.Prelude.{◌≡◌, None, Some};

    /// Makes an error about no argument.
    pub fn of(code: HResult) -> BindFault
        ensures { result ≡ record { code = code; index = None } }
    {
        BindFault { code, index: None }
    }

    /// Makes an error about the argument at an index of rgvarg.
    pub fn at(code: HResult, index: u32) -> BindFault
        ensures { result ≡ record { code = code; index = Some index } }
    {
        BindFault {
            code,
            index: Some(index),
        }
    }
}

impl From<AllocError> for BindFault {
    ghost use Rattle.std.specs.Prelude.{◌≡◌};
    ghost use Rattle.oa_bind.specs.Refusals.{lacks_memory};

    ghost from_gives = { λ _ e. e ≡ lacks_memory };

    fn from(_error: AllocError) -> BindFault {
        BindFault::of(HResult::E_OUTOFMEMORY)
    }
}

impl<T: Drop> From<AllocFailed<T>> for BindFault {
    ghost use Rattle.std.specs.Prelude.{◌≡◌};
    ghost use Rattle.oa_bind.specs.Refusals.{lacks_memory};

    ghost from_gives = { λ _ e. e ≡ lacks_memory };

    fn from(_error: AllocFailed<T>) -> BindFault {
        BindFault::of(HResult::E_OUTOFMEMORY)
    }
}
