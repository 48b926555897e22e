//! Why a value is not coerced.
ghost use Rattle.std.specs.Prelude.{◌≡◌};
ghost use Rattle.oa_coerce.specs.promise.Refusals.{coercion_code};

use oa_model::HResult;
use thiserror::Error;

/// Why a value cannot be coerced to a type.
#[derive(Clone, Copy, Debug, PartialEq, Eq, Error)]
pub enum CoerceFault {
    /// The number, rounded, is outside the range of the type.
    #[error("the number is out of the range of the type")]
    Overflow,
    /// There is no rule for the two types.
    #[error("no value of that type is made of a value of this one")]
    TypeMismatch,
    /// The allocation of the array to which EMPTY is coerced fails.
    #[error("out of memory")]
    Memory,
}

impl CoerceFault {
    /// Returns the code of the reply (MS-ERREF section 2.1): DISP_E_OVERFLOW, DISP_E_TYPEMISMATCH
    /// or E_OUTOFMEMORY.
    pub fn code(self) -> HResult
        ensures { result ≡ coercion_code self }
    {
        match self {
            CoerceFault::Overflow => HResult::DISP_E_OVERFLOW,
            CoerceFault::TypeMismatch => HResult::DISP_E_TYPEMISMATCH,
            CoerceFault::Memory => HResult::E_OUTOFMEMORY,
        }
    }
}
