//! Why an operation on an array is refused.
ghost use Rattle.std.specs.Prelude.{◌≡◌};
ghost use Rattle.oa_array.specs.declared.fault.ArrayFault.TheVariants.{Memory};
ghost use Rattle.oa_array.specs.promise.Faults.{array_code};

use oa_model::HResult;
use std::alloc::AllocError;
use thiserror::Error;

/// Why an operation on an array is refused.
#[derive(Clone, Copy, Debug, PartialEq, Eq, Error)]
pub enum ArrayFault {
    /// The index list is not within the bounds: it has too many or too few indices, or one is
    /// outside its bound.
    #[error("the index list does not lie in the bounds of the array")]
    BadIndex,
    /// The value is not of the type of the elements.
    #[error("the value is not of the type of the array's cells")]
    TypeMismatch,
    /// The array is locked.
    #[error("the array is locked")]
    IsLocked,
    /// There is no array of this type, with these bounds, or with that number of elements.
    #[error("there is no array of this type and these bounds")]
    InvalidArgument,
    /// The array has the largest possible number of locks, or none to remove.
    #[error("the array has no lock to give or to take")]
    Unexpected,
    /// An allocation fails.
    #[error("out of memory")]
    Memory,
}

impl ArrayFault {
    /// Returns the code of the reply with this refusal (MS-ERREF section 2.1).
    pub fn code(self) -> HResult
        ensures { result ≡ array_code self }
    {
        match self {
            ArrayFault::BadIndex => HResult::DISP_E_BADINDEX,
            ArrayFault::TypeMismatch => HResult::DISP_E_TYPEMISMATCH,
            ArrayFault::IsLocked => HResult::DISP_E_ARRAYISLOCKED,
            ArrayFault::InvalidArgument => HResult::E_INVALIDARG,
            ArrayFault::Unexpected => HResult::E_UNEXPECTED,
            ArrayFault::Memory => HResult::E_OUTOFMEMORY,
        }
    }
}

impl From<AllocError> for ArrayFault {
    ghost from_gives = { λ _ e. e ≡ Memory };

    fn from(_error: AllocError) -> ArrayFault {
        ArrayFault::Memory
    }
}
