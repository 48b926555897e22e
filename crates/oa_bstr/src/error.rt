//! Why no BSTR is made.
ghost use Rattle.std.specs.Prelude.{◌≡◌};
ghost use Rattle.oa_bstr.specs.declared.error.BstrError.TheVariants.{Memory};

use std::alloc::AllocError;
use thiserror::Error;

/// Why no BSTR is made.
#[derive(Clone, Copy, Debug, PartialEq, Eq, Error)]
pub enum BstrError {
    /// The allocation of its block fails.
    #[error("out of memory")]
    Memory,
    /// The text has more than `MAX_TEXT_BYTES`.
    #[error("a text of more than 1048576 bytes")]
    TooLong,
}

impl From<AllocError> for BstrError {
    ghost from_gives = { λ _ e. e ≡ Memory };

    fn from(_: AllocError) -> BstrError {
        BstrError::Memory
    }
}
