//! Why bytes are no image.
ghost use Rattle.std.specs.Prelude.{◌≡◌};
ghost use Rattle.oa_formats.specs.declared.fault.ReadFault.TheVariants.{Broken, Memory};
ghost use Rattle.oa_formats.specs.declared.fault.ImageFault.TheVariants as images;

use oa_ndr::Short;
use std::alloc::{AllocError, AllocFailed};
use thiserror::Error;

/// Why a part of an image could not be read.
#[derive(Clone, Copy, Debug, PartialEq, Eq, Error)]
pub enum ReadFault {
    /// The bytes are the image of no value.
    #[error("no image")]
    Broken,
    /// An allocation failed.
    #[error("out of memory")]
    Memory,
}

/// Why a whole image could not be read.
#[derive(Clone, Copy, Debug, PartialEq, Eq, Error)]
pub enum ImageFault {
    /// The bytes are the image of no value. The number is the place, in bytes from the first, up to
    /// which they were read.
    #[error("damaged at {0}")]
    Damaged(usize),
    /// An allocation failed.
    #[error("out of memory")]
    Memory,
}

impl From<Short> for ReadFault {
    ghost from_gives = { λ _ e. e ≡ Broken };

    fn from(_e: Short) -> ReadFault {
        ReadFault::Broken
    }
}

impl From<AllocError> for ReadFault {
    ghost from_gives = { λ _ e. e ≡ Memory };

    fn from(_e: AllocError) -> ReadFault {
        ReadFault::Memory
    }
}

impl<T: Drop> From<AllocFailed<T>> for ReadFault {
    ghost from_gives = { λ _ e. e ≡ Memory };

    fn from(_e: AllocFailed<T>) -> ReadFault {
        ReadFault::Memory
    }
}

impl<T: Drop> From<AllocFailed<T>> for ImageFault {
    ghost from_gives = { λ _ e. e ≡ images.Memory };

    fn from(_e: AllocFailed<T>) -> ImageFault {
        ImageFault::Memory
    }
}
