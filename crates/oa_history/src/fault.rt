//! Why there is no history.
ghost use Rattle.std.specs.Prelude.{◌≡◌};
ghost use Rattle.oa_history.specs.declared.fault.HistoryFault.TheVariants.{Memory};

use oa_compat::TextError;
use oa_store::{FormatFault, OpenFault, UpgradeFault, WriteFault};
use std::alloc::{AllocError, AllocFailed};
use thiserror::Error;

/// Why sessions were not run to their end.
#[derive(Clone, Copy, Debug, PartialEq, Eq, Error)]
pub enum HistoryFault {
    /// The disk was not formatted.
    #[error("not formatted: {0}")]
    Format(FormatFault),
    /// A store of format 1 was not upgraded to format 2.
    #[error("not brought: {0}")]
    Upgrade(UpgradeFault),
    /// A store was not opened, since an allocation or a call of the device failed.
    #[error("not opened: {0}")]
    Open(OpenFault),
    /// A checkpoint was not made, since a call of the device failed.
    #[error("no checkpoint: {0}")]
    Checkpoint(WriteFault),
    /// The text of a store's library was not read, since an allocation failed.
    #[error("library: {0}")]
    Text(TextError),
    /// An allocation failed.
    #[error("out of memory")]
    Memory,
}

impl From<AllocError> for HistoryFault {
    ghost from_gives = { λ _ e. e ≡ Memory };

    fn from(_: AllocError) -> HistoryFault {
        HistoryFault::Memory
    }
}

impl<T: Drop> From<AllocFailed<T>> for HistoryFault {
    ghost from_gives = { λ _ e. e ≡ Memory };

    fn from(_: AllocFailed<T>) -> HistoryFault {
        HistoryFault::Memory
    }
}
