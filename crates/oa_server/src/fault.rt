//! Why a change was not made over a store.
ghost use Rattle.std.specs.Prelude.{◌≡◌};
ghost use Rattle.oa_server.specs.declared.fault.HoldFault.TheVariants.{Device, Memory};

use oa_store::DeviceFailed;
use std::alloc::AllocError;
use thiserror::Error;

/// Why a change was not made. The table and the batch have not changed, and images are stores of
/// the same table as before.
#[derive(Clone, Copy, Debug, PartialEq, Eq, Error)]
pub(crate) enum HoldFault {
    /// An allocation failed.
    #[error("out of memory")]
    Memory,
    /// A call of the device failed during a checkpoint, and the store has stopped.
    #[error("the device has failed")]
    Device,
}

impl From<AllocError> for HoldFault {
    ghost from_gives = { λ _ e. e ≡ Memory };

    fn from(_: AllocError) -> HoldFault {
        HoldFault::Memory
    }
}

impl From<DeviceFailed> for HoldFault {
    ghost from_gives = { λ _ e. e ≡ Device };

    fn from(_: DeviceFailed) -> HoldFault {
        HoldFault::Device
    }
}
