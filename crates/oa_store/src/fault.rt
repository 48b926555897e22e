//! Why a store could not be made, opened or changed.
ghost use Rattle.std.specs.Prelude.{◌≡◌};
ghost use Rattle.oa_store.specs.declared.fault.OpenFault.TheVariants.{Memory};
ghost use Rattle.oa_store.specs.declared.fault.FindFault.TheVariants as finds;
ghost use Rattle.oa_store.specs.Faults.{finding_of_bank, of_bank, of_finding, upgrade_of_bank, upgrade_of_finding};

use oa_disk::DeviceFault;
use oa_journal::BankFault;
use std::alloc::AllocError;
use thiserror::Error;

/// Why a disk could not be formatted.
#[derive(Clone, Copy, Debug, PartialEq, Eq, Error)]
pub enum FormatFault {
    /// The disk has fewer bytes than those of format 1 and two bodies of the given size.
    #[error("disk too small")]
    TooSmall,
    /// A call of the device failed. The disk has its old contents except for its first byte, or no
    /// store, or the new store.
    #[error("device: {0}")]
    Device(DeviceFault),
    /// An allocation failed. Nothing was done.
    #[error("out of memory")]
    Memory,
}

/// Why a store could not be opened. The checks are of the size, the first byte, the head of the
/// bank, its format, its library, its snapshot and its groups. They are made in this order, and the
/// first error is returned.
#[derive(Clone, Copy, Debug, PartialEq, Eq, Error)]
pub enum OpenFault {
    /// The disk has fewer bytes than a store, or its first byte is not 1.
    #[error("not a store")]
    NotAStore,
    /// A store of format 1, which can be dumped and upgraded, but not opened.
    #[error("old format")]
    OldFormat,
    /// The head is valid, but the store has another library.
    #[error("library differs")]
    LibraryDiffers,
    /// The bytes at this place of the disk are not a valid head, table or group.
    #[error("damaged at {0}")]
    Damaged(u64),
    /// A call of the device failed.
    #[error("device: {0}")]
    Device(DeviceFault),
    /// An allocation failed.
    #[error("out of memory")]
    Memory,
}

impl From<AllocError> for OpenFault {
    ghost from_gives = { λ _ e. e ≡ Memory };

    fn from(_e: AllocError) -> OpenFault {
        OpenFault::Memory
    }
}

impl From<BankFault> for OpenFault {
    ghost from_gives = { λ f e. e ≡ of_bank f };

    fn from(e: BankFault) -> OpenFault {
        match e {
            BankFault::Damaged(place) => OpenFault::Damaged(place),
            BankFault::Device(fault) => OpenFault::Device(fault),
            BankFault::Memory => OpenFault::Memory,
        }
    }
}

impl From<FindFault> for OpenFault {
    ghost from_gives = { λ f e. e ≡ of_finding f };

    fn from(e: FindFault) -> OpenFault {
        match e {
            FindFault::NotAStore => OpenFault::NotAStore,
            FindFault::Damaged(place) => OpenFault::Damaged(place),
            FindFault::Device(fault) => OpenFault::Device(fault),
            FindFault::Memory => OpenFault::Memory,
        }
    }
}

/// Why the head of the bank in use could not be read. No library is compared, and both formats are
/// accepted.
#[derive(Clone, Copy)]
pub(crate) enum FindFault {
    /// The disk has fewer bytes than a store, or its first byte is not 1.
    NotAStore,
    /// The bytes at this place of the disk are not a valid head.
    Damaged(u64),
    /// A call of the device failed.
    Device(DeviceFault),
    /// An allocation failed.
    Memory,
}

impl From<AllocError> for FindFault {
    ghost from_gives = { λ _ e. e ≡ finds.Memory };

    fn from(_e: AllocError) -> FindFault {
        FindFault::Memory
    }
}

impl From<DeviceFault> for FindFault {
    ghost from_gives = { λ f e. e ≡ finds.Device f };

    fn from(e: DeviceFault) -> FindFault {
        FindFault::Device(e)
    }
}

impl From<BankFault> for FindFault {
    ghost from_gives = { λ f e. e ≡ finding_of_bank f };

    fn from(e: BankFault) -> FindFault {
        match e {
            BankFault::Damaged(place) => FindFault::Damaged(place),
            BankFault::Device(fault) => FindFault::Device(fault),
            BankFault::Memory => FindFault::Memory,
        }
    }
}

/// Why an upgrade failed.
#[derive(Clone, Copy, Debug, PartialEq, Eq, Error)]
pub enum UpgradeFault {
    /// The disk has fewer bytes than those of format 1 and two bodies of the given size.
    #[error("disk too small")]
    TooSmall,
    /// The disk has fewer bytes than a store, or its first byte is not 1.
    #[error("not a store")]
    NotAStore,
    /// The store already has format 2.
    #[error("already format 2")]
    AlreadyNew,
    /// The bytes at this place of the disk are not a valid head, table or group; 0 if the table or
    /// the library is too large.
    #[error("damaged at {0}")]
    Damaged(u64),
    /// A call of the device failed. If it was a read, nothing was written; otherwise the store is
    /// whole, in format 1 or format 2.
    #[error("device: {0}")]
    Device(DeviceFault),
    /// An allocation failed. Nothing was written.
    #[error("out of memory")]
    Memory,
}

impl From<FindFault> for UpgradeFault {
    ghost from_gives = { λ f e. e ≡ upgrade_of_finding f };

    fn from(e: FindFault) -> UpgradeFault {
        match e {
            FindFault::NotAStore => UpgradeFault::NotAStore,
            FindFault::Damaged(place) => UpgradeFault::Damaged(place),
            FindFault::Device(fault) => UpgradeFault::Device(fault),
            FindFault::Memory => UpgradeFault::Memory,
        }
    }
}

impl From<BankFault> for UpgradeFault {
    ghost from_gives = { λ f e. e ≡ upgrade_of_bank f };

    fn from(e: BankFault) -> UpgradeFault {
        match e {
            BankFault::Damaged(place) => UpgradeFault::Damaged(place),
            BankFault::Device(fault) => UpgradeFault::Device(fault),
            BankFault::Memory => UpgradeFault::Memory,
        }
    }
}

/// Why a commit or a checkpoint of an open store failed.
#[derive(Clone, Copy, Debug, PartialEq, Eq, Error)]
pub enum WriteFault {
    /// The device failed an earlier call. No call was made.
    #[error("the store has stopped")]
    Stopped,
    /// The device failed a call. The group is in the store whole or not at all; the selector names
    /// the old bank or the other one.
    #[error("device: {0}")]
    Device(DeviceFault),
}

/// A call of the device failed, and the store has stopped.
#[derive(Clone, Copy, Debug, PartialEq, Eq, Error)]
#[error("the device has failed")]
pub struct DeviceFailed;
