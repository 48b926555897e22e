//! The faults that end the program: one line on standard error, for some a second one with the
//! cause, and a status.
ghost use Rattle.std.specs.Prelude.{◌≡◌, ◌≤◌};
ghost use Rattle.oa_commands.specs.Statuses.{of_device, of_format, of_open, of_upgrade, status_of};
ghost use Rattle.oa_commands.specs.declared.fault.Fault.TheVariants as faults;

use crate::place::TextPlace;
use oa_disk::DeviceFault;
use oa_idl::ParseError;
use oa_sema::CheckError;
use oa_store::{FormatFault, OpenFault, UpgradeFault};
use oa_stream::Unwritten;
use std::alloc::{AllocError, AllocFailed};
use thiserror::Error;

/// Why the program exits with a status other than 0.
#[derive(Debug, Drop, Error)]
pub enum Fault {
    /// A word of the command line is not UTF-8.
    #[error("command line is not UTF-8")]
    Words,
    /// Both the library and the requests were to be read from standard input.
    #[error("standard input holds the requests, so LIB cannot be -")]
    TwoInputs,
    /// The file with this name does not exist, or cannot be opened or read, for this reason.
    #[error("cannot read {0}\n{0}: {1}")]
    CannotRead(String, String),
    /// The file with this name cannot be created, lengthened or written in the required length, for
    /// this reason.
    #[error("cannot write {0}\n{0}: {1}")]
    CannotWrite(String, String),
    /// Another process has locked the file with this name.
    #[error("cannot read {0}\n{0}: in use by another process")]
    InUse(String),
    /// The text of a library is not UTF-8.
    #[error("library is not UTF-8")]
    NotUtf8,
    /// The text of a library violates the grammar or a limit.
    #[error("{0}")]
    Parse(ParseError),
    /// The text of a library violates the grammar, at this place of the text.
    #[error("{0}\n{1}")]
    At(ParseError, TextPlace),
    /// A library violates a rule.
    #[error("{0}")]
    Check(CheckError),
    /// A store's file is too short for its banks.
    #[error("disk too small")]
    TooSmall,
    /// A file contains no store.
    #[error("not a store")]
    NotAStore,
    /// A store has format 1, which cannot be served.
    #[error("old format")]
    OldFormat,
    /// A store to be upgraded already has format 2.
    #[error("already format 2")]
    AlreadyNew,
    /// A store has another library.
    #[error("library differs")]
    LibraryDiffers,
    /// The bytes at this place of a store are invalid.
    #[error("damaged at {0}")]
    Damaged(u64),
    /// A write to a store's file failed. The number in the message is STG_E_WRITEFAULT, for a read
    /// STG_E_READFAULT.
    #[error("device fault 0x8003001d")]
    DeviceWrite,
    /// A read of a store's file failed.
    #[error("device fault 0x8003001e")]
    DeviceRead,
    /// The requests end within a record.
    #[error("record cut")]
    Cut,
    /// A record or a line is too long.
    #[error("record too long")]
    TooLong,
    /// The line with this number is not hexadecimal.
    #[error("bad hex on line {0}")]
    BadHex(u64),
    /// The frames of many clients end within one.
    #[error("frame cut")]
    FrameCut,
    /// The head of a frame is invalid.
    #[error("unknown frame")]
    UnknownFrame,
    /// The requests cannot be read.
    #[error("read fault")]
    Read,
    /// Standard output cannot be written.
    #[error("write fault")]
    Write,
    /// An allocation failed.
    #[error("out of memory")]
    Memory,
}

impl Fault {
    /// Returns the exit status: 1 for a file, a device, a reader or a writer; 2 for a command line
    /// or a library; 3 for a store; 4 for a record or a frame; 5 for out of memory. It is never 0.
    #[tactic(auto, using(crate::proofs::Failing::fails))]
    pub fn status(&self) -> u8
        ensures value { result ≡ status_of self.now }
        ensures fails { 1 ≤ result }
    {
        match self {
            Fault::CannotRead(..)
            | Fault::CannotWrite(..)
            | Fault::InUse(_)
            | Fault::DeviceWrite
            | Fault::DeviceRead
            | Fault::Read
            | Fault::Write => 1,
            Fault::Parse(ParseError::Memory) | Fault::Check(CheckError::Memory) | Fault::Memory =>
                5,
            Fault::Words
            | Fault::TwoInputs
            | Fault::NotUtf8
            | Fault::Parse(_)
            | Fault::At(..)
            | Fault::Check(_) => 2,
            Fault::TooSmall
            | Fault::NotAStore
            | Fault::OldFormat
            | Fault::AlreadyNew
            | Fault::LibraryDiffers
            | Fault::Damaged(_) => 3,
            Fault::Cut
            | Fault::TooLong
            | Fault::BadHex(_)
            | Fault::FrameCut
            | Fault::UnknownFrame => 4,
        }
    }
}

impl From<AllocError> for Fault {
    ghost from_gives = { λ _ e. e ≡ faults.Memory };

    fn from(_e: AllocError) -> Fault {
        Fault::Memory
    }
}

impl<T: Drop> From<AllocFailed<T>> for Fault {
    ghost from_gives = { λ _ e. e ≡ faults.Memory };

    fn from(_e: AllocFailed<T>) -> Fault {
        Fault::Memory
    }
}

impl From<ParseError> for Fault {
    ghost from_gives = { λ f e. e ≡ faults.Parse f };

    fn from(e: ParseError) -> Fault {
        Fault::Parse(e)
    }
}

impl From<CheckError> for Fault {
    ghost from_gives = { λ f e. e ≡ faults.Check f };

    fn from(e: CheckError) -> Fault {
        Fault::Check(e)
    }
}

impl From<Unwritten> for Fault {
    ghost from_gives = { λ _ e. e ≡ faults.Write };

    fn from(_e: Unwritten) -> Fault {
        Fault::Write
    }
}

impl From<DeviceFault> for Fault {
    ghost from_gives = { λ f e. e ≡ of_device f };

    fn from(e: DeviceFault) -> Fault {
        match e {
            DeviceFault::Write => Fault::DeviceWrite,
            DeviceFault::Read => Fault::DeviceRead,
        }
    }
}

impl From<FormatFault> for Fault {
    ghost from_gives = { λ f e. e ≡ of_format f };

    fn from(e: FormatFault) -> Fault {
        match e {
            FormatFault::TooSmall => Fault::TooSmall,
            FormatFault::Device(fault) => Fault::from(fault),
            FormatFault::Memory => Fault::Memory,
        }
    }
}

impl From<OpenFault> for Fault {
    ghost from_gives = { λ f e. e ≡ of_open f };

    fn from(e: OpenFault) -> Fault {
        match e {
            OpenFault::NotAStore => Fault::NotAStore,
            OpenFault::OldFormat => Fault::OldFormat,
            OpenFault::LibraryDiffers => Fault::LibraryDiffers,
            OpenFault::Damaged(place) => Fault::Damaged(place),
            OpenFault::Device(fault) => Fault::from(fault),
            OpenFault::Memory => Fault::Memory,
        }
    }
}

impl From<UpgradeFault> for Fault {
    ghost from_gives = { λ f e. e ≡ of_upgrade f };

    fn from(e: UpgradeFault) -> Fault {
        match e {
            UpgradeFault::TooSmall => Fault::TooSmall,
            UpgradeFault::NotAStore => Fault::NotAStore,
            UpgradeFault::AlreadyNew => Fault::AlreadyNew,
            UpgradeFault::Damaged(place) => Fault::Damaged(place),
            UpgradeFault::Device(fault) => Fault::from(fault),
            UpgradeFault::Memory => Fault::Memory,
        }
    }
}
