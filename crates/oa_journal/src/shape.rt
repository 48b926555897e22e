//! The two formats of a bank.
ghost use Rattle.oa_journal.specs.promise.Bank.{body_bytes, disk_bytes};

use oa_model::{GROUP_BYTES, MAX_EVENT_BYTES};

/// The smallest size of a bank's body in format 2, in bytes.
pub const LEAST_BANK_BYTES: u32 = 20_971_520;
/// The greatest size of a bank's body in format 2, in bytes.
pub const MOST_BANK_BYTES: u32 = 1_073_741_824;
/// The default size of a bank's body in a new store, in bytes.
pub const DEFAULT_BANK_BYTES: u32 = LEAST_BANK_BYTES;
/// A checkpoint is due if a body has fewer than this many bytes from its closed gate on. It is
/// enough for the largest group: a gate, a length, and events of fewer bytes than `GROUP_BYTES` and
/// one event more.
pub const AMPLE_BYTES: u32 = MAX_EVENT_BYTES as u32 + GROUP_BYTES as u32 + 5;

/// The size of the body in format 1, in bytes.
pub const FORMAT_ONE_BODY_BYTES: u32 = 16_777_184;

/// The number of bytes of a disk that format 1 uses: those before its banks, and two banks of a
/// head and a body each. The bodies of format 2 come after all of that.
pub const FORMAT_ONE_BYTES: u64 = 8_192 + 2 * (32 + FORMAT_ONE_BODY_BYTES as u64);

/// The format of a bank. In both formats a head of 32 bytes contains the lengths of the body's
/// parts; the body is elsewhere, or directly after the head.
#[derive(Clone, Copy, Debug, PartialEq, Eq)]
pub enum BankFormat {
    /// Format 1: a body of 16,777,184 bytes.
    One,
    /// Format 2: a body of this many bytes.
    Two(u32),
}

impl BankFormat {
    ghost use Rattle.std.specs.Prelude.{◌≡◌};

    /// Returns the size of the body in bytes.
    pub fn body_bytes(self) -> u32
        ensures { result ≡ body_bytes self }
    {
        match self {
            BankFormat::One => FORMAT_ONE_BODY_BYTES,
            BankFormat::Two(size) => size,
        }
    }

    /// Returns the smallest size of a disk with two banks of this format, in bytes.
    pub fn disk_bytes(self) -> u64
        ensures { result ≡ disk_bytes self }
    {
        match self {
            BankFormat::One => FORMAT_ONE_BYTES,
            BankFormat::Two(size) => FORMAT_ONE_BYTES + 2 * u64::from(size),
        }
    }
}
