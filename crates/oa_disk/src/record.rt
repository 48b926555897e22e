//! A log of a file's calls and their results for contracts only. It has no bytes, and its methods
//! do nothing.
ghost use Rattle.std.specs.Prelude.{◌≡◌, ℕ, List, Bool};
ghost use Rattle.std.specs.Borrow.{ftrue};
ghost use Rattle.oa_disk.specs.declared.call.DeviceCall.{DeviceCall as Called};

use crate::DeviceCall;
use std::marker::Model;

/// The log of a file's calls and their results. It exists for contracts only, and has no bytes.
#[derive(Drop)]
pub struct Record {
    /// The contents of the file at first.
    pub ghost first: { List ℕ },
    pub ghost calls: { List Called },
    /// The bytes of all writes, one after the other.
    pub ghost written: { List ℕ },
    /// Whether each read has returned the bytes that this log implies.
    pub ghost honest: { Bool },
}

impl Model for Record {
    ghost also_owns = { λ _. ftrue };
}

impl Record {
    ghost use Rattle.oa_disk.specs.Record.{beginning, lengthened, noted};

    /// Makes the log of a file of `size` bytes with no call. Its ghost argument is the byte at each
    /// place.
    pub(crate) fn beginning(_size: &u64) -> Record
        ghost held: { ℕ → ℕ }
        ensures { result ≡ beginning held _size.now }
    {
        Record {}
    }

    /// Makes the log of a file of `size` bytes that begins with the present contents of this one,
    /// and zeros after them. It is as honest.
    pub(crate) fn lengthened(&self, _size: &u64) -> Record
        ensures { result ≡ lengthened self.now _size.now }
    {
        Record {}
    }

    /// Returns the log with one more call, the bytes that it wrote, and those that it returned from
    /// byte `at` on.
    pub(crate) fn with(
        &self,
        _call: &DeviceCall,
        _written: &[u8],
        _at: &u64,
        _given: &[u8],
    ) -> Record
        ensures { result ≡ noted self.now _call.now _written.now _at.now _given.now }
    {
        Record {}
    }
}
