//! A log of the calls that a disk in memory has executed.
ghost use Rattle.std.specs.Prelude.{◌≤◌, length, vec_capacity, IfOk, ◌^◌, ◌<◌};

use crate::{DeviceCall, DeviceFault};
use std::alloc::{AllocError, Global};

/// A bounded log of disk calls: at most `most_calls`, with at most `most_bytes` written by them
/// together. A further call fails, and is only counted.
#[derive(Drop)]
pub struct CallLog {
    /// The calls, in order.
    pub calls: Vec<DeviceCall>,
    /// The bytes of all writes, one after the other.
    pub written: Vec<u8>,
    /// The greatest number of calls.
    pub most_calls: usize,
    /// The greatest number of written bytes.
    pub most_bytes: usize,
    /// The number of calls that have failed, up to the greatest u64.
    pub failures: u64,
    pub ghost room_for_calls: { most_calls ≤ vec_capacity calls },
    pub ghost room_for_bytes: { most_bytes ≤ vec_capacity written },
    pub ghost few_calls: { length calls.items ≤ most_calls },
    pub ghost few_bytes: { length written.items ≤ most_bytes },
    pub ghost counted: { failures < 2 ^ 64 },
}

impl CallLog {
    ghost use Rattle.oa_disk.specs.CallLog.{Enters, IsEmpty};

    /// Makes an empty log of at most `most_calls` calls, which write at most `most_bytes` bytes
    /// together, and reserves its memory. Err: an allocation failed.
    pub(crate) fn new(
        alloc: Global,
        most_calls: usize,
        most_bytes: usize,
    ) -> Result<CallLog, AllocError>
        ensures { IfOk result (IsEmpty most_calls most_bytes) }
    {
        Ok(CallLog {
            calls: Vec::with_capacity(alloc, most_calls)?,
            written: Vec::with_capacity(alloc, most_bytes)?,
            most_calls,
            most_bytes,
            failures: 0,
        })
    }

    /// Logs a call and the bytes that it writes, without allocating. Err: the log is full; the call
    /// is only counted, and the given fault is returned.
    pub(crate) fn enter(
        &mut self,
        call: DeviceCall,
        bytes: &[u8],
        fault: DeviceFault,
    ) -> Result<(), DeviceFault>
        ensures { Enters call bytes.now fault self.old self.new result }
    {
        let room = self.most_bytes - self.written.len();
        if self.calls.len() == self.most_calls || bytes.len() > room {
            self.failures = self.failures.saturating_add(1);
            return Err(fault);
        }
        self.calls.push_reserved(call);
        self.written.extend_from_slice(bytes).unwrap();
        Ok(())
    }
}
