//! The greatest length of a file that the system allows a process to write (RLIMIT_FSIZE,
//! getrlimit(2)).
//!
//! A write beyond that limit would end the program by a signal, SIGXFSZ, before the call could
//! return an error. So the limit is checked before the first write, if Linux shows the process its
//! limits.
use std::{fs, io};

/// The file of a process's limits.
const LIMITS: &str = "/proc/self/limits";

/// The beginning of the line of this limit. After it come the soft limit, the hard limit, and the
/// unit.
const FILE_SIZE: &str = "Max file size";

/// The system's error for a file that is too large, EFBIG.
const TOO_LARGE: i32 = 27;

/// Returns the system's error EFBIG for a length in bytes above the limit of this process. If the
/// limits cannot be read, no length is refused.
pub(crate) fn allow_length(rt: &HostRuntime, length: u64) -> io::Result<()> {
    match length_limit(rt) {
        Some(limit) if limit < length => Err(io::Error::from_raw_os_error(TOO_LARGE)),
        _ => Ok(()),
    }
}

/// Returns the greatest length in bytes of a file that this process may write; None if there is no
/// limit or it cannot be read.
fn length_limit(rt: &HostRuntime) -> Option<u64> {
    let limits = fs::read_to_string(rt, LIMITS).ok()?;
    for line in limits.lines() {
        if let Some(columns) = line.strip_prefix(FILE_SIZE) {
            // (`unlimited` is not a number)
            return columns.split_whitespace().next()?.parse().ok();
        }
    }
    None
}
