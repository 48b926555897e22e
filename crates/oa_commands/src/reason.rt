//! Why a call of the system failed: the second line of a fault.
use std::alloc::{AllocError, Global};
use std::io;
use std::io::ErrorKind;

/// Returns the system's text for a failed call, without the number that std appends. Two errors of
/// `FileDisk` have texts of their own: a file that is not a regular one, and one that another
/// process has locked. Err: an allocation failed.
pub(crate) fn reason(alloc: Global, error: &io::Error) -> Result<String, AllocError> {
    if error.raw_os_error().is_none() {
        match error.kind() {
            ErrorKind::Unsupported => return format!(in alloc; "not a regular file"),
            ErrorKind::WouldBlock => return format!(in alloc; "in use by another process"),
            _ => (),
        }
    }
    let told = format!(in alloc; "{error}")?;
    let words = told
        .rsplit_once(" (os error ")
        .map_or(told.as_str(), |parts| parts.0);
    format!(in alloc; "{words}")
}
