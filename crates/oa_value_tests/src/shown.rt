//! The printed form of a value.
use std::alloc::Global;
use std::fmt::Debug;

/// Returns the printed form of a value; None if an allocation fails.
fn shown_once<T: Debug>(alloc: Global, value: &T) -> Option<String> {
    format!(in alloc; "{value:?}").ok()
}

/// Returns whether a value is printed as `wanted`. If an allocation fails, the call is repeated
/// once.
pub fn is_shown<T: Debug>(alloc: Global, value: &T, wanted: &str) -> bool {
    let shown = match shown_once(alloc, value) {
        None => shown_once(alloc, value),
        shown => shown,
    };
    match shown {
        Some(shown) => shown.as_str() == wanted,
        None => false,
    }
}
