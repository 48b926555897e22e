//! Functions that end a test.
use std::fmt::Debug;
use std::process::Abort;

/// Fails the test if something was found, and prints it.
pub fn assert_none<T: Debug + Drop>(rt: &impl Abort, found: Option<T>) {
    if let Some(found) = found {
        panic!(rt; "found {found:?}");
    }
}

/// Fails the test with this name if the condition is false.
pub fn expect(rt: &impl Abort, name: &str, is_so: bool) {
    assert!(rt; is_so, "{name}");
}
