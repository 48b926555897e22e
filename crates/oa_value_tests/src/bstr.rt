//! Calls of each public function, and what the contracts do not promise: that allocations succeed.
//!
//! If an allocation fails, the call is repeated once. So the tests also pass if any one call of the
//! allocator fails: `tests/program/test_raw_memory.py` fails each in turn.
use crate::asserts::{assert_none, expect};
use crate::shown::is_shown;
use oa_bstr::{Bstr, BstrError};
use std::alloc::{AllocError, Global};
use std::mem::size_of;
use std::rt::HostRuntime;

/// Makes a string of these bytes, and once more if the allocation fails.
fn text(alloc: Global, bytes: &[u8]) -> Result<Bstr, BstrError> {
    match Bstr::from_bytes(alloc, bytes) {
        Err(BstrError::Memory) => Bstr::from_bytes(alloc, bytes),
        answer => answer,
    }
}

/// Copies a string, and once more if the allocation fails.
fn copy_of(alloc: Global, text: &Bstr) -> Result<Bstr, AllocError> {
    match text.copy(alloc) {
        Err(_) => text.copy(alloc),
        answer => answer,
    }
}

/// Returns whether it is a string of these bytes, and not null.
fn has(text: &Bstr, bytes: &[u8]) -> bool {
    !text.is_null() && text.as_bytes() == bytes && text.byte_len() as usize == bytes.len()
}

/// Returns whether a string has these bytes, and its copy still has them after the string is
/// dropped.
fn is_kept(alloc: Global, bytes: &[u8]) -> bool {
    let Ok(text) = text(alloc, bytes) else {
        return false;
    };
    let copied = copy_of(alloc, &text);
    let is_whole = has(&text, bytes);
    drop(text);
    match copied {
        Ok(copied) => is_whole && has(&copied, bytes),
        Err(_) => false,
    }
}

/// Bytes of strings.
const TEXTS: [&[u8]; 5] = [&[], &[0], &[0, 0, 0], &[72, 0, 105, 0], &[1, 2, 3, 4, 5]];

/// Returns the first bytes that a string or its copy does not have; None if there are none.
fn first_lost(alloc: Global) -> Option<&'static [u8]> {
    for bytes in TEXTS {
        if !is_kept(alloc, bytes) {
            return Some(bytes);
        }
    }
    None
}

/// Returns whether it is null and has no bytes.
fn is_bare(null: &Bstr) -> bool {
    null.is_null() && null.byte_len() == 0 && null.as_bytes().len() == 0
}

/// Returns whether null can be copied, which allocates nothing, and whether neither has bytes.
fn is_copied_without_memory(alloc: Global) -> bool {
    match Bstr::null().copy(alloc) {
        Ok(copy) => is_bare(&copy) && is_bare(&Bstr::null()),
        Err(_) => false,
    }
}

/// Returns whether null differs from a string and sorts before it.
fn is_behind_null(text: &Bstr) -> bool {
    let null = Bstr::null();
    null != *text && null < *text
}

/// Returns whether null sorts before the empty string. (The tests of the program check the order of
/// strings.)
fn is_before_empty(alloc: Global) -> bool {
    match text(alloc, &[]) {
        Ok(empty) => is_behind_null(&empty),
        Err(_) => false,
    }
}

/// Five bytes.
pub const ODD: [u8; 5] = [0x34, 0x12, 0xff, 0xfe, 0x56];

/// Returns whether a string has these bytes, and their little-endian units, the last of which ends
/// with a zero byte.
pub fn is_told(text: &Bstr) -> bool {
    text.byte_len() == 5
        && text.as_bytes() == ODD.as_slice()
        && text.unit(0) == 0x1234
        && text.unit(1) == 0xfeff
        && text.unit(2) == 0x0056
}

/// Returns whether such a string is read back, and printed as its bytes, and null as `null`.
fn are_told(alloc: Global) -> bool {
    match text(alloc, &ODD) {
        Ok(text) => {
            is_told(&text)
                && is_shown(alloc, &text, "[52, 18, 255, 254, 86]")
                && is_shown(alloc, &Bstr::null(), "null")
        }
        Err(_) => false,
    }
}

/// Returns `count` bytes with the value 7.
fn sevens(alloc: Global, count: usize) -> Result<Vec<u8>, AllocError> {
    match Vec::from_elem(alloc, 7, count) {
        Err(_) => Vec::from_elem(alloc, 7, count),
        answer => answer,
    }
}

/// Returns whether a string of 1,048,577 bytes is refused before anything is allocated.
fn is_too_long(alloc: Global) -> bool {
    match sevens(alloc, 1_048_577) {
        Ok(bytes) => Bstr::from_bytes(alloc, &bytes).err() == Some(BstrError::TooLong),
        Err(_) => false,
    }
}

#[test]
fn texts_are_kept_told_and_bounded(rt: HostRuntime) {
    let alloc = rt.alloc();
    assert_none(&rt, first_lost(alloc));
    expect(
        &rt,
        "null",
        is_copied_without_memory(alloc) && is_before_empty(alloc),
    );
    let is_small = size_of::<Bstr>() == 2 * size_of::<usize>();
    expect(
        &rt,
        "prints and sizes",
        are_told(alloc) && is_too_long(alloc) && is_small,
    );
}
