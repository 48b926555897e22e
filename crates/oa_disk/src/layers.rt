//! A row of bytes that uses memory only for what was written.
ghost use Rattle.std.specs.Prelude.{◌≡◌, ℕ, ◌+◌, ◌-◌, ◌^◌, ◌<◌, ◌≤◌, List, length, replicate, OnOk, IfOk};
ghost use Rattle.oa_disk.specs.Disk.{HasBytesAt};
ghost use Rattle.oa_disk.specs.History.{IsHistory};
ghost use Rattle.oa_disk.specs.promise.Disk.{layered, contents_after, count_all, overwritten, zeros};
ghost use Rattle.oa_disk.specs.Replay.{AllInside};

use crate::DeviceCall;
use std::alloc::{AllocError, Global};

/// A sparse image: zeros, with writes over them, later ones on top.
#[derive(Drop)]
pub struct SparseImage {
    /// The size of the image in bytes.
    pub size: usize,
    /// The writes.
    pub calls: Vec<DeviceCall>,
    /// The bytes of all writes, one after the other.
    pub written: Vec<u8>,
    pub ghost fits: { size < 2 ^ 64 },
    pub ghost whole: { IsHistory size (layered size calls.items written.items) },
}

impl SparseImage {
    ghost use Rattle.oa_disk.specs.promise.CallLog.{laid};

    /// Makes an image of `size` zeros, without allocating.
    pub(crate) fn new(alloc: Global, size: usize) -> SparseImage
        ensures bytes { laid result ≡ zeros size }
        ensures size { result.size ≡ size }
    {
        SparseImage {
            size,
            calls: Vec::new(alloc),
            written: Vec::new(alloc),
        }
    }

    /// Returns a copy. Err: an allocation failed.
    pub(crate) fn copy(&self, alloc: Global) -> Result<SparseImage, AllocError>
        ensures bytes { IfOk result (λ copy. laid copy ≡ laid self.now) }
        ensures size { IfOk result (λ copy. copy.size ≡ self.now.size) }
    {
        Ok(SparseImage {
            size: self.size,
            calls: self.calls.to_vec(alloc)?,
            written: self.written.to_vec(alloc)?,
        })
    }

    /// Adds a write of these bytes from byte `at` on. Err: an allocation failed, and nothing
    /// changed.
    pub(crate) fn put(&mut self, at: usize, bytes: &[u8]) -> Result<(), AllocError>
        requires { at + length bytes.now ≤ self.old.size }
        ensures bytes { OnOk result (laid self.new ≡ overwritten (laid self.old) at bytes.now) }
        ensures size { self.new.size ≡ self.old.size }
    {
        self.calls.reserve(1)?;
        self.written.extend_from_slice(bytes)?;
        self.calls.push_reserved(DeviceCall::Write(at, bytes.len()));
        Ok(())
    }

    /// Fills the buffer with the bytes of the image from byte `at` on.
    pub(crate) fn give(&self, at: usize, bytes: &mut [u8])
        requires { at + length bytes.old ≤ self.now.size }
        ensures bytes { HasBytesAt (laid self.now) at bytes.new }
        ensures len { length bytes.new ≡ length bytes.old }
    {
        clear(bytes);
        overlay(bytes, at, &self.calls, &self.written);
    }
}

/// Fills the bytes with 0.
fn clear(bytes: &mut [u8])
    ensures { bytes.new ≡ replicate (length bytes.old) 0 }
{
    bytes.fill(0);
}

/// Copies the bytes to the window, from its byte `at` on.
fn put(window: &mut [u8], at: usize, bytes: &[u8])
    requires { at + length bytes.now ≤ length window.old }
    ensures bytes { window.new ≡ overwritten window.old at bytes.now }
    ensures len { length window.new ≡ length window.old }
{
    window[at..at + bytes.len()].copy_from_slice(bytes);
}

/// Applies a write of these bytes at byte `to` of a disk to the window, which shows the disk from
/// byte `at` on.
fn show(window: &mut [u8], at: usize, to: usize, bytes: &[u8])
    requires window { at + length window.old < 2 ^ 64 }
    requires bytes { to + length bytes.now < 2 ^ 64 }
    ensures shown { (disk : List ℕ) → to + length bytes.now ≤ length disk → HasBytesAt disk at window.old
        → HasBytesAt (overwritten disk to bytes.now) at window.new }
    ensures len { length window.new ≡ length window.old }
{
    let low = to.max(at);
    let high = (to + bytes.len()).min(at + window.len());
    if low < high {
        put(window, low - at, &bytes[low - to..high - to]);
    }
}

/// Applies the writes among the calls to the window, which shows the disk from byte `at` on.
/// `written` is what they wrote, one after the other.
pub(crate) fn overlay(window: &mut [u8], at: usize, calls: &[DeviceCall], written: &[u8])
    requires window { at + length window.old < 2 ^ 64 }
    requires inside { AllInside (2 ^ 64 - 1) calls.now }
    requires written { count_all calls.now ≤ length written.now }
    ensures shown { (disk : List ℕ) → AllInside (length disk) calls.now → HasBytesAt disk at window.old
        → HasBytesAt (contents_after disk calls.now written.now) at window.new }
    ensures len { length window.new ≡ length window.old }
{
    let mut from = 0;
    for call in calls {
        if let DeviceCall::Write(to, count) = *call {
            show(window, at, to, &written[from..from + count]);
            from += count;
        }
    }
}
