//! A writer in memory.
ghost use Rattle.std.specs.Prelude.{◌≡◌, false};
ghost use Rattle.std.proofs.Common.{le_refl};
ghost use Rattle.oa_stream.specs.promise.Memory.{gathered_output};

use crate::{Sink, Unwritten};

/// A vector that accepts bytes while they fit or allocations succeed. It keeps nothing back, and
/// remembers a failure.
#[derive(Drop)]
pub struct VecSink {
    bytes: Vec<u8>,
    broken: bool,
}

impl VecSink {
    /// Makes a writer that appends to `bytes`.
    pub fn new(bytes: Vec<u8>) -> VecSink
        ensures bytes { result.bytes ≡ bytes }
        ensures unbroken { result.broken ≡ false }
    {
        VecSink {
            bytes,
            broken: false,
        }
    }

    /// Returns all bytes that were written.
    pub fn bytes(&self) -> &[u8]
        ensures { result.now ≡ self.now.bytes.items }
    {
        &self.bytes
    }
}

impl Sink for VecSink {
    ghost out = { gathered_output };

    ghost keeps = { λ _. le_refl 0 };

    fn put(&mut self, bytes: &[u8]) -> Result<(), Unwritten> {
        match self.bytes.extend_from_slice(bytes) {
            Ok(()) => Ok(()),
            Err(_) => {
                self.broken = true;
                Err(Unwritten)
            }
        }
    }

    fn deliver(&mut self) -> Result<(), Unwritten> {
        Ok(())
    }
}
