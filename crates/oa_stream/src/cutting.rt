//! A reader in memory that returns its bytes in chunks.
ghost use Rattle.std.specs.Prelude.{◌≡◌, ◌<◌};
ghost use Rattle.oa_stream.specs.Memory.{cutting};

use crate::{Next, Source};

/// Bytes in memory. Each call returns at most the next of the given lengths, and after the last
/// length whatever fits. A length of 0 counts as 1.
#[derive(Drop)]
pub struct ChunkedSource<'a> {
    bytes: &'a [u8],
    lengths: &'a [usize],
}

impl<'a> ChunkedSource<'a> {
    /// Makes a reader of these bytes in chunks of these lengths, in bytes.
    pub fn new(bytes: &'a [u8], lengths: &'a [usize]) -> ChunkedSource<'a>
        ensures { result.bytes.now ≡ bytes.entry.now }
    {
        ChunkedSource { bytes, lengths }
    }

    /// Returns the greatest number of bytes of the next call.
    fn most(&mut self) -> usize
        ensures some { 0 < result }
        ensures bytes { self.new.bytes ≡ self.old.bytes }
    {
        match self.lengths.split_first() {
            None => usize::MAX,
            Some((first, rest)) => {
                let first = *first;
                self.lengths = rest;
                first.max(1)
            }
        }
    }
}

impl<'a> Source for ChunkedSource<'a> {
    ghost input = { cutting };

    fn fill(&mut self, buffer: &mut [u8]) -> Next {
        let most = self.most().min(buffer.len());
        self.bytes.fill(&mut buffer[..most])
    }
}
