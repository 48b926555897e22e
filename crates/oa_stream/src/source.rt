//! Readers that return some bytes with each call.
ghost use Rattle.std.specs.Prelude.{◌≡◌, ◌<◌, false, length};
ghost use Rattle.oa_stream.specs.Source.{Fills};
ghost use Rattle.oa_stream.specs.promise.Source.{Input, in_memory};

/// The result of one read call.
#[derive(Clone, Copy, Debug, PartialEq, Eq)]
pub enum Next {
    /// This many bytes, at least one, at the start of the buffer.
    Bytes(usize),
    /// The end of the input.
    End,
    /// Nothing, since the call was interrupted: repeat it.
    Again,
    /// Nothing, since the reader failed.
    Fault,
}

/// A reader that returns some bytes with each call.
///
/// Contracts see it as an `Input`: the bytes that are still to come, the number of calls, and
/// whether it failed. It also says whether the reader promises that no call fails or is
/// interrupted.
pub trait Source {
    ghost input: { Self → Input };

    /// Makes one read call into the start of `buffer`, which has at least one byte. A reader that
    /// failed is never called again.
    fn fill(&mut self, buffer: &mut [u8]) -> Next
        requires room { 0 < length buffer.old }
        requires unbroken { (input self.old).faulted ≡ false }
        ensures { Fills result (input self.old) (input self.new) buffer.new };
}

/// Bytes in memory: reading never fails and is never interrupted, and calls are not counted.
impl Source for &[u8] {
    ghost input = { λ s. in_memory s.now };

    fn fill(&mut self, buffer: &mut [u8]) -> Next {
        if self.is_empty() {
            return Next::End;
        }
        let count = self.len().min(buffer.len());
        let (front, rest) = self.split_at(count);
        buffer[..count].copy_from_slice(front);
        *self = rest;
        Next::Bytes(count)
    }
}
