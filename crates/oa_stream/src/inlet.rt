//! Readers of the standard library.
ghost use Rattle.std.specs.Prelude.{◌≡◌, false};
ghost use Rattle.oa_stream.specs.StdSource.{inlet};

use crate::{Next, Source};
use std::io::{ErrorKind, Read};

/// A reader of the standard library. It promises nothing, counts its calls, and remembers a
/// failure.
#[derive(Drop)]
pub struct StdSource<R> {
    reader: R,
    calls: u64,
    faulted: bool,
}

impl<R: Read> StdSource<R> {
    /// Makes a reader that has not been called.
    pub fn new(reader: R) -> StdSource<R>
        ensures { inlet R.remaining result ≡ record { left = R.remaining reader; calls = 0; faulted = false; steady = false } }
    {
        StdSource {
            reader,
            calls: 0,
            faulted: false,
        }
    }
}

// Only `ErrorKind::Interrupted` distinguishes an interrupted call from a failure. It comes from the
// standard library, and no contract mentions it.
impl<R: Read> Source for StdSource<R> {
    ghost input = { inlet R.remaining };

    fn fill(&mut self, buffer: &mut [u8]) -> Next {
        self.calls = self.calls.saturating_add(1);
        match self.reader.read(buffer) {
            Ok(0) => Next::End,
            Ok(count) => Next::Bytes(count),
            Err(error) => {
                if error.kind() == ErrorKind::Interrupted {
                    Next::Again
                } else {
                    self.faulted = true;
                    Next::Fault
                }
            }
        }
    }
}
