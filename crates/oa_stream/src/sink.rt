//! Writers that accept bytes as a whole.
ghost use Rattle.std.specs.Prelude.{◌≡◌, ◌≤◌, false, length};
ghost use Rattle.oa_stream.specs.Sink.{Delivers, Puts};
ghost use Rattle.oa_stream.specs.promise.Sink.{Output};

use thiserror::Error;

/// The writer failed before it had accepted all bytes, or before all accepted bytes had left it.
#[derive(Clone, Copy, Debug, PartialEq, Eq, Error)]
#[error("write fault")]
pub struct Unwritten;

/// A writer that accepts bytes as a whole, and may buffer some of them until it is flushed.
///
/// Contracts see it as an `Output`: what has left it, what it keeps back and how much at most, and
/// whether it needs a flush. It also says how many bytes the writer promises to accept, and whether
/// it failed. A writer that failed is never called again.
pub trait Sink {
    ghost out: { Self → Output };

    /// Accepts all bytes; these and earlier ones may be kept back. Err: the writer failed, and at
    /// most a prefix of them has left.
    fn put(&mut self, bytes: &[u8]) -> Result<(), Unwritten>
        requires unbroken { (out self.old).broken ≡ false }
        ensures { Puts result (out self.old) (out self.new) bytes.now };

    /// Sends everything that is kept back, and flushes if a flush is needed. Err: the writer
    /// failed.
    fn deliver(&mut self) -> Result<(), Unwritten>
        requires unbroken { (out self.old).broken ≡ false }
        ensures { Delivers result (out self.old) (out self.new) };

    // at most `back` bytes are kept back
    ghost keeps: { (s : Self) → length (out s).kept ≤ (out s).back };
}
