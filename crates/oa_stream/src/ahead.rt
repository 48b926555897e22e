//! A buffer between a reader and its caller.
ghost use Rattle.std.specs.Prelude.{◌≡◌, ◌≤◌, ◌-◌, ◌++◌, [], false, length, drop, take, IfOk};
ghost use Rattle.oa_stream.specs.BufferedSource.{TakesAhead, Waits, ahead, passed, read_ahead};
ghost use Rattle.oa_stream.specs.promise.Sink.{IsHandedOn};

use crate::stretch::Front;
use crate::{Next, Sink, Source};
use std::alloc::{AllocError, Global};

/// The result of waiting for more bytes.
#[derive(Clone, Copy, Debug, PartialEq, Eq)]
pub enum More {
    /// More bytes.
    Some,
    /// The end of the input.
    End,
    /// Nothing, since the call was interrupted: repeat it.
    Again,
    /// Nothing, since the reader failed.
    Fault,
}

/// A reader with a read-ahead buffer of 8,192 bytes.
///
/// In contracts its input is that of the reader with the buffered bytes in front; it is steady if
/// the reader is.
#[derive(Drop)]
pub struct BufferedSource<R> {
    reader: R,
    front: Front,
}

impl<R: Source + Drop> BufferedSource<R> {
    /// Makes a reader with an empty buffer. Err: the allocation of 8,192 bytes failed.
    pub fn new(alloc: Global, reader: R) -> Result<BufferedSource<R>, AllocError>
        ensures { IfOk result (λ a. (a.reader ≡ reader) × (read_ahead a ≡ [])) }
    {
        let front = Front::new(alloc)?;
        Ok(BufferedSource { reader, front })
    }

    /// Returns the buffered bytes.
    pub fn buffered(&self) -> &[u8]
        ensures { result.now ≡ read_ahead self.now }
    {
        self.front.held()
    }

    /// Consumes the first `count` buffered bytes, of which there are that many, without a call of
    /// the reader.
    pub fn advance(&mut self, count: usize)
        requires { count ≤ length (read_ahead self.old) }
        ensures held { read_ahead self.new ≡ drop count (read_ahead self.old) }
        ensures passed { passed self.new ≡ passed self.old ++ take count (read_ahead self.old) }
        ensures taken { TakesAhead (take count (read_ahead self.old)) (ahead R.input self.old) (ahead R.input self.new) }
    {
        self.front.advance(count);
    }

    /// Returns the last `count` consumed bytes, which are still in the buffer. `count` is at most
    /// the number of bytes consumed since the last call of the reader.
    #[inline(always)]
    pub fn passed(&self, count: usize) -> &[u8]
        requires { count ≤ length (passed self.now) }
        ensures { result.now ≡ drop (length (passed self.now) - count) (passed self.now) }
    {
        self.front.passed(count)
    }

    /// Calls the reader once, after all buffered bytes were consumed, and returns the result. It
    /// consumes nothing.
    ///
    /// The caller has flushed `writer`, so a peer that waits for its output before it sends more
    /// cannot deadlock.
    pub fn more<W: Sink>(&mut self, writer: &W) -> More
        requires none { read_ahead self.old ≡ [] }
        requires unbroken { (ahead R.input self.old).faulted ≡ false }
        requires quiet { IsHandedOn (W.out writer.now) }
        ensures { Waits result (ahead R.input self.old) (ahead R.input self.new) (read_ahead self.new) }
    {
        let _ = writer;
        match self.front.load(&mut self.reader) {
            Next::Bytes(_) => More::Some,
            Next::End => More::End,
            Next::Again => More::Again,
            Next::Fault => More::Fault,
        }
    }
}
