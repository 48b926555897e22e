//! A buffer between a caller and a writer.
ghost use Rattle.std.specs.Prelude.{◌≡◌, [], false, IfOk};
ghost use Rattle.oa_stream.specs.BufferedSink.{back_keeps, buffered_output, kept_back};
ghost use Rattle.oa_stream.specs.Sink.{Puts};

use crate::stretch::{Back, SIZE};
use crate::{Sink, Unwritten};
use std::alloc::{AllocError, Global};

/// A writer with a buffer of 8,192 bytes for output.
///
/// In contracts its output is that of the writer, with the buffered bytes kept back, too, and with
/// that much less space.
#[derive(Drop)]
pub struct BufferedSink<W> {
    writer: W,
    back: Back,
}

impl<W: Sink + Drop> BufferedSink<W> {
    /// Makes a writer with an empty buffer. Err: the allocation of 8,192 bytes failed.
    pub fn new(alloc: Global, writer: W) -> Result<BufferedSink<W>, AllocError>
        ensures { IfOk result (λ b. (b.writer ≡ writer) × (kept_back b ≡ [])) }
    {
        let back = Back::new(alloc)?;
        Ok(BufferedSink { writer, back })
    }

    /// Passes the buffered bytes to the writer, and empties the buffer. Err: the writer failed.
    fn pass(&mut self) -> Result<(), Unwritten>
        requires unbroken { (W.out self.old.writer).broken ≡ false }
        ensures empty { IfOk result (λ _. kept_back self.new ≡ []) }
        ensures puts { Puts result (W.out self.old.writer) (W.out self.new.writer) (kept_back self.old) }
    {
        self.writer.put(self.back.bytes())?;
        self.back.clear();
        Ok(())
    }

    /// Writes bytes that do not fit into what is left of the buffer. Err: the writer failed.
    #[inline(never)]
    fn put_past(&mut self, bytes: &[u8]) -> Result<(), Unwritten>
        requires unbroken { (W.out self.old.writer).broken ≡ false }
        ensures { Puts result (buffered_output W.out self.old) (buffered_output W.out self.new) bytes.now }
    {
        self.pass()?;
        if bytes.len() <= SIZE {
            self.back.push(bytes);
            return Ok(());
        }
        self.writer.put(bytes)
    }
}

impl<W: Sink + Drop> Sink for BufferedSink<W> {
    ghost out = { buffered_output W.out };

    ghost keeps = { back_keeps W.out W.keeps };

    #[inline(always)]
    fn put(&mut self, bytes: &[u8]) -> Result<(), Unwritten> {
        if bytes.len() <= self.back.room() {
            self.back.push(bytes);
            return Ok(());
        }
        self.put_past(bytes)
    }

    fn deliver(&mut self) -> Result<(), Unwritten> {
        self.pass()?;
        self.writer.deliver()
    }
}
