//! Writers of the standard library.
ghost use Rattle.std.specs.Prelude.{◌≡◌, ◌⊎◌, ◌<◌, ◌≤◌, [], true, false, IsErr, length};
ghost use Rattle.std.proofs.Common.{le_refl};
ghost use Rattle.oa_stream.specs.StdSink.{Flushes, Took, Tried, most_tries, outlet};
ghost use Rattle.oa_stream.specs.Sink.{Delivers, Puts};

use crate::{Sink, Unwritten};
use std::io::{ErrorKind, Write};

/// The number of interrupted calls of a writer in one put or one delivery that count as a failure.
pub(crate) const MOST_TRIES: usize = 4_194_304;

/// The result of one call of a writer.
#[derive(Clone, Copy)]
pub(crate) enum Taken {
    /// This many bytes were written.
    Bytes(usize),
    /// Nothing, since the call was interrupted: repeat it.
    Again,
    /// Nothing, since the writer failed.
    Fault,
}

/// A writer of the standard library. It promises nothing and keeps nothing back. It remembers
/// whether it needs a flush, whether a call has failed, and how many calls were interrupted since
/// the last put or delivery.
#[derive(Drop)]
pub struct StdSink<W> {
    writer: W,
    flushed: bool,
    broken: bool,
    failed: bool,
    tries: usize,
}

impl<W: Write> StdSink<W> {
    /// Makes a writer to which nothing has been written.
    pub fn new(writer: W) -> StdSink<W>
        ensures output { outlet W.contents result
            ≡ record { reached = W.contents writer; kept = []; flushed = true; back = 0; room = 0; broken = false } }
        ensures failed { result.failed ≡ false }
        ensures tries { result.tries ≡ 0 }
    {
        StdSink {
            writer,
            flushed: true,
            broken: false,
            failed: false,
            tries: 0,
        }
    }

    /// Makes one write call, after which a flush is needed, and returns the result. A call that
    /// writes no bytes is a failure.
    fn take(&mut self, bytes: &[u8]) -> Taken
        requires unbroken { self.old.broken ≡ false }
        requires some { 0 < length bytes.now }
        requires few { self.old.tries < most_tries }
        ensures took { Took result (W.contents self.old.writer) (W.contents self.new.writer) self.new.broken bytes.now }
        ensures tried { Tried result self.old.tries self.new.tries self.new.failed }
        ensures flushed { self.new.flushed ≡ false }
    {
        self.flushed = false;
        match self.writer.write(bytes) {
            Ok(0) => self.fail(),
            Ok(count) => Taken::Bytes(count),
            Err(error) => {
                if error.kind() == ErrorKind::Interrupted {
                    self.tries += 1;
                    Taken::Again
                } else {
                    self.fail()
                }
            }
        }
    }

    /// Notes that a call has failed, and returns `Fault`.
    fn fail(&mut self) -> Taken
        ensures fault { result ≡ Taken.Fault }
        ensures broken { self.new.broken ≡ true }
        ensures failed { self.new.failed ≡ true }
        ensures writer { self.new.writer ≡ self.old.writer }
        ensures flushed { self.new.flushed ≡ self.old.flushed }
        ensures tries { self.new.tries ≡ self.old.tries }
    {
        self.broken = true;
        self.failed = true;
        Taken::Fault
    }

    /// Makes one flush, and returns the result: no bytes, an interruption or a fault.
    fn flush(&mut self) -> Taken
        requires unbroken { self.old.broken ≡ false }
        requires few { self.old.tries < most_tries }
        ensures flushes { Flushes result (W.contents self.old.writer) (W.contents self.new.writer) self.new.flushed self.new.broken }
        ensures tried { Tried result self.old.tries self.new.tries self.new.failed }
    {
        match self.writer.flush() {
            Ok(()) => {
                self.flushed = true;
                Taken::Bytes(0)
            }
            Err(error) => {
                if error.kind() == ErrorKind::Interrupted {
                    self.tries += 1;
                    Taken::Again
                } else {
                    self.fail()
                }
            }
        }
    }
}

// Both loops repeat an interrupted call. Every other call of `put` writes at least one byte, so no
// loop reaches its limit.
impl<W: Write> Sink for StdSink<W> {
    ghost out = { outlet W.contents };

    ghost keeps = { λ _. le_refl 0 };

    fn put(&mut self, bytes: &[u8]) -> Result<(), Unwritten>
        requires unbroken { (outlet W.contents self.old).broken ≡ false }
        ensures puts { Puts result (outlet W.contents self.old) (outlet W.contents self.new) bytes.now }
        // (it fails only if a call has failed, or too many were interrupted)
        ensures cause { IsErr result → (self.new.failed ≡ true) ⊎ (self.new.tries ≡ most_tries) }
        ensures ends { self.new.tries ≤ most_tries }
    {
        self.tries = 0;
        let mut at = 0;
        'calls: for _ in 0..bytes.len() + MOST_TRIES {
            if at >= bytes.len() {
                return Ok(());
            }
            match self.take(&bytes[at..]) {
                Taken::Bytes(count) => at += count,
                Taken::Again => {
                    if self.tries >= MOST_TRIES {
                        self.broken = true;
                        return Err(Unwritten);
                    }
                }
                Taken::Fault => return Err(Unwritten),
            }
        }
        self.broken = true;
        Err(Unwritten)
    }

    fn deliver(&mut self) -> Result<(), Unwritten>
        requires unbroken { (outlet W.contents self.old).broken ≡ false }
        ensures delivers { Delivers result (outlet W.contents self.old) (outlet W.contents self.new) }
        ensures cause { IsErr result → (self.new.failed ≡ true) ⊎ (self.new.tries ≡ most_tries) }
        ensures ends { self.new.tries ≤ most_tries }
    {
        self.tries = 0;
        if self.flushed {
            return Ok(());
        }
        'calls: for _ in 0..MOST_TRIES {
            match self.flush() {
                Taken::Bytes(_) => return Ok(()),
                Taken::Again => {}
                Taken::Fault => return Err(Unwritten),
            }
        }
        self.broken = true;
        Err(Unwritten)
    }
}
