//! A reader that is interrupted.
ghost use Rattle.std.specs.Prelude.{◌≡◌, ◌-◌, ◌<◌, false, length};
ghost use Rattle.oa_stream.specs.Memory.{interrupted};
ghost use Rattle.oa_stream.specs.Source.{Fills};

use crate::{Next, Source};

/// A reader whose first calls are interrupted. It counts all calls.
#[derive(Drop)]
pub struct Interrupted<R> {
    reader: R,
    times: u64,
    calls: u64,
}

impl<R: Source> Interrupted<R> {
    /// Makes a reader whose next `times` calls are interrupted.
    pub fn new(reader: R, times: u64) -> Interrupted<R>
        ensures reader { result.reader ≡ reader }
        ensures times { result.times ≡ times }
        ensures calls { result.calls ≡ 0 }
    {
        Interrupted {
            reader,
            times,
            calls: 0,
        }
    }

    /// Returns the number of calls.
    pub fn calls(&self) -> u64
        ensures { result ≡ self.now.calls }
    {
        self.calls
    }
}

impl<R: Source> Source for Interrupted<R> {
    ghost input = { interrupted R.input };

    // The inner reader is called only after all interruptions.
    fn fill(&mut self, buffer: &mut [u8]) -> Next
        requires room { 0 < length buffer.old }
        requires unbroken { (interrupted R.input self.old).faulted ≡ false }
        ensures fills { Fills result (interrupted R.input self.old) (interrupted R.input self.new) buffer.new }
        ensures interrupts { 0 < self.old.times → (result ≡ Next.Again) × (self.new.reader ≡ self.old.reader) }
        ensures times { self.new.times ≡ self.old.times - 1 }
    {
        self.calls = self.calls.saturating_add(1);
        if self.times > 0 {
            self.times -= 1;
            return Next::Again;
        }
        self.reader.fill(buffer)
    }
}
