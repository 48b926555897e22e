//! The effect of each result of a writer of the standard library, and what the buffers return. The
//! tests of the program check the results of readers, and sessions over readers that cut and are
//! interrupted.
ghost use Rattle.std.specs.Prelude.{false, ◌≡◌};

use crate::asserts::expect;
use crate::stream::Step::{Ends, Fails, Interrupts, Moves};
use oa_frame::laws;
use oa_stream::{
    BufferedSource, ChunkedSource, Interrupted, More, Next, Sink, Source, StdSink, Unwritten,
    VecSink,
};
use std::alloc::Global;
use std::io::{self, ErrorKind, Write};
use std::rt::HostRuntime;

// The effect of one call of a writer of the standard library.
#[derive(Clone, Copy)]
enum Step {
    Moves,
    Ends,
    Interrupts,
    Fails,
}

// A writer with a given result for each call, in order. A flush is a call, too.
#[derive(Drop)]
struct Scripted<'a> {
    steps: &'a [Step],
    calls: usize,
}

impl<'a> Scripted<'a> {
    /// Returns the result of the next call.
    fn next(&mut self) -> io::Result<usize> {
        let step = self.steps.get(self.calls).copied();
        self.calls = self.calls.saturating_add(1);
        match step {
            Some(Step::Moves) => Ok(1),
            Some(Step::Interrupts) => Err(io::Error::from(ErrorKind::Interrupted)),
            Some(Step::Fails) => Err(io::Error::from(ErrorKind::Other)),
            Some(Step::Ends) | None => Ok(0),
        }
    }
}

impl<'a> Write for Scripted<'a> {
    fn write(&mut self, bytes: &[u8]) -> io::Result<usize> {
        let count = self.next()?;
        Ok(count.min(bytes.len()))
    }

    fn flush(&mut self) -> io::Result<()> {
        self.next()?;
        Ok(())
    }
}

// Bytes that are put and delivered twice, the results of the calls of the writer, the expected
// result, and the number of calls.
struct Writing {
    name: &'static str,
    bytes: &'static [u8],
    steps: &'static [Step],
    result: Result<(), Unwritten>,
    calls: usize,
}

// A table of writings, one per line.
macro_rules! writings {
    ($($name:literal: $bytes:expr, [$($step:expr),*] => $result:expr, $calls:literal;)*) => {
        [$(Writing { name: $name, bytes: $bytes, steps: &[$($step),*], result: $result, calls: $calls }),*]
    };
}

/// The tests of writers.
static WRITINGS: [Writing; 9] = writings! {
    "no flush if nothing was written": &[], [] => Ok(()), 0;
    "two writes and a flush": &[1, 2], [Moves, Moves, Moves] => Ok(()), 3;
    "interrupted writes": &[1, 2], [Interrupts, Moves, Interrupts, Moves, Moves] => Ok(()), 5;
    "a failed write": &[1, 2], [Fails, Moves, Moves, Moves] => Err(Unwritten), 1;
    "a failed second write": &[1, 2], [Moves, Fails, Moves, Moves] => Err(Unwritten), 2;
    "a write of nothing": &[1, 2], [Moves, Ends, Moves, Moves] => Err(Unwritten), 2;
    "an interrupted flush": &[1, 2], [Moves, Moves, Interrupts, Moves] => Ok(()), 4;
    "a failed flush": &[1, 2], [Moves, Moves, Fails, Moves] => Err(Unwritten), 3;
    "a flush that is interrupted and fails": &[1, 2], [Moves, Moves, Interrupts, Fails, Moves] => Err(Unwritten), 4;
};

/// Puts bytes and delivers them, and then delivers again with nothing left.
fn put<W: Sink>(writer: &mut W, bytes: &[u8]) -> Result<(), Unwritten>
    requires { (W.out writer.old).broken ≡ false }
{
    writer.put(bytes)?;
    writer.deliver()?;
    writer.deliver()
}

/// Returns the result of a test, and the number of calls of the writer.
fn written(row: &Writing) -> (Result<(), Unwritten>, usize) {
    let mut writer = Scripted {
        steps: row.steps,
        calls: 0,
    };
    let result = put(&mut StdSink::new(&mut writer), row.bytes);
    (result, writer.calls)
}

#[test]
fn an_interrupted_write_is_made_again_and_a_failed_one_is_not(rt: HostRuntime) {
    for row in &WRITINGS {
        expect(&rt, row.name, written(row) == (row.result, row.calls));
    }
}

/// Returns whether a buffer is empty, then contains the bytes of one call, and then those after the
/// first byte.
fn shown(alloc: Global) -> [bool; 4] {
    let Ok(mut reader) = BufferedSource::new(alloc, ChunkedSource::new(b"abcde", &[2])) else {
        return [false; 4];
    };
    let is_empty = reader.buffered().is_empty();
    let is_more = reader.more(&VecSink::new(Vec::new(alloc))) == More::Some;
    let is_two = reader.buffered() == b"ab".as_slice();
    let count = reader.buffered().len().min(1);
    reader.advance(count);
    let is_left = reader.buffered() == b"b".as_slice();
    [is_empty, is_more, is_two, is_left]
}

/// Calls a reader twice that is interrupted once. Returns both results, the number of calls it
/// counts, and the buffer.
fn interrupted_once() -> (Next, Next, u64, [u8; 4]) {
    let mut reader = Interrupted::new(b"ab".as_slice(), 1);
    let mut buffer = [0u8; 4];
    let first = reader.fill(&mut buffer);
    let second = reader.fill(&mut buffer);
    (first, second, reader.calls(), buffer)
}

#[test]
fn a_buffer_shows_what_one_call_gave_and_a_reader_is_interrupted_so_many_times(rt: HostRuntime) {
    expect(&rt, "what it shows", shown(rt.alloc()) == [true; 4]);
    laws::one_line();
    laws::one_end();
    let wanted = (Next::Again, Next::Bytes(2), 2, *b"ab\0\0");
    expect(&rt, "two calls", interrupted_once() == wanted);
}
