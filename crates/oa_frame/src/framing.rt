//! How bodies are delimited in a stream of bytes.
ghost use Rattle.std.specs.Prelude.{length, vec_capacity};
ghost use Rattle.oa_stream.specs.BufferedSource.{ahead, passed};
ghost use Rattle.oa_frame.specs.Beginnings.{AreUnbroken, HoldLongest, KeepPlaces};
ghost use Rattle.oa_frame.specs.Framings.{GrowsTo, Hands, Inputs, IsBodyAt, ends_in_read_fault};
ghost use Rattle.oa_frame.specs.promise.Framings.{frames};
ghost use Rattle.oa_frame.specs.Paces.{Paced};

use crate::End;
use crate::hex_lines::read_hex;
use crate::records::read_record;
use oa_stream::{BufferedSource, Sink, Source};

/// How bodies and replies are delimited on a stream (this project's choice).
#[derive(Clone, Copy, Debug, PartialEq, Eq)]
pub enum Framing {
    /// Each is a line of hexadecimal digits.
    HexLines,
    /// Each is a length of 4 bytes, followed by that many bytes.
    Records,
}

/// The next item of the input.
#[derive(Clone, Copy, Debug, PartialEq, Eq)]
pub enum Read {
    /// A body of this many bytes, and whether it is in the read-ahead buffer: then it is the last
    /// part that was consumed of it.
    Body(usize, bool),
    /// What ends the session.
    Ends(End),
    /// Nothing was consumed, since the writer failed before a wait for more input.
    Unwritten,
}

/// Reads body number `number`, counted from 1, and consumes nothing after it. Returns `Body(count,
/// is_ahead)`: the body is the first `count` bytes of `body`, or, if `is_ahead`, the last `count`
/// bytes that were consumed of the read-ahead buffer. Otherwise returns what ends the session, or
/// that the writer failed.
///
/// If all of it was read ahead, neither reader nor writer is called. Otherwise the writer is
/// flushed before the first byte is consumed, and the reader is called at most `MAX_READ_CALLS`
/// times. Allocates nothing: `line` has capacity for the longest line (records do not use it), and
/// `body` for the longest body. `body` is lengthened at most to the length of a body that comes.
#[inline(always)]
pub fn read_body<R: Source + Drop, W: Sink>(
    framing: Framing,
    reader: &mut BufferedSource<R>,
    writer: &mut W,
    line: &mut Vec<u8>,
    body: &mut Vec<u8>,
    number: u64,
) -> Read
    requires buffers { HoldLongest (vec_capacity line.now) (vec_capacity body.now) }
    requires unbroken { AreUnbroken (ahead R.input reader.old) (W.out writer.old) }
    ensures places { KeepPlaces (vec_capacity line.old) (vec_capacity line.new) (vec_capacity body.old) (vec_capacity body.new) }
    ensures within { IsBodyAt result body.new.items (passed reader.new) }
    ensures longest { GrowsTo result (length body.old.items) (length body.new.items) }
    ensures input { Inputs (frames framing) result number body.new.items (passed reader.new) (ahead R.input reader.old).left (ahead R.input reader.new).left }
    ensures paced { Paced (ends_in_read_fault result) (ahead R.input reader.old) (ahead R.input reader.new) }
    ensures output { Hands result (W.out writer.old) (W.out writer.new) (ahead R.input reader.old).calls (ahead R.input reader.new).calls }
{
    match framing {
        Framing::HexLines => read_hex(reader, writer, line, body, number),
        Framing::Records => read_record(reader, writer, body),
    }
}
