//! Reading lines.
ghost use Rattle.std.specs.Prelude.{◌≡◌, ◌≤◌, ◌+◌, ◌++◌, false, length, vec_capacity};
ghost use Rattle.oa_model.specs.promise.Limits.{max_line_characters};
ghost use Rattle.oa_stream.specs.BufferedSource.{ahead, read_ahead};
ghost use Rattle.oa_stream.specs.promise.Sink.{IsHandedOn};
ghost use Rattle.oa_frame.specs.promise.Known.{Known};
ghost use Rattle.oa_frame.specs.Lines.{FindsLine, FindsAtEnd, TakesPieces, is_lost};
ghost use Rattle.oa_frame.specs.promise.Lines.{without_return};
ghost use Rattle.oa_frame.specs.Paces.{Paced};
ghost use Rattle.oa_frame.specs.declared.lines.Found.TheVariants as Found;

use memchr::memchr;
use oa_stream::{BufferedSource, More, Sink, Source};

/// The greatest number of characters of a line, without its end.
pub(crate) const LINE_LIMIT: usize = oa_model::MAX_LINE_CHARACTERS as usize;

/// The greatest number of read calls for one body.
pub(crate) const MAX_READ_CALLS: u32 = oa_model::MAX_READ_CALLS;

/// The next part of a line, at the reader's place.
#[derive(Clone, Copy)]
pub(crate) enum Found {
    /// A line, with its line feed or at the end of the input.
    Line,
    /// The end of the input.
    End,
    /// A line above the limit.
    TooLong,
    /// No whole line: the reader failed, or was called too often.
    Fault,
}

/// The part of a line that was consumed.
#[derive(Clone, Copy)]
pub(crate) enum Piece {
    /// All up to its line feed.
    Whole,
    /// More than the limit allows.
    TooLong,
    /// All that was read ahead.
    Part,
}

/// Reads one line into `line`, which has capacity for the longest one, without its line feed and a
/// carriage return before that. It consumes nothing after the line feed. `TooLong` is a line above
/// `LINE_LIMIT` characters, `Fault` a failed reader or more than `MAX_READ_CALLS` calls of it. The
/// writer has been flushed, so a client that sends the line has received all replies.
pub(crate) fn read_line<R: Source + Drop, W: Sink>(
    reader: &mut BufferedSource<R>,
    writer: &W,
    line: &mut Vec<u8>,
) -> Found
    requires room { max_line_characters + 1 ≤ vec_capacity line.now }
    requires unbroken { (ahead R.input reader.old).faulted ≡ false }
    requires quiet { IsHandedOn (W.out writer.now) }
    ensures capacity { vec_capacity line.old ≤ vec_capacity line.new }
    ensures found { Known (λ bytes rest. FindsLine result bytes line.new.items rest)
        (ahead R.input reader.old).left (ahead R.input reader.new).left }
    ensures paced { Paced (is_lost result) (ahead R.input reader.old) (ahead R.input reader.new) }
{
    line.clear();
    match take_piece(reader, line) {
        Piece::Whole => return whole(line),
        Piece::TooLong => return Found::TooLong,
        Piece::Part => {}
    }
    'calls: for _ in 0..MAX_READ_CALLS {
        match reader.more(writer) {
            More::Some => match take_piece(reader, line) {
                Piece::Whole => return whole(line),
                Piece::TooLong => return Found::TooLong,
                Piece::Part => {}
            },
            More::Again => {}
            More::End => return ended(line),
            More::Fault => return Found::Fault,
        }
    }
    Found::Fault
}

/// Consumes the part of the read-ahead buffer that belongs to the line, and appends it to `line`
/// without the line feed.
fn take_piece<R: Source + Drop>(reader: &mut BufferedSource<R>, line: &mut Vec<u8>) -> Piece
    requires room { max_line_characters + 1 ≤ vec_capacity line.now }
    requires short { length line.old.items ≤ max_line_characters + 1 }
    ensures capacity { vec_capacity line.old ≤ vec_capacity line.new }
    ensures short { length line.new.items ≤ max_line_characters + 1 }
    ensures piece { TakesPieces result (read_ahead reader.old) (ahead R.input reader.old) (ahead R.input reader.new)
        line.old.items line.new.items (read_ahead reader.new) }
{
    let front = reader.buffered();
    match memchr(b'\n', front) {
        Some(place) => {
            if place > LINE_LIMIT + 1 - line.len() {
                reader.advance(place);
                return Piece::TooLong;
            }
            push(line, &front[..place]);
            reader.advance(place + 1);
            Piece::Whole
        }
        None => {
            let len = front.len();
            if len > LINE_LIMIT + 1 - line.len() {
                reader.advance(len);
                return Piece::TooLong;
            }
            push(line, front);
            reader.advance(len);
            Piece::Part
        }
    }
}

/// Appends characters to a line that has capacity for them.
fn push(line: &mut Vec<u8>, bytes: &[u8])
    requires { length line.old.items + length bytes.now ≤ vec_capacity line.old }
    ensures items { line.new.items ≡ line.old.items ++ bytes.now }
    ensures capacity { vec_capacity line.old ≤ vec_capacity line.new }
{
    line.extend_from_slice(bytes).unwrap();
}

/// Ends a line at its line feed, and drops a carriage return before that.
fn whole(line: &mut Vec<u8>) -> Found
    ensures capacity { vec_capacity line.old ≤ vec_capacity line.new }
    ensures line { line.new.items ≡ without_return line.old.items }
    ensures found { result ≡ Found.Line }
{
    let len = line.len();
    if len > 0 && line[len - 1] == b'\r' {
        line.truncate(len - 1);
    }
    Found::Line
}

/// Returns what the end of the input makes of the characters so far: a line, or no line if there
/// are none.
fn ended(line: &[u8]) -> Found
    ensures { FindsAtEnd result line.now }
{
    if line.is_empty() {
        Found::End
    } else {
        Found::Line
    }
}
