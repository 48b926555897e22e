//! Bodies as records of a length and that many bytes.
ghost use Rattle.std.specs.Prelude.{◌≡◌, ◌≤◌, ◌<◌, ◌+◌, ℕ, List, Option, false, drop, length, take, vec_capacity, IfSome};
ghost use Rattle.std.specs.Io.KnownBytes.{Consumes};
ghost use Rattle.oa_model.specs.promise.Limits.{max_request_bytes};
ghost use Rattle.oa_stream.specs.BufferedSource.{TakesAhead, ahead, passed, read_ahead};
ghost use Rattle.oa_stream.specs.promise.Sink.{IsHandedOn};
ghost use Rattle.oa_stream.specs.promise.Source.{Input};
ghost use Rattle.oa_frame.specs.Beginnings.{AreUnbroken};
ghost use Rattle.oa_frame.specs.Framings.{GrowsTo, Hands, Inputs, WriterStands, IsBodyAt, ends_in_read_fault};
ghost use Rattle.oa_frame.specs.promise.Framings.{SaysLength, records};
ghost use Rattle.oa_frame.specs.Paces.{Paced};
ghost use Rattle.oa_frame.specs.Records.{Fetches, Gets, MayCall, SpendsCalls, is_gone};

use crate::buffer::lengthen;
use crate::lines::MAX_READ_CALLS;
use crate::{End, Read};
use oa_stream::{BufferedSource, More, Sink, Source};

/// The greatest number of bytes of a body.
const BODY_LIMIT: usize = oa_model::MAX_REQUEST_BYTES as usize;

/// How filling a buffer ended.
#[derive(Clone, Copy)]
pub(crate) enum Got {
    /// It is full.
    All,
    /// The input ended after this many bytes.
    End(usize),
    /// The reader failed, or was called too often.
    Fault,
}

/// Reads the body of one record: the last bytes that were consumed of the read-ahead buffer if it
/// was read ahead whole, otherwise the first bytes of `body`. `Unwritten` if the writer fails
/// before a wait.
#[inline(always)]
pub(crate) fn read_record<R: Source + Drop, W: Sink>(
    reader: &mut BufferedSource<R>,
    writer: &mut W,
    body: &mut Vec<u8>,
) -> Read
    requires buffer { max_request_bytes ≤ vec_capacity body.now }
    requires unbroken { AreUnbroken (ahead R.input reader.old) (W.out writer.old) }
    ensures buffer { vec_capacity body.old ≤ vec_capacity body.new }
    ensures within { IsBodyAt result body.new.items (passed reader.new) }
    ensures longest { GrowsTo result (length body.old.items) (length body.new.items) }
    ensures input { (number : ℕ)
        → Inputs records result number body.new.items (passed reader.new) (ahead R.input reader.old).left (ahead R.input reader.new).left }
    ensures paced { Paced (ends_in_read_fault result) (ahead R.input reader.old) (ahead R.input reader.new) }
    ensures output { Hands result (W.out writer.old) (W.out writer.new) (ahead R.input reader.old).calls (ahead R.input reader.new).calls }
{
    if let Some(n) = whole_record(reader.buffered()) {
        reader.advance(4 + n);
        return Read::Body(n, true);
    }
    match writer.deliver() {
        Err(_) => Read::Unwritten,
        Ok(()) => read_waiting(reader, writer, body),
    }
}

/// Returns the length in bytes of the first record's body. None if the record is not whole in
/// `front`, or its length ends the session.
fn whole_record(front: &[u8]) -> Option<usize>
    ensures within { IfSome result (λ n. (0 < n) × (n ≤ max_request_bytes) × (4 + n ≤ length front.now)) }
    ensures says { IfSome result (λ n. SaysLength (take 4 front.now) n) }
{
    let (head, rest) = front.split_first_chunk::<4>()?;
    let n = u32::from_le_bytes(*head) as usize;
    if 0 < n && n <= BODY_LIMIT && n <= rest.len() {
        Some(n)
    } else {
        None
    }
}

/// Reads one record. The writer has been flushed, so a client that sends the record has received
/// all replies.
#[inline(never)]
fn read_waiting<R: Source + Drop, W: Sink>(
    reader: &mut BufferedSource<R>,
    writer: &W,
    body: &mut Vec<u8>,
) -> Read
    requires buffer { max_request_bytes ≤ vec_capacity body.now }
    requires unbroken { (ahead R.input reader.old).faulted ≡ false }
    requires quiet { IsHandedOn (W.out writer.now) }
    ensures buffer { vec_capacity body.old ≤ vec_capacity body.new }
    ensures within { IsBodyAt result body.new.items (passed reader.new) }
    ensures longest { GrowsTo result (length body.old.items) (length body.new.items) }
    ensures input { (number : ℕ)
        → Inputs records result number body.new.items (passed reader.new) (ahead R.input reader.old).left (ahead R.input reader.new).left }
    ensures paced { Paced (ends_in_read_fault result) (ahead R.input reader.old) (ahead R.input reader.new) }
    ensures read { WriterStands result }
{
    let mut head = [0u8; 4];
    let mut calls = 0u32;
    match fill_up(reader, writer, &mut head, &mut calls) {
        Got::All => {
            let n = u32::from_le_bytes(head) as usize;
            read_content(reader, writer, body, n, calls)
        }
        Got::End(0) => Read::Ends(End::Closed),
        Got::End(_) => Read::Ends(End::Cut),
        Got::Fault => Read::Ends(End::ReadFault),
    }
}

/// Reads a body of `n` bytes after its length was read. `calls` read calls were made for the
/// record.
fn read_content<R: Source + Drop, W: Sink>(
    reader: &mut BufferedSource<R>,
    writer: &W,
    body: &mut Vec<u8>,
    n: usize,
    calls: u32,
) -> Read
    requires buffer { max_request_bytes ≤ vec_capacity body.now }
    requires called { MayCall calls (ahead R.input reader.old) (W.out writer.now) }
    ensures buffer { vec_capacity body.old ≤ vec_capacity body.new }
    ensures within { IsBodyAt result body.new.items (passed reader.new) }
    ensures longest { GrowsTo result (length body.old.items) (length body.new.items) }
    ensures input { (number : ℕ) (bytes : Option (List ℕ)) (head : List ℕ) → SaysLength head n
        → Consumes bytes (ahead R.input reader.old).left head
        → Inputs records result number body.new.items (passed reader.new) bytes (ahead R.input reader.new).left }
    ensures paced { (start : Input) → SpendsCalls false 4 0 calls start (ahead R.input reader.old)
        → Paced (ends_in_read_fault result) start (ahead R.input reader.new) }
    ensures read { WriterStands result }
{
    if n == 0 {
        return Read::Ends(End::Closed);
    }
    if n > BODY_LIMIT {
        return Read::Ends(End::TooLong);
    }
    lengthen(body, n);
    read_bytes(reader, writer, body, n, calls)
}

/// Reads a body of `n` bytes, at least one, into a buffer that is long enough.
fn read_bytes<R: Source + Drop, W: Sink>(
    reader: &mut BufferedSource<R>,
    writer: &W,
    body: &mut [u8],
    n: usize,
    mut calls: u32,
) -> Read
    requires some { 0 < n }
    requires short { n ≤ max_request_bytes }
    requires room { n ≤ length body.now }
    requires called { MayCall calls (ahead R.input reader.old) (W.out writer.now) }
    ensures len { length body.new ≡ length body.old }
    ensures within { IsBodyAt result body.new (passed reader.new) }
    ensures whole { GrowsTo result 0 n }
    ensures input { (number : ℕ) (bytes : Option (List ℕ)) (head : List ℕ) → SaysLength head n
        → Consumes bytes (ahead R.input reader.old).left head
        → Inputs records result number body.new (passed reader.new) bytes (ahead R.input reader.new).left }
    ensures paced { (start : Input) → SpendsCalls false 4 0 calls start (ahead R.input reader.old)
        → Paced (ends_in_read_fault result) start (ahead R.input reader.new) }
    ensures read { WriterStands result }
{
    match fill_up(reader, writer, &mut body[..n], &mut calls) {
        Got::All => Read::Body(n, false),
        Got::End(_) => Read::Ends(End::Cut),
        Got::Fault => Read::Ends(End::ReadFault),
    }
}

/// Reads until `out` is full. `calls` counts the read calls for the record: above `MAX_READ_CALLS`
/// the result is `Fault`.
fn fill_up<R: Source + Drop, W: Sink>(
    reader: &mut BufferedSource<R>,
    writer: &W,
    out: &mut [u8],
    calls: &mut u32,
) -> Got
    requires { MayCall calls.old (ahead R.input reader.old) (W.out writer.now) }
    ensures len { length out.new ≡ length out.old }
    ensures gets { Gets result (ahead R.input reader.old).left (ahead R.input reader.new).left out.new }
    ensures spends { SpendsCalls (is_gone result) (length out.new) calls.old calls.new (ahead R.input reader.old) (ahead R.input reader.new) }
{
    let mut at = fetch(reader, out, 0);
    'calls: while at < out.len() && *calls < MAX_READ_CALLS {
        *calls += 1;
        match reader.more(writer) {
            More::Some => at = fetch(reader, out, at),
            More::Again => {}
            More::End => return Got::End(at),
            More::Fault => return Got::Fault,
        }
    }
    if at < out.len() { Got::Fault } else { Got::All }
}

/// Fills a buffer from byte `at` on with bytes that were read ahead, and returns the byte after the
/// last one.
fn fetch<R: Source + Drop>(reader: &mut BufferedSource<R>, out: &mut [u8], at: usize) -> usize
    requires { at ≤ length out.old }
    ensures len { length out.new ≡ length out.old }
    ensures fetches { Fetches result at (read_ahead reader.old) (read_ahead reader.new)
        (ahead R.input reader.old) (ahead R.input reader.new) out.old out.new }
{
    let front = reader.buffered();
    let n = front.len().min(out.len() - at);
    out[at..at + n].copy_from_slice(&front[..n]);
    skip(reader, n);
    at + n
}

/// Consumes `count` bytes of the read-ahead buffer.
fn skip<R: Source + Drop>(reader: &mut BufferedSource<R>, count: usize)
    requires { count ≤ length (read_ahead reader.old) }
    ensures held { read_ahead reader.new ≡ drop count (read_ahead reader.old) }
    ensures taken { TakesAhead (take count (read_ahead reader.old)) (ahead R.input reader.old) (ahead R.input reader.new) }
{
    reader.advance(count);
}
