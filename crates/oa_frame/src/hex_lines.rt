//! Bodies as lines of hexadecimal digits.
ghost use Rattle.std.specs.Prelude.{◌≡◌, ◌<◌, ◌≤◌, ◌+◌, ◌*◌, ◌%◌, ℕ, true, false, length, slice_index, take, vec_capacity};
ghost use Rattle.std.specs.Prelude.{Ok, IfSome, IsErr, IsNone};
ghost use Rattle.hex.specs.Hex.{decode_of, pair_value};
ghost use Rattle.oa_model.specs.promise.Limits.{max_request_bytes};
ghost use Rattle.oa_stream.specs.BufferedSource.{ahead, passed};
ghost use Rattle.oa_frame.specs.Beginnings.{AreUnbroken, HoldLongest};
ghost use Rattle.oa_frame.specs.Digits.{AreDecoded, HasBadPair, HasDigitValue, HasNoDigit, IsDigitValue};
ghost use Rattle.oa_frame.specs.Lines.{DecodesLine};
ghost use Rattle.oa_frame.specs.promise.Lines.{without_return};
ghost use Rattle.oa_frame.specs.Framings.{GrowsTo, Hands, Inputs, IsBodyAt, ends_in_read_fault};
ghost use Rattle.oa_frame.specs.promise.Framings.{hex_lines};
ghost use Rattle.oa_frame.specs.Paces.{Paced};

use crate::buffer::lengthen;
use crate::lines::{Found, LINE_LIMIT, read_line};
use crate::{End, Read};
use memchr::memchr;
use oa_stream::{BufferedSource, Sink, Source, Unwritten};
use std::simd::prelude::*;

/// The number of bytes that are decoded at a time.
const BLOCK: usize = 16;

/// Reads the body of line number `number`, counted from 1, into `body`. A line that was read ahead
/// whole is decoded in place.
#[inline(always)]
pub(crate) fn read_hex<R: Source + Drop, W: Sink>(
    reader: &mut BufferedSource<R>,
    writer: &mut W,
    line: &mut Vec<u8>,
    body: &mut Vec<u8>,
    number: u64,
) -> Read
    requires buffers { HoldLongest (vec_capacity line.now) (vec_capacity body.now) }
    requires unbroken { AreUnbroken (ahead R.input reader.old) (W.out writer.old) }
    ensures capacity { vec_capacity line.old ≤ vec_capacity line.new }
    ensures buffer { vec_capacity body.old ≤ vec_capacity body.new }
    ensures within { IsBodyAt result body.new.items (passed reader.new) }
    ensures longest { GrowsTo result (length body.old.items) (length body.new.items) }
    ensures input { Inputs hex_lines result number body.new.items (passed reader.new) (ahead R.input reader.old).left (ahead R.input reader.new).left }
    ensures paced { Paced (ends_in_read_fault result) (ahead R.input reader.old) (ahead R.input reader.new) }
    ensures output { Hands result (W.out writer.old) (W.out writer.new) (ahead R.input reader.old).calls (ahead R.input reader.new).calls }
{
    if let Some(place) = memchr(b'\n', reader.buffered()) {
        let raw = &reader.buffered()[..place];
        let read = judge(trimmed(raw), body, number);
        reader.advance(place + 1);
        return read;
    }
    read_on(reader, writer, line, body, number)
}

/// Reads the body of a line whose end was not read ahead. First the writer is flushed, so that a
/// client that sends the line has received all replies.
#[inline(never)]
fn read_on<R: Source + Drop, W: Sink>(
    reader: &mut BufferedSource<R>,
    writer: &mut W,
    line: &mut Vec<u8>,
    body: &mut Vec<u8>,
    number: u64,
) -> Read
    requires buffers { HoldLongest (vec_capacity line.now) (vec_capacity body.now) }
    requires unbroken { AreUnbroken (ahead R.input reader.old) (W.out writer.old) }
    ensures capacity { vec_capacity line.old ≤ vec_capacity line.new }
    ensures buffer { vec_capacity body.old ≤ vec_capacity body.new }
    ensures within { IsBodyAt result body.new.items (passed reader.new) }
    ensures longest { GrowsTo result (length body.old.items) (length body.new.items) }
    ensures input { Inputs hex_lines result number body.new.items (passed reader.new) (ahead R.input reader.old).left (ahead R.input reader.new).left }
    ensures paced { Paced (ends_in_read_fault result) (ahead R.input reader.old) (ahead R.input reader.new) }
    ensures output { Hands result (W.out writer.old) (W.out writer.new) (ahead R.input reader.old).calls (ahead R.input reader.new).calls }
{
    match writer.deliver() {
        Err(Unwritten) => Read::Unwritten,
        Ok(()) => match read_line(reader, writer, line) {
            Found::Line => judge(line, body, number),
            Found::End => Read::Ends(End::Closed),
            Found::TooLong => Read::Ends(End::TooLong),
            Found::Fault => Read::Ends(End::ReadFault),
        },
    }
}

/// Returns the line without a carriage return at its end.
fn trimmed(raw: &[u8]) -> &[u8]
    ensures { result.now ≡ without_return raw.now }
{
    let len = raw.len();
    if len > 0 && raw[len - 1] == b'\r' {
        return &raw[..len - 1];
    }
    raw
}

/// Decodes a line into `body`. It ends the session if it is empty, too long or not hexadecimal.
#[inline(never)]
fn judge(line: &[u8], body: &mut Vec<u8>, number: u64) -> Read
    requires { max_request_bytes ≤ vec_capacity body.now }
    ensures buffer { vec_capacity body.old ≤ vec_capacity body.new }
    ensures says { DecodesLine result number line.now body.new.items }
    ensures longest { GrowsTo result (length body.old.items) (length body.new.items) }
{
    if line.is_empty() {
        return Read::Ends(End::Closed);
    }
    if line.len() > LINE_LIMIT {
        return Read::Ends(End::TooLong);
    }
    lengthen(body, (line.len() + 1) / 2);
    match decode(line, body) {
        Some(count) => Read::Body(count, false),
        None => Read::Ends(End::BadHex(number)),
    }
}

/// Decodes digits into the front of `buffer`, and returns the number of bytes. None if the line is
/// not hexadecimal, or has an odd number of digits.
fn decode(line: &[u8], buffer: &mut [u8]) -> Option<usize>
    requires { length line.now ≤ 2 * length buffer.old }
    ensures len { length buffer.new ≡ length buffer.old }
    ensures within { IfSome result (λ n. n ≤ length buffer.new) }
    ensures count { IfSome result (λ n. length line.now ≡ 2 * n) }
    ensures some { IfSome result (λ n. decode_of line.now ≡ Ok (take n buffer.new)) }
    ensures none { IsNone result → IsErr (decode_of line.now) }
{
    if line.len() % 2 != 0 {
        return None;
    }
    let count = line.len() / 2;
    if decode_all(line, count, buffer) {
        Some(count)
    } else {
        None
    }
}

/// Decodes `count` pairs of digits, and returns whether all are valid. The loops continue after an
/// invalid one, since many pairs are decoded at a time.
fn decode_all(line: &[u8], count: usize, buffer: &mut [u8]) -> bool
    requires digits { 2 * count ≤ length line.now }
    requires room { count ≤ length buffer.old }
    ensures len { length buffer.new ≡ length buffer.old }
    ensures some { result ≡ true → AreDecoded line.now buffer.new count }
    ensures none { result ≡ false → HasBadPair line.now count }
{
    if count < BLOCK {
        return decode_few(line, count, buffer);
    }
    // The first block may overlap the next one, so that the last block ends with the last pair.
    let mut good = decode_block(line, 0, buffer);
    let mut at = (count - 1) % BLOCK + 1;
    'rest: while at < count {
        let all = decode_block(line, at, buffer);
        good = good & all;
        at += BLOCK;
    }
    good
}

/// Decodes `count` pairs one at a time, and returns whether all are valid. For fewer than 16 pairs.
fn decode_few(line: &[u8], count: usize, buffer: &mut [u8]) -> bool
    requires digits { 2 * count ≤ length line.now }
    requires room { count ≤ length buffer.old }
    ensures len { length buffer.new ≡ length buffer.old }
    ensures some { result ≡ true → AreDecoded line.now buffer.new count }
    ensures none { result ≡ false → HasBadPair line.now count }
{
    let mut good = true;
    'pairs: for i in 0..count {
        let (byte, is_pair) = pair(line[2 * i], line[2 * i + 1]);
        buffer[i] = byte;
        good = good & is_pair;
    }
    good
}

/// Decodes the 16 pairs from pair `at` on, and returns whether all are valid.
#[inline(always)]
fn decode_block(line: &[u8], at: usize, buffer: &mut [u8]) -> bool
    requires digits { 2 * (at + 16) ≤ length line.now }
    requires room { at + 16 ≤ length buffer.old }
    ensures len { length buffer.new ≡ length buffer.old }
    ensures some { result ≡ true → AreDecoded line.now buffer.old at → AreDecoded line.now buffer.new (at + 16) }
    ensures none { result ≡ false → HasBadPair line.now (at + 16) }
{
    let values = values_at(line, 2 * at);
    let bytes = joined(&values);
    'bytes: for k in 0..BLOCK {
        buffer[at + k] = bytes[k];
    }
    are_digits(&values)
}

/// Returns 16 bytes, each made of two adjacent values of digits, the higher first.
fn joined(values: &[u8; 32]) -> [u8; 16]
    ensures { (k : ℕ) → k < 16 → slice_index result k ≡ (slice_index values.now (2 * k) * 16 + slice_index values.now (2 * k + 1)) % 256 }
{
    let all = u8x32::from_array(*values);
    let high: u8x16 = all.swizzle([0, 2, 4, 6, 8, 10, 12, 14, 16, 18, 20, 22, 24, 26, 28, 30]);
    let low: u8x16 = all.swizzle([1, 3, 5, 7, 9, 11, 13, 15, 17, 19, 21, 23, 25, 27, 29, 31]);
    (high * u8x16::splat(16) + low).to_array()
}

/// Returns whether all are values of digits.
fn are_digits(values: &[u8; 32]) -> bool
    ensures some { result ≡ true → (k : ℕ) → k < 32 → IsDigitValue (slice_index values.now k) }
    ensures none { result ≡ false → HasNoDigit values.now 32 }
{
    let none = u8x32::from_array(*values).simd_ge(u8x32::splat(16));
    none.to_bitmask() == 0
}

/// Returns the values of the 32 digits from character `from` on.
fn values_at(line: &[u8], from: usize) -> [u8; 32]
    requires { from + 32 ≤ length line.now }
    ensures { (k : ℕ) → k < 32 → HasDigitValue (slice_index line.now (from + k)) (slice_index result k) }
{
    let mut values = [0u8; 32];
    'digits: for k in 0..32 {
        values[k] = digit(line[from + k]);
    }
    values
}

/// Returns the byte of two digits, and whether they are digits.
fn pair(high: u8, low: u8) -> (u8, bool)
    ensures some { result.1 ≡ true → (i : ℕ) → pair_value high low i ≡ Ok result.0 }
    ensures none { result.1 ≡ false → (i : ℕ) → IsErr (pair_value high low i) }
{
    join(digit(high), digit(low))
}

/// Returns the byte of two digits with these values, and whether they are digits.
fn join(high: u8, low: u8) -> (u8, bool)
    ensures some { result.1 ≡ true → (c d : ℕ) → HasDigitValue c high → HasDigitValue d low → (i : ℕ) → pair_value c d i ≡ Ok result.0 }
    ensures none { result.1 ≡ false → (c d : ℕ) → HasDigitValue c high → HasDigitValue d low → (i : ℕ) → IsErr (pair_value c d i) }
{
    (
        high.wrapping_mul(16).wrapping_add(low),
        high < 16 && low < 16,
    )
}

/// Returns the value of a digit; 16 or more for any other character.
fn digit(c: u8) -> u8
    ensures { HasDigitValue c result }
{
    let number = c.wrapping_sub(b'0');
    let letter = c.wrapping_sub(b'A').min(c.wrapping_sub(b'a'));
    if number < 10 {
        number
    } else {
        letter.saturating_add(10)
    }
}
