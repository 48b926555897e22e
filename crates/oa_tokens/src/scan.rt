//! Classes of bytes, and the length of runs of them.
ghost use Rattle.std.specs.Prelude.{◌≡◌, ◌≤◌, ◌<◌, length, drop, IsTrue, false};
ghost use Rattle.oa_tokens.specs.promise.Bytes.{is_in, run, end_from, is_guid, group, closes, marks};
ghost use Rattle.oa_tokens.specs.Bytes.{EndsInside};

/// A class of bytes.
#[derive(Clone, Copy)]
pub enum Class {
    /// A decimal digit.
    Digit,
    /// A hexadecimal digit, in either case.
    Hexadecimal,
    /// An ASCII letter or `_`, which can begin a name.
    Letter,
    /// An ASCII letter, a digit or `_`, which can be in a name.
    Named,
    /// A space, a tab, CR or LF.
    Blank,
    /// Any byte of a line: all except CR and LF.
    Line,
    /// One of `[ ] ( ) { } , ; : . -`.
    Mark,
}

/// The end of a string or comment.
#[derive(Clone, Copy)]
pub enum Close {
    /// A quote that does not follow a backslash.
    Quote,
    /// The end of a comment, `*/`.
    Comment,
}

/// Returns whether a byte is in a class.
#[tactic(auto, unfolding(crate::specs::promise::Bytes::is_in))]
pub(crate) fn is_in(class: Class, byte: u8) -> bool
    ensures { result ≡ is_in class byte }
{
    match class {
        Class::Digit => byte.is_ascii_digit(),
        Class::Hexadecimal => byte.is_ascii_hexdigit(),
        Class::Letter => byte.is_ascii_alphabetic() || byte == b'_',
        Class::Named => byte.is_ascii_alphanumeric() || byte == b'_',
        Class::Blank => byte == b' ' || byte == b'\t' || byte == b'\n' || byte == b'\r',
        Class::Line => byte != b'\n' && byte != b'\r',
        Class::Mark => matches!(
            byte,
            b'[' | b']' | b'(' | b')' | b'{' | b'}' | b',' | b';' | b':' | b'.' | b'-'
        ),
    }
}

/// Returns whether a byte ends the string or comment; `marked` describes the byte before it, as
/// `marks` does.
fn closes(close: Close, marked: bool, byte: u8) -> bool
    ensures { result ≡ closes close marked byte }
{
    match close {
        Close::Quote => !marked && byte == b'"',
        Close::Comment => marked && byte == b'/',
    }
}

/// Returns whether the byte is an escaping backslash, or a `*` in a comment.
fn marks(close: Close, marked: bool, byte: u8) -> bool
    ensures { result ≡ marks close marked byte }
{
    match close {
        Close::Quote => !marked && byte == b'\\',
        Close::Comment => byte == b'*',
    }
}

/// Returns the number of bytes of a class at the beginning.
#[tactic(auto, using(crate::proofs::Scans::run_goes_on, crate::proofs::Scans::run_stops, crate::proofs::Scans::run_ends))]
pub(crate) fn run(class: Class, bytes: &[u8]) -> usize
    ensures value { result ≡ run (is_in class) bytes.now }
    ensures within { result ≤ length bytes.now }
{
    let mut n = 0;
    while n < bytes.len() && is_in(class, bytes[n]) {
        n += 1;
    }
    n
}

/// Returns the number of bytes up to the end of a string or comment, including those that end it.
/// None if it does not end.
#[tactic(auto, using(crate::proofs::Scans::end_goes_on, crate::proofs::Scans::end_found, crate::proofs::Scans::end_none))]
pub(crate) fn end_of(close: Close, bytes: &[u8]) -> Option<usize>
    ensures value { result ≡ end_from close false bytes.now }
    ensures within { EndsInside result (length bytes.now) }
{
    let mut marked = false;
    let mut n = 0;
    while n < bytes.len() {
        let byte = bytes[n];
        if closes(close, marked, byte) {
            return Some(n + 1);
        }
        marked = marks(close, marked, byte);
        n += 1;
    }
    None
}

/// Returns the bytes after the first `n`, or none.
pub(crate) fn after(bytes: &[u8], n: usize) -> &[u8]
    ensures { result.now ≡ drop n bytes.now }
{
    if n <= bytes.len() {
        &bytes[n..]
    } else {
        &bytes[bytes.len()..]
    }
}

/// Returns whether these bytes begin with exactly `n` hexadecimal digits and a hyphen.
#[tactic(auto, unfolding(crate::specs::promise::Bytes::group))]
fn group(n: usize, bytes: &[u8]) -> bool
    ensures { result ≡ group n bytes.now }
{
    run(Class::Hexadecimal, bytes) == n && n < bytes.len() && bytes[n] == b'-'
}

/// Returns whether these bytes begin with the form 8-4-4-4-12 of a GUID.
#[tactic(auto, unfolding(crate::specs::promise::Bytes::is_guid))]
pub(crate) fn is_guid(bytes: &[u8]) -> bool
    ensures long { IsTrue result → 36 ≤ length bytes.now }
    ensures value { result ≡ is_guid bytes.now }
{
    group(8, bytes)
        && group(4, after(bytes, 9))
        && group(4, after(bytes, 14))
        && group(4, after(bytes, 19))
        && 12 <= run(Class::Hexadecimal, after(bytes, 24))
}
