//! Texts of libraries, and their libraries.
ghost use Rattle.std.specs.Prelude.{◌≡◌, ◌≤◌, length, string_bytes, IfSome};
ghost use Rattle.std.specs.Prelude.{ℕ, List, IfErr, IfOk};
ghost use Rattle.oa_sema.specs.promise.IsLibrary.{IsLibrary};
ghost use Rattle.std.specs.IoError.{error_kind};
ghost use Rattle.std.specs.declared.io.ErrorKind.TheVariants as kinds;
ghost use Rattle.oa_commands.specs.declared.fault.Fault.TheVariants as faults;
ghost use Rattle.oa_commands.specs.Files.{IsWithinLimit, TellsUnread};
ghost use Rattle.oa_idl.specs.declared.stop.Limit.TheVariants as limits;
ghost use Rattle.oa_idl.specs.declared.stop.ParseError.TheVariants as parsing;
ghost use Rattle.oa_commands.specs.Statuses.{IsOfLibrary, IsOfReading, IsOfLibraryText, IsOfTree};

use crate::fault::Fault;
use crate::reason::reason;
use crate::shown::shown_name;
use oa_idl::{Limit, ParseError, parse};
use oa_model::MAX_LIBRARY_BYTES;
use oa_typelib::{Library, check};
use std::alloc::Global;
use std::fs::File;
use std::io;
use std::io::{ErrorKind, Read};

/// The word for standard input instead of a file.
pub const STANDARD_INPUT: &str = "-";

/// The number of bytes after a text's limit that are read at once.
const PIECE: u64 = 65_536;

/// Reads the text of a library from the file `path`, or from standard input if that is
/// `STANDARD_INPUT`. Errors: `CannotRead`, `NotUtf8`, `Parse` for a text above the limit, `Memory`.
/// A text above the limit is read in pieces, one of them in memory, as long as it is UTF-8: an
/// error of UTF-8 comes before the limit, wherever it is.
pub(crate) fn read_text(rt: &HostRuntime, alloc: Global, path: &str) -> Result<String, Fault>
    ensures { IfErr result IsOfLibraryText }
{
    if path == STANDARD_INPUT {
        return text_of(alloc, &mut rt.reader(), path);
    }
    match File::open(rt, path) {
        Ok(mut file) => text_of(alloc, &mut file, path),
        Err(error) => Err(unread(alloc, &error, path)),
    }
}

/// Reads the library of the file `path`, or of standard input if that is `STANDARD_INPUT`.
///
/// Errors: `CannotRead` if it cannot be opened or read; `NotUtf8` for bytes that are not UTF-8,
/// however many; `Parse` for a text of more than 262,144 bytes or one that violates another limit
/// or the grammar; `Check` with the first violated rule; `Memory`, also as that of `Parse` and of
/// `Check`.
pub fn read_library_file(rt: &HostRuntime, alloc: Global, path: &str) -> Result<Library, Fault>
    ensures read { IfOk result (λ library. (text : List ℕ) × IsLibrary text library) }
    ensures refused { IfErr result IsOfLibrary }
{
    library_of(alloc, &read_text(rt, alloc, path)?)
}

/// Returns the library of a text. Errors: `Parse`, `Check`, each also if an allocation failed.
pub(crate) fn library_of(alloc: Global, text: &str) -> Result<Library, Fault>
    ensures read { IfOk result (λ library. IsLibrary text.now library) }
    ensures refused { IfErr result IsOfTree }
{
    Ok(check(alloc, parse(alloc, text)?)?)
}

/// Returns the fault of a file that cannot be read: `CannotRead`, or `Memory` if an allocation
/// failed.
pub(crate) fn unread(alloc: Global, error: &io::Error, path: &str) -> Fault
    ensures kind { IsOfReading result }
    ensures told { TellsUnread path.now result }
    ensures memory { error_kind error.now ≡ kinds.OutOfMemory → result ≡ faults.Memory }
{
    if error.kind() == ErrorKind::OutOfMemory {
        return Fault::Memory;
    }
    match (shown_name(alloc, path), reason(alloc, error)) {
        (Ok(path), Ok(reason)) => Fault::CannotRead(path, reason),
        _ => Fault::Memory,
    }
}

/// Reads all of a reader as a text. One byte above the limit shows that the text exceeds it. Errors
/// are those of `read_text`.
fn text_of<R: Read>(alloc: Global, reader: &mut R, path: &str) -> Result<String, Fault>
    ensures whole { IfOk result (λ text. IfSome (R.remaining reader.old) (λ bytes. IsWithinLimit bytes × (string_bytes text ≡ bytes))) }
    ensures long { IfErr result (λ fault. (fault ≡ faults.Parse (parsing.Limit limits.Text)) → IfSome (R.remaining reader.old) (λ bytes. IsWithinLimit bytes → ⊥)) }
    ensures refused { IfErr result IsOfLibraryText }
{
    let mut bytes = Vec::new(alloc);
    if let Err(error) = (&mut *reader)
        .take(MAX_LIBRARY_BYTES as u64 + 1)
        .read_to_end(&mut bytes)
    {
        return Err(unread(alloc, &error, path));
    }
    if bytes.len() > MAX_LIBRARY_BYTES {
        return Err(refusal_of_long(alloc, reader, bytes, path));
    }
    let Ok(text) = String::from_utf8(bytes) else {
        return Err(Fault::NotUtf8);
    };
    Ok(text)
}

/// Returns why a text is refused that begins with these bytes, which are more than a text may have:
/// it is not UTF-8, or it exceeds the limit.
fn refusal_of_long<R: Read>(alloc: Global, reader: &mut R, mut bytes: Vec<u8>, path: &str) -> Fault
    ensures { IsOfLibraryText result }
{
    for _ in 0..u64::MAX {
        let Some(whole) = whole_characters(&bytes) else {
            return Fault::NotUtf8;
        };
        // An incomplete character continues in the next piece.
        bytes.drain(..whole);
        match reader.by_ref().take(PIECE).read_to_end(&mut bytes) {
            Ok(0) if bytes.is_empty() => return Fault::Parse(ParseError::Limit(Limit::Text)),
            Ok(0) => return Fault::NotUtf8,
            Ok(_) => (),
            Err(error) => return unread(alloc, &error, path),
        }
    }
    Fault::Parse(ParseError::Limit(Limit::Text))
}

/// Returns how many of the bytes are whole characters. None unless the bytes after these are the
/// beginning of one more, or there are none.
fn whole_characters(bytes: &[u8]) -> Option<usize>
    ensures { IfSome result (λ n. n ≤ length bytes.now) }
{
    match str::from_utf8(bytes) {
        Ok(_) => Some(bytes.len()),
        Err(error) if error.error_len().is_none() => Some(error.valid_up_to()),
        Err(_) => None,
    }
}
