//! The canonical text of a library.
ghost use Rattle.std.specs.Prelude.{◌≡◌, ◌⊎◌, ℕ, List, false, IfErr, IfOk, OnOk};
ghost use Rattle.oa_sema.specs.promise.IsLibrary.{IsLibrary};
ghost use Rattle.oa_commands.specs.Statuses.{IsOfCheck, IsOfPlace, IsOfPlacedLibrary, IsOfTree};
ghost use Rattle.oa_commands.specs.Texts.{IsPrinted};
ghost use Rattle.oa_commands.specs.declared.fault.Fault.TheVariants as faults;
ghost use Rattle.oa_stream.specs.promise.Sink.{Breaks, IsHandedOn, Writes};

use crate::fault::Fault;
use crate::library::{library_of, read_text};
use crate::place::TextPlace;
use oa_idl::ParseError;
use oa_stream::Sink;
use oa_typelib::Library;
use std::alloc::Global;

/// Writes the canonical text of the library of the file `path`, or of standard input, and flushes.
/// Nothing is written for a library with an error.
///
/// Errors: those of `read_library_file`, but `At` instead of `Parse(Syntax)` if `shows_place` is set and
/// there is memory for the place; `Write` if the writer fails.
pub fn write_library_text<W: Sink>(
    rt: &HostRuntime,
    path: &str,
    shows_place: bool,
    writer: &mut W,
) -> Result<(), Fault>
    requires unbroken { (W.out writer.old).broken ≡ false }
    ensures written { OnOk result (IsPrinted (Writes (W.out writer.old) (W.out writer.new))) }
    ensures handed_on { OnOk result (IsHandedOn (W.out writer.new)) }
    ensures refused { IfErr result IsOfCheck }
    // (after an error the writer has not changed, or has received a prefix of the text and failed)
    ensures broken { IfErr result (λ fault. (W.out writer.new ≡ W.out writer.old)
        ⊎ ((fault ≡ faults.Write) × IsPrinted (Breaks (W.out writer.old) (W.out writer.new)))) }
{
    let library = library_at(rt, rt.alloc(), path, shows_place)?;
    put_text(library.text(), writer)
}

/// Returns the library of the file `path`. Errors are those of `write_library_text` except `Write`.
fn library_at(
    rt: &HostRuntime,
    alloc: Global,
    path: &str,
    shows_place: bool,
) -> Result<Library, Fault>
    ensures read { IfOk result (λ library. (text : List ℕ) × IsLibrary text library) }
    ensures refused { IfErr result IsOfPlacedLibrary }
{
    let text = read_text(rt, alloc, path)?;
    match library_of(alloc, &text) {
        Err(fault) if shows_place => Err(placed(alloc, path, &text, fault)),
        found => found,
    }
}

/// Writes a text, and flushes. Err: `Write`.
fn put_text<W: Sink>(text: &[u8], writer: &mut W) -> Result<(), Fault>
    requires unbroken { (W.out writer.old).broken ≡ false }
    ensures written { OnOk result (Writes (W.out writer.old) (W.out writer.new) text.now) }
    ensures handed_on { OnOk result (IsHandedOn (W.out writer.new)) }
    ensures broken { IfErr result (λ fault. (fault ≡ faults.Write) × Breaks (W.out writer.old) (W.out writer.new) text.now) }
{
    writer.put(text)?;
    writer.deliver()?;
    Ok(())
}

/// Adds the place in the text to a syntax error, if there is memory for it. Any other fault stays
/// as it is.
fn placed(alloc: Global, path: &str, text: &str, fault: Fault) -> Fault
    requires { IsOfTree fault }
    ensures { IsOfTree result ⊎ IsOfPlace result }
{
    match fault {
        Fault::Parse(error @ ParseError::Syntax(at)) => match TextPlace::of(alloc, path, text, at) {
            Ok(place) => Fault::At(error, place),
            Err(_) => Fault::Parse(error),
        },
        other => other,
    }
}
