//! The objects of a store as lines of text.
ghost use Rattle.std.specs.Prelude.{◌≡◌, ◌⊎◌, ℕ, List, false, IfErr, IfOk, OnOk};
ghost use Rattle.std.specs.List.{flat_map};
ghost use Rattle.std.specs.String.{string_bytes};
ghost use Rattle.oa_commands.specs.Dumps.{BreaksOff, cell_line, cell_place, cell_start, dump, key_digits, next_line, object_line, table_lines};
ghost use Rattle.oa_commands.specs.Dumps.{value_digits};
ghost use Rattle.oa_commands.specs.Statuses.{IsOfDump, IsOfWriting};
ghost use Rattle.oa_commands.specs.Stores.{WasRead};
ghost use Rattle.oa_stream.specs.promise.Sink.{IsHandedOn, Writes};
ghost use Rattle.oa_table.specs.promise.Tables.{TableValue};

use crate::fault::Fault;
use crate::store::open_to_read;
use crate::streams::StandardStreams;
use oa_disk::{Disk, FileDisk};
use oa_frame::put_hex;
use oa_image::{write_key, write_value};
use oa_store::inspect;
use oa_stream::Sink;
use oa_table::{LiveObject, Place, Table};
use oa_variant::{Scalar, Variant};
use std::alloc::{AllocError, Global};
use uuid::Uuid;

/// Writes a line for each object of the store in the file `path` and for each of its cells, and
/// flushes. If `library` is set, it writes the bytes of the store's library instead. The file is
/// closed before the first line. If it cannot be opened or holds no valid store, nothing is
/// written.
///
/// The file is opened for reading only. Errors:
///
/// - `CannotRead` if it cannot be opened or is not a regular file;
/// - `InUse` if another process has locked it;
/// - `NotAStore`; `Damaged` with the place in bytes;
/// - `DeviceRead` and `DeviceWrite` if a read or the sync before it failed;
/// - `Write` if the writer fails; `Memory` at any point.
pub fn write_dump<W: Sink>(
    rt: &HostRuntime,
    streams: &StandardStreams,
    path: &str,
    library: bool,
    writer: &mut W,
) -> Result<(), Fault>
    requires unbroken { (W.out writer.old).broken ≡ false }
    ensures written { OnOk result ((text : List ℕ) × (table : TableValue) × WasRead ⟦<FileDisk as Disk>⟧ text table
        × Writes (W.out writer.old) (W.out writer.new) (dump library text table)) }
    ensures handed_on { OnOk result (IsHandedOn (W.out writer.new)) }
    ensures refused { IfErr result IsOfDump }
    // (after an error the writer has not changed, or has failed, or has received a prefix of the
    // lines before an allocation failed)
    ensures broken { IfErr result (λ fault. (W.out writer.new ≡ W.out writer.old)
        ⊎ ((text : List ℕ) × (table : TableValue) × WasRead ⟦<FileDisk as Disk>⟧ text table
        × BreaksOff (W.out writer.old) (W.out writer.new) (dump library text table) fault)) }
{
    let alloc = rt.alloc();
    let (text, table) = kept(rt, streams, alloc, path)?;
    put_dump(alloc, &text, &table, library, writer)
}

/// Returns the library and the table of the store in the file `path`. Errors are those of
/// `write_dump` except `Write`.
fn kept(
    rt: &HostRuntime,
    streams: &StandardStreams,
    alloc: Global,
    path: &str,
) -> Result<(Vec<u8>, Table), Fault>
    ensures read { IfOk result (λ r. WasRead ⟦<FileDisk as Disk>⟧ r.0.items r.1) }
    ensures refused { IfErr result IsOfDump }
{
    let mut disk = open_to_read(rt, streams, alloc, path)?;
    Ok(inspect(alloc, &mut disk)?)
}

/// Writes the lines of a table, or if `library` is set the library, and flushes. Errors: `Write`,
/// `Memory`.
fn put_dump<W: Sink>(
    alloc: Global,
    text: &[u8],
    table: &Table,
    library: bool,
    writer: &mut W,
) -> Result<(), Fault>
    requires unbroken { (W.out writer.old).broken ≡ false }
    ensures written { OnOk result (Writes (W.out writer.old) (W.out writer.new) (dump library text.now table.now)) }
    ensures handed_on { OnOk result (IsHandedOn (W.out writer.new)) }
    ensures refused { IfErr result IsOfWriting }
    ensures broken { IfErr result (BreaksOff (W.out writer.old) (W.out writer.new) (dump library text.now table.now)) }
{
    put_either(alloc, text, table, library, writer)?;
    writer.deliver()?;
    Ok(())
}

/// Writes the lines of a table, or if `library` is set the library. Errors: `Write`, `Memory`.
fn put_either<W: Sink>(
    alloc: Global,
    text: &[u8],
    table: &Table,
    library: bool,
    writer: &mut W,
) -> Result<(), Fault>
    requires unbroken { (W.out writer.old).broken ≡ false }
    ensures written { OnOk result (Writes (W.out writer.old) (W.out writer.new) (dump library text.now table.now)) }
    ensures refused { IfErr result IsOfWriting }
    ensures broken { IfErr result (BreaksOff (W.out writer.old) (W.out writer.new) (dump library text.now table.now)) }
{
    if library {
        writer.put(text)?;
        return Ok(());
    }
    put_table(alloc, table, writer)
}

/// Writes a table: its next number, and its objects, each with its cells. One image at a time is in
/// memory. Errors: `Write`, `Memory`.
fn put_table<W: Sink>(alloc: Global, table: &Table, writer: &mut W) -> Result<(), Fault>
    requires unbroken { (W.out writer.old).broken ≡ false }
    ensures written { OnOk result (Writes (W.out writer.old) (W.out writer.new) (table_lines table.now)) }
    ensures refused { IfErr result IsOfWriting }
    ensures broken { IfErr result (BreaksOff (W.out writer.old) (W.out writer.new) (table_lines table.now)) }
{
    writer.put(next_line(alloc, table.next())?.as_bytes())?;
    let mut image = Vec::new(alloc);
    'objects: for (number, object) in table.objects() {
        put_object(alloc, *number, object, writer)?;
        put_cells(alloc, object, &mut image, writer)?;
    }
    Ok(())
}

/// Returns the line of the next number. Err: the allocation failed.
#[tactic(auto, unfolding(crate::specs::Dumps::next_line))]
fn next_line(alloc: Global, next: u32) -> Result<String, AllocError>
    ensures { IfOk result (λ line. string_bytes line ≡ next_line next) }
{
    format!(in alloc; "next {next}\n")
}

/// Writes the line of an object: its number and its coclass. Errors: `Write`, `Memory`.
#[tactic(auto, unfolding(crate::specs::Dumps::object_line))]
fn put_object<W: Sink>(
    alloc: Global,
    number: u32,
    object: &LiveObject,
    writer: &mut W,
) -> Result<(), Fault>
    requires unbroken { (W.out writer.old).broken ≡ false }
    ensures written { OnOk result (Writes (W.out writer.old) (W.out writer.new) (object_line number object.now)) }
    ensures refused { IfErr result IsOfWriting }
    ensures broken { IfErr result (BreaksOff (W.out writer.old) (W.out writer.new) (object_line number object.now)) }
{
    let head = format!(in alloc; "object {number} {}\n", object.class())?;
    writer.put(head.as_bytes())?;
    Ok(())
}

/// Writes the lines of an object's cells; `image` is their buffer. Errors: `Write`, `Memory`.
fn put_cells<W: Sink>(
    alloc: Global,
    object: &LiveObject,
    image: &mut Vec<u8>,
    writer: &mut W,
) -> Result<(), Fault>
    requires unbroken { (W.out writer.old).broken ≡ false }
    ensures written { OnOk result (Writes (W.out writer.old) (W.out writer.new) (flat_map cell_line object.now.cells)) }
    ensures refused { IfErr result IsOfWriting }
    ensures broken { IfErr result (BreaksOff (W.out writer.old) (W.out writer.new) (flat_map cell_line object.now.cells)) }
{
    'cells: for (place, value) in object.cells() {
        put_place(alloc, place, image, writer)?;
        put_value(value, image, writer)?;
    }
    Ok(())
}

/// Writes a cell's line up to the end of its key. Errors: `Write`, `Memory`.
fn put_place<W: Sink>(
    alloc: Global,
    place: &Place,
    image: &mut Vec<u8>,
    writer: &mut W,
) -> Result<(), Fault>
    requires unbroken { (W.out writer.old).broken ≡ false }
    ensures written { OnOk result (Writes (W.out writer.old) (W.out writer.new) (cell_place place.now)) }
    ensures refused { IfErr result IsOfWriting }
    ensures broken { IfErr result (BreaksOff (W.out writer.old) (W.out writer.new) (cell_place place.now)) }
{
    let start = cell_start(alloc, place.interface(), place.dispid())?;
    writer.put(start.as_bytes())?;
    put_key(place.key(), image, writer)
}

/// Returns the part of a cell's line before its key. Err: the allocation failed.
#[tactic(auto, unfolding(crate::specs::Dumps::cell_start))]
fn cell_start(alloc: Global, interface: Uuid, dispid: i32) -> Result<String, AllocError>
    ensures { IfOk result (λ start. string_bytes start ≡ cell_start interface dispid) }
{
    format!(in alloc; "cell {interface} {dispid} ")
}

/// Writes a key as digits, `-` without arguments. Errors: `Write`, `Memory`.
#[tactic(auto, unfolding(crate::specs::Dumps::key_digits))]
fn put_key<W: Sink>(key: &[Scalar], image: &mut Vec<u8>, writer: &mut W) -> Result<(), Fault>
    requires unbroken { (W.out writer.old).broken ≡ false }
    ensures written { OnOk result (Writes (W.out writer.old) (W.out writer.new) (key_digits key.now)) }
    ensures refused { IfErr result IsOfWriting }
    ensures broken { IfErr result (BreaksOff (W.out writer.old) (W.out writer.new) (key_digits key.now)) }
{
    if key.is_empty() {
        writer.put(b"-")?;
        return Ok(());
    }
    image.clear();
    write_key(key, image)?;
    put_hex(writer, image)?;
    Ok(())
}

/// Writes the rest of a cell's line: its value as digits. Errors: `Write`, `Memory`.
#[tactic(auto, unfolding(crate::specs::Dumps::value_digits))]
fn put_value<W: Sink>(value: &Variant, image: &mut Vec<u8>, writer: &mut W) -> Result<(), Fault>
    requires unbroken { (W.out writer.old).broken ≡ false }
    ensures written { OnOk result (Writes (W.out writer.old) (W.out writer.new) (value_digits value.now)) }
    ensures refused { IfErr result IsOfWriting }
    ensures broken { IfErr result (BreaksOff (W.out writer.old) (W.out writer.new) (value_digits value.now)) }
{
    image.clear();
    write_value(value, image)?;
    writer.put(b" ")?;
    put_hex(writer, image)?;
    writer.put(b"\n")?;
    Ok(())
}
