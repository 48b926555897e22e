//! Reading the image of a table in stretches.
ghost use Rattle.std.specs.Prelude.{◌≡◌, ◌<◌, ◌≤◌, ◌++◌, [], length, take, true, ⊤, IfOk, OnOk, MatchOption, None};
ghost use Rattle.oa_table.specs.promise.Tables.{TableValue};
ghost use Rattle.oa_image.specs.Reader.{BeginsTable, BeginsWith, ConsumesNext, IsBetweenParts, IsOpenTable, TakesEnd, TakesPart, is_behind};
ghost use Rattle.oa_image.specs.Reader.{object_head, table_head, table_taken, with_at_hand};
ghost use Rattle.oa_image.specs.promise.Tables as tables;
ghost use Rattle.oa_image.specs.promise.Tables.{table as a_table, table_image};

use crate::name::PlaceFormat;
use oa_formats::{ReadFault, ReadImage, VariantFormat, read_guid, read_u32};
use oa_ndr::Ndr;
use oa_ordered::OrderedMap;
use oa_table::{Place, Table};
use oa_variant::Variant;
use std::alloc::{AllocError, Global};
use std::cmp::Ordering;
use std::marker::Model;
use uuid::Uuid;

/// The bytes before the objects: the next number as u32, the number of objects as u32.
struct TableHead;

impl ReadImage for TableHead {
    type Value = (u32, u32);

    ghost format = { table_head };

    #[tactic(auto, unfolding(oa_ndr::specs::Reading::steps, oa_formats::specs::promise::Formats::next_by, crate::specs::Reader::table_head))]
    fn read(_alloc: Global, r: &mut Ndr<'_>) -> Result<(u32, u32), ReadFault> {
        let next = read_u32(r)?;
        let count = read_u32(r)?;
        Ok((next, count))
    }
}

/// The bytes before the cells of an object: its number as u32, its coclass in wire order, the
/// number of its cells as u32.
struct ObjectHead;

impl ReadImage for ObjectHead {
    type Value = (u32, (Uuid, u32));

    ghost format = { object_head };

    #[tactic(auto, unfolding(oa_ndr::specs::Reading::steps, oa_formats::specs::promise::Formats::next_by, crate::specs::Reader::object_head))]
    fn read(_alloc: Global, r: &mut Ndr<'_>) -> Result<(u32, (Uuid, u32)), ReadFault> {
        let number = read_u32(r)?;
        let class = read_guid(r)?;
        let count = read_u32(r)?;
        Ok((number, (class, count)))
    }
}

/// The format of cells: a place and its value.
struct CellFormat;

impl ReadImage for CellFormat {
    type Value = (Place, Variant);

    ghost format = { tables.cell };

    #[tactic(auto, unfolding(oa_ndr::specs::Reading::steps, oa_formats::specs::promise::Formats::next_by, crate::specs::promise::Tables::cell))]
    fn read(alloc: Global, r: &mut Ndr<'_>) -> Result<(Place, Variant), ReadFault> {
        let place = PlaceFormat::read(alloc, r)?;
        let value = VariantFormat::read(alloc, r)?;
        Ok((place, value))
    }
}

/// Reads the part at the front of `bytes`. Returns it and its length in bytes; None if they begin
/// with the image of none. Err: an allocation failed.
fn read_front<F: ReadImage>(
    alloc: Global,
    bytes: &[u8],
) -> Result<Option<(F::Value, usize)>, AllocError>
    ensures { IfOk result (λ found. BeginsWith F.format (λ part. ⊤) bytes.now found) }
{
    let mut r = Ndr::new(bytes);
    match F::read(alloc, &mut r) {
        Ok(part) => Ok(Some((part, bytes.len() - r.rest().len()))),
        Err(ReadFault::Broken) => Ok(None),
        Err(ReadFault::Memory) => Err(AllocError),
    }
}

/// An object with cells that are still to be read, and their number.
#[derive(Drop)]
struct OpenObject {
    number: u32,
    class: Uuid,
    cells: Vec<(Place, Variant)>,
    left: u32,
}

/// A table that is being read. It has the objects that were read whole, and the number of the last
/// one (0 if there is none). It also has the object that is being read, and the number of objects
/// after it.
#[derive(Drop)]
struct OpenTable {
    table: Table,
    last: u32,
    object: Option<OpenObject>,
    left: u32,
}

/// The greatest number of cells for which memory is allocated at once. A greater count is not
/// trusted before the cells are read.
const FEW: u32 = 8;

/// Returns the number of cells for which memory is allocated at once, if an object has `count`.
fn room_for(count: u32) -> usize {
    if count <= FEW { count as usize } else { 0 }
}

/// Returns whether a cell's place is before another one's.
fn is_before(a: &(Place, Variant), b: &(Place, Variant)) -> bool
    ensures { result ≡ tables.place_before a.now b.now }
{
    a.0.cmp(&b.0) == Ordering::Less
}

/// Returns whether a cell comes after the cells that were read.
fn stands_behind(cells: &[(Place, Variant)], next: &(Place, Variant)) -> bool
    ensures { result ≡ is_behind tables.place_before cells.now next.now }
{
    match cells.last() {
        Some(last) => is_before(last, next),
        None => true,
    }
}

/// Reads the cell at the front of `bytes`. Returns it and its length in bytes; None if there is
/// none that may come after those that were read. Err: an allocation failed.
fn next_cell(
    alloc: Global,
    cells: &[(Place, Variant)],
    bytes: &[u8],
) -> Result<Option<((Place, Variant), usize)>, AllocError>
    ensures { IfOk result (λ found. BeginsWith tables.cell (λ next. is_behind tables.place_before cells.now next ≡ true) bytes.now found) }
{
    let Some((cell, len)) = read_front::<CellFormat>(alloc, bytes)? else {
        return Ok(None);
    };
    if stands_behind(cells, &cell) {
        return Ok(Some((cell, len)));
    }
    Ok(None)
}

/// Reads the head of an object at the front of `bytes`. Returns it and its length in bytes; None if
/// its number is not between `last` and `next`. Err: an allocation failed.
fn next_object(
    alloc: Global,
    last: u32,
    next: u32,
    bytes: &[u8],
) -> Result<Option<((u32, (Uuid, u32)), usize)>, AllocError>
    ensures { IfOk result (λ found. BeginsWith object_head (λ head. (last < head.0) × (head.0 < next)) bytes.now found) }
{
    let Some((head, len)) = read_front::<ObjectHead>(alloc, bytes)? else {
        return Ok(None);
    };
    if last < head.0 && head.0 < next {
        return Ok(Some((head, len)));
    }
    Ok(None)
}

/// Keeps an object while cells of it are left to be read, and then appends it to the table. Err: an
/// allocation failed.
fn keep(alloc: Global, table: &mut OpenTable, object: OpenObject) -> Result<(), AllocError>
    requires none { table.old.object ≡ None }
    requires valid { IsOpenTable (with_at_hand object table.old) }
    ensures taken { OnOk result (table_taken table.new ≡ table_taken (with_at_hand object table.old)) }
    ensures between { IsBetweenParts table.new }
{
    if object.left > 0 {
        table.object = Some(object);
        return Ok(());
    }
    let cells = OrderedMap::from_sorted(alloc, object.cells)?;
    table.table.push(object.number, object.class, cells)?;
    table.last = object.number;
    Ok(())
}

/// Reads the next cell of an object. Returns its length in bytes: 0 if none may come, or it is
/// incomplete. Err: an allocation failed.
fn take_cell(
    alloc: Global,
    table: &mut OpenTable,
    object: OpenObject,
    bytes: &[u8],
) -> Result<usize, AllocError>
    requires none { table.old.object ≡ None }
    requires between { IsBetweenParts (with_at_hand object table.old) }
    ensures takes { IfOk result (λ n. TakesPart (with_at_hand object table.old) table.new bytes.now n) }
    ensures between { IsBetweenParts table.new }
{
    let mut object = object;
    let Some((cell, len)) = next_cell(alloc, &object.cells, bytes)? else {
        table.object = Some(object);
        return Ok(0);
    };
    object.cells.push(cell)?;
    object.left -= 1;
    keep(alloc, table, object)?;
    Ok(len)
}

/// Reads the head of the next object. Returns its length in bytes: 0 if none may come, or it is
/// incomplete. Err: an allocation failed.
fn take_object(alloc: Global, table: &mut OpenTable, bytes: &[u8]) -> Result<usize, AllocError>
    requires none { table.old.object ≡ None }
    requires between { IsBetweenParts table.old }
    ensures takes { IfOk result (λ n. TakesPart table.old table.new bytes.now n) }
    ensures between { IsBetweenParts table.new }
{
    if table.left == 0 {
        return Ok(0);
    }
    let Some((head, len)) = next_object(alloc, table.last, table.table.next(), bytes)? else {
        return Ok(0);
    };
    let (number, (class, left)) = head;
    let cells = Vec::with_capacity(alloc, room_for(left))?;
    table.left -= 1;
    let object = OpenObject {
        number,
        class,
        cells,
        left,
    };
    keep(alloc, table, object)?;
    Ok(len)
}

/// Reads the next part of a table. Returns its length in bytes: 0 if none may come, or it is
/// incomplete. Err: an allocation failed.
fn take_part(alloc: Global, table: &mut OpenTable, bytes: &[u8]) -> Result<usize, AllocError>
    requires between { IsBetweenParts table.old }
    ensures takes { IfOk result (λ n. TakesPart table.old table.new bytes.now n) }
    ensures between { IsBetweenParts table.new }
{
    match table.object.take() {
        Some(object) => take_cell(alloc, table, object, bytes),
        None => take_object(alloc, table, bytes),
    }
}

/// Reads the next parts of a table. Returns their length in bytes. Err: an allocation failed.
fn take_parts(alloc: Global, table: &mut OpenTable, bytes: &[u8]) -> Result<usize, AllocError>
    requires between { IsBetweenParts table.old }
    ensures takes { IfOk result (λ n. ConsumesNext (table_taken table.old) (table_taken table.new) bytes.now n) }
    ensures whole { IfOk result (λ n. TakesEnd (table_taken table.old) bytes.now n) }
    ensures between { IsBetweenParts table.new }
{
    let mut taken = 0;
    'parts: while taken < bytes.len() {
        let len = take_part(alloc, table, &bytes[taken..])?;
        if len == 0 {
            return Ok(taken);
        }
        taken += len;
    }
    Ok(taken)
}

/// Reads the head of a table at the front of `bytes`. Returns the table without objects, and the
/// head's length in bytes; None if no table has this head, or it is incomplete. Err: an allocation
/// failed.
fn begin(alloc: Global, bytes: &[u8]) -> Result<Option<(OpenTable, usize)>, AllocError>
    ensures { IfOk result (λ begun. BeginsTable bytes.now begun) }
{
    let Some(((next, left), len)) = read_front::<TableHead>(alloc, bytes)? else {
        return Ok(None);
    };
    if next == 0 {
        return Ok(None);
    }
    let table = OpenTable {
        table: Table::with_next(alloc, next),
        last: 0,
        object: None,
        left,
    };
    Ok(Some((table, len)))
}

/// A reader of a table's image in stretches. Contracts see it as the bytes that were consumed.
#[derive(Drop)]
pub struct TableReader {
    alloc: Global,
    table: Option<OpenTable>,
}

impl Model for TableReader {
    ghost use Rattle.std.specs.Prelude.{List, ℕ};
    ghost use Rattle.oa_image.specs.Reader.{IsReader, bytes_taken};

    ghost Value = { List ℕ };

    ghost view = { λ r. bytes_taken r.table };

    ghost invariant = { λ r. IsReader r.table };
}

impl TableReader {
    /// Makes a reader that has consumed nothing. Allocates nothing.
    pub fn new(alloc: Global) -> TableReader
        ensures { result ≡ [] }
    {
        TableReader { alloc, table: None }
    }

    /// Consumes bytes that follow those consumed before, and returns how many. It consumes whole
    /// parts: the head of the table or of an object, or a cell. It ends at the first part that is
    /// incomplete or that no image has there. Pass the others again, with the bytes that follow; at
    /// the end of an image none is left. Err: an allocation failed, and the reader is of no more
    /// use.
    pub fn take(&mut self, bytes: &[u8]) -> Result<usize, AllocError>
        ensures taken { IfOk result (λ n. (n ≤ length bytes.now) × (self.new ≡ self.old ++ take n bytes.now)) }
        ensures whole { IfOk result (λ n. (t : TableValue) → a_table.Is t → self.old ++ bytes.now ≡ table_image t → n ≡ length bytes.now) }
    {
        if let Some(table) = &mut self.table {
            return take_parts(self.alloc, table, bytes);
        }
        let Some((mut table, head)) = begin(self.alloc, bytes)? else {
            return Ok(0);
        };
        let parts = take_parts(self.alloc, &mut table, &bytes[head..])?;
        self.table = Some(table);
        Ok(head + parts)
    }

    /// Returns the table whose image the consumed bytes are, without locks; None if they are the
    /// image of none.
    pub fn finish(self) -> Option<Table>
        ensures { MatchOption result ((t : TableValue) → a_table.Is t → self ≡ table_image t → ⊥)
            (λ t. a_table.Is t × (self ≡ table_image t)) }
    {
        let table = self.table?;
        if table.object.is_some() || table.left > 0 {
            return None;
        }
        Some(table.table)
    }
}
