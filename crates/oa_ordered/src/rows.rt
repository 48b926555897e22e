//! Rows, whose entries together are those of a map.
ghost use Rattle.std.specs.Prelude.{◌≡◌, ◌<◌, ◌≤◌, ◌++◌, ◌∷◌, [], take, drop, suc, length, slice_index_or, false, IsTrue, IfOk, IfErr, OnOk, OnErr};
ghost use Rattle.std.specs.List.{remove};
ghost use Rattle.oa_ordered.specs.Rows.{AreFilled, AreOrdered, IsFound, IsFoundIn, IsGap, IsGapIn, IsOrdered, IsRowFor, concat_rows, entries_after, entries_before, from};

use crate::row::{Row, make_room, place_in, place_to_insert};
use std::alloc::{AllocError, AllocFailed, Global};
use std::cmp::Ordering;

/// The number of entries of a full row. A longer one is split.
pub(crate) const FULL: usize = 64;

/// The number of entries that stay in a full row that is split.
pub(crate) const HALF: usize = FULL / 2;

/// After this many rows, a new one is allocated in full length at once. If keys rise, such rows get
/// full, so at most an eighth is unused. A row that grew by eighths, between the allocations of its
/// values, would leave a hole at each step.
const MANY: usize = 8;

/// A place in rows: the row, and the place in it.
#[derive(Clone, Copy)]
pub(crate) struct Place {
    /// The number of the row, counted from 0.
    pub(crate) row: usize,
    /// The place in the row, counted from 0.
    pub(crate) at: usize,
}

/// Returns the number of the row in which the key is or belongs: the last that begins at or before
/// it, or otherwise the first.
fn row_for<K: Ord, V>(rows: &[Row<K, V>], key: &K) -> usize
    requires { AreOrdered K.cmp rows.now }
    ensures { IsRowFor K.cmp key.now rows.now result }
{
    let mut low = 0;
    let mut high = rows.len();
    'halves: while high - low > 1 {
        let middle = low + (high - low) / 2;
        if rows[middle].begins_after(key) {
            high = middle;
        } else {
            low = middle;
        }
    }
    low
}

/// Returns the number of the row in which the key is or belongs. It looks at the last one first.
fn row_to_insert<K: Ord, V>(rows: &[Row<K, V>], key: &K) -> usize
    requires { AreOrdered K.cmp rows.now }
    ensures { IsRowFor K.cmp key.now rows.now result }
{
    let behind = rows.len();
    if behind > 0 {
        if !rows[behind - 1].begins_after(key) {
            return behind - 1;
        }
    }
    row_for(rows, key)
}

/// The beginning of a search: by bisection, or after the last entry, to which new keys often
/// belong.
#[derive(Clone, Copy)]
pub(crate) enum Search {
    /// By bisection.
    Halves,
    /// After the last entry, and then by bisection.
    Behind,
}

impl Search {
    /// Returns the number of the row in which the key is or belongs.
    fn row<K: Ord, V>(self, rows: &[Row<K, V>], key: &K) -> usize
        requires { AreOrdered K.cmp rows.now }
        ensures { IsRowFor K.cmp key.now rows.now result }
    {
        match self {
            Search::Halves => row_for(rows, key),
            Search::Behind => row_to_insert(rows, key),
        }
    }

    /// Returns the place of the key among entries in order. Err: the key is not there; it contains
    /// the place at which to insert it.
    fn place<K: Ord, V>(self, entries: &[(K, V)], key: &K) -> Result<usize, usize>
        requires { IsOrdered K.cmp entries.now }
        ensures found { IfOk result (λ at. IsFoundIn K.cmp key.now entries.now at) }
        ensures absent { IfErr result (λ at. IsGapIn K.cmp key.now entries.now at) }
    {
        match self {
            Search::Halves => place_in(entries, key),
            Search::Behind => place_to_insert(entries, key),
        }
    }
}

/// Returns the place of the key. Err: the key is not there; it contains the place at which to
/// insert it.
pub(crate) fn place_of<K: Ord, V>(
    rows: &[Row<K, V>],
    key: &K,
    search: Search,
) -> Result<Place, Place>
    requires { AreOrdered K.cmp rows.now }
    ensures found { IfOk result (λ p. IsFound K.cmp key.now rows.now p.row p.at) }
    ensures absent { IfErr result (λ p. IsGap K.cmp key.now rows.now p.row p.at) }
{
    let row = search.row(rows, key);
    if row == rows.len() {
        return Err(Place { row, at: 0 });
    }
    match search.place(rows[row].as_slice(), key) {
        Ok(at) => Ok(Place { row, at }),
        Err(at) => Err(Place { row, at }),
    }
}

/// Returns the place of the key. It looks first at the entry that has `near` entries before it if
/// all rows are full. Err: the key is not there; it contains the place at which to insert it.
pub(crate) fn place_near<K: Ord, V>(
    rows: &[Row<K, V>],
    key: &K,
    near: usize,
) -> Result<Place, Place>
    requires { AreOrdered K.cmp rows.now }
    ensures found { IfOk result (λ p. IsFound K.cmp key.now rows.now p.row p.at) }
    ensures absent { IfErr result (λ p. IsGap K.cmp key.now rows.now p.row p.at) }
{
    let row = near / FULL;
    let at = near % FULL;
    if row < rows.len() {
        let entries = rows[row].as_slice();
        if at < entries.len() {
            if let Ordering::Equal = key.cmp(&entries[at].0) {
                return Ok(Place { row, at });
            }
        }
    }
    place_of(rows, key, Search::Halves)
}

/// Appends a row with one entry. Err: an allocation failed; the entry is returned.
fn begin_row<K: Drop, V: Drop>(
    alloc: Global,
    rows: &mut Vec<Row<K, V>>,
    entry: (K, V),
) -> Result<(), AllocFailed<(K, V)>>
    requires { AreFilled rows.old.items }
    ensures ok { OnOk result (concat_rows rows.new.items ≡ concat_rows rows.old.items ++ entry ∷ []) }
    ensures err { OnErr result (concat_rows rows.new.items ≡ concat_rows rows.old.items) }
    ensures filled { AreFilled rows.new.items }
    ensures handed_back { IfErr result (λ failed. failed.value ≡ entry) }
{
    if make_room(rows).is_err() {
        return Err(AllocFailed { value: entry });
    }
    let mut row = Row::with_room(alloc, if rows.len() < MANY { 0 } else { FULL });
    row.insert(0, entry)?;
    rows.push_reserved(row);
    Ok(())
}

/// Splits a full row in two. Err: an allocation failed, and the row stays as it is.
fn split<K: Drop, V: Drop>(rows: &mut Vec<Row<K, V>>, row: usize) -> Result<(), AllocError>
    requires row { row < length rows.old.items }
    requires full { FULL ≤ length (slice_index_or rows.old.items row []) }
    ensures ok { OnOk result (rows.new.items ≡ take row rows.old.items ++ take HALF (slice_index_or rows.old.items row []) ∷ drop HALF (slice_index_or rows.old.items row []) ∷ drop (suc row) rows.old.items) }
    ensures err { OnErr result (rows.new.items ≡ rows.old.items) }
{
    make_room(rows)?;
    let upper = rows[row].split_off(HALF)?;
    let Ok(()) = rows.insert(row + 1, upper) else {
        unreachable!();
    };
    Ok(())
}

/// Inserts an entry at a place of a row. Err: the allocation failed; the entry is returned.
fn insert_free<K: Drop, V: Drop>(
    rows: &mut Vec<Row<K, V>>,
    place: Place,
    entry: (K, V),
) -> Result<(), AllocFailed<(K, V)>>
    requires row { place.row < length rows.old.items }
    requires place { place.at ≤ length (slice_index_or rows.old.items place.row []) }
    requires filled { AreFilled rows.old.items }
    ensures ok { OnOk result (concat_rows rows.new.items ≡ entries_before rows.old.items place.row place.at ++ entry ∷ from rows.old.items place.row place.at) }
    ensures err { OnErr result (rows.new.items ≡ rows.old.items) }
    ensures count { length rows.new.items ≡ length rows.old.items }
    ensures filled { AreFilled rows.new.items }
    ensures handed_back { IfErr result (λ failed. failed.value ≡ entry) }
{
    rows[place.row].insert(place.at, entry)
}

/// Splits a row that is longer than a full one; if an allocation fails, it stays as it is.
fn split_long<K: Drop, V: Drop>(rows: &mut Vec<Row<K, V>>, row: usize)
    requires row { row < length rows.old.items }
    requires filled { AreFilled rows.old.items }
    ensures same { concat_rows rows.new.items ≡ concat_rows rows.old.items }
    ensures filled { AreFilled rows.new.items }
{
    if rows[row].len() <= FULL {
        return;
    }
    let Ok(()) = split(rows, row) else {
        return;
    };
}

/// Returns whether a place is after all entries, and there is no row or the last one is full.
#[tactic(auto, using(crate::proofs::Joined::nothing_past_rows, crate::proofs::Joined::nothing_past_last))]
fn is_past_full<K, V>(rows: &[Row<K, V>], place: Place) -> bool
    requires row { place.row ≤ length rows.now }
    ensures past { IsTrue result → from rows.now place.row place.at ≡ [] }
    ensures inside { result ≡ false → place.row < length rows.now }
{
    if place.row == rows.len() {
        return true;
    }
    place.row + 1 == rows.len() && place.at >= FULL && place.at == rows[place.row].len()
}

/// Inserts an entry at a place, before those from there on. After all others it begins a row if the
/// last one is full, so that rising keys fill the rows. Err: an allocation failed; the entry is
/// returned.
pub(crate) fn insert_at<K: Drop, V: Drop>(
    alloc: Global,
    rows: &mut Vec<Row<K, V>>,
    place: Place,
    entry: (K, V),
) -> Result<(), AllocFailed<(K, V)>>
    requires row { place.row ≤ length rows.old.items }
    requires place { place.at ≤ length (slice_index_or rows.old.items place.row []) }
    requires filled { AreFilled rows.old.items }
    ensures ok { OnOk result (concat_rows rows.new.items ≡ entries_before rows.old.items place.row place.at ++ entry ∷ from rows.old.items place.row place.at) }
    ensures err { OnErr result (concat_rows rows.new.items ≡ concat_rows rows.old.items) }
    ensures filled { AreFilled rows.new.items }
    ensures handed_back { IfErr result (λ failed. failed.value ≡ entry) }
{
    if is_past_full(rows, place) {
        return begin_row(alloc, rows, entry);
    }
    let row = place.row;
    insert_free(rows, place, entry)?;
    split_long(rows, row);
    Ok(())
}

/// Makes rows of entries in order: full ones, except the last. The list frees its memory while they
/// allocate theirs. Err: an allocation failed.
pub(crate) fn rows_of<K: Drop, V: Drop>(
    alloc: Global,
    entries: Vec<(K, V)>,
) -> Result<Vec<Row<K, V>>, AllocError>
    ensures same { IfOk result (λ rows. concat_rows rows.items ≡ entries.items) }
    ensures filled { IfOk result (λ rows. AreFilled rows.items) }
{
    // From the last one on, so that the entries that are left keep their places.
    let mut rows = Vec::with_capacity(alloc, entries.len().div_ceil(FULL))?;
    let mut left = Row::of_entries(entries);
    'rows: while left.len() > FULL {
        let row = left.split_off((left.len() - 1) / FULL * FULL)?;
        rows.push(row)?;
    }
    if left.len() > 0 {
        rows.push(left)?;
    }
    rows.reverse();
    Ok(rows)
}

/// Removes a row.
fn drop_row<K: Drop, V: Drop>(rows: &mut Vec<Row<K, V>>, row: usize)
    requires { row < length rows.old.items }
    ensures { rows.new.items ≡ remove rows.old.items row }
{
    rows.remove(row);
    if rows.len() <= rows.capacity() / 2 {
        rows.shrink_to_fit();
    }
}

/// Removes the entry at a place and returns it. Its row is removed, too, if that was the last one
/// in it.
pub(crate) fn remove_at<K: Drop, V: Drop>(rows: &mut Vec<Row<K, V>>, place: Place) -> (K, V)
    requires row { place.row < length rows.old.items }
    requires place { place.at < length (slice_index_or rows.old.items place.row []) }
    requires filled { AreFilled rows.old.items }
    ensures entry { concat_rows rows.old.items ≡ entries_before rows.old.items place.row place.at ++ result ∷ entries_after rows.old.items place.row place.at }
    ensures rest { concat_rows rows.new.items ≡ entries_before rows.old.items place.row place.at ++ entries_after rows.old.items place.row place.at }
    ensures filled { AreFilled rows.new.items }
{
    let Place { row, at } = place;
    let entry = rows[row].remove(at);
    if rows[row].len() == 0 {
        drop_row(rows, row);
    }
    entry
}
