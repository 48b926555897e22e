//! The rows or branches of a map.
ghost use Rattle.std.specs.Prelude.{◌≡◌, ◌<◌, ◌≤◌, [], None, IfOk, IfErr, OnOk, OnErr};
ghost use Rattle.std.specs.Map.{lookup, remove_entry};
ghost use Rattle.std.specs.BTreeMap.{insert_entry, is_at};
ghost use Rattle.oa_ordered.specs.Rows.{AreFilled, IsOrdered, concat_rows};
ghost use Rattle.oa_ordered.specs.Roots.{IsFilled, entries_of};

use crate::branch::Branch;
use crate::branches::{branches_of, branches_of_row, insert_in, remove_in};
use crate::row::{Row, place_in, place_to_insert};
use crate::rows::{FULL, HALF, rows_of};
use std::alloc::{AllocError, AllocFailed, Global};
use std::mem::replace;

/// The entries of a map: in one row, or in branches of rows. Once they are in branches, they stay
/// there until all are removed.
#[derive(Drop)]
pub(crate) enum Root<K, V> {
    /// At most 64 entries, unless an allocation has failed.
    One(Row<K, V>),
    /// Any number of entries.
    Many(Vec<Branch<K, V>>),
}

impl<K, V> Root<K, V> {
    /// Makes the root of entries in order, without unused space. Err: an allocation failed.
    pub(crate) fn of_entries(alloc: Global, entries: Vec<(K, V)>) -> Result<Root<K, V>, AllocError>
    where
        K: Drop,
        V: Drop,
        ensures same { IfOk result (λ root. entries_of root ≡ entries.items) }
        ensures filled { IfOk result (λ root. IsFilled root) }
    {
        if entries.len() <= FULL {
            return Ok(Root::One(Row::of_entries(entries)));
        }
        let rows = rows_of(alloc, entries)?;
        let branches = branches_of(alloc, rows)?;
        Ok(Root::Many(branches))
    }

    /// Sets the value of a key, and returns the one before; None if the key is new. Err: an
    /// allocation failed; key and value are returned.
    pub(crate) fn insert(
        &mut self,
        alloc: Global,
        key: K,
        value: V,
    ) -> Result<Option<V>, AllocFailed<(K, V)>>
    where
        K: Ord + Drop,
        V: Drop,
        requires ordered { IsOrdered K.cmp (entries_of self.old) }
        requires filled { IsFilled self.old }
        ensures old { IfOk result (λ old. old ≡ lookup (is_at (K.cmp key)) (entries_of self.old)) }
        ensures entries { OnOk result (entries_of self.new ≡ insert_entry K.cmp (entries_of self.old) key value) }
        ensures handed_back { IfErr result (λ failed. failed.value ≡ (key, value)) }
        ensures absent { OnErr result (lookup (is_at (K.cmp key)) (entries_of self.old) ≡ None) }
        ensures err { OnErr result (entries_of self.new ≡ entries_of self.old) }
        ensures filled { IsFilled self.new }
    {
        match self {
            Root::One(row) => match place_to_insert(row.as_slice(), &key) {
                Ok(at) => Ok(Some(replace(row.value_mut(at), value))),
                Err(at) => {
                    let keep = if at == FULL { FULL } else { HALF };
                    row.insert(at, (key, value))?;
                    self.split_long_row(alloc, keep);
                    Ok(None)
                }
            },
            Root::Many(branches) => {
                if branches.is_empty() {
                    let mut row = Row::new(alloc);
                    row.insert(0, (key, value))?;
                    *self = Root::One(row);
                    return Ok(None);
                }
                insert_in(alloc, branches, key, value)
            }
        }
    }

    /// Splits the one row into a branch of two if it is longer than a full one. The first keeps
    /// `keep` entries. If an allocation fails, the row stays as it is.
    fn split_long_row(&mut self, alloc: Global, keep: usize)
    where
        K: Drop,
        V: Drop,
        requires some { 0 < keep }
        requires row { keep ≤ FULL }
        requires filled { IsFilled self.old }
        ensures same { entries_of self.new ≡ entries_of self.old }
        ensures filled { IsFilled self.new }
    {
        let Root::One(row) = self else {
            return;
        };
        if row.len() <= FULL {
            return;
        }
        let Ok(branches) = branches_of_row(alloc, row, keep) else {
            return;
        };
        *self = Root::Many(branches);
    }

    /// Removes a key, and returns its value; None if it is not in the map.
    pub(crate) fn remove(&mut self, key: &K) -> Option<V>
    where
        K: Ord + Drop,
        V: Drop,
        requires ordered { IsOrdered K.cmp (entries_of self.old) }
        requires filled { IsFilled self.old }
        ensures value { result ≡ lookup (is_at (K.cmp key.now)) (entries_of self.old) }
        ensures entries { entries_of self.new ≡ remove_entry (is_at (K.cmp key.now)) (entries_of self.old) }
        ensures filled { IsFilled self.new }
    {
        match self {
            Root::One(row) => match place_in(row.as_slice(), key) {
                Ok(at) => {
                    let (_key, value) = row.remove(at);
                    Some(value)
                }
                Err(_) => None,
            },
            Root::Many(branches) => remove_in(branches, key),
        }
    }
}
