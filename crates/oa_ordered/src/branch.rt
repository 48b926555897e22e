//! A branch of rows.
ghost use Rattle.std.specs.Prelude.{◌≡◌, ◌<◌, ◌++◌, ◌↔◌, [], length, None, Some, IfOk, IfErr, OnOk, OnErr, option_copied};
ghost use Rattle.std.specs.Option.{option_copied_mut};
ghost use Rattle.std.specs.Borrow.{sem};
ghost use Rattle.std.specs.Map.{lookup, remove_entry};
ghost use Rattle.std.specs.BTreeMap.{insert_entry, is_at};
ghost use Rattle.oa_ordered.specs.Rows.{AreFilled, IsOrdered, begins_after, concat_rows};

use crate::row::Row;
use crate::rows::{Search, insert_at, place_near, place_of, remove_at};
use std::alloc::{AllocError, AllocFailed, Global};
use std::marker::Model;
use std::mem::replace;

/// The number of rows of a full branch. A longer one is split.
pub(crate) const FULL_BRANCH: usize = 128;

/// Rows that are adjacent in the order of their keys.
#[derive(Drop)]
pub(crate) struct Branch<K, V> {
    rows: Vec<Row<K, V>>,
}

impl<K, V> Model for Branch<K, V> {
    ghost use Rattle.std.specs.Prelude.{List};
    ghost use Rattle.oa_ordered.specs.Rows.{AreFilled, concat_rows};

    ghost Value = { List (K × V) };

    ghost view = { λ b. concat_rows b.rows.items };

    ghost invariant = { λ b. AreFilled b.rows.items };
}

impl<K, V> Branch<K, V> {
    ghost use Rattle.oa_ordered.specs.Lends.{lends_in_branch};

    /// Makes a branch of rows, none of which is empty.
    pub(crate) fn of_rows(rows: Vec<Row<K, V>>) -> Branch<K, V>
        requires { AreFilled rows.items }
        ensures { result ≡ concat_rows rows.items }
    {
        Branch { rows }
    }

    /// Returns the rows, none of which is empty.
    pub(crate) fn rows(&self) -> &[Row<K, V>]
        ensures entries { concat_rows result.now ≡ self.now }
        ensures filled { AreFilled result.now }
    {
        self.rows.as_slice()
    }

    /// Returns whether the first key is above a key.
    pub(crate) fn begins_after(&self, key: &K) -> bool
    where
        K: Ord,
        ensures { result ≡ begins_after K.cmp key.now self.now }
    {
        match self.rows.first() {
            Some(first) => first.begins_after(key),
            None => false,
        }
    }

    /// Returns the value of a key; None if it is not in the branch. `near`, a number of entries
    /// before it, has no effect on the result.
    pub(crate) fn get_near(&self, key: &K, near: usize) -> Option<&V>
    where
        K: Ord,
        requires { IsOrdered K.cmp self.now }
        ensures { option_copied result ≡ lookup (is_at (K.cmp key.now)) self.now }
    {
        match place_near(&self.rows, key, near) {
            Ok(place) => Some(&self.rows[place.row].as_slice()[place.at].1),
            Err(_) => None,
        }
    }

    /// Returns the value of a key, to be changed; None if it is not in the branch. `near`, a number
    /// of entries before it, has no effect on the result.
    pub(crate) fn get_mut_near(&mut self, key: &K, near: usize) -> Option<&mut V>
    where
        K: Ord,
        requires { IsOrdered K.cmp self.old }
        ensures* writes_back { sem 𝓛 (lends_in_branch K.row V.row K.Ord self.entry key.now result) }
        ensures value { option_copied_mut result ≡ lookup (is_at (K.cmp key.now)) self.old }
    {
        match place_near(&self.rows, key, near) {
            Ok(place) => Some(self.rows[place.row].value_mut(place.at)),
            Err(_) => None,
        }
    }

    /// Sets the value of a key, and returns the one before; None if the key is new. Err: an
    /// allocation failed; key and value are returned.
    pub(crate) fn insert(
        &mut self,
        alloc: Global,
        key: K,
        value: V,
    ) -> Result<Option<V>, AllocFailed<(K, V)>>
    where
        K: Ord + Drop,
        V: Drop,
        requires { IsOrdered K.cmp self.old }
        ensures old { IfOk result (λ old. old ≡ lookup (is_at (K.cmp key)) self.old) }
        ensures entries { OnOk result (self.new ≡ insert_entry K.cmp self.old key value) }
        ensures handed_back { IfErr result (λ failed. failed.value ≡ (key, value)) }
        ensures absent { OnErr result (lookup (is_at (K.cmp key)) self.old ≡ None) }
        ensures err { OnErr result (self.new ≡ self.old) }
    {
        match place_of(&self.rows, &key, Search::Behind) {
            Ok(place) => Ok(Some(replace(self.rows[place.row].value_mut(place.at), value))),
            Err(place) => {
                insert_at(alloc, &mut self.rows, place, (key, value))?;
                Ok(None)
            }
        }
    }

    /// Removes a key, and returns its value; None if it is not in the branch.
    pub(crate) fn remove(&mut self, key: &K) -> Option<V>
    where
        K: Ord + Drop,
        V: Drop,
        requires { IsOrdered K.cmp self.old }
        ensures value { result ≡ lookup (is_at (K.cmp key.now)) self.old }
        ensures entries { self.new ≡ remove_entry (is_at (K.cmp key.now)) self.old }
    {
        match place_of(&self.rows, key, Search::Halves) {
            Ok(place) => {
                let (_key, value) = remove_at(&mut self.rows, place);
                Some(value)
            }
            Err(_) => None,
        }
    }

    /// Returns the number of rows.
    pub(crate) fn len(&self) -> usize
        ensures { (result ≡ 0) ↔ (self.now ≡ []) }
    {
        self.rows.len()
    }

    /// Keeps the rows before row `at`, counted from 0, and returns those from there on as a branch
    /// of their own. Err: one of the two would be empty, or an allocation failed; all rows stay.
    pub(crate) fn split_off(&mut self, at: usize) -> Result<Branch<K, V>, AllocError>
        ensures ok { IfOk result (λ rest. self.new ++ rest ≡ self.old) }
        ensures kept { OnOk result (0 < length self.new) }
        ensures rest { IfOk result (λ rest. 0 < length rest) }
        ensures err { OnErr result (self.new ≡ self.old) }
    {
        if at == 0 || self.rows.len() <= at {
            return Err(AllocError);
        }
        let rest = self.rows.split_off(at)?;
        self.rows.shrink_to_fit();
        Ok(Branch { rows: rest })
    }
}
