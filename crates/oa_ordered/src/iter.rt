//! Iterating over the entries of a map.
ghost use Rattle.std.specs.Prelude.{◌≡◌, ◌<◌, ◌++◌, length};
ghost use Rattle.std.specs.Iterator.{at_most};
ghost use Rattle.std.specs.Map.Iter.{TakesFirst, deref_pair};
ghost use Rattle.oa_ordered.specs.Rows.{AreFilled, concat_rows};

use crate::branch::Branch;
use crate::row::Row;
use std::iter::{ExactSizeIterator, Iterator};
use std::marker::Model;

/// The entries of a map that are left, in the order of their keys.
#[derive(Drop)]
pub struct Iter<'a, K, V> {
    entries: &'a [(K, V)],
    rows: &'a [Row<K, V>],
    branches: &'a [Branch<K, V>],
    left: usize,
}

impl<'a, K, V> Model for Iter<'a, K, V> {
    ghost use Rattle.std.specs.Prelude.{◌≡◌, ◌++◌, List, length};
    ghost use Rattle.oa_ordered.specs.Rows.{AreFilled, concat_rows};

    ghost Value = { List (K × V) };

    ghost view = { λ i. i.entries.now ++ (concat_rows i.rows.now ++ concat_rows i.branches.now) };

    ghost invariant = { λ i. AreFilled i.rows.now × AreFilled i.branches.now
        × (i.left ≡ length (i.entries.now ++ (concat_rows i.rows.now ++ concat_rows i.branches.now))) };
}

impl<'a, K, V> Iter<'a, K, V> {
    /// Makes an iterator over entries and then over those of branches, `len` in all.
    pub(crate) fn new(
        entries: &'a [(K, V)],
        branches: &'a [Branch<K, V>],
        len: usize,
    ) -> Iter<'a, K, V>
        requires filled { AreFilled branches.now }
        requires count { len ≡ length (entries.now ++ concat_rows branches.now) }
        ensures { result ≡ entries.now ++ concat_rows branches.now }
    {
        Iter {
            entries,
            rows: &[],
            branches,
            left: len,
        }
    }
}

/// Returns the first of the rows, or of the next branch, and what is left.
fn next_row<'a, K, V>(
    rows: &'a [Row<K, V>],
    branches: &'a [Branch<K, V>],
) -> (&'a [(K, V)], &'a [Row<K, V>], &'a [Branch<K, V>])
    requires some { 0 < length (concat_rows rows.now ++ concat_rows branches.now) }
    requires rows { AreFilled rows.now }
    requires branches { AreFilled branches.now }
    ensures entries { result.0.now ++ (concat_rows result.1.now ++ concat_rows result.2.now) ≡ concat_rows rows.now ++ concat_rows branches.now }
    ensures first { 0 < length result.0.now }
    ensures rows { AreFilled result.1.now }
    ensures branches { AreFilled result.2.now }
{
    if rows.is_empty() {
        let next = branches[0].rows();
        return (next[0].as_slice(), &next[1..], &branches[1..]);
    }
    (rows[0].as_slice(), &rows[1..], branches)
}

impl<'a, K, V> Iterator for Iter<'a, K, V> {
    type Item = (&'a K, &'a V);

    ghost next_gives = { TakesFirst deref_pair };

    ghost remaining = { λ s. at_most (length s) };

    fn next(&mut self) -> Option<(&'a K, &'a V)> {
        if self.left == 0 {
            return None;
        }
        self.left -= 1;
        if self.entries.is_empty() {
            let (entries, rows, branches) = next_row(self.rows, self.branches);
            self.entries = entries;
            self.rows = rows;
            self.branches = branches;
        }
        let entry = &self.entries[0];
        self.entries = &self.entries[1..];
        Some((&entry.0, &entry.1))
    }

    fn size_hint(&self) -> (usize, Option<usize>) {
        (self.left, Some(self.left))
    }
}

impl<'a, K, V> ExactSizeIterator for Iter<'a, K, V> {
    fn len(&self) -> usize {
        self.left
    }
}
