//! Branches of rows, whose entries together are those of a map.
ghost use Rattle.std.specs.Prelude.{◌≡◌, ◌<◌, ◌+◌, ◌++◌, ◌∷◌, [], length, slice_index_or, IsTrue, None, IfOk, IfErr, OnOk, OnErr};
ghost use Rattle.std.specs.List.{remove};
ghost use Rattle.std.specs.Map.{lookup, remove_entry};
ghost use Rattle.std.specs.BTreeMap.{insert_entry, is_at};
ghost use Rattle.oa_ordered.specs.Rows.{AreFilled, AreOrdered, IsRowFor, concat_rows};

use crate::branch::{Branch, FULL_BRANCH};
use crate::row::{Row, make_room};
use crate::rows::FULL;
use std::alloc::{AllocError, AllocFailed, Global};
use std::mem::replace;

/// The number of rows that stay in a full branch that is split between others.
const HALF_BRANCH: usize = FULL_BRANCH / 2;

/// The number of entries of a full branch of full rows.
pub(crate) const BRANCH_ENTRIES: usize = FULL_BRANCH * FULL;

/// Returns whether the key is in this branch if it is in any.
fn is_branch_for<K: Ord, V>(branches: &[Branch<K, V>], key: &K, branch: usize) -> bool
    requires branch { branch < length branches.now }
    requires in_order { AreOrdered K.cmp branches.now }
    ensures { IsTrue result → IsRowFor K.cmp key.now branches.now branch }
{
    if branches[branch].begins_after(key) {
        return false;
    }
    if branch + 1 == branches.len() {
        return true;
    }
    branches[branch + 1].begins_after(key)
}

/// Returns the number of the branch in which the key is or belongs: the last that begins at or
/// before it, or otherwise the first. If `near` is not the first one, it looks in branch `near`
/// first.
pub(crate) fn branch_for<K: Ord, V>(branches: &[Branch<K, V>], key: &K, near: usize) -> usize
    requires { AreOrdered K.cmp branches.now }
    ensures { IsRowFor K.cmp key.now branches.now result }
{
    let mut low = 0;
    let mut high = branches.len();
    if 0 < near && near < high {
        if is_branch_for(branches, key, near) {
            return near;
        }
    }
    'halves: while high - low > 1 {
        let middle = low + (high - low) / 2;
        if branches[middle].begins_after(key) {
            high = middle;
        } else {
            low = middle;
        }
    }
    low
}

/// Splits a branch that is longer than a full one; if an allocation fails, it stays as it is. The
/// last one keeps its first `FULL_BRANCH` rows, so that rising keys fill the branches.
fn split_long_branch<K: Drop, V: Drop>(branches: &mut Vec<Branch<K, V>>, branch: usize)
    requires branch { branch < length branches.old.items }
    requires filled { AreFilled branches.old.items }
    ensures same { concat_rows branches.new.items ≡ concat_rows branches.old.items }
    ensures filled { AreFilled branches.new.items }
{
    if branches[branch].len() <= FULL_BRANCH {
        return;
    }
    let keep = if branch + 1 == branches.len() {
        FULL_BRANCH
    } else {
        HALF_BRANCH
    };
    let Ok(()) = split_branch(branches, branch, keep) else {
        return;
    };
}

/// Splits a branch in two, of which the first keeps `keep` rows. Err: an allocation failed or a
/// part would be empty; all rows stay.
fn split_branch<K: Drop, V: Drop>(
    branches: &mut Vec<Branch<K, V>>,
    branch: usize,
    keep: usize,
) -> Result<(), AllocError>
    requires branch { branch < length branches.old.items }
    requires filled { AreFilled branches.old.items }
    ensures same { concat_rows branches.new.items ≡ concat_rows branches.old.items }
    ensures filled { AreFilled branches.new.items }
{
    make_room(branches)?;
    let upper = branches[branch].split_off(keep)?;
    let Ok(()) = branches.insert(branch + 1, upper) else {
        unreachable!();
    };
    Ok(())
}

/// Sets the value of a key in its branch, and returns the one before; None if the key is new. Err:
/// an allocation failed; key and value are returned.
fn insert_in_branch<K: Ord + Drop, V: Drop>(
    alloc: Global,
    branches: &mut Vec<Branch<K, V>>,
    branch: usize,
    key: K,
    value: V,
) -> Result<Option<V>, AllocFailed<(K, V)>>
    requires branch { branch < length branches.old.items }
    requires for_key { IsRowFor K.cmp key branches.old.items branch }
    requires in_order { AreOrdered K.cmp branches.old.items }
    ensures old { IfOk result (λ old. old ≡ lookup (is_at (K.cmp key)) (concat_rows branches.old.items)) }
    ensures entries { OnOk result (concat_rows branches.new.items ≡ insert_entry K.cmp (concat_rows branches.old.items) key value) }
    ensures handed_back { IfErr result (λ failed. failed.value ≡ (key, value)) }
    ensures absent { OnErr result (lookup (is_at (K.cmp key)) (concat_rows branches.old.items) ≡ None) }
    ensures err { OnErr result (branches.new.items ≡ branches.old.items) }
    ensures filled { AreFilled branches.new.items }
    ensures count { length branches.new.items ≡ length branches.old.items }
{
    branches[branch].insert(alloc, key, value)
}

/// Sets the value of a key, and returns the one before; None if the key is new. Err: an allocation
/// failed; key and value are returned.
pub(crate) fn insert_in<K: Ord + Drop, V: Drop>(
    alloc: Global,
    branches: &mut Vec<Branch<K, V>>,
    key: K,
    value: V,
) -> Result<Option<V>, AllocFailed<(K, V)>>
    requires some { 0 < length branches.old.items }
    requires in_order { AreOrdered K.cmp branches.old.items }
    ensures old { IfOk result (λ old. old ≡ lookup (is_at (K.cmp key)) (concat_rows branches.old.items)) }
    ensures entries { OnOk result (concat_rows branches.new.items ≡ insert_entry K.cmp (concat_rows branches.old.items) key value) }
    ensures handed_back { IfErr result (λ failed. failed.value ≡ (key, value)) }
    ensures absent { OnErr result (lookup (is_at (K.cmp key)) (concat_rows branches.old.items) ≡ None) }
    ensures err { OnErr result (concat_rows branches.new.items ≡ concat_rows branches.old.items) }
    ensures filled { AreFilled branches.new.items }
{
    let branch = branch_for(branches, &key, branches.len() - 1);
    let old = insert_in_branch(alloc, branches, branch, key, value)?;
    split_long_branch(branches, branch);
    Ok(old)
}

/// Removes a branch.
fn drop_branch<K: Drop, V: Drop>(branches: &mut Vec<Branch<K, V>>, branch: usize)
    requires { branch < length branches.old.items }
    ensures { branches.new.items ≡ remove branches.old.items branch }
{
    branches.remove(branch);
    if branches.len() <= branches.capacity() / 2 {
        branches.shrink_to_fit();
    }
}

/// Removes a key, and returns its value; None if it is in no branch. A branch is removed with its
/// last entry.
pub(crate) fn remove_in<K: Ord + Drop, V: Drop>(
    branches: &mut Vec<Branch<K, V>>,
    key: &K,
) -> Option<V>
    requires { AreOrdered K.cmp branches.old.items }
    ensures value { result ≡ lookup (is_at (K.cmp key.now)) (concat_rows branches.old.items) }
    ensures entries { concat_rows branches.new.items ≡ remove_entry (is_at (K.cmp key.now)) (concat_rows branches.old.items) }
    ensures filled { AreFilled branches.new.items }
{
    let branch = branch_for(branches, key, 0);
    if branch == branches.len() {
        return None;
    }
    let value = branches[branch].remove(key);
    if branches[branch].len() == 0 {
        drop_branch(branches, branch);
    }
    value
}

/// Splits a row in two, of which the first keeps `keep` entries, and returns a branch of both. Err:
/// an allocation failed or a part would be empty, and the row has not changed.
pub(crate) fn branches_of_row<K: Drop, V: Drop>(
    alloc: Global,
    row: &mut Row<K, V>,
    keep: usize,
) -> Result<Vec<Branch<K, V>>, AllocError>
    requires some { 0 < keep }
    requires less { keep < length row.old }
    ensures same { IfOk result (λ branches. concat_rows branches.items ≡ row.old) }
    ensures filled { IfOk result (λ branches. AreFilled branches.items) }
    ensures err { OnErr result (row.new ≡ row.old) }
{
    let mut rows = Vec::with_capacity(alloc, 2)?;
    let mut branches = Vec::with_capacity(alloc, 1)?;
    let upper = row.split_off(keep)?;
    rows.push_reserved(replace(row, Row::new(alloc)));
    rows.push_reserved(upper);
    branches.push_reserved(Branch::of_rows(rows));
    Ok(branches)
}

/// Makes branches of rows in order: full ones, except the last. The list frees its memory while
/// they allocate theirs. Err: an allocation failed.
pub(crate) fn branches_of<K: Drop, V: Drop>(
    alloc: Global,
    rows: Vec<Row<K, V>>,
) -> Result<Vec<Branch<K, V>>, AllocError>
    requires { AreFilled rows.items }
    ensures same { IfOk result (λ branches. concat_rows branches.items ≡ concat_rows rows.items) }
    ensures filled { IfOk result (λ branches. AreFilled branches.items) }
{
    // From the last one on, so that the rows that are left keep their places.
    let mut branches = Vec::with_capacity(alloc, rows.len().div_ceil(FULL_BRANCH))?;
    let mut left = Branch::of_rows(rows);
    'rows: while left.len() > FULL_BRANCH {
        let branch = left.split_off((left.len() - 1) / FULL_BRANCH * FULL_BRANCH)?;
        branches.push(branch)?;
    }
    if left.len() > 0 {
        branches.push(left)?;
    }
    branches.reverse();
    Ok(branches)
}
