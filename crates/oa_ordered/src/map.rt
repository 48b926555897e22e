//! The map.
ghost use Rattle.std.specs.Prelude.{◌≡◌, ◌^◌, ◌<◌, ◌≤◌, ◌-◌, [], length, false, IsTrue, None, IfOk, IfErr, OnOk, OnErr, option_copied};
ghost use Rattle.std.specs.Option.{option_copied_mut};
ghost use Rattle.std.specs.Borrow.{sem};
ghost use Rattle.std.specs.Map.{keys_of, lookup, remove_entry};
ghost use Rattle.std.specs.BTreeMap.{insert_entry, is_at};
ghost use Rattle.std.specs.List.Sorted.{IsStrictlySortedBy};

use crate::branches::{BRANCH_ENTRIES, branch_for};
use crate::iter::Iter;
use crate::root::Root;
use crate::row::{Row, place_in_near};
use std::alloc::{AllocError, AllocFailed, Global};
use std::iter::IntoIterator;
use std::marker::Model;

/// The greatest number of entries of a map.
const MOST: usize = usize::MAX / 2;

/// A map in the order of its keys.
///
/// Its entries are in rows of up to 64, each an allocation of its own with little unused space. The
/// rows are in branches of up to 128. A row or a branch that cannot be split because an allocation
/// fails gets longer. A look-up bisects the branches, then the rows of one, then the entries of one
/// row. An insertion moves the entries after it in its row, and the rows after it in its branch if
/// the row is split. Up to 64 entries are in one row, which is in the map itself. An insertion
/// looks after the last entry first.
#[derive(Drop)]
pub struct OrderedMap<K: Ord, V> {
    alloc: Global,
    root: Root<K, V>,
    len: usize,
}

impl<K: Ord, V> Model for OrderedMap<K, V> {
    ghost use Rattle.std.specs.Prelude.{List};
    ghost use Rattle.oa_ordered.specs.Roots.{IsMap, entries_of};

    ghost Value = { List (K × V) };

    ghost view = { λ m. entries_of m.root };

    ghost invariant = { λ m. IsMap K.cmp m.root m.len };
}

impl<K: Ord, V> OrderedMap<K, V> {
    ghost use Rattle.oa_ordered.specs.Lends.{lends_get};

    /// Makes a map without entries. Allocates nothing.
    pub fn new(alloc: Global) -> OrderedMap<K, V>
        ensures { result ≡ [] }
    {
        OrderedMap {
            alloc,
            root: Root::One(Row::new(alloc)),
            len: 0,
        }
    }

    /// Makes the map of entries whose keys rise. It allocates while the list frees its memory, and
    /// leaves no unused space. Err: an allocation failed.
    pub fn from_sorted(alloc: Global, entries: Vec<(K, V)>) -> Result<OrderedMap<K, V>, AllocError>
    where
        K: Drop,
        V: Drop,
        requires { IsStrictlySortedBy K.cmp (keys_of entries.items) }
        ensures { IfOk result (λ map. map ≡ entries.items) }
    {
        let len = entries.len();
        if len > MOST {
            return Err(AllocError);
        }
        let root = Root::of_entries(alloc, entries)?;
        Ok(OrderedMap { alloc, root, len })
    }

    /// Returns the number of entries.
    pub fn len(&self) -> usize
        ensures len { result ≡ length self.now }
        ensures small { result < 2 ^ 63 }
        ensures ordered { IsStrictlySortedBy K.cmp (keys_of self.now) }
    {
        self.len
    }

    /// Returns the value of a key; None if it is not in the map.
    pub fn get(&self, key: &K) -> Option<&V>
        ensures { option_copied result ≡ lookup (is_at (K.cmp key.now)) self.now }
    {
        self.get_near(key, 0)
    }

    /// Returns the value of a key; None if it is not in the map. `near` has no effect on the
    /// result. The look-up is fast if `near` keys are below this one, and keys were inserted in
    /// rising order and never removed.
    pub fn get_near(&self, key: &K, near: usize) -> Option<&V>
        ensures { option_copied result ≡ lookup (is_at (K.cmp key.now)) self.now }
    {
        match &self.root {
            Root::One(row) => match place_in_near(row.as_slice(), key, near) {
                Ok(at) => Some(&row.as_slice()[at].1),
                Err(_) => None,
            },
            Root::Many(branches) => {
                let branch = branch_for(branches, key, near / BRANCH_ENTRIES);
                if branch == branches.len() {
                    return None;
                }
                branches[branch].get_near(key, near % BRANCH_ENTRIES)
            }
        }
    }

    /// Returns the value of a key, to be changed; None if it is not in the map.
    pub fn get_mut(&mut self, key: &K) -> Option<&mut V>
        ensures* writes_back { sem 𝓛 (lends_get K.row V.row K.Ord self.entry key.now result) }
        ensures value { option_copied_mut result ≡ lookup (is_at (K.cmp key.now)) self.old }
    {
        self.get_mut_near(key, 0)
    }

    /// Returns the value of a key, to be changed; None if it is not in the map. `near` has no
    /// effect on the result; it makes the look-up fast as in `get_near`.
    pub fn get_mut_near(&mut self, key: &K, near: usize) -> Option<&mut V>
        ensures* writes_back { sem 𝓛 (lends_get K.row V.row K.Ord self.entry key.now result) }
        ensures value { option_copied_mut result ≡ lookup (is_at (K.cmp key.now)) self.old }
    {
        match &mut self.root {
            Root::One(row) => match place_in_near(row.as_slice(), key, near) {
                Ok(at) => Some(row.value_mut(at)),
                Err(_) => None,
            },
            Root::Many(branches) => {
                let branch = branch_for(branches, key, near / BRANCH_ENTRIES);
                if branch == branches.len() {
                    return None;
                }
                branches[branch].get_mut_near(key, near % BRANCH_ENTRIES)
            }
        }
    }

    /// Sets the value of a key, and returns the one before; None if the key is new. An equal key
    /// that is in the map stays, and the new one is dropped. Err: an allocation failed; key and
    /// value are returned, and nothing changes.
    pub fn insert(&mut self, key: K, value: V) -> Result<Option<V>, AllocFailed<(K, V)>>
    where
        K: Drop,
        V: Drop,
        ensures old { IfOk result (λ old. old ≡ lookup (is_at (K.cmp key)) self.old) }
        ensures entries { OnOk result (self.new ≡ insert_entry K.cmp self.old key value) }
        ensures handed_back { IfErr result (λ failed. failed.value ≡ (key, value)) }
        ensures absent { OnErr result (lookup (is_at (K.cmp key)) self.old ≡ None) }
        ensures err { OnErr result (self.new ≡ self.old) }
    {
        if !self.has_room_for(&key) {
            return Err(AllocFailed {
                value: (key, value),
            });
        }
        let old = self.root.insert(self.alloc, key, value)?;
        if old.is_none() {
            self.len += 1;
        }
        Ok(old)
    }

    /// Returns whether the key is in the map, or can be added within the greatest number of
    /// entries.
    fn has_room_for(&self, key: &K) -> bool
        ensures room { IsTrue result → lookup (is_at (K.cmp key.now)) self.now ≡ None → length self.now < 2 ^ 63 - 1 }
        ensures none { result ≡ false → lookup (is_at (K.cmp key.now)) self.now ≡ None }
        ensures full { result ≡ false → 2 ^ 63 - 1 ≤ length self.now }
    {
        if self.len < MOST {
            return true;
        }
        self.get(key).is_some()
    }

    /// Removes a key, and returns its value; None if it is not in the map.
    pub fn remove(&mut self, key: &K) -> Option<V>
    where
        K: Drop,
        V: Drop,
        ensures value { result ≡ lookup (is_at (K.cmp key.now)) self.old }
        ensures entries { self.new ≡ remove_entry (is_at (K.cmp key.now)) self.old }
    {
        let value = self.root.remove(key)?;
        self.len -= 1;
        Some(value)
    }

    /// Returns the entries in the order of their keys. Allocates nothing.
    pub fn iter(&self) -> Iter<'_, K, V>
        ensures rest { result ≡ self.now }
        ensures ordered { IsStrictlySortedBy K.cmp (keys_of self.now) }
        ensures fits { length self.now < 2 ^ 63 }
    {
        match &self.root {
            Root::One(row) => Iter::new(row.as_slice(), &[], self.len),
            Root::Many(branches) => Iter::new(&[], branches, self.len),
        }
    }
}

impl<'a, K: Ord, V> IntoIterator for &'a OrderedMap<K, V> {
    type Item = (&'a K, &'a V);

    type IntoIter = Iter<'a, K, V>;

    ghost into_iter_gives = { λ m r. (r ≡ m.now) × (length m.now < 2 ^ 63) × IsStrictlySortedBy K.cmp (keys_of m.now) };

    fn into_iter(self) -> Iter<'a, K, V> {
        self.iter()
    }
}
