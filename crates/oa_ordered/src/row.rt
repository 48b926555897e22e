//! A row of entries.
ghost use Rattle.std.specs.Prelude.{◌≡◌, ◌<◌, ◌≤◌, [], take, drop, length, slice_get, slice_index_or, Some, IfOk, IfErr, OnOk, OnErr, vec_len, vec_capacity};
ghost use Rattle.std.specs.Option.{option_map};
ghost use Rattle.std.specs.Borrow.{sem};
ghost use Rattle.std.specs.List.{insert, remove};
ghost use Rattle.oa_ordered.specs.Rows.{IsFoundIn, IsGapIn, IsOrdered, begins_after};

use std::alloc::{AllocError, AllocFailed, Global};
use std::cmp::Ordering;
use std::marker::Model;

/// Entries that are adjacent in the order of their keys.
#[derive(Drop)]
pub(crate) struct Row<K, V> {
    entries: Vec<(K, V)>,
}

impl<K, V> Model for Row<K, V> {
    ghost use Rattle.std.specs.Prelude.{List};

    ghost Value = { List (K × V) };

    ghost view = { λ r. r.entries.items };
}

/// Reserves space for one more item. A full vector grows by an eighth of its length, so little is
/// unused, and in a full row nothing. Err: the allocation failed.
pub(crate) fn make_room<T>(items: &mut Vec<T>) -> Result<(), AllocError>
    ensures items { items.new.items ≡ items.old.items }
    ensures room { OnOk result (vec_len items.new < vec_capacity items.new) }
{
    let len = items.len();
    if len < items.capacity() {
        return Ok(());
    }
    items.reserve_exact(len / 8 + 1)
}

/// Returns the place of the key among entries in order, counted from 0. Err: the key is not there;
/// it contains the place at which to insert it.
pub(crate) fn place_in<K: Ord, V>(entries: &[(K, V)], key: &K) -> Result<usize, usize>
    requires { IsOrdered K.cmp entries.now }
    ensures found { IfOk result (λ at. IsFoundIn K.cmp key.now entries.now at) }
    ensures absent { IfErr result (λ at. IsGapIn K.cmp key.now entries.now at) }
{
    let mut low = 0;
    let mut high = entries.len();
    'halves: while low < high {
        let middle = low + (high - low) / 2;
        match key.cmp(&entries[middle].0) {
            Ordering::Less => high = middle,
            Ordering::Equal => return Ok(middle),
            Ordering::Greater => low = middle + 1,
        }
    }
    Err(low)
}

/// Returns the place of the key among entries in order, counted from 0. It looks at place `near`
/// first. Err: the key is not there; it contains the place at which to insert it.
pub(crate) fn place_in_near<K: Ord, V>(
    entries: &[(K, V)],
    key: &K,
    near: usize,
) -> Result<usize, usize>
    requires { IsOrdered K.cmp entries.now }
    ensures found { IfOk result (λ at. IsFoundIn K.cmp key.now entries.now at) }
    ensures absent { IfErr result (λ at. IsGapIn K.cmp key.now entries.now at) }
{
    if near < entries.len() {
        if let Ordering::Equal = key.cmp(&entries[near].0) {
            return Ok(near);
        }
    }
    place_in(entries, key)
}

/// Returns the place of the key among entries in order, counted from 0. It looks after the last one
/// first. Err: the key is not there; it contains the place at which to insert it.
pub(crate) fn place_to_insert<K: Ord, V>(entries: &[(K, V)], key: &K) -> Result<usize, usize>
    requires { IsOrdered K.cmp entries.now }
    ensures found { IfOk result (λ at. IsFoundIn K.cmp key.now entries.now at) }
    ensures absent { IfErr result (λ at. IsGapIn K.cmp key.now entries.now at) }
{
    let behind = entries.len();
    if behind > 0 {
        if let Ordering::Greater = key.cmp(&entries[behind - 1].0) {
            return Err(behind);
        }
    }
    place_in(entries, key)
}

impl<K, V> Row<K, V> {
    ghost use Rattle.oa_ordered.specs.Lending.{lends_value};

    /// Makes a row without entries. Allocates nothing.
    pub(crate) fn new(alloc: Global) -> Row<K, V>
        ensures { result ≡ [] }
    {
        Row {
            entries: Vec::new(alloc),
        }
    }

    /// Makes a row without entries, with space for `many` entries if the allocation succeeds.
    pub(crate) fn with_room(alloc: Global, many: usize) -> Row<K, V>
        ensures { result ≡ [] }
    {
        match Vec::with_capacity(alloc, many) {
            Ok(entries) => Row { entries },
            Err(_) => Row::new(alloc),
        }
    }

    /// Makes a row of these entries, without unused space.
    pub(crate) fn of_entries(entries: Vec<(K, V)>) -> Row<K, V>
        ensures { result ≡ entries.items }
    {
        let mut entries = entries;
        entries.shrink_to_fit();
        Row { entries }
    }

    /// Returns the number of entries.
    pub(crate) fn len(&self) -> usize
        ensures { result ≡ length self.now }
    {
        self.entries.len()
    }

    /// Returns the entries in the order of their keys.
    pub(crate) fn as_slice(&self) -> &[(K, V)]
        ensures { result.now ≡ self.now }
    {
        self.entries.as_slice()
    }

    /// Returns whether the first key is above a key.
    pub(crate) fn begins_after(&self, key: &K) -> bool
    where
        K: Ord,
        ensures { result ≡ begins_after K.cmp key.now self.now }
    {
        match self.entries.first() {
            Some(first) => key.cmp(&first.0).is_lt(),
            None => false,
        }
    }

    /// Returns the value at place `at`, counted from 0, to be changed.
    pub(crate) fn value_mut(&mut self, at: usize) -> &mut V
        requires { at < length self.old }
        ensures* writes_back { sem 𝓛 (lends_value K.row V.row self.entry at result) }
        ensures value { option_map (λ e. e.1) (slice_get self.old at) ≡ Some result.now }
    {
        &mut self.entries[at].1
    }

    /// Inserts an entry at place `at`, before those from there on. Err: the allocation failed; the
    /// entry is returned.
    pub(crate) fn insert(&mut self, at: usize, entry: (K, V)) -> Result<(), AllocFailed<(K, V)>>
        requires { at ≤ length self.old }
        ensures ok { OnOk result (self.new ≡ insert self.old at entry) }
        ensures err { OnErr result (self.new ≡ self.old) }
        ensures handed_back { IfErr result (λ failed. failed.value ≡ entry) }
    {
        if make_room(&mut self.entries).is_err() {
            return Err(AllocFailed { value: entry });
        }
        self.entries.insert(at, entry)
    }

    /// Removes the entry at place `at`, counted from 0, and returns it.
    pub(crate) fn remove(&mut self, at: usize) -> (K, V)
        requires { at < length self.old }
        ensures entry { result ≡ slice_index_or self.old at result }
        ensures rest { self.new ≡ remove self.old at }
    {
        let entry = self.entries.remove(at);
        if self.entries.len() <= self.entries.capacity() / 2 {
            self.entries.shrink_to_fit();
        }
        entry
    }

    /// Keeps the entries before place `at`, and returns those from there on as a row of their own.
    /// Err: the allocation failed, and all entries stay.
    pub(crate) fn split_off(&mut self, at: usize) -> Result<Row<K, V>, AllocError>
        requires { at ≤ length self.old }
        ensures ok { IfOk result (λ rest. rest ≡ drop at self.old) }
        ensures kept { OnOk result (self.new ≡ take at self.old) }
        ensures err { OnErr result (self.new ≡ self.old) }
    {
        let rest = self.entries.split_off(at)?;
        self.entries.shrink_to_fit();
        Ok(Row { entries: rest })
    }
}
