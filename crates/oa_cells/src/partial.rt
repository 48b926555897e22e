//! A block that is being filled or emptied.
ghost use Rattle.std.specs.Prelude.{◌≡◌, ◌+◌, ◌-◌, ◌<◌, ◌≤◌, [], ◌∷◌, ◌++◌, Some, map, length, take, IfOk};
ghost use Rattle.oa_cells.specs.Windows.{FilledWindow, values, window_row, IsWindow};

use crate::row::Row;
use std::alloc::{AllocError, Global};
use std::marker::Model;

/// A block that is being filled or emptied: empty places, then values, then empty places.
///
/// It does not implement `Drop`: its owner must call `full`, or inside this crate `free` or
/// `clear`.
pub struct Partial<T> {
    row: Row<T>,
    from: usize,
    to: usize,
    len: usize,
}

impl<T> Model for Partial<T> {
    ghost Value = { FilledWindow T };

    ghost view = { λ p. record { before = p.from; items = values p.row; after = p.len - p.to } };

    ghost invariant = { λ p. record {
      count : p.from + length (values p.row) ≡ p.to;
      fits : p.to ≤ p.len;
      shape : p.row ≡ window_row p.from (values p.row) (p.len - p.to);
    } };
}

impl<T> Partial<T> {
    /// Returns a new block of `len` empty places, whose values will begin at the index `at`, at
    /// most `len`. Err: the allocation fails.
    pub fn vacant(alloc: Global, len: usize, at: usize) -> Result<Partial<T>, AllocError>
        requires { at ≤ len }
        ensures { IfOk result (λ p. IsWindow p at [] (len - at)) }
    {
        let row = Row::vacant(alloc, len)?;
        Ok(Partial {
            row,
            from: at,
            to: at,
            len,
        })
    }

    /// Makes a block of a full row of `len` values, in order to empty it.
    pub(crate) fn of_full(row: Row<T>, len: usize) -> Partial<T>
        requires { (row ≡ map Some (values row)) × (len ≡ length row) }
        ensures { IsWindow result 0 (values row) 0 }
    {
        Partial {
            row,
            from: 0,
            to: len,
            len,
        }
    }

    /// Returns the number of values.
    pub(crate) fn count(&self) -> usize
        ensures { result ≡ length self.now.items }
    {
        self.to - self.from
    }

    /// Returns the number of empty places before the values.
    pub(crate) fn before(&self) -> usize
        ensures { result ≡ self.now.before }
    {
        self.from
    }

    /// Appends a value after the others.
    pub(crate) fn push_back(&mut self, item: T)
        requires { 0 < self.old.after }
        ensures { IsWindow self.new self.old.before (self.old.items ++ item ∷ []) (self.old.after - 1) }
    {
        self.row.put(self.to, item);
        self.to += 1;
    }

    /// Adds a value before the others.
    pub(crate) fn push_front(&mut self, item: T)
        requires { 0 < self.old.before }
        ensures { IsWindow self.new (self.old.before - 1) (item ∷ self.old.items) self.old.after }
    {
        self.from -= 1;
        self.row.put(self.from, item);
    }

    /// Removes the last value and returns it.
    pub(crate) fn pop_back(&mut self) -> T
        requires { 0 < length self.old.items }
        ensures { (self.old.items ≡ self.new.items ++ result ∷ []) × (self.new.before ≡ self.old.before)
            × (self.new.after ≡ self.old.after + 1) }
    {
        self.to -= 1;
        self.row.take(self.to)
    }

    /// Returns the row, which is full.
    pub fn full(self) -> Row<T>
        requires { (self.before ≡ 0) × (self.after ≡ 0) }
        ensures { result ≡ map Some self.items }
    {
        let Partial {
            row,
            from: _,
            to: _,
            len: _,
        } = self;
        row
    }

    /// Frees the block, which is empty.
    pub(crate) fn free(self)
        requires { self.items ≡ [] }
    {
        let Partial {
            row,
            from: _,
            to: _,
            len,
        } = self;
        row.free(len);
    }
}

impl<T: Copy> Partial<T> {
    /// Appends copies of these values after the others. That many places must be empty there.
    pub fn extend_from_slice(&mut self, items: &[T])
        requires { length items.now ≤ self.old.after }
        ensures { IsWindow self.new self.old.before (self.old.items ++ items.now) (self.old.after - length items.now) }
    {
        let mut index = 0;
        'items: while index < items.len() {
            self.push_back(items[index]);
            index += 1;
        }
    }
}

impl<T: Drop> Partial<T> {
    /// Drops the values after the first `keep` values, the last one first.
    pub(crate) fn shorten(&mut self, keep: usize)
        requires { keep ≤ length self.old.items }
        ensures { IsWindow self.new self.old.before (take keep self.old.items) (self.old.after + (length self.old.items - keep)) }
    {
        while self.count() > keep {
            drop(self.pop_back());
        }
    }

    /// Drops the values and frees the block. It has no contract, since nothing is left to describe.
    pub(crate) fn clear(mut self) {
        self.shorten(0);
        self.free();
    }
}
