//! Arrays in one block of memory.
ghost use Rattle.std.specs.Prelude.{◌≡◌, ℕ, ◌+◌, ◌-◌, ◌<◌, ◌≤◌, ◌⊎◌, List, ◌++◌, Some, Ok, map, length, min, take, slice_get, slice_set};
ghost use Rattle.std.specs.Prelude.{IfOk, IfErr};
ghost use Rattle.std.specs.Allocator.{alloc_error};
ghost use Rattle.std.specs.Array.{index_steps};
ghost use Rattle.std.specs.Iterator.{CallableAtEachTurn};
ghost use Rattle.oa_cells.specs.Fills.{IsFilledBy, IsStoppedBy};
ghost use Rattle.oa_cells.specs.Windows.{values};

use crate::fill::fill_to_end;
use crate::partial::Partial;
use crate::row::Row;
use core::mem::replace_with;
use std::alloc::{AllocError, Global};
use std::marker::Model;

/// An array of elements in one block of memory. Contracts see it as the list of its elements. Its
/// length changes only by `resized`. The struct has two words.
pub struct Cells<T> {
    row: Row<T>,
    len: usize,
}

impl<T> Model for Cells<T> {
    ghost Value = { List T };

    ghost view = { λ c. values c.row };

    ghost invariant = { λ c. (c.row ≡ map Some (values c.row)) × (c.len ≡ length c.row) };
}

impl<T> Cells<T> {
    /// Returns the number of elements.
    pub fn len(&self) -> usize
        ensures { result ≡ length self.now }
    {
        self.len
    }

    /// Returns all elements, in order.
    pub fn as_slice(&self) -> &[T]
        ensures { result.now ≡ self.now }
    {
        self.row.first(self.len)
    }

    /// Returns the element at an index below the length.
    pub fn get(&self, index: usize) -> &T
        requires { index < length self.now }
        ensures { slice_get self.now index ≡ Some result.now }
    {
        &self.as_slice()[index]
    }

    /// Replaces the element at an index below the length, and returns the old one.
    pub fn replace(&mut self, index: usize, cell: T) -> T
        requires { index < length self.old }
        ensures was { slice_get self.old index ≡ Some result }
        ensures cells { self.new ≡ slice_set self.old index cell }
    {
        let was = self.row.take(index);
        self.row.put(index, cell);
        was
    }
}

impl<T: Drop> Cells<T> {
    /// Makes an array of `len` elements: `fill` is called with each index below `len` in turn and
    /// returns the element.
    ///
    /// Err: the first error of `fill`, or one made from an `AllocError` if the allocation of the
    /// block fails. The elements made so far are dropped, and the block is freed.
    pub fn filled_by<E: From<AllocError>, F: FnMut(usize) -> Result<T, E>>(
        alloc: Global,
        len: usize,
        fill: F,
    ) -> Result<Cells<T>, E>
        requires callable { CallableAtEachTurn (index_steps len) (λ p i q. (x : T) × F.step p i (Ok x) q) F.pre 0 fill }
        ensures count { IfOk result (λ c. length c ≡ len) }
        ensures filled { IfOk result (λ c. IsFilledBy (λ f i r g. F.step f i r g) fill 0 c) }
        ensures each { IfOk result (λ c. (k : ℕ) (x : T) → slice_get c k ≡ Some x → (p : F) × (q : F) × F.step p k (Ok x) q) }
        ensures error { IfErr result (λ e. E.from_gives alloc_error e ⊎ IsStoppedBy (λ f i r g. F.step f i r g) fill 0 len e) }
    {
        let part = Partial::vacant(alloc, len, 0)?;
        let part = fill_to_end(part, 0, len, fill)?;
        Ok(Cells {
            row: part.full(),
            len,
        })
    }

    /// Changes the number of elements to `len`. The first elements stay, each at its index. Those
    /// from `len` on are dropped. New ones are made by `fill`, which is called with each new index
    /// in turn.
    ///
    /// Err: the first error of `fill`, or one made from an `AllocError`. The elements are
    /// unchanged, and new ones made so far are dropped.
    pub fn resized<E: From<AllocError>, F: FnMut(usize) -> Result<T, E>>(
        &mut self,
        len: usize,
        fill: F,
    ) -> Result<(), E>
        requires callable { CallableAtEachTurn (index_steps len) (λ p i q. (x : T) × F.step p i (Ok x) q) F.pre (length self.old) fill }
        ensures count { IfOk result (λ _. length self.new ≡ len) }
        ensures filled { IfOk result (λ _. (cells : List T) × (self.new ≡ take len self.old ++ cells)
            × IsFilledBy (λ f i r g. F.step f i r g) fill (length self.old) cells) }
        ensures each { IfOk result (λ _. (k : ℕ) (x : T) → length self.old ≤ k → slice_get self.new k ≡ Some x
            → (p : F) × (q : F) × F.step p k (Ok x) q) }
        ensures same { IfErr result (λ _. self.new ≡ self.old) }
        ensures error { IfErr result (λ e. E.from_gives alloc_error e
            ⊎ IsStoppedBy (λ f i r g. F.step f i r g) fill (length self.old) len e) }
    {
        let kept = self.len();
        let part = new_behind(self.row.allocator(), kept, len, fill)?;
        replace_with(self, part, |old, part| (old.moved(part, len), ()));
        Ok(())
    }

    /// Moves the first elements into the empty places of `part` before its values, one into each.
    /// The other elements are dropped, and their block is freed. Returns the array of `len`
    /// elements.
    fn moved(self, mut part: Partial<T>, len: usize) -> Cells<T>
        requires { (part.before ≤ length self) × (part.after ≡ 0) × (len ≡ part.before + length part.items) }
        ensures { result ≡ take part.before self ++ part.items }
    {
        let Cells { row, len: count } = self;
        let mut old = Partial::of_full(row, count);
        old.shorten(part.before());
        'cells: while old.count() > 0 {
            part.push_front(old.pop_back());
        }
        old.free();
        Cells {
            row: part.full(),
            len,
        }
    }
}

impl<T: Drop> Drop for Cells<T> {
    fn drop(self) {
        let Cells { row, len } = self;
        Partial::of_full(row, len).clear();
    }
}

/// Makes a block of `len` places: empty ones for the first `kept` elements, or for those of them
/// that fit. After them are the values that `fill` returns. Err: the first error of `fill`, or one
/// made from an `AllocError`.
fn new_behind<T: Drop, E: From<AllocError>, F: FnMut(usize) -> Result<T, E>>(
    alloc: Global,
    kept: usize,
    len: usize,
    fill: F,
) -> Result<Partial<T>, E>
    requires callable { CallableAtEachTurn (index_steps len) (λ p i q. (x : T) × F.step p i (Ok x) q) F.pre kept fill }
    ensures shape { IfOk result (λ p. (p.before ≡ min len kept) × (p.before + length p.items ≡ len) × (p.after ≡ 0)) }
    ensures filled { IfOk result (λ p. IsFilledBy (λ f i r g. F.step f i r g) fill kept p.items) }
    ensures error { IfErr result (λ e. E.from_gives alloc_error e ⊎ IsStoppedBy (λ f i r g. F.step f i r g) fill kept len e) }
{
    if len <= kept {
        let part = Partial::vacant(alloc, len, len)?;
        return Ok(part);
    }
    let part = Partial::vacant(alloc, len, kept)?;
    let part = fill_to_end(part, kept, len, fill)?;
    Ok(part)
}
