//! A block of memory as a list of places, without pointers.
ghost use Rattle.std.specs.Prelude.{◌≡◌, ◌<◌, List, Option, Some, None, map, length, take, replicate, get_or, slice_set, IfOk};
ghost use Rattle.oa_cells.specs.Places.{HasValue, BeginsFilled};

use crate::raw::{FreeRight, Places, Start, allocate, release};
use std::alloc::{AllocError, Global};
use std::marker::Model;
use std_alloc::room::may_hold;

/// A block of memory: a row of places, each empty or with a value. The struct has one word.
///
/// A row does not implement `Drop`: its owner must free it, by `free_plain` if its values need no
/// drop, or inside this crate by `free`, after each place has become empty.
pub struct Row<T> {
    start: Start<T>,
    places: Places<T>,
    right: FreeRight<T, Global>,
    alloc: Global,
}

impl<T> Model for Row<T> {
    ghost Value = { List (Option T) };

    ghost view = { λ r. r.places.slots };

    ghost invariant = { λ r. (r.places.at ≡ r.start.ptr) × (r.right.at ≡ r.start.ptr) × (r.right.len ≡ length r.places.slots)
        × (r.right.alloc ≡ r.alloc) };
}

impl<T> Row<T> {
    /// Returns a new block of `len` empty places. Err: the allocation fails, or the block would
    /// have 2 ^ 63 places or bytes or more; then the allocator is not called.
    pub(crate) fn vacant(alloc: Global, len: usize) -> Result<Row<T>, AllocError>
        ensures { IfOk result (λ r. r ≡ replicate len None) }
    {
        if !may_hold::<T>(len) {
            return Err(AllocError);
        }
        let (start, places, right) = allocate(&alloc, len)?;
        Ok(Row {
            start,
            places,
            right,
            alloc,
        })
    }

    /// Returns the allocator of the block.
    pub(crate) fn allocator(&self) -> Global {
        self.alloc
    }

    /// Writes a value into the empty place at an index.
    pub(crate) fn put(&mut self, index: usize, item: T)
        requires { (index < length self.old) × (get_or self.old index None ≡ None) }
        ensures { self.new ≡ slice_set self.old index (Some item) }
    {
        self.places.write(self.start, index, item);
    }

    /// Moves the value out of the place at an index, which is empty afterwards, and returns it.
    pub(crate) fn take(&mut self, index: usize) -> T
        requires { HasValue self.old index }
        ensures value { get_or self.old index None ≡ Some result }
        ensures emptied { self.new ≡ slice_set self.old index None }
    {
        self.places.read(self.start, index)
    }

    /// Returns the values of the first `len` places, all of which are filled.
    pub fn first(&self, len: usize) -> &[T]
        requires { BeginsFilled self.now len }
        ensures { take len self.now ≡ map Some result.now }
    {
        self.places.first(self.start, len)
    }

    /// Frees the block of `len` places, all of which are empty.
    pub(crate) fn free(self, len: usize)
        requires { self ≡ replicate len None }
    {
        self.freed(len);
    }

    /// Frees the block in one step, whatever is in it.
    fn freed(self, len: usize)
        requires { length self ≡ len }
    {
        let Row {
            start,
            places,
            right,
            alloc,
        } = self;
        release(&alloc, start, len, places, right);
    }
}

impl<T: Copy> Row<T> {
    /// Frees the block of `len` places in one step, with the values in it, which need no drop.
    pub fn free_plain(self, len: usize)
        requires { length self ≡ len }
    {
        self.freed(len);
    }
}
