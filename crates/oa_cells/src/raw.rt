//! The functions of this crate that use a pointer; no others do. Each is proved by hand.
//!
//! Three values together own a block: its start, its places, and the right to free it. None of them
//! can be lost or used twice. What they know is in ghost fields; at run time they take one word.
ghost use Rattle.std.specs.Prelude.{◌≡◌, ℕ, ◌<◌, List, Option, Some, None, map, length, take, replicate, get_or, slice_set, IfOk, ⊤};
ghost use Rattle.std.specs.Vec.Ownership.{FitsInBlock};
ghost use base.Fml.{ftrue};
ghost use denote.RawPtr.{Ptr};
ghost use Rattle.oa_cells.specs.Places.{HasValue, BeginsFilled};
ghost use Rattle.oa_cells.specs.Ownership.{places_owned, places_lent, freeing};

use std::alloc::{AllocError, Allocator};
use std::marker::{Model, PhantomData};
use std::mem::{align_of, size_of};
use std::slice;

/// The start of a block. It owns nothing, so it may be copied.
pub struct Start<T> {
    ptr: *mut T,
}

impl<T> Clone for Start<T> {
    ghost is_clone = { λ x y. y ≡ x };

    ghost is_infallible = { λ _. ⊤ };

    fn clone(&self) -> Result<Start<T>, AllocError> {
        Ok(*self)
    }
}

impl<T> Copy for Start<T> {}

/// The places of a block and the values in them. `slots` contains for each place None if it is
/// empty, otherwise its value.
pub struct Places<T> {
    mark: PhantomData<*const T>,
    ghost at: { Ptr },
    ghost slots: { List (Option T) },
}

impl<T> Model for Places<T> {
    ghost also_owns = { λ p. places_owned T.row p.at p.slots };

    ghost also_shares = { λ p _ κ. places_lent T.row p.at p.slots κ };
}

/// The right to free the block of `len` places at `at`, which the allocator `alloc` has allocated.
pub struct FreeRight<T, A: Allocator> {
    mark: PhantomData<*const (T, A)>,
    ghost at: { Ptr },
    ghost len: { ℕ },
    ghost alloc: { A },
}

impl<T, A: Allocator> Model for FreeRight<T, A> {
    ghost also_owns = { λ f. freeing T.row (A.dealloc_token f.alloc) f.at f.len };

    ghost also_shares = { λ _ _ _. ftrue };
}

/// Allocates a block of `len` empty places by one call of the allocator. Returns its start, its
/// places and the right to free it. Err: the allocation fails.
pub(crate) fn allocate<T, A: Allocator>(
    alloc: &A,
    len: usize,
) -> Result<(Start<T>, Places<T>, FreeRight<T, A>), AllocError>
    requires { FitsInBlock T.row len }
    ensures { IfOk result (λ r. (r.1.at ≡ r.0.ptr) × (r.1.slots ≡ replicate len None) × (r.2.at ≡ r.0.ptr) × (r.2.len ≡ len)
        × (r.2.alloc ≡ alloc.now)) }
{
    match alloc.allocate(len * size_of::<T>(), align_of::<T>()) {
        Ok(block) => {
            let start = Start {
                ptr: block as *mut T,
            };
            Ok((
                start,
                Places { mark: PhantomData },
                FreeRight { mark: PhantomData },
            ))
        }
        Err(error) => Err(error),
    }
}

/// Frees the block of `len` places in one step. Values that are still in it are forgotten, not
/// dropped. The callers of `Row::freed` require that there are none, or that values of their type
/// need no drop.
pub(crate) fn release<T, A: Allocator>(
    alloc: &A,
    start: Start<T>,
    len: usize,
    places: Places<T>,
    right: FreeRight<T, A>,
)
    requires { (places.at ≡ start.ptr) × (length places.slots ≡ len) × (right.at ≡ start.ptr) × (right.len ≡ len)
        × (right.alloc ≡ alloc.now) }
{
    let Places { mark: _ } = places;
    let FreeRight { mark: _ } = right;
    unsafe {
        alloc.deallocate(start.ptr as *mut u8, len * size_of::<T>(), align_of::<T>());
    }
}

impl<T> Places<T> {
    /// Writes a value into the empty place at an index.
    pub(crate) fn write(&mut self, start: Start<T>, index: usize, item: T)
        requires { (start.ptr ≡ self.old.at) × (index < length self.old.slots) × (get_or self.old.slots index None ≡ None) }
        ensures { (self.new.at ≡ self.old.at) × (self.new.slots ≡ slice_set self.old.slots index (Some item)) }
    {
        unsafe { start.ptr.add(index).write(item) }
    }

    /// Moves the value out of the place at an index, which is empty afterwards, and returns it.
    pub(crate) fn read(&mut self, start: Start<T>, index: usize) -> T
        requires { (start.ptr ≡ self.old.at) × HasValue self.old.slots index }
        ensures { (get_or self.old.slots index None ≡ Some result) × (self.new.at ≡ self.old.at)
            × (self.new.slots ≡ slice_set self.old.slots index None) }
    {
        unsafe { start.ptr.add(index).read() }
    }

    /// Returns the values of the first `len` places, all of which are filled.
    pub(crate) fn first(&self, start: Start<T>, len: usize) -> &[T]
        requires { (start.ptr ≡ self.now.at) × BeginsFilled self.now.slots len }
        ensures { take len self.now.slots ≡ map Some result.now }
    {
        unsafe { slice::from_raw_parts(start.ptr, len) }
    }
}
