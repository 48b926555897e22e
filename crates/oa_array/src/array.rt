//! Safe arrays.
ghost use Rattle.std.specs.Prelude.{◌≡◌, ◌+◌, ◌-◌, ◌<◌, ◌≤◌, Some, length, All, MatchOption, MatchResult, IfOk};
ghost use Rattle.std.specs.Prelude.{replicate};
ghost use Rattle.oa_array.specs.Boxes.{InBounds};
ghost use Rattle.oa_array.specs.promise.Boxes.{box_size};
ghost use Rattle.oa_array.specs.promise.Arrays.{ArrayValue, IsArrayShape, IsArray, array_element, with_cell};
ghost use Rattle.oa_array.specs.promise.Arrays.{with_locks, with_first, kept_by_position, redimensioned};
ghost use Rattle.oa_array.specs.Arrays.{all_cells};
ghost use Rattle.oa_array.specs.Faults.{RefusesCreate, RefusesPut, RefusesRedim};
ghost use Rattle.std.specs.Ordering.{eq_of_both, on};
ghost use Rattle.std.specs.Cmp.{and_per, on_per, and_equiv, on_equiv};
ghost use Rattle.std.specs.Cmp.Lexicographic.{pointwise, lists_per, lists_equiv};
ghost use Rattle.oa_model.specs.promise.Limits.{max_cells, max_cell_locks};
ghost use Rattle.oa_model.specs.contracts.var_type.VarTypePartialEq.TheImpl.Laws.{laws-law as type_per};
ghost use Rattle.oa_model.specs.contracts.var_type.VarTypeEq.TheImpl.Laws.{laws-law as type_equiv};
ghost use Rattle.oa_model.specs.contracts.bound.BoundPartialEq.TheImpl.Laws.{laws-law as bound_per};
ghost use Rattle.oa_model.specs.contracts.bound.BoundEq.TheImpl.Laws.{laws-law as bound_equiv};

use crate::cell::Cell;
use crate::fault::ArrayFault;
use crate::head::{BoundList, Head};
use crate::position::{position, size};
use oa_cells::Cells;
use oa_model::{Bound, MAX_CELL_LOCKS, MAX_DIMENSIONS, VarType};
use std::alloc::{AllocError, Global};
use std::fmt;
use std::marker::Model;

/// Returns the number of elements of an array of this type and these bounds. None if there is no
/// such array: the type has no sfType, there is no bound or more than 16, or there would be more
/// than 65,536 elements.
pub fn cell_count(elem: VarType, bounds: &[Bound]) -> Option<usize>
    ensures { MatchOption result (IsArrayShape elem bounds.now → ⊥)
        (λ n. IsArrayShape elem bounds.now × (n ≡ box_size bounds.now)) }
{
    let (first, others) = bounds.split_first()?;
    if bounds.len() > MAX_DIMENSIONS || elem.sf_type().is_none() {
        return None;
    }
    size(*first, others)
}

/// A safe array (SAFEARRAY, MS-OAUT section 2.2.30): a type, 1 to 16 bounds, an element for each
/// index list within them, and a count of locks. The last listed index varies fastest. Contracts
/// see it as an `ArrayValue`, with the elements in the order of their positions.
#[derive(Drop)]
pub struct SafeArray<T: Cell> {
    head: Box<Head>,
    cells: Cells<T>,
}

impl<T: Cell> Model for SafeArray<T> {
    ghost use Rattle.oa_array.specs.promise.Arrays.{ArrayValue, IsArray};
    ghost use Rattle.oa_array.specs.Heads.{bounds_in};

    ghost Value = { ArrayValue T };

    ghost view = { λ a. record { elem = a.head.value.elem; bounds = bounds_in a.head.value.bounds; cells = a.cells; locks = a.head.value.locks } };

    ghost invariant = { λ a. IsArray T.Fits
        (record { elem = a.head.value.elem; bounds = bounds_in a.head.value.bounds; cells = a.cells; locks = a.head.value.locks }) };
}

impl<T: Cell> SafeArray<T> {
    /// Makes an array without locks, whose elements are the zero value of their type.
    ///
    /// Errors: `InvalidArgument` if and only if there is no array of this type and these bounds
    /// (see `cell_count`); `Memory` if an allocation fails.
    pub fn create(
        alloc: Global,
        elem: VarType,
        bounds: &[Bound],
    ) -> Result<SafeArray<T>, ArrayFault>
        ensures { MatchResult result
            (λ a. IsArrayShape elem bounds.now × (a ≡ all_cells elem bounds.now (T.zero_of elem)))
            (λ fault. RefusesCreate elem bounds.now fault) }
    {
        let count = cell_count(elem, bounds).ok_or(ArrayFault::InvalidArgument)?;
        let cells = zeros(alloc, elem, count)?;
        let array = SafeArray::of_cells(alloc, elem, bounds, cells)?;
        Ok(array)
    }

    /// Makes an array without locks of these elements, which are in the order of their positions.
    /// There must be arrays of this type and these bounds (see `cell_count`), with this number of
    /// elements. Each element must be of the type. Err: an allocation fails.
    pub fn of_cells(
        alloc: Global,
        elem: VarType,
        bounds: &[Bound],
        cells: Cells<T>,
    ) -> Result<SafeArray<T>, AllocError>
        requires shape { IsArrayShape elem bounds.now }
        requires count { length cells ≡ box_size bounds.now }
        requires fits { All (λ cell. T.Fits cell elem) cells }
        ensures { IfOk result (λ a. a ≡ record { elem = elem; bounds = bounds.now; cells = cells; locks = 0 }) }
    {
        let bounds = BoundList::of_slice(alloc, bounds)?;
        let head = Box::new(
            alloc,
            Head {
                elem,
                locks: 0,
                bounds,
            },
        )?;
        Ok(SafeArray { head, cells })
    }

    /// Returns the type of the elements.
    pub fn elem(&self) -> VarType
        ensures { result ≡ self.now.elem }
    {
        self.head.elem
    }

    /// Returns the bounds, in the listed order.
    pub fn bounds(&self) -> &[Bound]
        ensures { result.now ≡ self.now.bounds }
    {
        self.head.bounds.as_slice()
    }

    /// Returns the elements, in the order of their positions.
    pub fn cells(&self) -> &[T]
        ensures value { result.now ≡ self.now.cells }
        ensures array { IsArray T.Fits self.now }
    {
        self.cells.as_slice()
    }

    /// Returns the number of locks.
    pub fn locks(&self) -> u16
        ensures { result ≡ self.now.locks }
    {
        self.head.locks
    }

    /// Returns the element at an index list, which has one index for each bound, in the same order.
    /// Err: `BadIndex` if and only if the index list is not within the bounds.
    pub fn element(&self, index: &[i32]) -> Result<&T, ArrayFault>
        ensures { MatchResult result
            (λ cell. InBounds self.now.bounds index.now × (array_element self.now index.now ≡ Some cell.now))
            (λ fault. (InBounds self.now.bounds index.now → ⊥) × (fault ≡ ArrayFault.BadIndex)) }
    {
        let place = position(self.bounds(), index, self.cells.len()).ok_or(ArrayFault::BadIndex)?;
        Ok(self.cells.get(place))
    }

    /// Replaces the element at an index list and returns the old one. All other elements stay.
    ///
    /// Errors: `BadIndex` if and only if the index list is not within the bounds; otherwise
    /// `TypeMismatch` if and only if the value is not of the type of the elements. Err contains the
    /// value, and nothing has changed.
    pub fn put_element(&mut self, index: &[i32], value: T) -> Result<T, (T, ArrayFault)>
        ensures { MatchResult result
            (λ was. InBounds self.old.bounds index.now × T.Fits value self.old.elem
            × (array_element self.old index.now ≡ Some was) × (self.new ≡ with_cell self.old index.now value))
            (λ refused. (refused.0 ≡ value) × RefusesPut T.Fits self.old index.now value refused.1 × (self.new ≡ self.old)) }
    {
        let count = self.cells.len();
        let Some(place) = position(self.bounds(), index, count) else {
            return Err((value, ArrayFault::BadIndex));
        };
        let elem = self.elem();
        if !value.fits(elem) {
            return Err((value, ArrayFault::TypeMismatch));
        }
        Ok(self.cells.replace(place, value))
    }

    /// Returns the number of elements that the array would have with another first bound. None if
    /// it is above 65,536; `redim` then refuses the bound.
    pub fn redim_count(&self, bound: Bound) -> Option<usize>
        ensures { MatchOption result (max_cells < box_size (with_first bound self.now.bounds))
            (λ n. (n ≡ box_size (with_first bound self.now.bounds)) × (n ≤ max_cells)) }
    {
        size(bound, &self.head.bounds.as_slice()[1..])
    }

    /// Replaces the first listed bound. Each element stays at its position. New elements are the
    /// zero value of the type.
    ///
    /// Errors, in this order: `IsLocked` if and only if the array is locked; `InvalidArgument` if
    /// and only if it would have more than 65,536 elements; `Memory` if an allocation fails. After
    /// an error nothing has changed. The elements use the allocator with which they were made;
    /// `_alloc` only shows that the call may allocate.
    pub fn redim(&mut self, _alloc: Global, bound: Bound) -> Result<(), ArrayFault>
        ensures { MatchResult result
            (λ _. (self.old.locks ≡ 0) × (box_size (with_first bound self.old.bounds) ≤ max_cells)
            × (self.new ≡ redimensioned (T.zero_of self.old.elem) bound self.old))
            (λ fault. RefusesRedim self.old bound fault × (self.new ≡ self.old)) }
    {
        if self.locks() > 0 {
            return Err(ArrayFault::IsLocked);
        }
        let count = self.redim_count(bound).ok_or(ArrayFault::InvalidArgument)?;
        resize(&mut self.cells, self.head.elem, count)?;
        self.head.bounds.set_first(bound);
        Ok(())
    }

    /// Adds a lock and returns the new number of locks. Err: `Unexpected` if and only if the array
    /// has 65,535 locks.
    pub fn lock(&mut self) -> Result<u16, ArrayFault>
        ensures { MatchResult result
            (λ count. (self.old.locks < max_cell_locks) × (count ≡ self.old.locks + 1) × (self.new ≡ with_locks self.old count))
            (λ fault. (fault ≡ ArrayFault.Unexpected) × (self.old.locks ≡ max_cell_locks) × (self.new ≡ self.old)) }
    {
        if self.head.locks == MAX_CELL_LOCKS {
            return Err(ArrayFault::Unexpected);
        }
        self.head.locks += 1;
        Ok(self.head.locks)
    }

    /// Removes a lock and returns the new number of locks. Err: `Unexpected` if and only if the
    /// array has no lock.
    pub fn unlock(&mut self) -> Result<u16, ArrayFault>
        ensures { MatchResult result
            (λ count. (count + 1 ≡ self.old.locks) × (self.new ≡ with_locks self.old count))
            (λ fault. (fault ≡ ArrayFault.Unexpected) × (self.old.locks ≡ 0) × (self.new ≡ self.old)) }
    {
        if self.head.locks == 0 {
            return Err(ArrayFault::Unexpected);
        }
        self.head.locks -= 1;
        Ok(self.head.locks)
    }

    /// Returns the same array without locks.
    pub fn into_unlocked(self) -> SafeArray<T>
        ensures { result ≡ with_locks self 0 }
    {
        let mut array = self;
        array.head.locks = 0;
        array
    }

    /// Returns an equal array in memory of its own, without locks. Err: an allocation fails.
    pub fn copy(&self, alloc: Global) -> Result<SafeArray<T>, AllocError>
        ensures { IfOk result (λ copy. copy ≡ with_locks self.now 0) }
    {
        let cells = copies(alloc, &self.cells)?;
        SafeArray::of_cells(alloc, self.elem(), self.bounds(), cells)
    }
}

/// Two arrays are equal if their types, bounds and elements are. Locks are not compared.
impl<T: Cell + PartialEq> PartialEq for SafeArray<T> {
    ghost eq = { eq_of_both (eq_of_both (on (λ a. a.elem) ⟦<VarType as PartialEq>⟧.eq)
        (on (λ a. a.bounds) (pointwise ⟦<Bound as PartialEq>⟧.eq))) (on (λ a. a.cells) (pointwise T.eq)) };

    ghost laws = { and_per (and_per (on_per (λ a. a.elem) type_per) (on_per (λ a. a.bounds) (lists_per bound_per)))
        (on_per (λ a. a.cells) (lists_per T.PartialEq.laws)) };

    fn eq(&self, other: &SafeArray<T>) -> bool {
        self.elem() == other.elem()
            && self.bounds() == other.bounds()
            && self.cells.as_slice() == other.cells.as_slice()
    }
}

impl<T: Cell + Eq> Eq for SafeArray<T> {
    ghost laws = { and_equiv (and_equiv (on_equiv (λ a. a.elem) type_equiv) (on_equiv (λ a. a.bounds) (lists_equiv bound_equiv)))
        (on_equiv (λ a. a.cells) (lists_equiv T.Eq.laws)) };
}

impl<T: Cell + fmt::Debug> fmt::Debug for SafeArray<T> {
    fn fmt<W: fmt::Write>(&self, f: &mut fmt::Formatter<W>) -> fmt::Result {
        f.debug_struct("SafeArray")
            .field("elem", &self.elem())
            .field("bounds", &self.bounds())
            .field("cells", &self.cells.as_slice())
            .field("locks", &self.locks())
            .finish()
    }
}

/// Makes `count` elements with the zero value of a type. Err: `Memory`.
fn zeros<T: Cell>(alloc: Global, elem: VarType, count: usize) -> Result<Cells<T>, ArrayFault>
    ensures { MatchResult result (λ cells. cells ≡ replicate count (T.zero_of elem)) (λ fault. fault ≡ ArrayFault.Memory) }
{
    Cells::filled_by(alloc, count, move |_| Ok::<T, ArrayFault>(T::zero(elem)))
}

/// Changes the number of elements to `count`. Each stays at its position, and new ones are the zero
/// value of the type. Err: `Memory`, and nothing has changed.
fn resize<T: Cell>(cells: &mut Cells<T>, elem: VarType, count: usize) -> Result<(), ArrayFault>
    ensures { MatchResult result
        (λ _. cells.new ≡ kept_by_position (T.zero_of elem) count cells.old)
        (λ fault. (fault ≡ ArrayFault.Memory) × (cells.new ≡ cells.old)) }
{
    cells.resized(count, move |_| Ok::<T, ArrayFault>(T::zero(elem)))
}

/// Returns a copy of the elements. Err: an allocation fails.
fn copies<T: Cell>(alloc: Global, from: &Cells<T>) -> Result<Cells<T>, AllocError>
    ensures { IfOk result (λ cells. cells ≡ from.now) }
{
    Cells::filled_by(alloc, from.len(), move |place| from.get(place).copy(alloc))
}
