//! The table of objects.
ghost use Rattle.std.specs.Prelude.{◌≡◌, ◌≤◌, ℕ, List, length, None, Ok, IfOk, IfErr, IsOk, OnOk, OnErr};
ghost use Rattle.std.specs.List.Sorted.{IsStrictlySortedBy};
ghost use Rattle.std.specs.Map.{keys_of};
ghost use Rattle.std.specs.Option.{option_map};
ghost use Rattle.std.specs.Ordering.{nat_cmp};
ghost use Rattle.oa_formats.specs.promise.Lengths.{value_size};
ghost use Rattle.oa_table.specs.promise.Elements.{locks_of};
ghost use Rattle.oa_table.specs.Events.{BringsNoLocks};
ghost use Rattle.oa_table.specs.promise.Events.{applied};
ghost use Rattle.oa_table.specs.Locks.{locked_in, locks_at};
ghost use Rattle.oa_table.specs.promise.Locks.{with_lock, without_lock};
ghost use Rattle.oa_table.specs.Memory.{MayWantMemory};
ghost use Rattle.oa_table.specs.Outcomes.{CountsLocks, Does};
ghost use Rattle.oa_table.specs.Parts.{CanBeLast, table_with_next, with_last};
ghost use Rattle.oa_table.specs.Sizes as sizes;
ghost use Rattle.oa_table.specs.Sizes.{largest_image, size_in};
ghost use Rattle.oa_table.specs.promise.Sizes.{table_size};
ghost use Rattle.oa_table.specs.promise.Tables.{cell_in, class_in, object_at};
ghost use Rattle.oa_table.specs.Tables.{first_table};

use crate::difference::Difference;
use crate::objects::Objects;
use crate::value::Room;
use crate::{CellName, Event, LiveObject, Place, TableFault};
use oa_array::Indices;
use oa_model::{Bound, GREATEST_OBJECT_NUMBER, MAX_CELLS, MAX_DIMENSIONS, MAX_TEXT_BYTES};
use oa_ordered::{Iter, OrderedMap};
use oa_variant::{Scalar, Variant};
use std::alloc::{AllocError, Global};
use std::marker::Model;
use uuid::Uuid;

/// The greatest size of an image in bytes. A change that would exceed it fails as out of memory.
pub const LARGEST_IMAGE: u64 = 0x7FFF_FFFF_FFFF_FFFF;

/// The greatest number of bytes of a cell in an image: its place, and its value, an array with the
/// most bounds and the longest texts.
const LARGEST_CELL: u64 = 2
    * (4 + 8 * MAX_DIMENSIONS as u64 + (6 + MAX_TEXT_BYTES as u64) * MAX_CELLS as u64);

/// A put into a table whose image has at most this many bytes leaves at most `LARGEST_IMAGE`.
const ROOM_FOR_ANY_PUT: u64 = LARGEST_IMAGE - LARGEST_CELL;

/// The table of objects: the next number, and the live objects by their numbers. A number is never
/// used again. The length of its image is kept with it.
#[derive(Drop)]
pub struct Table {
    objects: Objects,
    size: u64,
}

impl Model for Table {
    ghost use Rattle.oa_table.specs.Sizes.{HasKeptSize};
    ghost use Rattle.oa_table.specs.promise.Tables.{TableValue};

    ghost Value = { TableValue };

    ghost view = { λ t. t.objects };

    ghost invariant = { λ t. HasKeptSize t.objects t.size };
}

impl Table {
    /// Makes the first table: no objects, and the next number is 1. Allocates nothing.
    pub fn new(alloc: Global) -> Table
        ensures { result ≡ first_table }
    {
        Table::with_next(alloc, 1)
    }

    /// Makes a table without objects with this next number, at least 1. Allocates nothing.
    pub fn with_next(alloc: Global, next: u32) -> Table
        requires { 1 ≤ next }
        ensures { result ≡ table_with_next next }
    {
        Table {
            objects: Objects::with_next(alloc, next),
            size: 8,
        }
    }

    /// Appends an object with its number, the GUID of its coclass and its cells, which are without
    /// locks. The number is above all others and below the next one. Err: an allocation failed, or
    /// the image would have 2^63 bytes or more, and nothing changed.
    pub fn push(
        &mut self,
        number: u32,
        class: Uuid,
        cells: OrderedMap<Place, Variant>,
    ) -> Result<(), AllocError>
        requires { CanBeLast number (record { class = class; cells = cells }) self.old }
        ensures pushed { OnOk result (self.new ≡ with_last number (record { class = class; cells = cells }) self.old) }
        ensures err { OnErr result (self.new ≡ self.old) }
    {
        let object = LiveObject::of_cells(class, cells);
        let size = self.size as u128 + object.size();
        if size > LARGEST_IMAGE as u128 {
            return Err(AllocError);
        }
        self.objects.push(number, object)?;
        self.size = size as u64;
        Ok(())
    }

    /// Returns the number of the next object; it is above the greatest number if the numbers are
    /// used up.
    pub fn next(&self) -> u32
        ensures { result ≡ self.now.next }
    {
        self.objects.next()
    }

    /// Returns the number of live objects.
    pub fn len(&self) -> usize
        ensures { result ≡ length self.now.objects }
    {
        self.objects.len()
    }

    /// Returns the objects by rising number, each with its cells. Allocates nothing.
    pub fn objects(&self) -> Iter<'_, u32, LiveObject>
        ensures { result ≡ self.now.objects }
    {
        self.objects.objects()
    }

    /// Does nothing; its contract states that the numbers of the objects rise.
    pub fn numbers_rise(&self)
        ensures { IsStrictlySortedBy nat_cmp (keys_of self.now.objects) }
    {
        self.objects.numbers_rise();
    }

    /// Returns the GUID of the coclass of the object with this number; None if there is no such
    /// object.
    pub fn class_of(&self, number: u32) -> Option<Uuid>
        ensures { result ≡ class_in (object_at number self.now) }
    {
        Some(self.objects.get(number)?.class())
    }

    /// Returns the object with this number; None if there is none.
    pub fn object(&self, number: u32) -> Option<&LiveObject>
        ensures { option_map (λ o. o.now) result ≡ object_at number self.now }
    {
        self.objects.get(number)
    }

    /// Returns the last value that was put into a cell; None if there was none, or no such object.
    pub fn get(&self, name: &CellName) -> Option<&Variant>
        ensures { option_map (λ x. x.now) result ≡ cell_in name.now.place (object_at name.now.object self.now) }
    {
        self.objects.get(name.object)?.get(&name.place)
    }

    /// Returns whether an array of the object with this number is locked. Reads the cells of that
    /// object.
    pub fn locked(&self, number: u32) -> bool
        ensures { result ≡ locked_in (object_at number self.now) }
    {
        self.objects.locked(number)
    }

    /// Returns the length in bytes of the table's image, which is kept, in constant time.
    pub fn image_size(&self) -> u64
        ensures { result ≡ table_size self.now }
    {
        self.size
    }

    /// Returns the length in bytes of the image after an event; if the event does not apply, that
    /// of the image now. Allocates nothing. It reads only the event's own cell: the elements of a
    /// value that is put or replaced, or those that a shorter array loses. For a release it reads
    /// the cells of the object.
    pub fn size_after(&self, event: &Event) -> u64
        ensures { result ≡ sizes.size_after event.now self.now }
    {
        match event {
            Event::Create { number, .. } => self.size_with(*number),
            Event::Release { number } => self.size_without(*number),
            Event::Put { name, value } => self.size_with_put(name, value),
            Event::PutElement { name, index, value } => self.size_with_element(name, index, value),
            Event::Redim { name, bound } => self.size_with_bound(name, *bound),
        }
    }

    /// Returns the length in bytes of the image after the creation of an object.
    fn size_with(&self, number: u32) -> u64
        ensures { (class : List ℕ) → result ≡ sizes.size_after (Event.Create number class) self.now }
    {
        self.numbers_rise();
        if number != self.next() || number > GREATEST_OBJECT_NUMBER {
            return self.size;
        }
        self.size + 24 - self.size_of(number)
    }

    /// Returns the length in bytes of the image after the release of an object.
    fn size_without(&self, number: u32) -> u64
        ensures { result ≡ sizes.size_after (Event.Release number) self.now }
    {
        if self.locked(number) {
            return self.size;
        }
        self.size - self.size_of(number)
    }

    /// Returns the length in bytes of the image after a put.
    fn size_with_put(&self, name: &CellName, value: &Variant) -> u64
        ensures { result ≡ sizes.size_after (Event.Put name.now value.now) self.now }
    {
        match self.objects.get(name.object) {
            Some(object) => {
                let change = object.put_difference(&name.place, value);
                self.size + change.come - change.gone
            }
            None => self.size,
        }
    }

    /// Returns the length in bytes of the image after an element of an array is set.
    fn size_with_element(&self, name: &CellName, index: &Indices, value: &Scalar) -> u64
        ensures { result ≡ sizes.size_after (Event.PutElement name.now index.now value.now) self.now }
    {
        match self.objects.get(name.object) {
            Some(object) => {
                let change = object.element_difference(&name.place, index.as_slice(), value);
                self.size + change.come - change.gone
            }
            None => self.size,
        }
    }

    /// Returns the length in bytes of the image after an array gets another first bound.
    fn size_with_bound(&self, name: &CellName, bound: Bound) -> u64
        ensures { result ≡ sizes.size_after (Event.Redim name.now bound) self.now }
    {
        match self.objects.get(name.object) {
            Some(object) => {
                let change = object.redim_difference(&name.place, bound);
                self.size + change.come - change.gone
            }
            None => self.size,
        }
    }

    /// Returns the length in bytes of an object's image; 0 if there is no such object.
    fn size_of(&self, number: u32) -> u64
        ensures { result ≡ size_in (object_at number self.now) }
    {
        match self.objects.get(number) {
            Some(object) => object.size() as u64,
            None => 0,
        }
    }

    /// Applies an event. A value that is put has no locks. A `Create`, a `Put` into a cell that was
    /// never put, and a `Redim` allocate.
    ///
    /// Err: the event does not apply (`NoObject`, `WrongNumber`, `NotArray`, `Array`), or `Memory`.
    /// The event is returned with the reason, and nothing changes. `Memory` is also the error of
    /// each event but a `Release` if the image would have 2^63 bytes or more.
    #[inline(always)]
    pub fn apply(&mut self, event: Event) -> Result<(), (Event, TableFault)>
        requires { BringsNoLocks event }
        ensures does { Does event (applied event self.old) self.old self.new result }
        ensures starved { IfErr result (λ e. e.1 ≡ TableFault.Memory → MayWantMemory event self.old) }
    {
        match event {
            Event::Put { name, value } => self.put(name, value),
            event => self.change(event),
        }
    }

    /// Creates an object of coclass `class`: applies the event with `number`, which must be the
    /// next number. Errors: `WrongNumber`, `Memory`; the event is returned, and nothing changes.
    pub fn create(&mut self, number: u32, class: Uuid) -> Result<(), (Event, TableFault)>
        ensures { let event = Event.Create number class in Does event (applied event self.old) self.old self.new result }
    {
        self.apply(Event::Create { number, class })
    }

    /// Releases the object with this number. Errors: `NoObject`; `Array(IsLocked)` if an array of
    /// it is locked. The event is returned, and nothing changes. It never fails as out of memory.
    pub fn release(&mut self, number: u32) -> Result<(), (Event, TableFault)>
        ensures does { let event = Event.Release number in Does event (applied event self.old) self.old self.new result }
        ensures starved { IfErr result (λ e. e.1 ≡ TableFault.Memory → ⊥) }
    {
        self.apply(Event::Release { number })
    }

    /// Sets a cell, with one look-up for the cell and for the difference in size. Errors:
    /// `NoObject`, `Array(IsLocked)`, `Memory`; the event is returned, and nothing changes.
    #[inline(always)]
    pub fn put(&mut self, name: CellName, value: Variant) -> Result<(), (Event, TableFault)>
        requires { locks_of value ≡ 0 }
        ensures does { let event = Event.Put name value in Does event (applied event self.old) self.old self.new result }
        ensures starved { IfErr result (λ e. e.1 ≡ TableFault.Memory → MayWantMemory (Event.Put name value) self.old) }
    {
        // Most puts overwrite a value: these have no event to return.
        let value = match self.overwrite(&name, value, u64::MAX, LARGEST_IMAGE) {
            Ok(()) => return Ok(()),
            Err(value) => value,
        };
        if self.size > ROOM_FOR_ANY_PUT {
            return self.change(Event::Put { name, value });
        }
        // A match: `?` would move the whole result, which has space for a refused event, on each
        // put.
        match self.objects.put(name, value) {
            Ok(change) => {
                self.size = self.size + change.come - change.gone;
                Ok(())
            }
            Err(refused) => Err(refused),
        }
    }

    /// Overwrites a cell that was put before. The new value's image must have at most `longest`
    /// bytes, and the table's image then at most `most` bytes. Otherwise (no such cell, too long,
    /// locked) it returns the value as the error, and nothing changes. Allocates nothing.
    pub fn overwrite(
        &mut self,
        name: &CellName,
        value: Variant,
        longest: u64,
        most: u64,
    ) -> Result<(), Variant>
        requires { most ≤ largest_image }
        ensures done { OnOk result (applied (Event.Put name.now value) self.old ≡ Ok self.new) }
        ensures longest { OnOk result (value_size value ≤ longest) }
        ensures most { OnOk result (table_size self.new ≤ most) }
        ensures back { IfErr result (λ back. (back ≡ value) × (self.new ≡ self.old)) }
        ensures refused { let event = Event.Put name.now value in OnErr result (IsOk (applied event self.old) → value_size value ≤ longest
            → sizes.size_after event self.old ≤ most → cell_in name.now.place (object_at name.now.object self.old) ≡ None) }
    {
        let room = Room {
            longest,
            size: self.size,
            most,
        };
        match self.objects.overwrite(name, value, room) {
            Ok(Difference { gone, come }) => {
                self.size = self.size + come - gone;
                Ok(())
            }
            Err(value) => Err(value),
        }
    }

    /// Sets the element at an index list of the array in a cell. Errors: `NoObject`; `NotArray`;
    /// `Array` with what the array refuses; `Memory`. The event is returned, and nothing changes.
    pub fn put_element(
        &mut self,
        name: CellName,
        index: Indices,
        value: Scalar,
    ) -> Result<(), (Event, TableFault)>
        ensures does { let event = Event.PutElement name index value in Does event (applied event self.old) self.old self.new result }
        ensures starved { IfErr result (λ e. e.1 ≡ TableFault.Memory → MayWantMemory (Event.PutElement name index value) self.old) }
    {
        self.apply(Event::PutElement { name, index, value })
    }

    /// Replaces the first bound of the array in a cell. Errors: `NoObject`; `NotArray`; `Array`
    /// with what the array refuses; `Memory`. The event is returned, and nothing changes.
    pub fn redim(&mut self, name: CellName, bound: Bound) -> Result<(), (Event, TableFault)>
        ensures { let event = Event.Redim name bound in Does event (applied event self.old) self.old self.new result }
    {
        self.apply(Event::Redim { name, bound })
    }

    /// Applies an event, after computing the size that it leaves. Errors are those of `apply`.
    fn change(&mut self, event: Event) -> Result<(), (Event, TableFault)>
        requires { BringsNoLocks event }
        ensures does { Does event (applied event self.old) self.old self.new result }
        ensures starved { IfErr result (λ e. e.1 ≡ TableFault.Memory → MayWantMemory event self.old) }
    {
        let size = self.size_after(&event);
        if size > LARGEST_IMAGE {
            return Err((event, TableFault::Memory));
        }
        match self.objects.apply(event) {
            Ok(()) => {
                self.size = size;
                Ok(())
            }
            Err(refused) => Err(refused),
        }
    }

    /// Adds a lock to the array in a cell, and returns the new number of locks. Errors: `NoObject`;
    /// `NotArray` if the cell was never put or has no array; `Array` with what the array refuses.
    /// Allocates nothing.
    pub fn lock(&mut self, name: &CellName) -> Result<u16, TableFault>
        ensures { CountsLocks (with_lock name.now self.old) (locks_at name.now) self.old self.new result }
    {
        self.objects.lock(name)
    }

    /// Removes a lock from the array in a cell, and returns the new number of locks. Errors:
    /// `NoObject`; `NotArray` if the cell was never put or has no array; `Array` with what the
    /// array refuses. Allocates nothing.
    pub fn unlock(&mut self, name: &CellName) -> Result<u16, TableFault>
        ensures { CountsLocks (without_lock name.now self.old) (locks_at name.now) self.old self.new result }
    {
        self.objects.unlock(name)
    }
}
