//! The objects of a table, and their changes.
ghost use Rattle.std.specs.Prelude.{◌≡◌, ◌<◌, ◌≤◌, ◌+◌, All, length, None, Ok, IfOk, IfErr, IsOk, OnOk, OnErr};
ghost use Rattle.std.specs.List.Sorted.{IsStrictlySortedBy};
ghost use Rattle.std.specs.Map.{keys_of};
ghost use Rattle.std.specs.Option.{option_map};
ghost use Rattle.std.specs.Ordering.{nat_cmp};
ghost use Rattle.oa_formats.specs.promise.Lengths.{value_size};
ghost use Rattle.oa_table.specs.Events.{BringsNoLocks};
ghost use Rattle.oa_table.specs.promise.Events.{applied};
ghost use Rattle.oa_table.specs.Locks.{locked_in, locks_at};
ghost use Rattle.oa_table.specs.promise.Locks.{with_lock, without_lock};
ghost use Rattle.oa_table.specs.Memory.{MayWantMemory};
ghost use Rattle.oa_table.specs.Outcomes.{CountsLocks, Does};
ghost use Rattle.oa_table.specs.Parts.{table_with_next, with_last};
ghost use Rattle.oa_table.specs.Sizes.{largest_cell, largest_image, size_after};
ghost use Rattle.oa_table.specs.promise.Sizes.{table_size};
ghost use Rattle.oa_table.specs.promise.Tables.{cell_in, object_at};

use crate::difference::Difference;
use crate::value::Room;
use crate::{CellName, Event, LiveObject, TableFault};
use oa_array::{ArrayFault, Indices};
use oa_model::{Bound, GREATEST_OBJECT_NUMBER};
use oa_ordered::{Iter, OrderedMap};
use oa_variant::{Scalar, Variant};
use std::alloc::{AllocError, Global};
use std::marker::Model;
use uuid::Uuid;

/// The next number, and the live objects by their numbers: a table without its size.
#[derive(Drop)]
pub(crate) struct Objects {
    alloc: Global,
    next: u32,
    objects: OrderedMap<u32, LiveObject>,
}

impl Model for Objects {
    ghost use Rattle.oa_table.specs.promise.Tables.{TableValue};

    ghost Value = { TableValue };

    ghost view = { λ t. record { next = t.next; objects = t.objects } };
}

/// Returns the place of the object with this number among all, counted from 0, if none before it
/// was released.
fn near(number: u32) -> usize {
    number.saturating_sub(1) as usize
}

impl Objects {
    /// Makes a table with no objects and this next number. Allocates nothing.
    pub(crate) fn with_next(alloc: Global, next: u32) -> Objects
        ensures { result ≡ table_with_next next }
    {
        Objects {
            alloc,
            next,
            objects: OrderedMap::new(alloc),
        }
    }

    /// Appends an object with this number, which is above all others. Err: an allocation failed,
    /// and nothing changed.
    pub(crate) fn push(&mut self, number: u32, object: LiveObject) -> Result<(), AllocError>
        requires { All (λ other. other < number) (keys_of self.old.objects) }
        ensures pushed { OnOk result (self.new ≡ with_last number object self.old) }
        ensures err { OnErr result (self.new ≡ self.old) }
    {
        self.objects.insert(number, object)?;
        Ok(())
    }

    /// Returns the number of the next object; it is above the greatest number if the numbers are
    /// used up.
    pub(crate) fn next(&self) -> u32
        ensures { result ≡ self.now.next }
    {
        self.next
    }

    /// Returns the number of live objects.
    pub(crate) fn len(&self) -> usize
        ensures { result ≡ length self.now.objects }
    {
        self.objects.len()
    }

    /// Returns the objects by rising number, each with its cells. Allocates nothing.
    pub(crate) fn objects(&self) -> Iter<'_, u32, LiveObject>
        ensures { result ≡ self.now.objects }
    {
        self.objects.iter()
    }

    /// Does nothing; its contract states that the numbers of the objects rise.
    pub(crate) fn numbers_rise(&self)
        ensures { IsStrictlySortedBy nat_cmp (keys_of self.now.objects) }
    {
        // For the prover: the clause `ordered` of `len`.
        let _count = self.objects.len();
    }

    /// Returns the object with this number; None if it is not live.
    pub(crate) fn get(&self, number: u32) -> Option<&LiveObject>
        ensures { option_map (λ o. o.now) result ≡ object_at number self.now }
    {
        self.objects.get_near(&number, near(number))
    }

    /// Returns whether an array of the object with this number is locked. Reads the cells of that
    /// object.
    pub(crate) fn locked(&self, number: u32) -> bool
        ensures { result ≡ locked_in (object_at number self.now) }
    {
        match self.objects.get_near(&number, near(number)) {
            Some(object) => object.is_locked(),
            None => false,
        }
    }

    /// Applies an event. A value that is put has no locks. Err: the event does not apply, or an
    /// allocation failed; it is returned with the reason, and nothing changed.
    pub(crate) fn apply(&mut self, event: Event) -> Result<(), (Event, TableFault)>
        requires { BringsNoLocks event }
        ensures does { Does event (applied event self.old) self.old self.new result }
        ensures starved { IfErr result (λ e. e.1 ≡ TableFault.Memory → MayWantMemory event self.old) }
    {
        match event {
            Event::Create { number, class } => self.create(number, class),
            Event::Release { number } => self.release(number),
            Event::Put { name, value } => match self.put(name, value) {
                Ok(_) => Ok(()),
                Err(refused) => Err(refused),
            },
            Event::PutElement { name, index, value } => self.put_element(name, index, value),
            Event::Redim { name, bound } => self.redim(name, bound),
        }
    }

    /// Adds a lock to the array in a cell, and returns the new number of locks. Errors: `NoObject`;
    /// `NotArray` if the cell was never put or has no array; otherwise what the array refuses.
    /// Allocates nothing.
    pub(crate) fn lock(&mut self, name: &CellName) -> Result<u16, TableFault>
        ensures { CountsLocks (with_lock name.now self.old) (locks_at name.now) self.old self.new result }
    {
        let Some(found) = self.objects.get_mut_near(&name.object, near(name.object)) else {
            return Err(TableFault::NoObject);
        };
        found.lock(&name.place)
    }

    /// Removes a lock from the array in a cell, and returns the new number of locks. Errors:
    /// `NoObject`; `NotArray` if the cell was never put or has no array; otherwise what the array
    /// refuses. Allocates nothing.
    pub(crate) fn unlock(&mut self, name: &CellName) -> Result<u16, TableFault>
        ensures { CountsLocks (without_lock name.now self.old) (locks_at name.now) self.old self.new result }
    {
        let Some(found) = self.objects.get_mut_near(&name.object, near(name.object)) else {
            return Err(TableFault::NoObject);
        };
        found.unlock(&name.place)
    }

    /// Adds an object with the next number. Err: `WrongNumber` if `number` is not that or is too
    /// large; `Memory`.
    fn create(&mut self, number: u32, class: Uuid) -> Result<(), (Event, TableFault)>
        ensures { let event = Event.Create number class in Does event (applied event self.old) self.old self.new result }
    {
        if number != self.next || number > GREATEST_OBJECT_NUMBER {
            return Err((Event::Create { number, class }, TableFault::WrongNumber));
        }
        match self
            .objects
            .insert(number, LiveObject::new(self.alloc, class))
        {
            Ok(_) => {
                self.next = number + 1;
                Ok(())
            }
            Err(_) => Err((Event::Create { number, class }, TableFault::Memory)),
        }
    }

    /// Removes an object. Err: an array of it is locked, or there is none (`NoObject`).
    fn release(&mut self, number: u32) -> Result<(), (Event, TableFault)>
        ensures does { let event = Event.Release number in Does event (applied event self.old) self.old self.new result }
        ensures starved { IfErr result (λ e. e.1 ≡ TableFault.Memory → MayWantMemory (Event.Release number) self.old) }
    {
        if self.locked(number) {
            return Err((
                Event::Release { number },
                TableFault::Array(ArrayFault::IsLocked),
            ));
        }
        match self.objects.remove(&number) {
            Some(_) => Ok(()),
            None => Err((Event::Release { number }, TableFault::NoObject)),
        }
    }

    /// Sets a cell, and returns the difference in size. Err: `NoObject`, the array in the cell is
    /// locked, or an allocation failed; the event is returned, and nothing changed.
    #[inline(always)]
    pub(crate) fn put(
        &mut self,
        name: CellName,
        value: Variant,
    ) -> Result<Difference, (Event, TableFault)>
        ensures does { let event = Event.Put name value in Does event (applied event self.old) self.old self.new result }
        ensures size { IfOk result (λ change. table_size self.new + change.gone ≡ table_size self.old + change.come) }
        ensures small { IfOk result (λ change. change.come ≤ largest_cell) }
        ensures starved { IfErr result (λ e. e.1 ≡ TableFault.Memory → MayWantMemory (Event.Put name value) self.old) }
    {
        let CellName { object, place } = name;
        let Some(found) = self.objects.get_mut_near(&object, near(object)) else {
            let name = CellName { object, place };
            return Err((Event::Put { name, value }, TableFault::NoObject));
        };
        let change = match found.put(place, value) {
            Ok(change) => change,
            Err(((place, value), fault)) => {
                let name = CellName { object, place };
                return Err((Event::Put { name, value }, fault));
            }
        };
        Ok(change)
    }

    /// Overwrites a cell that was put before, and returns the difference in size. Err: there is no
    /// such cell, it is above the limits of `room`, or it is locked; the value is returned, and
    /// nothing changes. Allocates nothing.
    #[inline(always)]
    pub(crate) fn overwrite(
        &mut self,
        name: &CellName,
        value: Variant,
        room: Room,
    ) -> Result<Difference, Variant>
        requires { (room.size ≤ largest_image) × (room.most ≤ largest_image) }
        ensures done { OnOk result (applied (Event.Put name.now value) self.old ≡ Ok self.new) }
        ensures size { IfOk result (λ change. table_size self.new + change.gone ≡ table_size self.old + change.come) }
        ensures small { IfOk result (λ change. change.come ≤ largest_cell) }
        ensures within { IfOk result (λ change. room.size + change.come ≤ room.most + change.gone) }
        ensures longest { OnOk result (value_size value ≤ room.longest) }
        ensures back { IfErr result (λ back. (back ≡ value) × (self.new ≡ self.old)) }
        ensures refused { let event = Event.Put name.now value in OnErr result (IsOk (applied event self.old)
            → value_size value ≤ room.longest → room.size + size_after event self.old ≤ room.most + table_size self.old
            → cell_in name.now.place (object_at name.now.object self.old) ≡ None) }
    {
        let Some(found) = self.objects.get_mut_near(&name.object, near(name.object)) else {
            return Err(value);
        };
        found.overwrite(&name.place, value, room)
    }

    /// Sets an element of the array in a cell. Err: `NoObject`, `NotArray`, or what the array
    /// refuses.
    fn put_element(
        &mut self,
        name: CellName,
        index: Indices,
        value: Scalar,
    ) -> Result<(), (Event, TableFault)>
        ensures does { let event = Event.PutElement name index value in Does event (applied event self.old) self.old self.new result }
        ensures starved { IfErr result (λ e. e.1 ≡ TableFault.Memory → MayWantMemory (Event.PutElement name index value) self.old) }
    {
        let Some(found) = self.objects.get_mut_near(&name.object, near(name.object)) else {
            return Err((
                Event::PutElement { name, index, value },
                TableFault::NoObject,
            ));
        };
        let Err((value, fault)) = found.put_element(&name.place, index.as_slice(), value) else {
            return Ok(());
        };
        Err((Event::PutElement { name, index, value }, fault))
    }

    /// Replaces the first bound of the array in a cell. Err: `NoObject`, `NotArray`, `Memory`, or
    /// what the array refuses.
    fn redim(&mut self, name: CellName, bound: Bound) -> Result<(), (Event, TableFault)>
        ensures { let event = Event.Redim name bound in Does event (applied event self.old) self.old self.new result }
    {
        let Some(found) = self.objects.get_mut_near(&name.object, near(name.object)) else {
            return Err((Event::Redim { name, bound }, TableFault::NoObject));
        };
        let Err((bound, fault)) = found.redim(self.alloc, &name.place, bound) else {
            return Ok(());
        };
        Err((Event::Redim { name, bound }, fault))
    }
}
