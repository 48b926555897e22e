//! The objects of a table.
ghost use Rattle.std.specs.Prelude.{◌≡◌, ◌≤◌, ◌+◌, [], None, Ok, IfOk, IfErr, IsOk, OnErr, OnOk};
ghost use Rattle.std.specs.List.Sorted.{IsStrictlySortedBy};
ghost use Rattle.std.specs.Map.{keys_of};
ghost use Rattle.std.specs.Option.{option_map};
ghost use Rattle.oa_formats.specs.promise.Lengths.{value_size};
ghost use Rattle.oa_table.specs.promise.Elements.{with_element_put, locked_value, redimensioned_value, released_value};
ghost use Rattle.oa_table.specs.promise.Objects.{any_locked, locks_of_cell, with_change, with_put};
ghost use Rattle.oa_table.specs.Outcomes.{CountsLocks, Does};
ghost use Rattle.oa_table.specs.promise.Places.{place_cmp};
ghost use Rattle.oa_table.specs.Sizes.{largest_cell, largest_image, largest_object, size_due};
ghost use Rattle.oa_table.specs.promise.Sizes.{object_size};
ghost use Rattle.oa_table.specs.promise.Tables.{cell_at};

use crate::difference::{Difference, element_difference, no_difference, redim_difference};
use crate::size::{place_size, value_size};
use crate::value::{Room, lock, locks_of, put_element, redim, replace, replace_within, unlock};
use crate::{Place, TableFault};
use oa_model::Bound;
use oa_ordered::{Iter, OrderedMap};
use oa_variant::{Scalar, Variant};
use std::alloc::Global;
use std::marker::Model;
use uuid::Uuid;

/// An object of a table: its coclass, and the cells that were put, by their places.
#[derive(Drop)]
pub struct LiveObject {
    class: Uuid,
    cells: OrderedMap<Place, Variant>,
}

impl Model for LiveObject {
    ghost use Rattle.oa_table.specs.promise.Tables.{ObjectValue};

    ghost Value = { ObjectValue };

    ghost view = { λ o. record { class = o.class; cells = o.cells } };
}

impl LiveObject {
    /// Makes an object of a coclass, without cells.
    pub(crate) fn new(alloc: Global, class: Uuid) -> LiveObject
        ensures { result ≡ record { class = class; cells = [] } }
    {
        LiveObject {
            class,
            cells: OrderedMap::new(alloc),
        }
    }

    /// Makes an object of a coclass with these cells.
    pub(crate) fn of_cells(class: Uuid, cells: OrderedMap<Place, Variant>) -> LiveObject
        ensures { result ≡ record { class = class; cells = cells } }
    {
        LiveObject { class, cells }
    }

    /// Returns the GUID of its coclass.
    pub fn class(&self) -> Uuid
        ensures { result ≡ self.now.class }
    {
        self.class
    }

    /// Returns the last value that was put into the cell at a place of the object; None if none
    /// was.
    pub fn get(&self, place: &Place) -> Option<&Variant>
        ensures { option_map (λ x. x.now) result ≡ cell_at place.now self.now.cells }
    {
        self.cells.get(place)
    }

    /// Returns the cells that were put, in the order of their places. Allocates nothing.
    pub fn cells(&self) -> Iter<'_, Place, Variant>
        ensures { result ≡ self.now.cells }
    {
        self.cells.iter()
    }

    /// Does nothing; its contract states that the places of the cells rise.
    pub fn places_rise(&self)
        ensures { IsStrictlySortedBy place_cmp (keys_of self.now.cells) }
    {
        // For the prover: the clause `ordered` of `len`.
        let _count = self.cells.len();
    }

    /// Returns the length in bytes of the object's image. Reads each cell of the object.
    #[tactic(auto, unfolding(crate::specs::promise::Sizes::object_size))]
    pub(crate) fn size(&self) -> u128
        ensures value { result ≡ object_size self.now }
        ensures small { result ≤ largest_object }
    {
        // For the prover: its clause `small` bounds how many cells there are, and so the size.
        let _count = self.cells.len();
        let mut size = 24;
        'cells: for (place, value) in &self.cells {
            size += place_size(place) as u128 + value_size(value) as u128;
        }
        size
    }

    /// Returns the difference in size that a put makes. Reads the elements of both values.
    pub(crate) fn put_difference(&self, place: &Place, value: &Variant) -> Difference
        ensures size { size_due object_size (with_put place.now value.now self.now) self.now + result.gone
            ≡ object_size self.now + result.come }
        ensures small { result.come ≤ largest_cell }
    {
        self.places_rise();
        match self.get(place) {
            Some(old) => {
                if locks_of(old) != 0 {
                    return no_difference();
                }
                Difference {
                    gone: value_size(old),
                    come: value_size(value),
                }
            }
            None => Difference {
                gone: 0,
                come: place_size(place) + value_size(value),
            },
        }
    }

    /// Returns the difference in size of setting an element of the array in a cell.
    pub(crate) fn element_difference(
        &self,
        place: &Place,
        index: &[i32],
        element: &Scalar,
    ) -> Difference
        ensures size { size_due object_size (with_change place.now (with_element_put index.now element.now) self.now) self.now + result.gone
            ≡ object_size self.now + result.come }
        ensures small { result.come ≤ largest_cell }
    {
        match self.get(place) {
            Some(value) => element_difference(value, index, element),
            None => no_difference(),
        }
    }

    /// Returns the difference in size of replacing the first bound of the array in a cell. Reads
    /// the elements that are removed.
    pub(crate) fn redim_difference(&self, place: &Place, bound: Bound) -> Difference
        ensures size { size_due object_size (with_change place.now (redimensioned_value bound) self.now) self.now + result.gone
            ≡ object_size self.now + result.come }
        ensures small { result.come ≤ largest_cell }
    {
        match self.get(place) {
            Some(value) => redim_difference(value, bound),
            None => no_difference(),
        }
    }

    /// Returns whether the array in some cell is locked. Reads each cell of the object.
    pub(crate) fn is_locked(&self) -> bool
        ensures { result ≡ any_locked self.now.cells }
    {
        'cells: for (_place, value) in &self.cells {
            if locks_of(value) != 0 {
                return true;
            }
        }
        false
    }

    /// Sets a cell, and returns the difference in size. Err: the array in the cell is locked, or an
    /// allocation failed; place and value are returned, and nothing changed.
    pub(crate) fn put(
        &mut self,
        place: Place,
        value: Variant,
    ) -> Result<Difference, ((Place, Variant), TableFault)>
        ensures does { Does (place, value) (with_put place value self.old) self.old self.new result }
        ensures size { IfOk result (λ change. object_size self.new + change.gone ≡ object_size self.old + change.come) }
        ensures small { IfOk result (λ change. change.come ≤ largest_cell) }
        ensures starved { IfErr result (λ e. e.1 ≡ TableFault.Memory → cell_at place self.old.cells ≡ None) }
    {
        self.places_rise();
        let Some(old) = self.cells.get_mut(&place) else {
            return self.put_new(place, value);
        };
        replace(old, value).map_err(|(value, fault)| ((place, value), fault))
    }

    /// Overwrites a cell that was put before, and returns the difference in size. Err: there is no
    /// such cell, it is above the limits of `room`, or it is locked; the value is returned, and
    /// nothing changes. Allocates nothing.
    pub(crate) fn overwrite(
        &mut self,
        place: &Place,
        value: Variant,
        room: Room,
    ) -> Result<Difference, Variant>
        requires { (room.size ≤ largest_image) × (room.most ≤ largest_image) }
        ensures done { OnOk result (with_put place.now value self.old ≡ Ok self.new) }
        ensures size { IfOk result (λ change. object_size self.new + change.gone ≡ object_size self.old + change.come) }
        ensures small { IfOk result (λ change. change.come ≤ largest_cell) }
        ensures within { IfOk result (λ change. room.size + change.come ≤ room.most + change.gone) }
        ensures longest { OnOk result (value_size value ≤ room.longest) }
        ensures back { IfErr result (λ back. (back ≡ value) × (self.new ≡ self.old)) }
        ensures refused { let due = with_put place.now value self.old in OnErr result (IsOk due → value_size value ≤ room.longest
            → room.size + size_due object_size due self.old ≤ room.most + object_size self.old → cell_at place.now self.old.cells ≡ None) }
    {
        self.places_rise();
        let Some(old) = self.cells.get_mut(place) else {
            return Err(value);
        };
        replace_within(old, value, room)
    }

    /// Sets a cell that was never put, and returns the difference in size. Err: an allocation
    /// failed; place and value are returned.
    fn put_new(
        &mut self,
        place: Place,
        value: Variant,
    ) -> Result<Difference, ((Place, Variant), TableFault)>
        requires { cell_at place self.old.cells ≡ None }
        ensures does { Does (place, value) (with_put place value self.old) self.old self.new result }
        ensures size { IfOk result (λ change. object_size self.new + change.gone ≡ object_size self.old + change.come) }
        ensures small { IfOk result (λ change. change.come ≤ largest_cell) }
        ensures starved { IfErr result (λ e. e.1 ≡ TableFault.Memory → cell_at place self.old.cells ≡ None) }
    {
        let come = place_size(&place) + value_size(&value);
        match self.cells.insert(place, value) {
            Ok(_) => Ok(Difference { gone: 0, come }),
            Err(failed) => Err((failed.value, TableFault::Memory)),
        }
    }

    /// Sets the element at an index list of the array in a cell. Err: the cell has no array
    /// (`NotArray`), or the array refuses the element, which is returned.
    pub(crate) fn put_element(
        &mut self,
        place: &Place,
        index: &[i32],
        element: Scalar,
    ) -> Result<(), (Scalar, TableFault)>
        ensures does { Does element (with_change place.now (with_element_put index.now element) self.old) self.old self.new result }
        ensures starved { IfErr result (λ e. e.1 ≡ TableFault.Memory → ⊥) }
    {
        let Some(value) = self.cells.get_mut(place) else {
            return Err((element, TableFault::NotArray));
        };
        put_element(value, index, element)
    }

    /// Replaces the first bound of the array in a cell. Err: the cell has no array (`NotArray`),
    /// the array refuses the bound, or an allocation failed; the bound is returned.
    pub(crate) fn redim(
        &mut self,
        alloc: Global,
        place: &Place,
        bound: Bound,
    ) -> Result<(), (Bound, TableFault)>
        ensures { Does bound (with_change place.now (redimensioned_value bound) self.old) self.old self.new result }
    {
        let Some(value) = self.cells.get_mut(place) else {
            return Err((bound, TableFault::NotArray));
        };
        redim(alloc, value, bound)
    }

    /// Adds a lock to the array in a cell, and returns the new number of locks. Err: the cell has
    /// no array (`NotArray`), or the array refuses the lock.
    pub(crate) fn lock(&mut self, place: &Place) -> Result<u16, TableFault>
        ensures { CountsLocks (with_change place.now locked_value self.old) (locks_of_cell place.now) self.old self.new result }
    {
        let Some(value) = self.cells.get_mut(place) else {
            return Err(TableFault::NotArray);
        };
        lock(value)
    }

    /// Removes a lock from the array in a cell, and returns the new number of locks. Err: the cell
    /// has no array (`NotArray`), or the array has no lock.
    pub(crate) fn unlock(&mut self, place: &Place) -> Result<u16, TableFault>
        ensures { CountsLocks (with_change place.now released_value self.old) (locks_of_cell place.now) self.old self.new result }
    {
        let Some(value) = self.cells.get_mut(place) else {
            return Err(TableFault::NotArray);
        };
        unlock(value)
    }
}
