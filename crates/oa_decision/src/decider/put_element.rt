//! PUTELEM.
ghost use Rattle.std.specs.Prelude.{◌≡◌, IfOk};
ghost use Rattle.oa_decision.specs.promise.ArrayCells.{as_element, element_type_in};
ghost use Rattle.oa_decision.specs.promise.Cells.{FindingTakesMemory};
ghost use Rattle.oa_decision.specs.Decisions.{ChangesNoLocks, Decides};
ghost use Rattle.oa_decision.specs.promise.PutElement.{element_for, element_put};
ghost use Rattle.oa_typelib.specs.declared.access.Access.TheVariants.{Put};

use super::Decider;
use super::array_cell::{element_type_of, no_element};
use super::cell::BoundCell;
use crate::decision::{DecideError, Decision};
use crate::fields::Fields;
use crate::refusal::Refusal;
use oa_array::Indices;
use oa_coerce::{CoerceFault, coerce_scalar};
use oa_image::SizedEvent;
use oa_model::VarType;
use oa_record::Call;
use oa_table::Event;
use oa_typelib::Access;
use oa_variant::{Scalar, Variant};

impl Decider<'_> {
    /// Decides a PUTELEM: an element of an array is set in place. Errors: `Refused` for the cell
    /// (as of `find_cell`), the element or the value; `OutOfMemory`.
    pub(super) fn element_put(
        &self,
        call: Call,
        indices: Indices,
        value: Variant,
    ) -> Result<Decision, DecideError>
        ensures decided { Decides (element_put self.now call indices value) (FindingTakesMemory self.now call Put) result }
        ensures unlocked { IfOk result ChangesNoLocks }
    {
        let cell = self.find_cell(call, Access::Put)?;
        let value = self.element_for(&cell, indices.as_slice(), value)?;
        let event = SizedEvent::new(Event::PutElement {
            name: cell.name,
            index: indices,
            value,
        });
        let fields = Fields::none(self.alloc);
        Ok(Decision::Change { event, fields })
    }

    /// Coerces a value to the type of the element of a cell at an index list. Err: the cell has no
    /// array, no such element, or the coercion fails.
    fn element_for(
        &self,
        cell: &BoundCell,
        index: &[i32],
        value: Variant,
    ) -> Result<Scalar, Refusal>
        ensures { result ≡ element_for self.now index.now value cell.now }
    {
        let elem = self.element_type_in(cell, index)?;
        as_element(elem, value)
    }

    /// Returns the type of the element of a cell at an index list. Err: the cell has no array, or
    /// no such element.
    fn element_type_in(&self, cell: &BoundCell, index: &[i32]) -> Result<VarType, Refusal>
        ensures { result ≡ element_type_in self.now index.now cell.now }
    {
        match self.table.get(&cell.name) {
            Some(value) => element_type_of(index, value),
            None => Err(no_element(cell.declared)),
        }
    }
}

/// Coerces a value to an element of a type. Err: the value is an array, or the coercion fails.
fn as_element(elem: VarType, value: Variant) -> Result<Scalar, Refusal>
    ensures { result ≡ as_element elem value }
{
    match value {
        Variant::One(scalar) => {
            coerce_scalar(scalar, elem).map_err(|(_, fault)| Refusal::of(fault.code()))
        }
        Variant::Array(_) => Err(Refusal::of(CoerceFault::TypeMismatch.code())),
    }
}
