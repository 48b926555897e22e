//! GETELEM.
ghost use Rattle.std.specs.Prelude.{◌≡◌, ◌⊎◌, IfOk, IsOk};
ghost use Rattle.std.specs.Result.{result_map_both};
ghost use Rattle.oa_decision.specs.promise.ArrayCells.{element_in};
ghost use Rattle.oa_decision.specs.promise.Cells.{FindingTakesMemory};
ghost use Rattle.oa_decision.specs.Decisions.{ChangesNoLocks, Decides};
ghost use Rattle.oa_decision.specs.promise.GetElement.{element_got, reading};
ghost use Rattle.oa_typelib.specs.declared.access.Access.TheVariants.{Get};

use super::Decider;
use super::array_cell::{element_of, no_element};
use super::cell::BoundCell;
use crate::decision::{DecideError, Decision};
use crate::fields::Fields;
use crate::refusal::Refusal;
use oa_array::Indices;
use oa_model::HResult;
use oa_record::{Call, scalar_field};
use oa_typelib::Access;
use oa_variant::Scalar;

impl Decider<'_> {
    /// Decides a GETELEM: the reply is written directly from the element. Errors: `Refused` for the
    /// cell (as of `find_cell`) or the element; `OutOfMemory`.
    pub(super) fn element_got(&self, call: Call, indices: Indices) -> Result<Decision, DecideError>
        ensures decided { Decides (element_got self.now call indices) (FindingTakesMemory self.now call Get ⊎ IsOk (element_got self.now call indices)) result }
        ensures unlocked { IfOk result ChangesNoLocks }
    {
        let cell = self.find_cell(call, Access::Get)?;
        self.element_told(&cell, indices.as_slice())
    }

    /// Returns the reply with the element of a cell at an index list. Errors: `Refused`,
    /// `OutOfMemory`.
    fn element_told(&self, cell: &BoundCell, index: &[i32]) -> Result<Decision, DecideError>
        ensures decided { Decides (reading self.now index.now cell.now) (IsOk (reading self.now index.now cell.now)) result }
        ensures unlocked { IfOk result ChangesNoLocks }
    {
        let element = self.element_in(cell, index)?;
        let fields = Fields::new(scalar_field(self.alloc, element)?);
        let code = HResult::S_OK;
        Ok(Decision::Answer { code, fields })
    }

    /// Returns the element of a cell at an index list. Err: the cell has no array, or no such
    /// element.
    fn element_in(&self, cell: &BoundCell, index: &[i32]) -> Result<&Scalar, Refusal>
        ensures { result_map_both (λ s. s.now) (λ e. e) result ≡ element_in self.now index.now cell.now }
    {
        match self.table.get(&cell.name) {
            Some(value) => element_of(index, value),
            None => Err(no_element(cell.declared)),
        }
    }
}
