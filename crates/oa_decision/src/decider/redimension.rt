//! REDIM.
ghost use Rattle.std.specs.Prelude.{◌≡◌, ◌⊎◌, ⊤, IfOk};
ghost use Rattle.oa_decision.specs.promise.Cells.{FindingTakesMemory};
ghost use Rattle.oa_decision.specs.Cells.{FindsDue};
ghost use Rattle.oa_decision.specs.Decisions.{ChangesNoLocks, Decides};
ghost use Rattle.oa_decision.specs.promise.Redimension.{IsOfNeverPut, redimension, zero_with};
ghost use Rattle.oa_table.specs.promise.Elements.{locks_of};
ghost use Rattle.oa_typelib.specs.declared.access.Access.TheVariants.{Put};
ghost use Rattle.oa_variant.specs.Variants.{HasZero};

use super::Decider;
use crate::decision::{DecideError, Decision};
use crate::fields::Fields;
use crate::refusal::Refusal;
use oa_array::ArrayFault;
use oa_image::SizedEvent;
use oa_model::{Bound, ValueType};
use oa_record::Call;
use oa_table::{Event, TableFault};
use oa_typelib::Access;
use oa_variant::Variant;

impl Decider<'_> {
    /// Decides a REDIM: the array in a cell gets another first bound. A cell that was never put is
    /// put. Errors: `Refused` for the cell (as of `find_cell`), or if one that was never put cannot
    /// have the bound; `OutOfMemory`.
    pub(super) fn redimension(&self, call: Call, bound: Bound) -> Result<Decision, DecideError>
        ensures decided { Decides (redimension self.now call bound) (FindingTakesMemory self.now call Put ⊎ IsOfNeverPut self.now call) result }
        ensures unlocked { IfOk result ChangesNoLocks }
    {
        let cell = self.find_cell(call, Access::Put)?;
        let name = cell.name;
        let event = match self.table.get(&name) {
            Some(_) => Event::Redim { name, bound },
            None => {
                let value = self.zero_with(bound, cell.declared)?;
                Event::Put { name, value }
            }
        };
        let fields = Fields::none(self.alloc);
        Ok(Decision::Change {
            event: SizedEvent::new(event),
            fields,
        })
    }

    /// Returns the zero of a declared type with another first bound. Errors: `Refused` if the type
    /// is no array, or the array cannot have the bound; `OutOfMemory`.
    fn zero_with(&self, bound: Bound, declared: ValueType) -> Result<Variant, DecideError>
        requires { HasZero declared }
        ensures value { FindsDue (zero_with bound declared) ⊤ result }
        ensures unlocked { IfOk result (λ value. locks_of value ≡ 0) }
    {
        let mut array = match Variant::zero(self.alloc, declared)? {
            Variant::One(_) => return Err(DecideError::Refused(Refusal::of(
                TableFault::NotArray.code(),
            ))),
            Variant::Array(array) => array,
        };
        match array.redim(self.alloc, bound) {
            Ok(()) => Ok(Variant::Array(array)),
            Err(ArrayFault::Memory) => Err(DecideError::OutOfMemory),
            Err(fault) => Err(DecideError::Refused(Refusal::of(fault.code()))),
        }
    }
}
