//! INVOKE.
ghost use Rattle.std.specs.Prelude.{◌≡◌, ◌⊎◌, ⊤, IfOk, IsOk, Ok, Some};
ghost use Rattle.oa_decision.specs.promise.Cells.{FindingTakesMemory};
ghost use Rattle.oa_decision.specs.Decisions.{ChangesNoLocks, Decides};
ghost use Rattle.oa_decision.specs.promise.Invoke.{cell_decided, invocation, reply_value};
ghost use Rattle.oa_table.specs.promise.Tables.{object_at};
ghost use Rattle.oa_typelib.specs.declared.access.Access.TheVariants.{Flags};
ghost use Rattle.oa_variant.specs.Variants.{HasZero};

use super::Decider;
use super::cell::BoundCell;
use crate::decision::{DecideError, Decision};
use crate::fields::Fields;
use oa_image::SizedEvent;
use oa_model::{HResult, ValueType};
use oa_record::{Call, variant_field};
use oa_table::{CellName, Event, LiveObject};
use oa_typelib::Access;
use oa_variant::Variant;
use std::alloc::AllocError;

impl Decider<'_> {
    /// Decides an INVOKE: a get replies with the value of its cell, a put sets it. Errors are those
    /// of `find_cell`; `OutOfMemory`.
    pub(super) fn invocation(&self, call: Call) -> Result<Decision, DecideError>
        ensures decided { Decides (invocation self.now call) (FindingTakesMemory self.now call (Flags call.head.flags) ⊎ IsOk (invocation self.now call)) result }
        ensures unlocked { IfOk result ChangesNoLocks }
    {
        let access = Access::Flags(call.head.flags);
        let object = self.find_object(call.head.object)?;
        let cell = self.find_cell_of(object, call, access)?;
        self.cell_decided(object, cell)
    }

    /// Decides about a cell that was found: it is read, or set to the new value. Err: an allocation
    /// failed.
    #[tactic(auto, using(crate::proofs::Zeros::no_locks))]
    fn cell_decided(&self, object: &LiveObject, cell: BoundCell) -> Result<Decision, DecideError>
        requires object { object_at cell.name.object self.now.table ≡ Some object.now }
        requires zero { HasZero cell.declared }
        ensures decided { Decides (Ok (cell_decided self.now cell)) ⊤ result }
        ensures unlocked { IfOk result ChangesNoLocks }
    {
        let BoundCell {
            name,
            declared,
            value,
        } = cell;
        match value {
            None => {
                let fields = self.value_field(object, &name, declared)?;
                let code = HResult::S_OK;
                Ok(Decision::Answer { code, fields })
            }
            Some(value) => {
                let value = value.into_unlocked();
                let event = SizedEvent::new(Event::Put { name, value });
                let fields = Fields::none(self.alloc);
                Ok(Decision::Change { event, fields })
            }
        }
    }

    /// Returns the value of a cell of an object as the fields of a reply: the zero of its declared
    /// type if it was never put. Err: an allocation failed.
    pub(super) fn value_field(
        &self,
        object: &LiveObject,
        name: &CellName,
        declared: ValueType,
    ) -> Result<Fields, AllocError>
        requires object { object_at name.now.object self.now.table ≡ Some object.now }
        requires zero { HasZero declared }
        ensures { IfOk result (λ fields. fields ≡ reply_value self.now name.now declared) }
    {
        let bytes = match object.get(&name.place) {
            Some(value) => variant_field(self.alloc, value)?,
            None => {
                let zero = Variant::zero(self.alloc, declared)?;
                variant_field(self.alloc, &zero)?
            }
        };
        Ok(Fields::new(bytes))
    }
}
