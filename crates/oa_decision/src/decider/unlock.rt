//! UNLOCK.
ghost use Rattle.std.specs.Prelude.{◌⊎◌, IfOk, IsOk};
ghost use Rattle.oa_decision.specs.promise.Cells.{FindingTakesMemory};
ghost use Rattle.oa_decision.specs.Decisions.{ChangesNoLocks, Decides};
ghost use Rattle.oa_decision.specs.promise.Unlock.{unlocking};
ghost use Rattle.oa_typelib.specs.declared.access.Access.TheVariants.{Get};

use super::Decider;
use crate::decision::{DecideError, Decision, LockChange};
use crate::fields::Fields;
use oa_record::{Call, number_field};
use oa_typelib::Access;

impl Decider<'_> {
    /// Decides an UNLOCK, which removes a lock from the array in a cell. The reply contains the new
    /// number of locks. Errors: `Refused` for the cell (as of `find_cell`) or if it has no array;
    /// `OutOfMemory`.
    pub(super) fn unlocking(&self, call: Call) -> Result<Decision, DecideError>
        ensures decided { Decides (unlocking self.now call) (FindingTakesMemory self.now call Get ⊎ IsOk (unlocking self.now call)) result }
        ensures unlocked { IfOk result ChangesNoLocks }
    {
        let cell = self.find_cell(call, Access::Get)?;
        let locks = self.find_locks(&cell)?;
        let fields = Fields::new(number_field(self.alloc, u32::from(locks.saturating_sub(1)))?);
        let change = LockChange::Unlock(cell.name);
        Ok(Decision::Relock { change, fields })
    }
}
