//! GETIDS.
ghost use Rattle.std.specs.Prelude.{◌≤◌, length, ⊤, IfOk, IsOk, Ok};
ghost use Rattle.oa_model.specs.promise.Limits.{max_names};
ghost use Rattle.oa_decision.specs.Decisions.{ChangesNoLocks, Decides};
ghost use Rattle.oa_decision.specs.promise.LookUps.{ids_answer, look_up};

use super::Decider;
use crate::decision::{DecideError, Decision};
use crate::fields::Fields;
use oa_model::HResult;
use oa_record::{GetIds, ids_field};
use oa_typelib::DispIds;

impl Decider<'_> {
    /// Decides a look-up of names. Errors: `Refused` for the interface or the names; `OutOfMemory`.
    #[tactic(auto, unfolding(crate::specs::promise::LookUps::ids_found))]
    pub(super) fn look_up(&self, call: GetIds) -> Result<Decision, DecideError>
        ensures decided { Decides (look_up self.now call) (IsOk (look_up self.now call)) result }
        ensures unlocked { IfOk result ChangesNoLocks }
    {
        let interface = self.find_interface(call.object, &call.interface, &call.riid)?;
        let found = interface.dispid(call.names.as_slice())?;
        self.ids_answer(found)
    }

    /// Returns the reply to names; it contains their DISPIDs even if not all names are known, with
    /// DISP_E_UNKNOWNNAME as its code. Err: an allocation failed.
    fn ids_answer(&self, found: DispIds) -> Result<Decision, DecideError>
        requires { length found.ids ≤ max_names }
        ensures decided { Decides (Ok (ids_answer found)) ⊤ result }
        ensures unlocked { IfOk result ChangesNoLocks }
    {
        let fields = Fields::new(ids_field(self.alloc, found.ids.as_slice())?);
        let code = if found.all_known {
            HResult::S_OK
        } else {
            HResult::DISP_E_UNKNOWNNAME
        };
        Ok(Decision::Answer { code, fields })
    }
}
