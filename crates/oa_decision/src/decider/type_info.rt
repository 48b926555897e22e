//! TYPEINFO.
ghost use Rattle.std.specs.Prelude.{IfOk, IsOk};
ghost use Rattle.oa_decision.specs.Decisions.{ChangesNoLocks, Decides};
ghost use Rattle.oa_decision.specs.promise.TypeInfo.{information};

use super::Decider;
use crate::decision::{DecideError, Decision};
use crate::description::description_field;
use crate::fields::Fields;
use crate::refusal::Refusal;
use oa_model::HResult;
use oa_typelib::DescribeError;

impl Decider<'_> {
    /// Decides a TYPEINFO: the description of the interface or coclass of the library with this
    /// index, counted from 0. It allocates only if there is one. Errors: `Refused` with
    /// DISP_E_BADINDEX if there is none; `OutOfMemory`.
    #[tactic(auto, unfolding(crate::specs::promise::TypeInfo::description_of))]
    pub(super) fn information(&self, index: u32) -> Result<Decision, DecideError>
        ensures decided { Decides (information self.now index) (IsOk (information self.now index)) result }
        ensures unlocked { IfOk result ChangesNoLocks }
    {
        match self.library.describe(index) {
            Ok(description) => {
                let fields = Fields::new(description_field(self.alloc, &description)?);
                let code = HResult::S_OK;
                Ok(Decision::Answer { code, fields })
            }
            Err(DescribeError::BadIndex) => Err(DecideError::Refused(Refusal::of(
                HResult::DISP_E_BADINDEX,
            ))),
            Err(DescribeError::Memory) => Err(DecideError::OutOfMemory),
        }
    }
}
