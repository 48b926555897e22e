//! Why a request is refused.
ghost use Rattle.std.specs.Prelude.{◌≡◌, None};
ghost use Rattle.oa_array.specs.promise.Faults.{array_code};
ghost use Rattle.oa_typelib.specs.promise.MemberCodes.{member_code};

use oa_array::ArrayFault;
use oa_model::HResult;
use oa_typelib::MemberFault;
use thiserror::Error;

/// The code of a refusal, and the place in rgvarg of the argument to which it refers.
#[derive(Clone, Copy, Debug, PartialEq, Eq, Error)]
#[error("request refused")]
pub struct Refusal {
    /// The code of the reply.
    pub code: HResult,
    /// The place of the argument, if the refusal refers to one.
    pub index: Option<u32>,
}

impl Refusal {
    /// Makes a refusal that refers to no argument.
    pub(crate) fn of(code: HResult) -> Refusal
        ensures { result ≡ record { code = code; index = None } }
    {
        Refusal { code, index: None }
    }
}

impl From<ArrayFault> for Refusal {
    ghost from_gives = { λ fault refusal. refusal ≡ record { code = array_code fault; index = None } };

    fn from(fault: ArrayFault) -> Refusal {
        Refusal::of(fault.code())
    }
}

impl From<MemberFault> for Refusal {
    ghost from_gives = { λ fault refusal. refusal ≡ record { code = member_code fault; index = None } };

    fn from(fault: MemberFault) -> Refusal {
        Refusal::of(fault.code())
    }
}
