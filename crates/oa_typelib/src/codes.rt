//! The codes of replies for the errors of a library's look-ups.
ghost use Rattle.std.specs.Prelude.{◌≡◌};
ghost use Rattle.oa_typelib.specs.promise.MemberCodes.{member_code};
ghost use Rattle.oa_typelib.specs.MemberCodes.{describe_code};

use crate::{DescribeError, MemberFault};
use oa_model::HResult;

impl MemberFault {
    /// Returns the code of the reply (MS-ERREF section 2.1): DISP_E_MEMBERNOTFOUND or E_NOTIMPL.
    pub fn code(self) -> HResult
        ensures { result ≡ member_code self }
    {
        match self {
            MemberFault::MemberNotFound => HResult::DISP_E_MEMBERNOTFOUND,
            MemberFault::NotImplemented => HResult::E_NOTIMPL,
        }
    }
}

impl DescribeError {
    /// Returns the code of the reply (MS-ERREF section 2.1): DISP_E_BADINDEX or E_OUTOFMEMORY.
    pub fn code(self) -> HResult
        ensures { result ≡ describe_code self }
    {
        match self {
            DescribeError::BadIndex => HResult::DISP_E_BADINDEX,
            DescribeError::Memory => HResult::E_OUTOFMEMORY,
        }
    }
}
