//! Why a change of a table is refused.
ghost use Rattle.std.specs.Prelude.{◌≡◌};
ghost use Rattle.oa_table.specs.promise.Faults.{table_code};

use oa_array::ArrayFault;
use oa_model::HResult;
use thiserror::Error;

/// Why a change of a table is refused.
#[derive(Clone, Copy, Debug, PartialEq, Eq, Error)]
pub enum TableFault {
    /// There is no object of this number.
    #[error("there is no such object")]
    NoObject,
    /// A new object's number is not the table's next one, or the numbers are used up.
    #[error("the number is not the next one")]
    WrongNumber,
    /// There is no array: the cell was never put, or has another value.
    #[error("the cell holds no array")]
    NotArray,
    /// The array refuses the change; for a release, an array of the object is locked.
    #[error("{0}")]
    Array(ArrayFault),
    /// An allocation failed.
    #[error("out of memory")]
    Memory,
}

impl TableFault {
    /// Returns the code of a reply with this refusal (MS-ERREF section 2.1).
    pub fn code(self) -> HResult
        ensures { result ≡ table_code self }
    {
        match self {
            TableFault::NoObject => HResult::RPC_E_DISCONNECTED,
            TableFault::WrongNumber => HResult::E_UNEXPECTED,
            TableFault::NotArray => HResult::DISP_E_TYPEMISMATCH,
            TableFault::Array(fault) => fault.code(),
            TableFault::Memory => HResult::E_OUTOFMEMORY,
        }
    }
}
