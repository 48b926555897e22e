//! The result of deciding a request, before anything is changed.
ghost use Rattle.std.specs.Prelude.{◌≡◌};
ghost use Rattle.oa_decision.specs.Cells.{undecided};
ghost use Rattle.oa_decision.specs.declared.decision.DecideError.TheVariants.{OutOfMemory, Refused};

use crate::fields::Fields;
use crate::refusal::Refusal;
use oa_bind::BindFault;
use oa_image::SizedEvent;
use oa_model::HResult;
use oa_table::CellName;
use std::alloc::AllocError;
use thiserror::Error;

/// The decision about a request that is not refused.
#[derive(Drop)]
pub enum Decision {
    /// The reply has this code and these fields. Nothing changes.
    Answer { code: HResult, fields: Fields },
    /// The table is to be changed, and the reply then has these fields; if the change is refused,
    /// so is the request.
    Change { event: SizedEvent, fields: Fields },
    /// A lock is to be changed, and the reply then has these fields; if the change is refused, so
    /// is the request.
    Relock { change: LockChange, fields: Fields },
}

/// A change of the locks of the array in a cell. Locks are a session's own.
#[derive(Drop)]
pub enum LockChange {
    /// One more.
    Lock(CellName),
    /// One fewer.
    Unlock(CellName),
}

/// Why a request was not decided.
#[derive(Debug, Drop, Error)]
pub enum DecideError {
    /// The request is refused.
    #[error("{0}")]
    Refused(Refusal),
    /// An allocation failed.
    #[error("out of memory")]
    OutOfMemory,
}

impl From<Refusal> for DecideError {
    ghost from_gives = { λ refusal e. e ≡ Refused refusal };

    fn from(refusal: Refusal) -> DecideError {
        DecideError::Refused(refusal)
    }
}

impl From<BindFault> for DecideError {
    ghost from_gives = { λ fault e. e ≡ undecided fault };

    fn from(fault: BindFault) -> DecideError {
        let BindFault { code, index } = fault;
        if code == HResult::E_OUTOFMEMORY && index.is_none() {
            DecideError::OutOfMemory
        } else {
            DecideError::Refused(Refusal { code, index })
        }
    }
}

impl From<AllocError> for DecideError {
    ghost from_gives = { λ _ e. e ≡ OutOfMemory };

    fn from(_: AllocError) -> DecideError {
        DecideError::OutOfMemory
    }
}
