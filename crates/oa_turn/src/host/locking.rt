//! Which lock a request changes, and releasing locks without a request.
ghost use Rattle.std.specs.Prelude.{◌≡◌, ◌⊎◌, true, Some, None, Ok};
ghost use Rattle.oa_decision.specs.declared.decision.LockChange.TheVariants.{Unlock as AnUnlock};
ghost use Rattle.oa_record.specs.promise.Replacement.{is_replacement};
ghost use Rattle.oa_turn.specs.Locking.{FindsLock, FindsLockBy, asks_lock};
ghost use Rattle.oa_turn.specs.promise.Locking.{changes_lock, is_lock};
ghost use Rattle.oa_turn.specs.promise.Plans.{HoldsSame};
ghost use Rattle.oa_turn.specs.promise.Steps.{after_locks};

use super::Machine;
use crate::changes::take_lock_back;
use oa_decision::{DecideError, Decision, LockChange};
use oa_record::laws::{one_request, opcode_stands, refused_asks_nothing};
use oa_record::{ByCall, Opcode, RecordFault, Request, opcode_of, read_request};
use oa_table::CellName;
use std::alloc::AllocError;

impl Machine {
    /// Returns the change that a LOCK or an UNLOCK of an existing array asks for; None for any
    /// other body. It only reads. Err: an allocation failed.
    pub fn lock_asked(&self, body: &[u8]) -> Result<Option<LockChange>, AllocError>
        ensures finds { FindsLock self.now body.now result }
        ensures plain { is_replacement body.now ≡ true → result ≡ Ok None }
    {
        opcode_stands();
        if !asks_lock(body) {
            return Ok(None);
        }
        self.lock_in(body)
    }

    /// Returns the change of a lock that any body asks for; None if it asks for none. Err: an
    /// allocation failed.
    fn lock_in(&self, body: &[u8]) -> Result<Option<LockChange>, AllocError>
        ensures { FindsLock self.now body.now result }
    {
        one_request();
        refused_asks_nothing();
        match read_request(self.alloc, body) {
            Ok(request) => self.lock_by(request),
            Err(RecordFault::Memory) => Err(AllocError),
            Err(RecordFault::Stub) => Ok(None),
            Err(RecordFault::BadVarType(_)) => Ok(None),
        }
    }

    /// Returns the change of a lock that a request asks for; None if it asks for none. Err: an
    /// allocation failed.
    fn lock_by(&self, request: Request) -> Result<Option<LockChange>, AllocError>
        ensures { FindsLockBy self.now request result }
    {
        if !changes_lock(&request) {
            return Ok(None);
        }
        match self.decide(request) {
            Ok(Decision::Relock { change, .. }) => Ok(Some(change)),
            Ok(Decision::Answer { .. }) => Ok(None),
            Ok(Decision::Change { .. }) => Ok(None),
            Err(DecideError::Refused(_)) => Ok(None),
            Err(DecideError::OutOfMemory) => Err(AllocError),
        }
    }

    /// Releases a lock of the array in a cell, if it has one. Allocates nothing.
    pub fn take_back(&mut self, name: &CellName)
        ensures state { self.new ≡ after_locks self.old (Some (AnUnlock name.now)) }
        ensures same { HoldsSame self.old self.new }
    {
        take_lock_back(&mut self.table, name);
    }
}

/// Returns whether a request is a LOCK or an UNLOCK.
fn changes_lock(request: &Request) -> bool
    ensures { result ≡ changes_lock request.now }
{
    match request {
        Request::ByCall(kind, _) => is_lock(Opcode::ByCall(*kind)),
        _ => false,
    }
}

/// Returns whether the opcode in a body is that of a LOCK or of an UNLOCK.
fn asks_lock(body: &[u8]) -> bool
    ensures { result ≡ asks_lock body.now }
{
    match opcode_of(body) {
        Some(opcode) => is_lock(opcode),
        None => false,
    }
}

/// Returns whether an opcode is that of a LOCK or of an UNLOCK.
fn is_lock(opcode: Opcode) -> bool
    ensures { result ≡ is_lock opcode }
{
    match opcode {
        Opcode::ByCall(ByCall::Lock | ByCall::Unlock) => true,
        _ => false,
    }
}
