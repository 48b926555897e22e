//! Deciding about a request: it only reads the library and the table of objects.
ghost use Rattle.std.specs.Prelude.{◌≡◌, IfOk, IsOk};
ghost use Rattle.oa_decision.specs.Decisions.{ChangesNoLocks, Decides};
ghost use Rattle.oa_decision.specs.promise.Decided.{DecidingTakesMemory, decided};
ghost use Rattle.oa_decision.specs.promise.Queries.{answered, query_fields};
ghost use Rattle.oa_record.specs.declared.request.Request.TheVariants as requests;

use crate::decision::{DecideError, Decision};
use crate::fields::Fields;
use oa_model::HResult;
use oa_record::{ByCall, ByNumber, Call, Query, Request};
use oa_table::Table;
use oa_typelib::Library;
use std::alloc::{AllocError, Global};
use std::marker::Model;

mod array_cell;
pub(crate) mod cell;
mod create;
mod get_element;
mod interface;
mod invoke;
mod listing;
mod lock;
mod look_ups;
mod put_element;
mod redimension;
mod release;
mod type_info;
mod unlock;
mod value_call;

/// The things on which a reply depends: a library, a table of its objects, and how large the table
/// may grow.
#[derive(Drop)]
pub struct Decider<'a> {
    alloc: Global,
    /// The size in bytes of a bank's body, into which the table must fit.
    bank: u32,
    library: &'a Library,
    table: &'a Table,
}

impl<'a> Model for Decider<'a> {
    ghost use Rattle.oa_decision.specs.promise.States.{State};

    ghost Value = { State };

    ghost view = { λ s. record { bank = s.bank; library = s.library.now; table = s.table.now } };
}

impl<'a> Decider<'a> {
    /// Makes a decider over this library and this table, with a bank's body of `bank` bytes.
    /// Allocates nothing.
    pub fn new(alloc: Global, bank: u32, library: &'a Library, table: &'a Table) -> Decider<'a>
        ensures { result ≡ record { bank = bank; library = library.now; table = table.now } }
    {
        Decider {
            alloc,
            bank,
            library,
            table,
        }
    }

    /// Decides a request: the reply, or the change that it asks for, which may still be refused. It
    /// only reads. Errors: `Refused` with the first refusal in the documented order; `OutOfMemory`
    /// if an allocation fails. It allocates for the arguments of a call and for the fields of a
    /// reply. It also allocates the zero array of a cell that a REDIM changes and that was never
    /// put.
    pub fn decide(&self, request: Request) -> Result<Decision, DecideError>
        ensures decided { Decides (decided self.now request) (DecidingTakesMemory self.now request) result }
        ensures unlocked { IfOk result ChangesNoLocks }
    {
        match request {
            Request::Create { class } => self.creation(class),
            Request::ByNumber(kind, number) => self.decide_number(kind, number),
            Request::GetIds(call) => self.look_up(call),
            Request::ByCall(kind, call) => self.decide_call(kind, call),
            Request::GetElement { call, indices } => self.element_got(call, indices),
            Request::PutElement {
                call,
                indices,
                value,
            } => self.element_put(call, indices, value),
            Request::Redimension { call, bound } => self.redimension(call, bound),
            Request::Query(query) => self.answered(query),
        }
    }

    /// Decides a request with a number. Errors are those of `decide`.
    fn decide_number(&self, kind: ByNumber, number: u32) -> Result<Decision, DecideError>
        ensures decided { Decides (decided self.now (requests.ByNumber kind number)) (DecidingTakesMemory self.now (requests.ByNumber kind number)) result }
        ensures unlocked { IfOk result ChangesNoLocks }
    {
        match kind {
            ByNumber::Release => Ok(self.ending(number)),
            ByNumber::TypeInfo => self.information(number),
        }
    }

    /// Decides a request with a call. Errors are those of `decide`.
    fn decide_call(&self, kind: ByCall, call: Call) -> Result<Decision, DecideError>
        ensures decided { Decides (decided self.now (requests.ByCall kind call)) (DecidingTakesMemory self.now (requests.ByCall kind call)) result }
        ensures unlocked { IfOk result ChangesNoLocks }
    {
        match kind {
            ByCall::Invoke => self.invocation(call),
            ByCall::Lock => self.locking(call),
            ByCall::Unlock => self.unlocking(call),
        }
    }

    /// Decides a request without fields, which is always answered. Err: `OutOfMemory`.
    fn answered(&self, query: Query) -> Result<Decision, DecideError>
        ensures decided { Decides (answered self.now query) (IsOk (answered self.now query)) result }
        ensures unlocked { IfOk result ChangesNoLocks }
    {
        let fields = self.told(query)?;
        let code = HResult::S_OK;
        Ok(Decision::Answer { code, fields })
    }

    /// Returns the fields of the reply to a request without fields. Err: an allocation failed.
    fn told(&self, query: Query) -> Result<Fields, AllocError>
        ensures { IfOk result (λ fields. fields ≡ query_fields self.now query) }
    {
        match query {
            Query::Objects => self.objects_field(),
        }
    }
}
