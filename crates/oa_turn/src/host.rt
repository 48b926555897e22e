//! The state machine: a library and a table in memory, and turns that answer requests.
ghost use Rattle.std.specs.Prelude.{◌≡◌, ◌≤◌, List, ℕ, [], false, map, IsOk, IfOk, IfSome, OnErr};
ghost use Rattle.oa_decision.specs.Decisions.{ChangesNoLocks, Decides};
ghost use Rattle.oa_turn.specs.Changes.{MakesChange};
ghost use Rattle.oa_turn.specs.promise.Steps.{after_outcome, relocked, relocking, reply_with};
ghost use Rattle.oa_turn.specs.Limits.{IsSoundTable, least_bank};
ghost use Rattle.oa_decision.specs.promise.Limits.{allowed};
ghost use Rattle.oa_decision.specs.ValuePlans.{put_event};
ghost use Rattle.oa_turn.specs.Plans.{Drafts, HasNoEvent, IsDrafted, Plans, PlansCall, PlansChange, put_planned};
ghost use Rattle.oa_turn.specs.Plans.{PlansWithoutMemory, ReleasesWithoutMemory};
ghost use Rattle.oa_turn.specs.promise.Plans.{HoldsSame};
ghost use Rattle.oa_model.specs.promise.Codes.{e_outofmemory};
ghost use Rattle.oa_decision.specs.promise.Decided.{DecidingTakesMemory, decided};
ghost use Rattle.oa_record.specs.promise.Replacement.{is_replacement};
ghost use Rattle.oa_turn.specs.promise.Turns.{Ordinary, Run, Turn};
ghost use Rattle.oa_table.specs.Events.{BringsNoLocks};
ghost use Rattle.oa_table.specs.declared.event.Event.TheVariants.{Put, Release as ARelease};
ghost use Rattle.oa_table.specs.Memory.{MayWantMemory};
ghost use Rattle.oa_table.specs.Tables.{first_table};

use crate::changes::{apply, change, change_locks, overwrite};
use oa_decision::{
    DecideError, Decider, Decision, Fields, LockChange, Plan, Planned, Refusal, ValuePlan,
    ValuePut, limit_violation,
};
use oa_image::SizedEvent;
use oa_model::HResult;
use oa_record::laws::{one_request, opcode_stands};
use oa_record::{Reply, Request, ValueCall, is_replacement, read_request, read_value_call, tag_of};
use oa_table::{CellName, Event, Place, Table};
use oa_typelib::Library;
use oa_variant::Variant;
use std::alloc::{AllocError, Global};
use std::marker::Model;

pub(crate) mod locking;
pub(crate) mod replacement;

/// The state on which replies depend: a library, a table of its objects, and how large the table
/// may grow.
pub struct Machine {
    alloc: Global,
    /// The size in bytes of a bank's body, into which the table must fit.
    bank: u32,
    library: Library,
    table: Table,
}

// A `Drop` of its own, so that a function that holds a host, or a server, drops it in one step.
impl Drop for Machine {
    fn drop(self) {
        let Machine {
            alloc: _alloc,
            bank: _bank,
            library: _library,
            table: _table,
        } = self;
    }
}

impl Model for Machine {
    ghost use Rattle.oa_decision.specs.promise.States.{State};
    ghost use Rattle.oa_turn.specs.Limits.{IsSoundTable};

    ghost Value = { State };

    ghost view = { λ s. record { bank = s.bank; library = s.library; table = s.table } };

    ghost invariant = { λ s. IsSoundTable s.bank s.table };
}

impl Machine {
    /// Makes a host of `library` with the first table, with the limits of a new store with banks of
    /// `bank` bytes.
    pub fn new(alloc: Global, bank: u32, library: Library) -> Machine
        requires { least_bank ≤ bank }
        ensures { result ≡ record { bank = bank; library = library; table = first_table } }
    {
        Machine {
            alloc,
            bank,
            library,
            table: Table::new(alloc),
        }
    }

    /// Makes a host of `library` with an existing table, with the limits of banks of `bank` bytes.
    pub fn over(alloc: Global, bank: u32, library: Library, table: Table) -> Machine
        requires { IsSoundTable bank table }
        ensures { result ≡ record { bank = bank; library = library; table = table } }
    {
        Machine {
            alloc,
            bank,
            library,
            table,
        }
    }

    /// Returns the reply to the request in `body`. If an allocation fails, the reply is
    /// E_OUTOFMEMORY, and nothing changes; a RELEASE never fails so.
    pub fn turn(&mut self, body: &[u8]) -> Reply
        ensures turn { Turn self.old body.now result self.new }
        ensures bank { self.new.bank ≡ self.old.bank }
        ensures released { ReleasesWithoutMemory body.now result }
    {
        opcode_stands();
        if is_replacement(body) {
            return self.replace(body);
        }
        self.ordinary_turn(body)
    }

    /// Returns the reply to a request with another opcode than 12. It tries the fast path for calls
    /// with no more than a new value first, since most requests are such calls. If an allocation
    /// fails, the reply is E_OUTOFMEMORY, and nothing changes.
    ///
    /// The fast path (`value_plan`, `put_value`) and the general one (`other_turn`) part here; both
    /// meet this contract.
    pub fn ordinary_turn(&mut self, body: &[u8]) -> Reply
        requires plain { is_replacement body.now ≡ false }
        ensures turn { Turn self.old body.now result self.new }
        ensures bank { self.new.bank ≡ self.old.bank }
        ensures released { ReleasesWithoutMemory body.now result }
    {
        one_request();
        match self.value_plan(body) {
            Some(ValuePlan::Answered(reply)) => reply,
            Some(ValuePlan::Put(put)) => self.put_value(tag_of(body), put),
            None => self.other_turn(body),
        }
    }

    /// Plans a call with no more than a new value. None, without a further meaning, for any other
    /// body.
    fn value_plan(&self, body: &[u8]) -> Option<ValuePlan>
        ensures { IfSome result (PlansCall self.now body.now) }
    {
        let ValueCall { head, value } = read_value_call(self.alloc, body)?;
        self.decider().plan_value(tag_of(body), &head, value)
    }

    /// Sets a cell, and returns the reply. Most puts overwrite an existing value, far from the
    /// limits: no event is made for these.
    fn put_value(&mut self, tag: u32, put: ValuePut) -> Reply
        requires { BringsNoLocks (put_event put) }
        ensures { (body : List ℕ) → IsDrafted self.old body (put_planned tag put) → Ordinary self.old body result self.new }
    {
        let ValuePut {
            object,
            interface,
            dispid,
            value,
        } = put;
        let place = Place::new(interface, dispid, Vec::new(self.alloc));
        let name = CellName { object, place };
        match overwrite(self.bank, &mut self.table, &name, value) {
            Ok(()) => Reply::bare(self.alloc, tag, HResult::S_OK, None),
            Err(value) => self.put_any(tag, name, value),
        }
    }

    /// Sets a cell by an event. A function of its own, so that a put over an existing value
    /// reserves no space for an event.
    #[inline(never)]
    fn put_any(&mut self, tag: u32, name: CellName, value: Variant) -> Reply
        requires { BringsNoLocks (Put name value) }
        ensures { (body : List ℕ) → IsDrafted self.old body (record { tag = tag; event = Put name value; fields = [] })
            → Ordinary self.old body result self.new }
    {
        let event = SizedEvent::new(Event::Put { name, value });
        let fields = Fields::none(self.alloc);
        self.make(Planned { tag, event, fields })
    }

    /// Returns the reply to a request with another opcode than 12, by the general path.
    #[inline(never)]
    fn other_turn(&mut self, body: &[u8]) -> Reply
        ensures turn { Ordinary self.old body.now result self.new }
        ensures released { ReleasesWithoutMemory body.now result }
    {
        one_request();
        match self.draft(body) {
            Plan::Answered(reply) => reply,
            Plan::Change(planned) => self.make(planned),
        }
    }

    /// Answers one request with another opcode than 12, except for the change of the table. If it
    /// asks for one, returns the change, which is allowed and has not been made; otherwise the
    /// reply.
    pub fn plan(&mut self, body: &[u8]) -> Plan
        ensures plans { Plans self.old body.now self.new result }
        ensures quiet { HasNoEvent self.old body.now result }
        ensures released { PlansWithoutMemory body.now result }
    {
        one_request();
        match self.value_plan(body) {
            Some(ValuePlan::Answered(reply)) => Plan::Answered(reply),
            Some(ValuePlan::Put(put)) => {
                let event = SizedEvent::new(put.into_event(self.alloc));
                self.plan_change(tag_of(body), event, Fields::none(self.alloc))
            }
            None => self.plan_other(body),
        }
    }

    /// Plans the answer to a request, by the general path.
    #[inline(never)]
    fn plan_other(&mut self, body: &[u8]) -> Plan
        ensures plans { Plans self.old body.now self.new result }
        ensures quiet { HasNoEvent self.old body.now result }
        ensures released { PlansWithoutMemory body.now result }
    {
        one_request();
        match self.draft(body) {
            Plan::Answered(reply) => Plan::Answered(reply),
            Plan::Change(Planned { tag, event, fields }) => self.plan_change(tag, event, fields),
        }
    }

    /// Decides about any request; a decided change may still be refused.
    fn draft(&mut self, body: &[u8]) -> Plan
        ensures drafts { Drafts self.old body.now self.new result }
        ensures quiet { HasNoEvent self.old body.now result }
        ensures released { PlansWithoutMemory body.now result }
    {
        one_request();
        opcode_stands();
        let tag = tag_of(body);
        let request = match read_request(self.alloc, body) {
            Ok(request) => request,
            Err(fault) => {
                let reply = Reply::bare(self.alloc, tag, fault.code(), fault.index());
                return Plan::Answered(reply);
            }
        };
        match self.decide(request) {
            Ok(Decision::Answer { code, fields }) => {
                Plan::Answered(Reply::new(tag, code, None, fields.into_vec()))
            }
            Ok(Decision::Change { event, fields }) => Plan::Change(Planned { tag, event, fields }),
            Ok(Decision::Relock { change, fields }) => {
                Plan::Answered(self.relock(tag, change, fields))
            }
            Err(DecideError::Refused(refusal)) => Plan::Answered(self.refuse(tag, refusal)),
            Err(DecideError::OutOfMemory) => {
                Plan::Answered(Reply::bare(self.alloc, tag, HResult::E_OUTOFMEMORY, None))
            }
        }
    }

    /// Checks a decided change: it is refused, or planned.
    fn plan_change(&self, tag: u32, event: SizedEvent, fields: Fields) -> Plan
        ensures { PlansChange self.now tag event fields result }
    {
        match limit_violation(self.bank, &self.table, &event) {
            Some(code) => Plan::Answered(Reply::bare(self.alloc, tag, code, None)),
            None => Plan::Change(Planned { tag, event, fields }),
        }
    }

    /// Makes a planned change in memory, and returns the reply.
    #[inline(never)]
    fn make(&mut self, planned: Planned) -> Reply
        requires { BringsNoLocks planned.event }
        ensures turn { (body : List ℕ) → IsDrafted self.old body planned → Ordinary self.old body result self.new }
        ensures released { (number : ℕ) → planned.event ≡ ARelease number → result.code ≡ e_outofmemory → ⊥ }
    {
        let Planned { tag, event, fields } = planned;
        if let Err(code) = change(self.bank, &mut self.table, event) {
            return Reply::bare(self.alloc, tag, code, None);
        }
        Reply::new(tag, HResult::S_OK, None, fields.into_vec())
    }

    /// Applies an event that was planned, or another that is allowed. Err: an allocation failed,
    /// which never happens for a `Release`, and nothing changed.
    pub fn apply(&mut self, event: Event) -> Result<(), AllocError>
        requires unlocked { BringsNoLocks event }
        requires allowed { IsOk (allowed self.old.bank event self.old.table) }
        ensures change { MakesChange event self.old self.new result }
        ensures starved { OnErr result (MayWantMemory event self.old.table) }
    {
        apply(&mut self.table, event)
    }

    /// Returns the replies to `bodies`, each a request, in order. Err: an allocation failed before
    /// anything was done.
    pub fn run(&mut self, bodies: &[Vec<u8>]) -> Result<Vec<Reply>, AllocError>
        ensures run { IfOk result (λ replies. Run self.old (map (λ b. b.items) bodies.now) replies.items self.new) }
        ensures bank { self.new.bank ≡ self.old.bank }
        ensures err { OnErr result (self.new ≡ self.old) }
    {
        let mut replies = Vec::with_capacity(self.alloc, bodies.len())?;
        'bodies: for body in bodies {
            let reply = self.turn(body);
            replies.push_reserved(reply);
        }
        Ok(replies)
    }

    /// Returns the table.
    pub fn table(&self) -> &Table
        ensures table { result.now ≡ self.now.table }
        ensures sound { IsSoundTable self.now.bank self.now.table }
    {
        &self.table
    }

    /// Replaces the library. The table stays, with its locks.
    pub fn replace_library(&mut self, library: Library)
        ensures { self.new ≡ record self.old { library = library } }
    {
        self.library = library;
    }

    /// Decides a request. It only reads. Errors are those of `Decider`.
    fn decide(&self, request: Request) -> Result<Decision, DecideError>
        ensures decided { Decides (decided self.now request) (DecidingTakesMemory self.now request) result }
        ensures unlocked { IfOk result ChangesNoLocks }
    {
        self.decider().decide(request)
    }

    /// Returns the decider over the library and the table.
    fn decider(&self) -> Decider<'_>
        ensures { result ≡ self.now }
    {
        Decider::new(self.alloc, self.bank, &self.library, &self.table)
    }

    /// Changes the locks of an array, and replies with these fields, or with why the table refuses
    /// it. Allocates nothing.
    fn relock(&mut self, tag: u32, change: LockChange, fields: Fields) -> Reply
        ensures reply { result ≡ reply_with tag (relocking change fields (relocked change self.old.table)) }
        ensures state { self.new ≡ after_outcome self.old (relocking change fields (relocked change self.old.table)) }
        ensures same { HoldsSame self.old self.new }
    {
        match change_locks(&mut self.table, change) {
            Ok(()) => Reply::new(tag, HResult::S_OK, None, fields.into_vec()),
            Err(fault) => Reply::bare(self.alloc, tag, fault.code(), None),
        }
    }

    /// Returns the reply of a refusal.
    fn refuse(&self, tag: u32, refusal: Refusal) -> Reply
        ensures { result ≡ record { tag = tag; code = refusal.code; index = refusal.index; body = [] } }
    {
        Reply::bare(self.alloc, tag, refusal.code, refusal.index)
    }
}
