//! The open group of a session over a store, with the client of each reply and the owner of each
//! lock.
ghost use Rattle.std.specs.Prelude.{◌≡◌, ◌∷◌, [], ℕ, false, true};
ghost use Rattle.oa_group_commit.specs.promise.Groups.{IsAdmitted, IsEnded};
ghost use Rattle.oa_decision.specs.declared.decision.LockChange.{LockChange as AChange};
ghost use Rattle.oa_server.specs.SharedGroups.{DeskIsReady, DeskIsReadyCleared, HoldsFrom, cleared_desk, told_at};
ghost use Rattle.oa_server.specs.promise.SharedSessions.{shared_group_state_of, told_with};
ghost use Rattle.oa_server.specs.OpenGroups.{HasBanks};
ghost use Rattle.oa_server.specs.promise.SharedMachine.{shared_machine, Replies, shared, tagged_body};
ghost use Rattle.oa_record.specs.promise.Replacement.{is_replacement};
ghost use Rattle.oa_mux.specs.promise.Readers.{Body, Ends};
ghost use Rattle.oa_turn.specs.promise.Locking.{AsksLock};

use crate::grouping::{admit, admit_barrier, commit_group, flush_held};
use crate::locking::{let_go, lock_turn};
use crate::open_group::{OpenGroup, bare_reply};
use oa_disk::Disk;
use oa_frame::End;
use oa_model::HResult;
use oa_record::Reply;
use oa_record::laws::{a_replacement_is_no_request, refused_asks_nothing};
use oa_store::{EventBatch, Store};
use oa_turn::{LockTable, Machine};
use std::alloc::Global;

/// The client of a reply, and how it ended if the reply is for its end.
#[derive(Clone, Copy, Debug, PartialEq, Eq)]
pub(crate) struct ReplyTo {
    /// The client's number.
    pub client: u32,
    /// Its end, instead of a reply.
    pub why: Option<End>,
}

/// The open group of a session of one client, which gets each reply, or of many.
#[derive(Drop)]
pub(crate) struct SharedGroup {
    /// Its events and its replies.
    pub open_group: OpenGroup,
    /// In a session of many clients, the client of each reply, in the same order.
    pub askers: Vec<ReplyTo>,
    /// In a session of many clients, the owners of locks.
    pub owners: LockTable,
}

impl SharedGroup {
    /// Returns the open group of no session, without locks. Allocates nothing.
    pub(crate) fn none(alloc: Global) -> SharedGroup
        ensures owners { result.owners ≡ [] }
    {
        SharedGroup {
            open_group: OpenGroup::none(alloc),
            askers: Vec::new(alloc),
            owners: LockTable::new(alloc),
        }
    }
}

/// Executes one body of the client with this number in the open group. The body does not come
/// alone. Returns `true` if the group has ended and its replies can be sent. If the device has
/// failed, these replies are errors.
pub(crate) fn ask_over<D: Disk>(
    alloc: Global,
    host: &mut Machine,
    store: &mut Store<D>,
    desk: &mut SharedGroup,
    client: u32,
    body: &[u8],
) -> bool
    requires ready { DeskIsReady store.old desk.old }
    requires plain { is_replacement body.now ≡ false }
    requires banks { HasBanks store.old host.old }
    ensures held { result ≡ false → IsAdmitted shared_machine desk.old.open_group.size (tagged_body client (Body body.now)) []
        (shared_group_state_of store.old host.old desk.old) (shared_group_state_of store.new host.new desk.new) }
    ensures told { result ≡ true → IsAdmitted shared_machine desk.old.open_group.size (tagged_body client (Body body.now)) (told_at desk.new)
        (shared_group_state_of store.old host.old desk.old) (cleared_desk store.new host.new desk.new) }
    ensures ready { result ≡ false → DeskIsReady store.new desk.new }
    ensures cleared { result ≡ true → DeskIsReadyCleared store.new desk.new }
    ensures banks { HasBanks store.new host.new }
    ensures size { desk.new.open_group.size ≡ desk.old.open_group.size }
{
    if store.has_stopped() {
        return admit_for(alloc, host, store, desk, client, body);
    }
    match lock_turn(alloc, host, &mut desk.owners, client, body) {
        Some(reply) => hold(
            alloc,
            host,
            store,
            desk,
            ReplyTo { client, why: None },
            reply,
        ),
        None => admit_for(alloc, host, store, desk, client, body),
    }
}

/// Executes one body that changes no lock, and returns what `ask_over` does.
fn admit_for<D: Disk>(
    alloc: Global,
    host: &mut Machine,
    store: &mut Store<D>,
    desk: &mut SharedGroup,
    client: u32,
    body: &[u8],
) -> bool
    requires ready { DeskIsReady store.old desk.old }
    requires plain { is_replacement body.now ≡ false }
    requires banks { HasBanks store.old host.old }
    requires none { store.old.stopped ≡ false → (change : AChange) → AsksLock host.old body.now change → ⊥ }
    ensures held { result ≡ false → IsAdmitted shared_machine desk.old.open_group.size (tagged_body client (Body body.now)) []
        (shared_group_state_of store.old host.old desk.old) (shared_group_state_of store.new host.new desk.new) }
    ensures told { result ≡ true → IsAdmitted shared_machine desk.old.open_group.size (tagged_body client (Body body.now)) (told_at desk.new)
        (shared_group_state_of store.old host.old desk.old) (cleared_desk store.new host.new desk.new) }
    ensures ready { result ≡ false → DeskIsReady store.new desk.new }
    ensures cleared { result ≡ true → DeskIsReadyCleared store.new desk.new }
    ensures banks { HasBanks store.new host.new }
    ensures size { desk.new.open_group.size ≡ desk.old.open_group.size }
{
    desk.askers.push_reserved(ReplyTo { client, why: None });
    admit(alloc, host, store, &mut desk.open_group, body)
}

/// Executes one body of any client that comes alone, while no reply is held. Returns its reply,
/// which can be sent at once. No lock changes its owner.
pub(crate) fn ask_alone<D: Disk>(
    alloc: Global,
    host: &mut Machine,
    store: &mut Store<D>,
    desk: &mut SharedGroup,
    body: &[u8],
) -> Reply
    requires ready { DeskIsReady store.old desk.old }
    requires none { desk.old.open_group.replies.items ≡ [] }
    requires kind { is_replacement body.now ≡ true }
    requires banks { HasBanks store.old host.old }
    ensures told { (client : ℕ) → IsAdmitted shared_machine desk.old.open_group.size (tagged_body client (Body body.now)) (Replies client result ∷ [])
        (shared_group_state_of store.old host.old desk.old) (shared_group_state_of store.new host.new desk.new) }
    ensures ready { DeskIsReady store.new desk.new }
    ensures banks { HasBanks store.new host.new }
    ensures size { desk.new.open_group.size ≡ desk.old.open_group.size }
{
    a_replacement_is_no_request();
    refused_asks_nothing();
    admit_barrier(alloc, host, store, &mut desk.open_group, body)
}

/// Holds the reply to a body that made no event. Returns `true` if this reply fills the group,
/// which then ends.
fn hold<D: Disk>(
    alloc: Global,
    host: &Machine,
    store: &mut Store<D>,
    desk: &mut SharedGroup,
    asker: ReplyTo,
    reply: Reply,
) -> bool
    requires ready { DeskIsReady store.old desk.old }
    requires going { store.old.stopped ≡ false }
    ensures held { result ≡ false → HoldsFrom store.old desk.old (told_with asker.client asker.why reply) (shared host.now desk.old.owners) []
        (shared_group_state_of store.new host.now desk.new) }
    ensures told { result ≡ true → HoldsFrom store.old desk.old (told_with asker.client asker.why reply) (shared host.now desk.old.owners) (told_at desk.new)
        (cleared_desk store.new host.now desk.new) }
    ensures ready { result ≡ false → DeskIsReady store.new desk.new }
    ensures cleared { result ≡ true → DeskIsReadyCleared store.new desk.new }
    ensures shape { store.new.bank.shape ≡ store.old.bank.shape }
    ensures owners { desk.new.owners ≡ desk.old.owners }
    ensures size { desk.new.open_group.size ≡ desk.old.open_group.size }
{
    desk.askers.push_reserved(asker);
    desk.open_group.replies.push_reserved(reply);
    if !desk.open_group.is_full() {
        return false;
    }
    commit_group(alloc, host, store, &mut desk.open_group);
    true
}

/// Ends the client with this number. The frame for its end follows all of its replies, and its
/// locks are released. Returns `true` if the group has ended and its replies can be sent. If the
/// device has failed, nothing is released.
pub(crate) fn end_over<D: Disk>(
    alloc: Global,
    host: &mut Machine,
    store: &mut Store<D>,
    desk: &mut SharedGroup,
    client: u32,
    why: End,
) -> bool
    requires ready { DeskIsReady store.old desk.old }
    requires banks { HasBanks store.old host.old }
    ensures held { result ≡ false → IsAdmitted shared_machine desk.old.open_group.size (tagged_body client (Ends why)) []
        (shared_group_state_of store.old host.old desk.old) (shared_group_state_of store.new host.new desk.new) }
    ensures told { result ≡ true → IsAdmitted shared_machine desk.old.open_group.size (tagged_body client (Ends why)) (told_at desk.new)
        (shared_group_state_of store.old host.old desk.old) (cleared_desk store.new host.new desk.new) }
    ensures ready { result ≡ false → DeskIsReady store.new desk.new }
    ensures cleared { result ≡ true → DeskIsReadyCleared store.new desk.new }
    ensures banks { HasBanks store.new host.new }
    ensures size { desk.new.open_group.size ≡ desk.old.open_group.size }
{
    let asker = ReplyTo {
        client,
        why: Some(why),
    };
    let reply = Reply::bare(alloc, 0, HResult::S_OK, None);
    if store.has_stopped() {
        desk.askers.push_reserved(asker);
        desk.open_group.replies.push_reserved(reply);
        return true;
    }
    let_go(host, &mut desk.owners, client);
    hold(alloc, host, store, desk, asker, reply)
}

/// Commits the open group. Its replies can then be sent; if the device fails, they become errors.
pub(crate) fn finish_over<D: Disk>(
    alloc: Global,
    host: &Machine,
    store: &mut Store<D>,
    desk: &mut SharedGroup,
)
    requires ready { DeskIsReady store.old desk.old }
    ensures ended { IsEnded shared_machine (told_at desk.new) (shared_group_state_of store.old host.now desk.old) (cleared_desk store.new host.now desk.new) }
    ensures cleared { DeskIsReadyCleared store.new desk.new }
    ensures batch { desk.new.open_group.batch ≡ [] }
    ensures shape { store.new.bank.shape ≡ store.old.bank.shape }
    ensures size { desk.new.open_group.size ≡ desk.old.open_group.size }
{
    flush_held(alloc, host, store, &mut desk.open_group);
    desk.open_group.batch = EventBatch::new(alloc);
}
