//! Locks in a server of many clients.
ghost use Rattle.std.specs.Prelude.{◌≡◌, [], false, true, List, ℕ, IfNone, IfSome, map};
ghost use Rattle.oa_decision.specs.declared.decision.LockChange.{LockChange as AChange};
ghost use Rattle.oa_decision.specs.declared.decision.LockChange.TheVariants.{Lock as ALock, Unlock as AnUnlock};
ghost use Rattle.oa_turn.specs.promise.ClientLocks.{without_one, ClientLock as AClientLock};
ghost use Rattle.oa_turn.specs.Counts.{locked_name};
ghost use Rattle.oa_turn.specs.Kept.{copies};
ghost use Rattle.oa_record.specs.promise.Replacement.{is_replacement};
ghost use Rattle.oa_server.specs.Sharing.{IsLockTurn};
ghost use Rattle.oa_server.specs.promise.SharedMachine.{TurnsFor, all_released, behind_end, shared, taken_back};
ghost use Rattle.oa_turn.specs.promise.Events.{HasEvent, held_of, is_done};
ghost use Rattle.oa_turn.specs.promise.Locking.{AsksLock};
ghost use Rattle.oa_turn.specs.promise.Plans.{HoldsSame};
ghost use Rattle.oa_turn.specs.promise.Turns.{Ordinary};

use crate::open_group::bare_reply;
use oa_decision::LockChange;
use oa_model::HResult;
use oa_record::Reply;
use oa_record::laws::{a_replacement_is_no_request, one_request, refused_asks_nothing};
use oa_table::CellName;
use oa_turn::{CellKey, ClientCells, LockTable, Machine, Plan};
use std::alloc::Global;

/// Executes one turn in memory for a body of the client with this number, and returns the reply.
/// The body does not replace the library.
pub(crate) fn turn_for(
    alloc: Global,
    host: &mut Machine,
    owners: &mut LockTable,
    client: u32,
    body: &[u8],
) -> Reply
    requires plain { is_replacement body.now ≡ false }
    ensures turn { TurnsFor client body.now result (shared host.old owners.old) (shared host.new owners.new) }
    ensures bank { host.new.bank ≡ host.old.bank }
{
    match lock_turn(alloc, host, owners, client, body) {
        Some(reply) => reply,
        None => host.ordinary_turn(body),
    }
}

/// Executes in memory a request of any client to replace the library, and returns the reply. No
/// lock changes its owner.
pub(crate) fn replace_for(host: &mut Machine, body: &[u8]) -> Reply
    requires kind { is_replacement body.now ≡ true }
    ensures turn { (client : ℕ) (locks : List AClientLock) → TurnsFor client body.now result (shared host.old locks) (shared host.new locks) }
    ensures bank { host.new.bank ≡ host.old.bank }
{
    a_replacement_is_no_request();
    refused_asks_nothing();
    host.replace(body)
}

/// Executes a body that changes a lock, for the client with this number, and returns the reply.
/// None, with nothing done, for any other body. A client can release only its own locks. If an
/// allocation fails, the reply is E_OUTOFMEMORY.
pub(crate) fn lock_turn(
    alloc: Global,
    host: &mut Machine,
    owners: &mut LockTable,
    client: u32,
    body: &[u8],
) -> Option<Reply>
    ensures some { IfSome result (λ reply. IsLockTurn client body.now reply (shared host.old owners.old) (shared host.new owners.new)) }
    ensures none { IfNone result ((change : AChange) → AsksLock host.old body.now change → ⊥) }
    ensures same { IfNone result ((host.new ≡ host.old) × (owners.new ≡ owners.old)) }
{
    match host.lock_asked(body) {
        Ok(None) => None,
        Ok(Some(LockChange::Lock(name))) => Some(lock_for(alloc, host, owners, client, name, body)),
        Ok(Some(LockChange::Unlock(name))) => {
            let cell = CellKey::new(name);
            Some(unlock_for(alloc, host, owners, client, &cell, body))
        }
        Err(_) => Some(bare_reply(alloc, body, HResult::E_OUTOFMEMORY)),
    }
}

/// Executes a LOCK, and makes the client its owner. If the allocation for that fails, the lock is
/// released, and the reply is E_OUTOFMEMORY.
fn lock_for(
    alloc: Global,
    host: &mut Machine,
    owners: &mut LockTable,
    client: u32,
    name: CellName,
    body: &[u8],
) -> Reply
    requires asked { AsksLock host.old body.now (ALock name) }
    requires plain { is_replacement body.now ≡ false }
    ensures { IsLockTurn client body.now result (shared host.old owners.old) (shared host.new owners.new) }
{
    one_request();
    let reply = relock(alloc, host, body);
    if !is_done(&reply) {
        return reply;
    }
    let cell = CellKey::new(name);
    let Err(cell) = owners.add(client, cell) else {
        return reply;
    };
    host.take_back(cell.name());
    bare_reply(alloc, body, HResult::E_OUTOFMEMORY)
}

/// Executes an UNLOCK. If the client has no lock of the cell, the reply is E_UNEXPECTED.
fn unlock_for(
    alloc: Global,
    host: &mut Machine,
    owners: &mut LockTable,
    client: u32,
    cell: &CellKey,
    body: &[u8],
) -> Reply
    requires asked { AsksLock host.old body.now (AnUnlock cell.now) }
    requires plain { is_replacement body.now ≡ false }
    ensures { IsLockTurn client body.now result (shared host.old owners.old) (shared host.new owners.new) }
{
    one_request();
    if !owners.owns(client, cell) {
        return bare_reply(alloc, body, HResult::E_UNEXPECTED);
    }
    let reply = relock(alloc, host, body);
    give_back(owners, is_done(&reply), client, cell);
    reply
}

/// Returns whether a reply has S_OK.
fn is_done(reply: &Reply) -> bool
    ensures { result ≡ is_done reply.now }
{
    reply.code().0 == 0
}

/// Removes one lock of the cell from the client's, if `done`: the lock was released.
fn give_back(owners: &mut LockTable, done: bool, client: u32, cell: &CellKey)
    ensures given { done ≡ true → owners.new ≡ without_one client cell.now owners.old }
    ensures kept { done ≡ false → owners.new ≡ owners.old }
{
    if done {
        owners.release_one(client, cell);
    }
}

/// Executes the turn of a body that changes a lock, for any client, and returns the reply.
fn relock(alloc: Global, host: &mut Machine, body: &[u8]) -> Reply
    ensures turn { (change : AChange) → AsksLock host.old body.now change → Ordinary host.old body.now result host.new }
    ensures made { (change : AChange) → AsksLock host.old body.now change → HasEvent host.old body.now result [] }
    ensures same { (change : AChange) → AsksLock host.old body.now change → HoldsSame host.old host.new }
{
    one_request();
    match host.plan(body) {
        Plan::Answered(reply) => reply,
        // This is never reached: the plan for such a body is no change of the table.
        Plan::Change(_) => bare_reply(alloc, body, HResult::E_OUTOFMEMORY),
    }
}

/// Releases all locks of the client with this number, which ends.
pub(crate) fn let_go(host: &mut Machine, owners: &mut LockTable, client: u32)
    ensures state { shared host.new owners.new ≡ behind_end client (shared host.old owners.old) }
    ensures same { held_of host.new ≡ held_of host.old }
    ensures bank { host.new.bank ≡ host.old.bank }
{
    let cells = owners.release_all(client);
    take_back_cells(host, &cells);
}

/// Releases a client's locks.
fn take_back_cells(host: &mut Machine, cells: &ClientCells)
    ensures { host.new ≡ taken_back cells.now host.old }
{
    'cells: for (cell, count) in cells.counts() {
        take_back_times(host, cell.name(), *count);
    }
}

/// Releases `count` locks of a cell.
fn take_back_times(host: &mut Machine, name: &CellName, count: u32)
    ensures { host.new ≡ taken_back (copies count name.now []) host.old }
{
    'times: for _ in 0..count {
        host.take_back(name);
    }
}

/// Releases all locks that clients still have when a session ends. After it no lock has an owner.
pub(crate) fn let_all_go(alloc: Global, host: &mut Machine, owners: &mut LockTable)
    ensures state { shared host.new owners.new ≡ all_released (shared host.old owners.old) }
    ensures none { owners.new ≡ [] }
    ensures bank { host.new.bank ≡ host.old.bank }
{
    take_back_each(host, owners);
    *owners = LockTable::new(alloc);
}

/// Releases the locks of all clients.
fn take_back_each(host: &mut Machine, owners: &LockTable)
    ensures { host.new ≡ taken_back (map locked_name owners.now) host.old }
{
    'clients: for (_client, cells) in owners.clients() {
        take_back_cells(host, cells);
    }
}
