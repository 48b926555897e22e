//! Group commit: the events of a group of requests are committed together, and the replies are held
//! back until then.
ghost use Rattle.std.specs.Prelude.{◌≡◌, ◌≤◌, ◌<◌, ◌+◌, ◌++◌, ◌∷◌, [], IfOk, OnErr, false, length, map, true, vec_capacity};
ghost use Rattle.oa_group_commit.specs.promise.Groups.{IsAdmitted, IsEnded, IsGroupCommitted, IsServed};
ghost use Rattle.oa_journal.specs.promise.Bank.{ample_bytes};
ghost use Rattle.oa_store.specs.Kept.{HasRoom};
ghost use Rattle.oa_record.specs.promise.Replacement.{is_replacement};
ghost use Rattle.oa_server.specs.Answers.{IsAnswered, IsReplacedOver, IsReplacedOrLate};
ghost use Rattle.oa_server.specs.promise.ServerMachine.{AnswersAfterFault, server_machine};
ghost use Rattle.oa_server.specs.OpenGroups.{CanTake, CanTakeCleared, HandsOut, HasBanks, cleared_grouping, grouping_of};

use crate::holding::turn_held;
use crate::open_group::{OpenGroup, bare_reply, fail_replies};
use crate::replacement::replace_over;
use oa_disk::Disk;
use oa_model::HResult;
use oa_record::{Reply, is_replacement};
use oa_store::{EventBatch, Store, commit};
use oa_turn::Machine;
use std::alloc::{AllocError, Global};

/// Returns the reply to one body, which is a group of its own, with a batch of its own. If the
/// device fails in this call, the reply is STG_E_WRITEFAULT. If it failed earlier, the reply is
/// E_FAIL, and nothing is done.
pub(crate) fn answer_over<D: Disk>(
    alloc: Global,
    host: &mut Machine,
    store: &mut Store<D>,
    body: &[u8],
) -> Reply
    requires banks { HasBanks store.old host.old }
    ensures answered { IsAnswered store.old store.new host.old host.new body.now result }
    ensures banks { HasBanks store.new host.new }
{
    if store.has_stopped() {
        return bare_reply(alloc, body, HResult::E_FAIL);
    }
    if is_replacement(body) {
        return replaced_over(alloc, host, store, body);
    }
    let mut batch = EventBatch::new(alloc);
    let Ok(reply) = turn_held(alloc, host, store, &mut batch, body) else {
        return bare_reply(alloc, body, HResult::STG_E_WRITEFAULT);
    };
    let Ok(()) = commit(store, &mut batch) else {
        return bare_reply(alloc, body, HResult::STG_E_WRITEFAULT);
    };
    reply
}

/// Returns the reply to a request to replace the library, which is a group of its own:
/// STG_E_WRITEFAULT if the device fails.
fn replaced_over<D: Disk>(
    alloc: Global,
    host: &mut Machine,
    store: &mut Store<D>,
    body: &[u8],
) -> Reply
    requires goes_on { store.old.stopped ≡ false }
    requires kind { is_replacement body.now ≡ true }
    requires banks { HasBanks store.old host.old }
    ensures replaced { IsReplacedOver store.old store.new host.old host.new body.now result }
    ensures banks { HasBanks store.new host.new }
{
    match replace_over(alloc, host, store, body) {
        Ok(reply) => reply,
        Err(_) => bare_reply(alloc, body, HResult::STG_E_WRITEFAULT),
    }
}

/// Commits the events of the open group. Its replies can then be sent; if the device fails, each
/// becomes STG_E_WRITEFAULT.
pub(crate) fn commit_group<D: Disk>(
    alloc: Global,
    host: &Machine,
    store: &mut Store<D>,
    open_group: &mut OpenGroup,
)
    requires goes_on { store.old.stopped ≡ false }
    requires room { HasRoom open_group.old.batch store.old }
    requires few { length open_group.old.batch + 6 ≤ ample_bytes }
    ensures settled { IsGroupCommitted server_machine open_group.new.replies.items (grouping_of store.old host.now open_group.old)
        (cleared_grouping store.new host.now open_group.new) }
    ensures batch { open_group.new.batch ≡ [] }
    ensures shape { store.new.bank.shape ≡ store.old.bank.shape }
    ensures len { length open_group.new.replies.items ≡ length open_group.old.replies.items }
    ensures places { vec_capacity open_group.new.replies ≡ vec_capacity open_group.old.replies }
    ensures size { open_group.new.size ≡ open_group.old.size }
{
    if let Err(_) = commit(store, &mut open_group.batch) {
        fail_replies(alloc, &mut open_group.replies);
    }
}

/// Executes one request, which does not come alone, in the open group. Returns `true` if the group
/// has ended and the held replies can be sent.
///
/// If a checkpoint or a commit fails, each reply of the group becomes STG_E_WRITEFAULT. If the
/// device failed earlier, nothing is done, and the reply is E_FAIL.
pub(crate) fn admit<D: Disk>(
    alloc: Global,
    host: &mut Machine,
    store: &mut Store<D>,
    open_group: &mut OpenGroup,
    body: &[u8],
) -> bool
    requires ready { CanTake store.old open_group.old }
    requires plain { is_replacement body.now ≡ false }
    requires banks { HasBanks store.old host.old }
    ensures held { result ≡ false
        → IsAdmitted server_machine open_group.old.size body.now [] (grouping_of store.old host.old open_group.old) (grouping_of store.new host.new open_group.new) }
    ensures told { result ≡ true → IsAdmitted server_machine open_group.old.size body.now open_group.new.replies.items (grouping_of store.old host.old open_group.old)
        (cleared_grouping store.new host.new open_group.new) }
    ensures ready { result ≡ false → CanTake store.new open_group.new }
    ensures cleared { result ≡ true → CanTakeCleared store.new open_group.new }
    ensures banks { HasBanks store.new host.new }
    ensures one { length open_group.new.replies.items ≡ length open_group.old.replies.items + 1 }
    ensures size { open_group.new.size ≡ open_group.old.size }
{
    if store.has_stopped() {
        let reply = bare_reply(alloc, body, HResult::E_FAIL);
        open_group.replies.push_reserved(reply);
        return true;
    }
    match turn_held(alloc, host, store, &mut open_group.batch, body) {
        Ok(reply) => {
            open_group.replies.push_reserved(reply);
            if !open_group.is_full() {
                return false;
            }
            commit_group(alloc, host, store, open_group);
            true
        }
        Err(_) => {
            let reply = bare_reply(alloc, body, HResult::STG_E_WRITEFAULT);
            fail_replies(alloc, &mut open_group.replies);
            open_group.replies.push_reserved(reply);
            true
        }
    }
}

/// Returns the reply to a request to replace the library, after the group before it has ended. If
/// the device failed in that group or earlier, nothing is done, and the reply is E_FAIL.
fn replaced_or_late<D: Disk>(
    alloc: Global,
    host: &mut Machine,
    store: &mut Store<D>,
    body: &[u8],
) -> Reply
    requires kind { is_replacement body.now ≡ true }
    requires banks { HasBanks store.old host.old }
    ensures replaced { IsReplacedOrLate store.old store.new host.old host.new body.now result }
    ensures banks { HasBanks store.new host.new }
{
    if !store.has_stopped() {
        return replaced_over(alloc, host, store, body);
    }
    bare_reply(alloc, body, HResult::E_FAIL)
}

/// Ends the open group, and then executes a request that comes alone. All held replies can then be
/// sent.
fn take_apart<D: Disk>(
    alloc: Global,
    host: &mut Machine,
    store: &mut Store<D>,
    open_group: &mut OpenGroup,
    body: &[u8],
)
    requires ready { CanTake store.old open_group.old }
    requires kind { is_replacement body.now ≡ true }
    requires banks { HasBanks store.old host.old }
    ensures told { IsAdmitted server_machine open_group.old.size body.now open_group.new.replies.items (grouping_of store.old host.old open_group.old)
        (cleared_grouping store.new host.new open_group.new) }
    ensures cleared { CanTakeCleared store.new open_group.new }
    ensures banks { HasBanks store.new host.new }
    ensures one { length open_group.new.replies.items ≡ length open_group.old.replies.items + 1 }
    ensures size { open_group.new.size ≡ open_group.old.size }
{
    flush_held(alloc, host, store, open_group);
    open_group.batch = EventBatch::new(alloc);
    let reply = replaced_or_late(alloc, host, store, body);
    open_group.replies.push_reserved(reply);
}

/// Executes a request that comes alone, while no reply is held. Returns its reply, which can be
/// sent at once.
pub(crate) fn admit_barrier<D: Disk>(
    alloc: Global,
    host: &mut Machine,
    store: &mut Store<D>,
    open_group: &mut OpenGroup,
    body: &[u8],
) -> Reply
    requires ready { CanTake store.old open_group.old }
    requires none { open_group.old.replies.items ≡ [] }
    requires kind { is_replacement body.now ≡ true }
    requires banks { HasBanks store.old host.old }
    ensures told { IsAdmitted server_machine open_group.old.size body.now (result ∷ []) (grouping_of store.old host.old open_group.old)
        (grouping_of store.new host.new open_group.new) }
    ensures ready { CanTake store.new open_group.new }
    ensures banks { HasBanks store.new host.new }
    ensures none { open_group.new.replies.items ≡ [] }
    ensures size { open_group.new.size ≡ open_group.old.size }
{
    open_group.batch = EventBatch::new(alloc);
    replaced_or_late(alloc, host, store, body)
}

/// Commits the open group when the input has ended: its replies can then be sent. Without replies
/// it does nothing.
pub(crate) fn flush_held<D: Disk>(
    alloc: Global,
    host: &Machine,
    store: &mut Store<D>,
    open_group: &mut OpenGroup,
)
    requires ready { CanTake store.old open_group.old }
    ensures ended { IsEnded server_machine open_group.new.replies.items (grouping_of store.old host.now open_group.old)
        (cleared_grouping store.new host.now open_group.new) }
    ensures cleared { CanTakeCleared store.new open_group.new }
    ensures shape { store.new.bank.shape ≡ store.old.bank.shape }
    ensures len { length open_group.new.replies.items ≡ length open_group.old.replies.items }
    ensures size { open_group.new.size ≡ open_group.old.size }
{
    if open_group.replies.is_empty() {
        return;
    }
    commit_group(alloc, host, store, open_group);
}

/// Executes one request, and appends to `out` the replies of a group that has ended.
fn take_on<D: Disk>(
    alloc: Global,
    host: &mut Machine,
    store: &mut Store<D>,
    open_group: &mut OpenGroup,
    body: &[u8],
    out: &mut Vec<Reply>,
)
    requires ready { CanTake store.old open_group.old }
    requires places { length out.old.items + length open_group.old.replies.items < vec_capacity out.old }
    requires banks { HasBanks store.old host.old }
    ensures taken { HandsOut (λ told. IsAdmitted server_machine open_group.old.size body.now told (grouping_of store.old host.old open_group.old)
        (grouping_of store.new host.new open_group.new)) out.old.items out.new.items }
    ensures ready { CanTake store.new open_group.new }
    ensures banks { HasBanks store.new host.new }
    ensures one { length out.new.items + length open_group.new.replies.items ≡ length out.old.items + length open_group.old.replies.items + 1 }
    ensures places { vec_capacity out.old ≤ vec_capacity out.new }
    ensures size { open_group.new.size ≡ open_group.old.size }
{
    if is_replacement(body) {
        take_apart(alloc, host, store, open_group, body);
        hand_out(&mut open_group.replies, out);
        return;
    }
    if admit(alloc, host, store, open_group, body) {
        hand_out(&mut open_group.replies, out);
    }
}

/// Commits the open group when the input has ended, and appends its replies to `out`.
fn finish_on<D: Disk>(
    alloc: Global,
    host: &Machine,
    store: &mut Store<D>,
    open_group: &mut OpenGroup,
    out: &mut Vec<Reply>,
)
    requires ready { CanTake store.old open_group.old }
    requires places { length out.old.items + length open_group.old.replies.items ≤ vec_capacity out.old }
    ensures ended { HandsOut (λ told. IsEnded server_machine told (grouping_of store.old host.now open_group.old) (grouping_of store.new host.now open_group.new))
        out.old.items out.new.items }
    ensures shape { store.new.bank.shape ≡ store.old.bank.shape }
{
    flush_held(alloc, host, store, open_group);
    hand_out(&mut open_group.replies, out);
}

/// Moves `replies` to the end of `out`, which has capacity for them.
fn hand_out(replies: &mut Vec<Reply>, out: &mut Vec<Reply>)
    requires { length out.old.items + length replies.old.items ≤ vec_capacity out.old }
    ensures out { out.new.items ≡ out.old.items ++ replies.old.items }
    ensures emptied { replies.new.items ≡ [] }
    ensures place { vec_capacity replies.new ≡ vec_capacity replies.old }
    ensures places { vec_capacity out.old ≤ vec_capacity out.new }
{
    out.append(replies).unwrap();
}

/// Returns the replies to `bodies`, in order, which are committed in groups of up to `group`. Err:
/// an allocation failed before anything was done.
pub(crate) fn run_over<D: Disk>(
    alloc: Global,
    host: &mut Machine,
    store: &mut Store<D>,
    bodies: &[Vec<u8>],
    group: usize,
) -> Result<Vec<Reply>, AllocError>
    requires positive { 1 ≤ group }
    requires banks { HasBanks store.old host.old }
    ensures served { store.old.stopped ≡ false → IfOk result (λ replies. IsServed server_machine group store.old store.new host.old host.new
        (map (λ b. b.items) bodies.now) replies.items) }
    ensures late { store.old.stopped ≡ true → IfOk result (λ replies. AnswersAfterFault store.old store.new host.old host.new
        (map (λ b. b.items) bodies.now) replies.items) }
    ensures err { OnErr result ((store.new ≡ store.old) × (host.new ≡ host.old)) }
    ensures banks { HasBanks store.new host.new }
{
    let mut out = Vec::with_capacity(alloc, bodies.len())?;
    let mut open_group = OpenGroup::new(alloc, group)?;
    'bodies: for body in bodies {
        take_on(alloc, host, store, &mut open_group, body, &mut out);
    }
    finish_on(alloc, host, store, &mut open_group, &mut out);
    Ok(out)
}
