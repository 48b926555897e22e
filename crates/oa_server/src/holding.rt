//! A turn over a store: its event is held in a batch until its group ends.
ghost use Rattle.std.specs.Prelude.{◌≡◌, ◌++◌, List, ℕ, false, IfOk, IsErr, IsErrOf, OnErr, OnOk};
ghost use Rattle.oa_image.specs.promise.Events.{event_image};
ghost use Rattle.oa_store.specs.Holding.{IsOpenFor};
ghost use Rattle.oa_record.specs.promise.Replacement.{is_replacement};
ghost use Rattle.oa_server.specs.OpenGroups.{CallsForCheckpoint, CallsForRoom, CallsWhereDue, CanBeMade, HasBanks, HoldsOn, IsAdded};
ghost use Rattle.oa_server.specs.OpenGroups.{IsCutOff, MakesWay};
ghost use Rattle.oa_server.specs.ServerMachine.{IsHeldBack};
ghost use Rattle.oa_server.specs.declared.fault.HoldFault.{HoldFault};
ghost use Rattle.oa_turn.specs.Changes.{MakesChange};
ghost use Rattle.oa_turn.specs.promise.Events.{held_of};
ghost use Rattle.oa_turn.specs.Plans.{IsPlanned};

use crate::fault::HoldFault;
use oa_disk::Disk;
use oa_image::SizedEvent;
use oa_image::laws::is_event;
use oa_model::HResult;
use oa_record::Reply;
use oa_record::laws::one_request;
use oa_store::{DeviceFailed, EventBatch, Store, checkpoint_if_due};
use oa_turn::{Machine, Plan, Planned};
use std::alloc::Global;

/// Executes one turn over a store, and returns its reply. Its event is added to `batch`. Before the
/// first event of a batch, a checkpoint is made if one is due. Err: the checkpoint failed.
pub(crate) fn turn_held<D: Disk>(
    alloc: Global,
    host: &mut Machine,
    store: &mut Store<D>,
    batch: &mut EventBatch,
    body: &[u8],
) -> Result<Reply, DeviceFailed>
    requires plain { is_replacement body.now ≡ false }
    requires open { IsOpenFor batch.old store.old }
    requires banks { HasBanks store.old host.old }
    ensures turn { IfOk result (λ reply. IsHeldBack body.now reply batch.old batch.new host.old host.new) }
    ensures failed { OnErr result (IsCutOff store.old body.now batch.old batch.new host.old host.new) }
    // (the device is called only for a checkpoint, if one is due before an event of the body)
    ensures calls { CallsWhereDue store.old store.new host.old batch.old body.now }
    ensures once { CallsForCheckpoint store.old store.new host.old.table }
    ensures holds { HoldsOn batch.old batch.new (held_of host.old) store.old store.new result }
    ensures banks { HasBanks store.new host.new }
{
    match host.plan(body) {
        Plan::Answered(reply) => Ok(reply),
        Plan::Change(planned) => hold(alloc, host, store, batch, planned),
    }
}

/// Makes a planned change in memory, adds its event to `batch`, and returns the reply. If an
/// allocation fails, nothing has changed, and the reply is E_OUTOFMEMORY. Err: the checkpoint
/// failed.
fn hold<D: Disk>(
    alloc: Global,
    host: &mut Machine,
    store: &mut Store<D>,
    batch: &mut EventBatch,
    planned: Planned,
) -> Result<Reply, DeviceFailed>
    requires change { CanBeMade host.old planned.event }
    requires open { IsOpenFor batch.old store.old }
    requires banks { HasBanks store.old host.old }
    ensures turn { IfOk result (λ reply. (body : List ℕ) → is_replacement body ≡ false → IsPlanned host.old body planned
        → IsHeldBack body reply batch.old batch.new host.old host.new) }
    ensures failed { OnErr result ((body : List ℕ) → is_replacement body ≡ false → IsPlanned host.old body planned
        → IsCutOff store.old body batch.old batch.new host.old host.new) }
    // (the device is called only for a checkpoint, if one is due before the event)
    ensures calls { (body : List ℕ) → is_replacement body ≡ false → IsPlanned host.old body planned
        → CallsWhereDue store.old store.new host.old batch.old body }
    ensures once { CallsForCheckpoint store.old store.new host.old.table }
    ensures holds { HoldsOn batch.old batch.new (held_of host.old) store.old store.new result }
    ensures banks { HasBanks store.new host.new }
{
    one_request();
    is_event(planned.event.as_event());
    let Planned { tag, event, fields } = planned;
    match hold_change(host, store, batch, event) {
        Ok(()) => Ok(Reply::new(tag, HResult::S_OK, None, fields.into_vec())),
        Err(HoldFault::Memory) => Ok(Reply::bare(alloc, tag, HResult::E_OUTOFMEMORY, None)),
        Err(HoldFault::Device) => Err(DeviceFailed),
    }
}

/// Makes a change that is allowed, and adds its event to `batch`. If a checkpoint is due, it is
/// made first, with the table before the change. Errors: `Device` if the checkpoint failed;
/// `Memory` if an allocation failed after it. The table and the batch have then not changed.
fn hold_change<D: Disk>(
    host: &mut Machine,
    store: &mut Store<D>,
    batch: &mut EventBatch,
    event: SizedEvent,
) -> Result<(), HoldFault>
    requires change { CanBeMade host.old event }
    requires open { IsOpenFor batch.old store.old }
    requires banks { HasBanks store.old host.old }
    ensures change { MakesChange event host.old host.new result }
    ensures added { OnOk result (IsAdded event batch.old batch.new host.old host.new) }
    ensures same { OnErr result (batch.new ≡ batch.old) }
    // (the device is called only before the first event of a group, for a checkpoint that is due)
    ensures calls { CallsForRoom batch.old batch.new store.old store.new result }
    ensures once { CallsForCheckpoint store.old store.new host.old.table }
    ensures way { MakesWay batch.old (held_of host.old) store.old store.new result }
{
    is_event(event.as_event());
    checkpoint_if_due(store, host.table(), batch)?;
    add_change(host, batch, event)?;
    Ok(())
}

/// Makes a change that is allowed, and adds its event to `batch`. It allocates first for the
/// event's bytes, then for the table. Err: `Memory`, and nothing has changed.
fn add_change(
    host: &mut Machine,
    batch: &mut EventBatch,
    event: SizedEvent,
) -> Result<(), HoldFault>
    requires { CanBeMade host.old event }
    ensures change { MakesChange event host.old host.new result }
    ensures event { OnOk result (batch.new ≡ batch.old ++ event_image event) }
    ensures same { OnErr result (batch.new ≡ batch.old) }
    ensures kind { IsErr result → IsErrOf result HoldFault.Memory }
{
    let before = batch.len();
    batch.add(&event)?;
    if let Err(_) = host.apply(event.into_event()) {
        batch.cut(before);
        return Err(HoldFault::Memory);
    }
    Ok(())
}
