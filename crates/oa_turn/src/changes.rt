//! Changing a table.
ghost use Rattle.std.specs.Prelude.{◌≡◌, [], ℕ, None, Ok, IfErr, IsOk, OnErr, OnOk};
ghost use Rattle.oa_model.specs.promise.Codes.{e_outofmemory};
ghost use Rattle.oa_turn.specs.Changes.{ChangesTable, MakesTable, RelocksTable};
ghost use Rattle.oa_turn.specs.Limits.{IsSoundTable};
ghost use Rattle.oa_turn.specs.Locking.{table_or};
ghost use Rattle.oa_turn.specs.promise.Steps.{relocked};
ghost use Rattle.oa_decision.specs.Limits.{StaysWithin};
ghost use Rattle.oa_decision.specs.promise.Limits.{allowed};
ghost use Rattle.oa_decision.specs.declared.decision.LockChange.TheVariants.{Lock as ALock, Unlock as AnUnlock};
ghost use Rattle.oa_table.specs.Events.{BringsNoLocks};
ghost use Rattle.oa_table.specs.declared.event.Event.TheVariants.{Put as APut, Release as ARelease};
ghost use Rattle.oa_table.specs.Memory.{MayWantMemory};
ghost use Rattle.oa_table.specs.promise.Tables.{cell_in, object_at, unlocked_table};

use oa_decision::{LockChange, limit_violation, max_table_image, surely_fits};
use oa_image::SizedEvent;
use oa_model::{HResult, MAX_EVENT_BYTES};
use oa_table::{CellName, Event, LARGEST_IMAGE, Table, TableFault};
use oa_variant::Variant;
use std::alloc::AllocError;

/// Applies an event that is allowed. Most are puts over an existing value, which have no event to
/// return. Err: an allocation failed, and nothing changed.
pub(crate) fn apply(table: &mut Table, event: Event) -> Result<(), AllocError>
    requires unlocked { BringsNoLocks event }
    ensures change { MakesTable event table.old table.new result }
    ensures starved { (bank : ℕ) → IsOk (allowed bank event table.old) → OnErr result (MayWantMemory event table.old) }
    ensures sound { (bank : ℕ) → IsOk (allowed bank event table.old) → IsSoundTable bank table.old → IsSoundTable bank table.new }
{
    match event {
        Event::Put { name, value } => match table.overwrite(&name, value, u64::MAX, LARGEST_IMAGE) {
            Ok(()) => Ok(()),
            Err(value) => apply_any(table, Event::Put { name, value }),
        },
        event => apply_any(table, event),
    }
}

/// Applies any event that is allowed. Err: an allocation failed, and nothing changed.
#[inline(never)]
fn apply_any(table: &mut Table, event: Event) -> Result<(), AllocError>
    requires unlocked { BringsNoLocks event }
    ensures change { MakesTable event table.old table.new result }
    ensures starved { (bank : ℕ) → IsOk (allowed bank event table.old) → OnErr result (MayWantMemory event table.old) }
    ensures sound { (bank : ℕ) → IsOk (allowed bank event table.old) → IsSoundTable bank table.old → IsSoundTable bank table.new }
{
    if let Err(_) = table.apply(event) {
        return Err(AllocError);
    }
    Ok(())
}

/// Applies an event if it is allowed over banks of `bank` bytes. Err: the code of the refusal, or
/// E_OUTOFMEMORY; then nothing changed.
pub(crate) fn change(bank: u32, table: &mut Table, event: SizedEvent) -> Result<(), HResult>
    requires unlocked { BringsNoLocks event }
    requires sound { IsSoundTable bank table.old }
    ensures change { ChangesTable bank event table.old table.new result }
    ensures released { (number : ℕ) → event ≡ ARelease number → IfErr result (λ code. code ≡ e_outofmemory → ⊥) }
    ensures sound { IsSoundTable bank table.new }
{
    // Far from the limits, as usual, the table itself reports whether the event applies, when it
    // applies it.
    if surely_fits(bank, table, &event) {
        return change_within(table, event.into_event());
    }
    if let Some(code) = limit_violation(bank, table, &event) {
        return Err(code);
    }
    apply(table, event.into_event()).map_err(|_| HResult::E_OUTOFMEMORY)
}

/// The greatest number of bytes of a value's image that a put may have without a key, within the
/// limit of an event.
const LONGEST_VALUE: u64 = MAX_EVENT_BYTES as u64 - 27;

/// Overwrites a cell without a key that was put before, within the limits for banks of `bank`
/// bytes. Err: the limits or the table do not allow it; the value is returned, and nothing changes.
pub(crate) fn overwrite(
    bank: u32,
    table: &mut Table,
    name: &CellName,
    value: Variant,
) -> Result<(), Variant>
    requires keyless { name.now.place.key ≡ [] }
    ensures change { OnOk result (allowed bank (APut name.now value) table.old ≡ Ok table.new) }
    ensures back { IfErr result (λ back. (back ≡ value) × (table.new ≡ table.old)) }
    ensures refused { OnErr result (IsOk (allowed bank (APut name.now value) table.old)
        → cell_in name.now.place (object_at name.now.object table.old) ≡ None) }
    ensures sound { IsSoundTable bank table.old → IsSoundTable bank table.new }
{
    table.overwrite(name, value, LONGEST_VALUE, max_table_image(bank))
}

/// Applies an event that is within the limits, if the table accepts it. Err: the code of the
/// refusal, or E_OUTOFMEMORY; then nothing changed.
fn change_within(table: &mut Table, event: Event) -> Result<(), HResult>
    requires unlocked { BringsNoLocks event }
    ensures change { (bank : ℕ) → StaysWithin bank event table.old → ChangesTable bank event table.old table.new result }
    ensures released { (number : ℕ) → event ≡ ARelease number → IfErr result (λ code. code ≡ e_outofmemory → ⊥) }
    ensures sound { (bank : ℕ) → StaysWithin bank event table.old → IsSoundTable bank table.old → IsSoundTable bank table.new }
{
    if let Err((_, fault)) = table.apply(event) {
        return Err(fault.code());
    }
    Ok(())
}

/// Adds or removes a lock of an array. Allocates nothing. Err: the table refuses it, and nothing
/// changed.
pub(crate) fn change_locks(table: &mut Table, change: LockChange) -> Result<(), TableFault>
    ensures change { RelocksTable change table.old table.new result }
    ensures same { unlocked_table table.new ≡ unlocked_table table.old }
    ensures sound { (bank : ℕ) → IsSoundTable bank table.old → IsSoundTable bank table.new }
{
    match change {
        LockChange::Lock(name) => lock(table, name),
        LockChange::Unlock(name) => unlock(table, name),
    }
}

/// Adds a lock to the array in a cell. Err: the table refuses it.
fn lock(table: &mut Table, name: CellName) -> Result<(), TableFault>
    ensures change { RelocksTable (ALock name) table.old table.new result }
    ensures same { unlocked_table table.new ≡ unlocked_table table.old }
    ensures sound { (bank : ℕ) → IsSoundTable bank table.old → IsSoundTable bank table.new }
{
    table.lock(&name)?;
    Ok(())
}

/// Removes a lock from the array in a cell. Err: the table refuses it.
fn unlock(table: &mut Table, name: CellName) -> Result<(), TableFault>
    ensures change { RelocksTable (AnUnlock name) table.old table.new result }
    ensures same { unlocked_table table.new ≡ unlocked_table table.old }
    ensures sound { (bank : ℕ) → IsSoundTable bank table.old → IsSoundTable bank table.new }
{
    table.unlock(&name)?;
    Ok(())
}

/// Removes a lock of an array, if it has one. Allocates nothing.
pub(crate) fn take_lock_back(table: &mut Table, name: &CellName)
    ensures change { table.new ≡ table_or table.old (relocked (AnUnlock name.now) table.old) }
    ensures same { unlocked_table table.new ≡ unlocked_table table.old }
    ensures sound { (bank : ℕ) → IsSoundTable bank table.old → IsSoundTable bank table.new }
{
    if let Err(_) = table.unlock(name) {}
}
