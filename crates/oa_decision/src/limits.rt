//! The limits of changes.
ghost use Rattle.std.specs.Prelude.{◌≡◌, ◌-◌, ◌≤◌, true, Ok, nat_lt};
ghost use Rattle.oa_image.specs.promise.Sizes.{event_size};
ghost use Rattle.oa_image.specs.promise.Tables.{reserved_bytes};
ghost use Rattle.oa_model.specs.promise.Limits.{max_event_bytes};
ghost use Rattle.oa_table.specs.promise.Events.{applied};
ghost use Rattle.oa_table.specs.Sizes.{size_after};
ghost use Rattle.oa_table.specs.promise.Sizes.{table_size};
ghost use Rattle.oa_table.specs.promise.Tables.{TableValue};
ghost use Rattle.oa_decision.specs.Limits.{GivesReason, StaysWithin, most_after};
ghost use Rattle.oa_decision.specs.promise.Limits.{allowed};

use crate::applies::refusal_of;
use oa_image::{RESERVED_BYTES, SizedEvent};
use oa_model::{HResult, MAX_EVENT_BYTES};
use oa_table::{Event, Table};

/// Returns the greatest length in bytes of a table's image for a bank body of `bank` bytes:
/// 5,242,880 fewer, or 0.
pub fn max_table_image(bank: u32) -> u64
    ensures { result ≡ bank - reserved_bytes }
{
    u64::from(bank.saturating_sub(RESERVED_BYTES))
}

/// Returns the first limit that `event` breaks, for a bank body of `bank` bytes; None if it breaks
/// none. Order: the table's own refusal; E_INVALIDARG if the event's image has more than
/// `MAX_EVENT_BYTES` bytes; STG_E_MEDIUMFULL if the table's image would be too long. Allocates
/// nothing.
pub fn limit_violation(bank: u32, table: &Table, event: &SizedEvent) -> Option<HResult>
    ensures { GivesReason (allowed bank event.now table.now) result }
{
    if let Some(fault) = refusal_of(table, event.as_event()) {
        return Some(fault.code());
    }
    if event.len() > MAX_EVENT_BYTES {
        return Some(HResult::E_INVALIDARG);
    }
    if is_too_large(bank, table, event) {
        return Some(HResult::STG_E_MEDIUMFULL);
    }
    None
}

/// Returns true only if an event that applies is within all limits, for a bank body of `bank`
/// bytes; false decides nothing. The test is cheap. It is true for each event whose table image
/// surely fits, and for a put if its own image still fits after the present one.
pub fn surely_fits(bank: u32, table: &Table, event: &SizedEvent) -> bool
    ensures within { result ≡ true → StaysWithin bank event.now table.now }
    ensures known { event_size event.now ≤ max_event_bytes → most_after event.now table.now ≤ bank - reserved_bytes → result ≡ true }
{
    event.len() <= MAX_EVENT_BYTES && has_surely_room(bank, table, event)
}

/// Returns true only if the image of the table is short enough after an event. A put adds at most
/// its event's image, so its value is not measured again, and its cell is not looked up.
fn has_surely_room(bank: u32, table: &Table, event: &SizedEvent) -> bool
    ensures room { result ≡ true → size_after event.now table.now ≤ bank - reserved_bytes }
    ensures known { most_after event.now table.now ≤ bank - reserved_bytes → result ≡ true }
{
    let most = max_table_image(bank);
    match event.as_event() {
        Event::Put { .. } => table.image_size() <= most.saturating_sub(event.len() as u64),
        other => table.size_after(other) <= most,
    }
}

/// Returns whether the image of the table is too long after an event that applies. For a put that
/// surely fits, it is not computed.
fn is_too_large(bank: u32, table: &Table, event: &SizedEvent) -> bool
    ensures { (new : TableValue) → applied event.now table.now ≡ Ok new → result ≡ nat_lt (bank - reserved_bytes) (table_size new) }
{
    if has_surely_room(bank, table, event) {
        return false;
    }
    size_after(table, event.as_event()) > max_table_image(bank)
}

/// Returns the length of the table's image in bytes after an event that applies.
fn size_after(table: &Table, event: &Event) -> u64
    ensures { (new : TableValue) → applied event.now table.now ≡ Ok new → result ≡ table_size new }
{
    table.size_after(event)
}
