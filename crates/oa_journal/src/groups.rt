//! Groups of log records, applied to a table.
ghost use Rattle.std.specs.Prelude.{◌≡◌};
ghost use Rattle.std.specs.List.{AllByRecursion};
ghost use Rattle.oa_table.specs.Events.{BringsNoLocks};
ghost use Rattle.oa_journal.specs.Replies.{AreApplied, IsReplay, of_change};

use oa_image::{ImageFault, read_events};
use oa_table::{Event, Table, TableFault};
use std::alloc::Global;

/// Applies the events in order. Err: an event does not apply, or an allocation for it fails; those
/// before it have been applied.
fn apply_all(table: &mut Table, events: Vec<Event>) -> Result<(), TableFault>
    requires { AllByRecursion BringsNoLocks events.items }
    ensures { AreApplied events.items table.old table.new result }
{
    'events: for event in events {
        if let Err((_event, fault)) = table.apply(event) {
            return Err(fault);
        }
    }
    Ok(())
}

/// Converts the refusal of an event into damage of its group at byte `place`.
fn of_change(fault: TableFault, place: usize) -> ImageFault
    ensures { result ≡ of_change fault place }
{
    match fault {
        TableFault::Memory => ImageFault::Memory,
        _ => ImageFault::Damaged(place),
    }
}

/// Applies a group, the encodings of events one after the other. Errors: `Damaged` with a place
/// among the bytes if they are no such encodings or an event does not apply; `Memory` if an
/// allocation fails. After an error some of the events may have been applied.
pub(crate) fn replay(alloc: Global, table: &mut Table, group: &[u8]) -> Result<(), ImageFault>
    ensures { IsReplay group.now table.old table.new result }
{
    let events = read_events(alloc, group)?;
    apply_all(table, events).map_err(|fault| of_change(fault, group.len()))
}
