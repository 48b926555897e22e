//! The events of a group, as they will be written.
ghost use Rattle.std.specs.Prelude.{◌≡◌, ◌⊎◌, ◌↔◌, ◌≤◌, ◌++◌, [], IsTrue, OnErr, OnOk, length, take};
ghost use Rattle.oa_image.specs.promise.Events.{event_image};
ghost use Rattle.oa_journal.specs.Append.{group_of};

use oa_image::{SizedEvent, write_event};
use std::alloc::{AllocError, Global};
use std::marker::Model;

/// The bytes of the events of a group, one after the other. A new batch has no memory.
#[derive(Drop)]
pub struct EventBatch {
    /// Empty, or four free bytes, the events, and one free byte.
    pub(crate) bytes: Vec<u8>,
}

impl Model for EventBatch {
    ghost use Rattle.std.specs.Prelude.{◌≡◌, ◌⊎◌, ◌≤◌, List, ℕ, length};
    ghost use Rattle.oa_journal.specs.Append.{group_of};

    ghost Value = { List ℕ };

    ghost view = { λ f. group_of f.bytes.items };

    ghost invariant = { λ f. (length f.bytes.items ≡ 0) ⊎ (5 ≤ length f.bytes.items) };
}

impl EventBatch {
    /// Makes a batch without events. Allocates nothing.
    pub fn new(alloc: Global) -> EventBatch
        ensures { result ≡ [] }
    {
        EventBatch {
            bytes: Vec::new(alloc),
        }
    }

    /// Returns whether it has no event.
    pub fn is_empty(&self) -> bool
        ensures { IsTrue result ↔ (length self.now ≡ 0) }
    {
        self.bytes.len() <= 5
    }

    /// Returns the length of its events in bytes, together.
    pub fn len(&self) -> usize
        ensures { result ≡ length self.now }
    {
        self.bytes.len().saturating_sub(5)
    }

    /// Appends an event. Err: an allocation failed, and nothing changed.
    pub fn add(&mut self, event: &SizedEvent) -> Result<(), AllocError>
        ensures ok { OnOk result (self.new ≡ self.old ++ event_image event.now) }
        ensures err { OnErr result (self.new ≡ self.old) }
    {
        add_event(&mut self.bytes, event)
    }

    /// Drops the events after the first `len` bytes. Allocates nothing.
    pub fn cut(&mut self, len: usize)
        requires { len ≤ length self.old }
        ensures { self.new ≡ take len self.old }
    {
        self.bytes.truncate(len + 5);
    }
}

/// Appends an event over the free byte after the others, and a free byte after it, with one
/// allocation. Err: that failed, and no byte has changed.
fn add_event(bytes: &mut Vec<u8>, event: &SizedEvent) -> Result<(), AllocError>
    requires { (length bytes.old.items ≡ 0) ⊎ (5 ≤ length bytes.old.items) }
    ensures ok { OnOk result (group_of bytes.new.items ≡ group_of bytes.old.items ++ event_image event.now) }
    ensures err { OnErr result (bytes.new.items ≡ bytes.old.items) }
    ensures len { (length bytes.new.items ≡ 0) ⊎ (5 ≤ length bytes.new.items) }
{
    let begun = bytes.len().max(5);
    let Some(end) = begun.checked_add(event.len()) else {
        return Err(AllocError);
    };
    bytes.resize(end, 0)?;
    write_event(event.as_event(), begun - 1, bytes);
    Ok(())
}
