//! Events with their length.
ghost use Rattle.std.specs.Prelude.{◌≡◌, length};
ghost use Rattle.oa_image.specs.promise.Events.{event_image};
ghost use Rattle.oa_image.specs.promise.Sizes.{event_size};

use crate::event::event_len;
use oa_table::Event;
use std::marker::Model;

/// An event with the length of its image, which is computed once.
#[derive(Drop)]
pub struct SizedEvent {
    event: Event,
    len: usize,
}

impl Model for SizedEvent {
    ghost use Rattle.std.specs.Prelude.{◌≡◌, length};
    ghost use Rattle.oa_image.specs.promise.Events.{event_image};
    ghost use Rattle.oa_table.specs.declared.event.Event.{Event};

    ghost Value = { Event };

    ghost view = { λ s. s.event };

    ghost invariant = { λ s. s.len ≡ length (event_image s.event) };
}

impl SizedEvent {
    /// Returns an event with the length of its image, which it computes. Allocates nothing.
    #[inline(always)]
    pub fn new(event: Event) -> SizedEvent
        ensures { result ≡ event }
    {
        let len = event_len(&event);
        SizedEvent { event, len }
    }

    /// Returns the event.
    #[inline(always)]
    pub fn as_event(&self) -> &Event
        ensures { result.now ≡ self.now }
    {
        &self.event
    }

    /// Returns the length of its image in bytes.
    #[tactic(auto, using(crate::proofs::Sized::event_sized))]
    #[inline(always)]
    pub fn len(&self) -> usize
        ensures value { result ≡ length (event_image self.now) }
        ensures counted { result ≡ event_size self.now }
    {
        self.len
    }

    /// Returns the event without its length.
    #[inline(always)]
    pub fn into_event(self) -> Event
        ensures { result ≡ self }
    {
        let SizedEvent { event, len: _len } = self;
        event
    }
}
