//! What is left to do for a body after it was read.
ghost use Rattle.std.specs.Prelude.{◌≡◌};
ghost use Rattle.oa_decision.specs.ValuePlans.{put_event};

use crate::fields::Fields;
use oa_image::SizedEvent;
use oa_record::Reply;
use oa_table::{CellName, Event, Place};
use oa_variant::Variant;
use std::alloc::Global;
use uuid::Uuid;

/// The rest of a turn after its decision.
#[derive(Drop)]
pub enum Plan {
    /// Nothing: this is the reply, and an image of the table would be as before.
    Answered(Reply),
    /// A change of the table.
    Change(Planned),
}

/// A change to be made, and then acknowledged with this tag and these fields.
#[derive(Drop)]
pub struct Planned {
    /// The tag of its body.
    pub tag: u32,
    /// The change.
    pub event: SizedEvent,
    /// The fields of the reply after the change.
    pub fields: Fields,
}

/// The rest of a call on a property without parameters, with at most a new value.
#[derive(Drop)]
pub enum ValuePlan {
    /// Nothing: this is the reply, and nothing changes.
    Answered(Reply),
    /// Its cell is to be set; the reply then has no fields.
    Put(ValuePut),
}

/// A new value of a property without parameters.
#[derive(Drop)]
pub struct ValuePut {
    /// The number of the object.
    pub object: u32,
    /// The GUID of the interface that declares the property.
    pub interface: Uuid,
    /// The DISPID of the property.
    pub dispid: i32,
    /// The new value of its cell; it has no locks.
    pub value: Variant,
}

impl ValuePut {
    /// Returns the event with the name of its cell. Allocates nothing.
    pub fn into_event(self, alloc: Global) -> Event
        ensures { result ≡ put_event self }
    {
        let ValuePut {
            object,
            interface,
            dispid,
            value,
        } = self;
        let place = Place::new(interface, dispid, Vec::new(alloc));
        let name = CellName { object, place };
        Event::Put { name, value }
    }
}
