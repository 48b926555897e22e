//! The items of a library.
use crate::method::Method;
use crate::name::Name;
use crate::parts::{Entry, Property};
use std::marker::Model;
use uuid::Uuid;

/// A dispinterface.
#[derive(Drop)]
pub struct Interface {
    /// The GUID.
    pub guid: Uuid,
    /// The name.
    pub name: Name,
    /// The members of the section `properties:`, in the text's order.
    pub properties: Vec<Property>,
    /// The members of the section `methods:`, in the text's order.
    pub methods: Vec<Method>,
}

impl Model for Interface {
    ghost use Rattle.oa_idl.specs.promise.Values.{InterfaceValue};

    ghost Value = { InterfaceValue };

    ghost view = { λ d. record { guid = d.guid; name = d.name; properties = d.properties.items; methods = d.methods.items } };
}

/// A coclass.
#[derive(Drop)]
pub struct Coclass {
    /// The GUID.
    pub guid: Uuid,
    /// The name.
    pub name: Name,
    /// The interfaces in the text's order. At most one is marked as the default.
    pub entries: Vec<Entry>,
}

impl Model for Coclass {
    ghost use Rattle.oa_idl.specs.promise.Values.{CoclassValue};

    ghost Value = { CoclassValue };

    ghost view = { λ c. record { guid = c.guid; name = c.name; entries = c.entries.items } };
}

/// An item of a library.
#[derive(Drop)]
pub enum Item {
    /// A dispinterface.
    Interface(Interface),
    /// A coclass.
    Coclass(Coclass),
}
