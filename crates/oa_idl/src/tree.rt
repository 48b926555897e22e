//! The tree of a library text.
use crate::items::Item;
use crate::name::Name;
use crate::parts::Version;
use std::marker::Model;
use uuid::Uuid;

/// The content of a library text in its order, without positions.
#[derive(Drop)]
pub struct Tree {
    /// The GUID of the library.
    pub guid: Uuid,
    /// The version; 0.0 if the text has none.
    pub version: Version,
    /// The name of the library.
    pub name: Name,
    /// The interfaces and coclasses in the text's order.
    pub items: Vec<Item>,
}

impl Model for Tree {
    ghost use Rattle.oa_idl.specs.promise.Trees.{TreeValue};

    ghost Value = { TreeValue };

    ghost view = { λ t. record { guid = t.guid; version = t.version; name = t.name; items = t.items.items } };
}
