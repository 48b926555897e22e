//! The states of lists that are being parsed. They are public because the definitions of the
//! grammar use them.
use crate::parts::{Literal, MethodKind, Version};
use uuid::Uuid;

/// The values of the attributes of a library or an item.
#[derive(Clone, Copy)]
pub struct HeadValues {
    /// The GUID; zero until `uuid` is read.
    pub guid: Uuid,
    /// The version; 0.0 until `version` is read, and always for an item.
    pub version: Version,
}

/// The attributes of a library or an item that have been read, and their values.
#[derive(Clone, Copy)]
pub struct HeadSeen {
    /// Whether `uuid` has been read.
    pub uuid: bool,
    /// Whether `version` has been read.
    pub version: bool,
    /// Whether `helpstring` has been read.
    pub help: bool,
    /// The values.
    pub head: HeadValues,
}

/// The attributes of a property that have been read.
#[derive(Clone, Copy)]
pub struct PropertySeen {
    /// The number of `id`, if it has been read.
    pub id: Option<i32>,
    /// Whether `readonly` has been read.
    pub readonly: bool,
    /// Whether `helpstring` has been read.
    pub help: bool,
}

/// The values of the attributes of a property.
#[derive(Clone, Copy)]
pub struct PropertyHead {
    /// The DISPID.
    pub id: i32,
    /// Whether it is declared `readonly`.
    pub readonly: bool,
}

/// The entries of a coclass that have been read.
#[derive(Clone, Copy)]
pub struct EntriesSeen {
    /// Whether there is one.
    pub some: bool,
    /// Whether one is marked as the default.
    pub default: bool,
}

/// The numbers of a library's items that have been read.
#[derive(Clone, Copy)]
pub struct ItemsSeen {
    /// The number of interfaces.
    pub interfaces: usize,
    /// The number of coclasses.
    pub coclasses: usize,
}

/// The attributes of a method that have been read.
#[derive(Clone, Copy)]
pub struct MethodSeen {
    /// The number of `id`, if it has been read.
    pub id: Option<i32>,
    /// A get after `propget`, a put after `propput`, otherwise a method.
    pub kind: MethodKind,
    /// Whether `helpstring` has been read.
    pub help: bool,
}

/// The values of the attributes of a method.
#[derive(Clone, Copy)]
pub struct MethodHead {
    /// The DISPID.
    pub id: i32,
    /// Whether it is a method, or a get or put of a property.
    pub kind: MethodKind,
}

/// The attributes of a parameter that have been read, and their values.
#[derive(Drop)]
pub struct ParameterSeen {
    /// Whether `in` has been read.
    pub is_in: bool,
    /// Whether `optional` has been read.
    pub is_optional: bool,
    /// The value of `defaultvalue`, if it has been read.
    pub default: Option<Literal>,
}
