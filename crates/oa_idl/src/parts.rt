//! The parts of a tree.
use crate::characters::Characters;
use crate::name::Name;
use oa_model::ValueType;

/// The version of a library.
#[derive(Clone, Copy, Debug, PartialEq, Eq)]
pub struct Version {
    /// The part before the dot.
    pub major: u16,
    /// The part after the dot.
    pub minor: u16,
}

/// A member of the section `properties:`.
#[derive(Drop)]
pub struct Property {
    /// The DISPID: any number of 32 bits except -1 and -3.
    pub id: i32,
    /// Whether it is declared `readonly`.
    pub readonly: bool,
    /// The declared type.
    pub value_type: ValueType,
    /// The name.
    pub name: Name,
}

/// An entry of a coclass, which names one of its interfaces.
#[derive(Drop)]
pub struct Entry {
    /// Whether it is marked as the default interface.
    pub is_default: bool,
    /// The name of the interface.
    pub interface: Name,
}

/// The kind of a member of the section `methods:`.
#[derive(Clone, Copy, Debug, PartialEq, Eq)]
pub enum MethodKind {
    /// A method.
    Method,
    /// With `propget`: the get of a property.
    Get,
    /// With `propput`: the put of a property. Its last parameter is the new value.
    Put,
}

/// The default value of a parameter.
#[derive(Drop)]
pub enum Literal {
    /// A number with its sign. Its magnitude is below 2^96.
    Number(i128),
    /// A string.
    Text(Characters),
    /// `TRUE` or `FALSE`.
    Bool(bool),
}

/// A parameter of a member.
#[derive(Drop)]
pub struct Parameter {
    /// Whether it is declared `in`.
    pub is_in: bool,
    /// Whether it is declared `optional`.
    pub is_optional: bool,
    /// The value of `defaultvalue`, if there is one.
    pub default: Option<Literal>,
    /// The declared type.
    pub value_type: ValueType,
    /// The name.
    pub name: Name,
}
