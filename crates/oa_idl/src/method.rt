//! Members of the section `methods:`.
use crate::name::Name;
use crate::parts::{MethodKind, Parameter};
use oa_model::ValueType;
use std::marker::Model;

/// A member of the section `methods:`.
#[derive(Drop)]
pub struct Method {
    /// The DISPID: any number of 32 bits except -1 and -3.
    pub id: i32,
    /// Whether it is a method, or a get or put of a property.
    pub kind: MethodKind,
    /// The type of the result; None for `void`. A get always has a type, a put never.
    pub value_type: Option<ValueType>,
    /// The name.
    pub name: Name,
    /// The parameters in the text's order. A put has at least one; its last one is the new value.
    pub parameters: Vec<Parameter>,
}

impl Model for Method {
    ghost use Rattle.oa_idl.specs.promise.MethodValues.{MethodValue};

    ghost Value = { MethodValue };

    ghost view = { λ m. record { id = m.id; kind = m.kind; value_type = m.value_type; name = m.name; parameters = m.parameters.items } };
}
