//! A bound call.
use oa_variant::{Scalar, Variant};
use std::marker::Model;

/// A bound call of a property: the key of the cell, and the new value of a put.
#[derive(Drop)]
pub struct BoundCall {
    /// The values of the parameters in their order, each of its parameter's type.
    pub key: Vec<Scalar>,
    /// The new value of a put, of the property's type; None in a get.
    pub value: Option<Variant>,
}

impl Model for BoundCall {
    ghost use Rattle.oa_bind.specs.promise.Calls.{BoundCallValue};

    ghost Value = { BoundCallValue };

    ghost view = { λ c. record { key = c.key.items; value = c.value } };
}
