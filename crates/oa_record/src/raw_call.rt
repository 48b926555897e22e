//! A call as its body contains it, with its arguments still encoded.
ghost use Rattle.std.specs.Prelude.{◌≡◌, ◌≤◌, map, length};
ghost use Rattle.oa_model.specs.promise.Limits.{max_arguments};

use crate::{Arguments, Call, CallHead, Dispids};
use oa_variant::Variant;
use std::marker::Model;

/// The head of a call and the bytes of the arguments' fields.
#[derive(Drop)]
pub(crate) struct RawCall<'a> {
    head: CallHead,
    named: Vec<i32>,
    fields: Vec<&'a [u8]>,
}

/// The head of a call whose only argument, if any, is a property's new value, and the bytes of that
/// value's field.
#[derive(Drop)]
pub(crate) struct ValueParts<'a> {
    /// The object, the member and how it is called.
    pub head: CallHead,
    /// The bytes of the new value; None if there is none.
    pub field: Option<&'a [u8]>,
}

impl<'a> Model for RawCall<'a> {
    ghost use Rattle.std.specs.Prelude.{◌≤◌, length, map};
    ghost use Rattle.oa_model.specs.promise.Limits.{max_arguments};
    ghost use Rattle.oa_record.specs.promise.CallParts.{CallParts};

    ghost Value = { CallParts };

    ghost view = { λ c. record { head = c.head; named = c.named.items; fields = map (λ f. f.now) c.fields.items } };

    ghost invariant = { λ c. (length c.named.items ≤ max_arguments) × (length c.fields.items ≤ max_arguments) };
}

impl<'a> RawCall<'a> {
    /// Makes a call with the DISPIDs of at most 32 named arguments, and the fields of at most 32
    /// arguments.
    pub(crate) fn new(head: CallHead, named: Vec<i32>, fields: Vec<&'a [u8]>) -> RawCall<'a>
        requires few_named { length named.items ≤ max_arguments }
        requires few { length fields.items ≤ max_arguments }
        ensures { result ≡ record { head = head; named = named.items; fields = map (λ f. f.now) fields.entry.items } }
    {
        RawCall {
            head,
            named,
            fields,
        }
    }

    /// Returns the bytes of the arguments' fields.
    pub(crate) fn fields(&self) -> &[&'a [u8]]
        ensures value { map (λ f. f.now) result.now ≡ self.now.fields }
        ensures few { length result.now ≤ max_arguments }
    {
        self.fields.as_slice()
    }

    /// Returns the call with these decoded arguments, at most 32.
    pub(crate) fn with(self, values: Vec<Variant>) -> Call
        requires { length values.items ≤ max_arguments }
        ensures { result ≡ record { head = self.entry.head; named = self.entry.named; arguments = values.items } }
    {
        Call {
            head: self.head,
            named: Dispids::new(self.named),
            arguments: Arguments::new(values),
        }
    }
}
