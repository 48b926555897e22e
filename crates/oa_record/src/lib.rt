//! Records: decodes the bodies of requests and encodes replies.
//!
//! Contract: `read_request` returns `Ok(request)` if and only if the body encodes this request
//! (`Asks`), and otherwise the one error of the body. A reply is its 16-byte head followed by the
//! bytes of its fields.
//!
//! Used by oa_decision and oa_turn, which execute requests, and by oa_server to write replies.
#![tactic(auto)]

mod arguments;
mod body_parts;
mod fault;
mod fields;
pub mod laws;
mod layout;
mod names;
mod opcode;
mod raw_call;
mod reading;
mod replacement;
mod reply;
mod request;

pub use arguments::{Arguments, Dispids};
pub use fault::{FieldFault, RecordFault};
pub use fields::{
    MAX_FIELDS_BYTES, ids_field, lost_field, number_field, put_number_field, put_object_field,
    put_variant_field, scalar_field, string_field, variant_field,
};
pub use names::Names;
pub use opcode::{ByCall, ByNumber, Opcode, Query, opcode_of};
pub use reading::{read_request, read_value_call, tag_of};
pub use replacement::{is_replacement, replacement_text};
pub use reply::Reply;
pub use request::{Call, CallHead, GetIds, Request, ValueCall};
