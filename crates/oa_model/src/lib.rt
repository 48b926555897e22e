//! Codes, limits, types and GUIDs of the automation server: the data that the crates share.
//!
//! Contract: each type has its own number and each number at most one type (`VarType::vt`,
//! `from_vt`). The wire bytes of a GUID are those of its fields in little-endian order
//! (`guid_to_wire`, `guid_from_wire`). `fold` changes only A to Z.
//!
//! Used by every crate except oa_cells, oa_ndr, oa_ordered, oa_tokens, oa_stream and oa_disk.
#![tactic(auto)]

mod bound;
mod folding;
mod guid;
mod hresult;
mod integers;
mod invoke;
pub mod laws;
mod limits;
mod var_type;

pub use bound::Bound;
pub use folding::fold;
pub use guid::{guid_from_wire, guid_to_wire};
pub use hresult::HResult;
pub use invoke::{
    COCLASS_KIND, DEFAULT_FLAG, GET_FLAG, HAS_DEFAULT_FLAG, IN_FLAG, INTERFACE_KIND, INVOKE_GET,
    INVOKE_METHOD, INVOKE_PUT, METHOD_FLAG, OPTIONAL_FLAG, PROPERTY_PUT_DISPID, PUT_FLAG,
    PUT_REF_FLAG, READONLY_FLAG, UNKNOWN_DISPID, VT_ARRAY, VT_I4, VT_VOID,
};
pub use limits::{
    GREATEST_OBJECT_NUMBER, GROUP_BYTES, MAX_ARGUMENTS, MAX_CELL_LOCKS, MAX_CELLS, MAX_COCLASSES,
    MAX_DIMENSIONS, MAX_EVENT_BYTES, MAX_GROUP, MAX_INTERFACES, MAX_LIBRARY_BYTES,
    MAX_LINE_CHARACTERS, MAX_LIVE_OBJECTS, MAX_MEMBERS, MAX_NAME_CHARACTERS, MAX_NAMES,
    MAX_PARAMETERS, MAX_READ_CALLS, MAX_RECORDS, MAX_REQUEST_BYTES, MAX_TEXT_BYTES,
};
pub use var_type::{ValueType, VarType};
