//! Numbers and bytes with the alignment of NDR (C706 chapter 14), little-endian. `Ndr` reads a
//! field and `NdrOut` writes one. Both count offsets from the first byte of the field.
//!
//! Contract: each reading function returns the value at its offset, or `Short` if and only if the
//! bytes end before it. Each writing function appends its bytes, or leaves the output unchanged.
//!
//! Used by oa_wire_text, oa_wire_array, oa_wire_variant, oa_formats, oa_record and oa_image.
#![tactic(auto)]

mod ndr;
mod ndr_out;

pub use ndr::{Ndr, Short};
pub use ndr_out::NdrOut;
