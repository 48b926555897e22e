//! Variants as bytes on the wire: wireVARIANT (MS-OAUT section 2.2.29) with the alignment of NDR,
//! one value in a field.
//!
//! Contract: `read_variant` returns a value if and only if the bytes encode it (`Spells`) and
//! memory suffices; no bytes encode two values. `write_variant` writes the one canonical encoding.
//!
//! Used by oa_record.
#![tactic(auto)]

pub mod laws;
mod variant;

pub use oa_wire_array::{WireFault, scalar_len};
pub use variant::{read_variant, wire_len, write_variant};
