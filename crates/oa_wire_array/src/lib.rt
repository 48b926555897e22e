//! Scalars and arrays as parts of a field (MS-OAUT sections 2.2.29 and 2.2.30) with the alignment
//! of NDR.
//!
//! Contract: `read_scalar`, `read_union` and `read_array` return the value that the bytes encode,
//! or an error if and only if they encode none or memory runs out. The writing functions append the
//! one canonical encoding. Texts are read and written by the functions of oa_wire_text that this
//! crate re-exports.
//!
//! Used by oa_wire_variant, and by oa_record for the fields of scalars.
#![tactic(auto)]

mod array;
mod array_len;
mod array_out;
mod fault;
mod scalar;

pub use array::read_array;
pub use array_len::array_end;
pub use array_out::write_array;
pub use fault::WireFault;
pub use oa_wire_text::{StubFault, read_text, write_text};
pub use scalar::{read_scalar, read_union, scalar_len, write_head, write_scalar};
