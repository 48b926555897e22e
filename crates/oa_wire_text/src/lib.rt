//! Texts as pointees in a field (MS-OAUT section 2.2.23) with the alignment of NDR, and the errors
//! of decoding a part of a field.
//!
//! Contract: `read_text` returns the text that the bytes encode, or an error if and only if they
//! encode none or memory runs out (`IsFront`, `blob`). `write_text` appends its one canonical
//! encoding (`put_blob`). `read_blob`, `read_bstr`, `add_blob` and `write_bstr` do so for a part of
//! a field; after an error, a part may have been read or written (`blob_at`, `bstr_at`).
//!
//! Used by oa_wire_array, and by oa_wire_variant for `StubFault`.
#![tactic(auto)]

mod fault;
mod text;

pub use fault::StubFault;
pub use text::{add_blob, read_blob, read_bstr, read_text, write_bstr, write_text};
