//! The BSTR: null, or a counted block of bytes.
//!
//! Contract: a `Bstr` is None or its list of bytes. `from_bytes` refuses a text if and only if it
//! is above the limit, and `as_bytes` returns the same bytes again. Null and the empty text differ.
//!
//! Used by oa_variant, and through it by every crate that handles values.
#![tactic(auto)]

mod block;
mod bstr;
mod error;

pub use bstr::Bstr;
pub use error::BstrError;
