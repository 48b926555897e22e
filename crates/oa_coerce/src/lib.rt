//! Coercion of values to declared types. The rules are this project's selection from those of
//! VariantChangeType.
//!
//! Contract: `coerce` returns the one result that the rule of the two types defines, or the
//! refusal. A number is rounded to the nearest count of the type's unit, a half to the even
//! neighbour.
//!
//! Used by oa_bind for arguments and new values, and by oa_decision for elements of arrays.
#![tactic(auto)]

mod fault;
pub mod laws;
mod number;
mod rule;
mod values;

pub use fault::CoerceFault;
pub use values::{coerce, coerce_scalar};
