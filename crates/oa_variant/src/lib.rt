//! Values of the automation server: scalars with their order, and variants.
//!
//! Contract: a `Scalar` has a type; each type has a zero value; and scalars have a total order
//! (`Ord`). A `Variant` is a scalar or an array, and its copy is equal to it, without locks.
//!
//! Used by the decoders of values (oa_wire_array, oa_formats), by oa_coerce, which converts them, by
//! oa_table, which stores them, and by the crates of libraries.
#![tactic(auto)]

mod decimal;
pub mod laws;
mod scalar;
mod variant;

pub use decimal::Decimal;
pub use scalar::Scalar;
pub use variant::Variant;
