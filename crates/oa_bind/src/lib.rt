//! Binding: from the arguments of an INVOKE to the call of a property, or the first reason why
//! there is none.
//!
//! Contract: `bind` returns the call of the property that the arguments make, or the first error in
//! the documented order, with its index.
//!
//! Used by oa_decision for INVOKE and for requests on elements, bounds and locks.
#![tactic(auto)]

mod binding;
mod call;
mod fault;
mod given;
pub mod laws;
mod names;
mod values;

pub use binding::bind;
pub use call::BoundCall;
pub use fault::BindFault;
