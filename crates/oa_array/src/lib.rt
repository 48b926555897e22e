//! Safe arrays: bounds, positions, elements and locks (MS-OAUT section 2.2.30).
//!
//! Contract: a `SafeArray` is a map from the index lists within its bounds to elements. `element`,
//! `put_element`, `redim` and `lock` state exactly when they fail, and after an error nothing has
//! changed.
//!
//! Used by oa_variant, and through it by every crate that handles values.
#![tactic(auto)]

mod array;
mod cell;
mod fault;
mod head;
mod indices;
pub mod laws;
mod position;

pub use array::{SafeArray, cell_count};
pub use cell::Cell;
pub use fault::ArrayFault;
pub use indices::Indices;
