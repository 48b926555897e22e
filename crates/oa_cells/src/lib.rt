//! Raw memory as lists: a block of places, and an array on top of it.
//!
//! Contract: `Cells` behaves as a list: `filled_by` fills it, `replace` changes one element,
//! `resized` changes its length. No block is accessed outside its bounds or freed twice.
//!
//! Used by oa_bstr and oa_array, which store their bytes and elements in it, and by oa_wire_array
//! and oa_formats, which fill it while they decode.
#![tactic(auto)]

mod cells;
mod fill;
mod partial;
mod raw;
mod row;

pub use cells::Cells;
pub use partial::Partial;
pub use row::Row;
