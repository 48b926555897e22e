//! A map in the order of its keys, in nearly as much memory as its entries need.
//!
//! Contract: an `OrderedMap` is the list of its entries, whose keys rise. Its calls change the list
//! as those of std's `BTreeMap` change theirs. If an allocation fails, the arguments are returned,
//! and nothing changes.
//!
//! Used by oa_table for objects and cells, by oa_mux for its clients, and by oa_image, which
//! makes such maps from a store.
#![tactic(auto)]

mod branch;
mod branches;
mod iter;
mod map;
mod root;
mod row;
mod rows;

pub use iter::Iter;
pub use map::OrderedMap;
