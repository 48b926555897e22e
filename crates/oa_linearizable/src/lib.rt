//! Sessions of many clients in terms of linearizability: histories of invocations and responses,
//! and orders that linearize them, also across crashes.
//!
//! Contract: `laws::durably_linearizable`. Its definitions in `specs/promise/Histories` are those of the
//! literature; see docs/internals/reading-the-proofs.md.
//!
//! Used by no crate: it contains only theorems.
#![tactic(auto)]

pub mod laws;
