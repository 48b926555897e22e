//! The theory of group commit: a server holds requests until their group ends, and commits the
//! events of the group under one gate (commit flag).
//!
//! Contract: requests that are admitted one by one are served. The replies are those of a run, and
//! each image since a group was answered contains that group (`IsServed`, `laws::headline`).
//!
//! Used by oa_server, and by the theorems of oa_history.
#![tactic(auto)]

mod group;
pub mod laws;

pub use group::is_full;
