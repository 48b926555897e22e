//! A store on a disk: a library and a table of objects, in two banks that take turns. After a crash
//! at any point, the store reopens to the table before or after the call.
//!
//! Contract: `Store::open` returns the one table that the contents are a store of (`IsStore`). A
//! crash in `commit`, `checkpoint` or `upgrade` leaves a store of the table before or after.
//! `EventBatch` holds the events of a group, which are committed together.
//!
//! Used by oa_group_commit and oa_server, and by format, upgrade and dump of the program.
#![tactic(auto)]

mod batch;
mod committing;
mod fault;
mod formatting;
mod head;
pub mod laws;
mod reading;
mod store;
mod switching;
mod upgrading;

pub use batch::EventBatch;
pub use committing::{checkpoint_if_due, commit};
pub use fault::{DeviceFailed, FormatFault, OpenFault, UpgradeFault, WriteFault};
pub use formatting::format;
pub use reading::inspect;
pub use store::Store;
pub use upgrading::{OldStore, upgrade};
