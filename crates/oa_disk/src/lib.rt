//! A disk of a fixed size: the bytes that a read returns, and the bytes that a crash at each point
//! in time may leave.
//!
//! Contract: the clauses of the trait `Disk`. A write may tear until a sync succeeds. A crash
//! during `write_then_flip` leaves either torn bytes and the old switch, or all bytes and any byte
//! at the switch.
//!
//! Used by the storage crates (oa_journal, oa_store, oa_group_commit), oa_server and oa_history, and over
//! a file by oa_commands and the program.
#![tactic(auto)]

mod call;
mod crash;
mod disk;
mod file;
mod fuse;
mod layers;
mod ledger;
mod memory;
mod no_disk;
mod record;
mod switching;

pub use call::DeviceCall;
pub use crash::Tear;
pub use disk::{DeviceFault, Disk};
pub use file::FileDisk;
pub use fuse::FuseDisk;
pub use memory::MemoryDisk;
pub use no_disk::NoDisk;
pub use switching::{flip, write_then_flip};
