//! One bank of a store: a library, a snapshot of a table, and groups of log records after gates
//! (commit flags), each in the bank whole or not at all.
//!
//! Contract: during `append`, a crash leaves a bank with the old table or with the table that the
//! group makes of it, and after `Ok` the latter.
//!
//! Used by oa_store; the crates above it use the size and the contents of a bank.
#![tactic(auto)]

mod ahead;
mod bank;
mod batch;
mod groups;
mod head;
pub mod laws;
mod layout;
mod reading;
mod shape;
mod snapshot;

pub use bank::{AppendFault, Bank, BankFault};
pub use head::{BankHead, read_head};
pub use shape::{
    AMPLE_BYTES, BankFormat, DEFAULT_BANK_BYTES, FORMAT_ONE_BODY_BYTES, FORMAT_ONE_BYTES,
    LEAST_BANK_BYTES, MOST_BANK_BYTES,
};
