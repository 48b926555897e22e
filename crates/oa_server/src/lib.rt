//! An automation object server: turns over a library and a table, in memory or over a store, and
//! sessions over a reader and a writer.
//!
//! Contract: `answer` is one turn of a table of objects (`Turn` of oa_turn) while no device fails,
//! and `serve` a session of such turns (`Session`), over a store in groups that a crash leaves
//! whole (`IsServed`).
//!
//! Used by the program, by oa_history, and by the tests of sessions.
#![tactic(auto)]

mod desk;
mod engine;
mod fault;
mod grouping;
mod holding;
pub mod laws;
mod locking;
mod open_group;
mod replacement;
mod server;
mod serving;
mod sharing;
mod starting;
mod storage;

pub use oa_frame::{End, Served};
pub use oa_mux::SessionEnd;
pub use server::Server;
