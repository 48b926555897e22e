//! The state machine of the server, in memory: how a request is answered by a library, a table of
//! objects and its locks.
//!
//! Contract: `Host::turn` is one turn (`Turn`), `Host::run` several (`Run`), and `Host::plan` a
//! turn without the change of the table that it asks for (`Plans`). `LockTable` is the list of the
//! locks that clients have, each with its owner, in the order of the clients and then of the cells.
//!
//! Used by oa_server, which keeps the table in a store, and by oa_history.
#![tactic(auto)]

mod cells;
mod changes;
mod host;
mod key;
pub mod laws;
mod owners;

pub use cells::ClientCells;
pub use host::Machine;
pub use host::replacement::ReplacementPlan;
pub use key::CellKey;
pub use oa_decision::{Fields, Plan, Planned};
pub use owners::LockTable;
