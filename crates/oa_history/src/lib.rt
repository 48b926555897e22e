//! Crash histories: sessions of a server on a disk in memory, one after another. A session consists
//! of calls of the server or of a stream, of one client or of many. It crashes at a point in time
//! of its disk's clock (`run_history_on`; `run_history` over a new store). Also a session over a disk that
//! fails from some call on (`run_with_faults_on`, `run_with_faults`).
//!
//! Contract: the crash theorem, as the contracts of these functions (`IsCrashHistory`, `IsFaultHistory`);
//! docs/internals/reading-the-proofs.md begins with them.
//!
//! Used only by its tests, oa_history_tests.
#![tactic(auto)]

mod checkpointing;
mod failing;
mod fault;
mod formatting;
mod history;
pub mod laws;
mod reopening;
mod session;
mod stopping;
mod streaming;
mod surviving;
mod upgrading;

pub use checkpointing::checkpointed;
pub use failing::{CallOutcome, FaultyServer, session_with_faults};
pub use fault::HistoryFault;
pub use formatting::formatted;
pub use history::{CrashHistory, run_history, run_history_on};
pub use session::{
    Answer, Asked, CrashedSession, Opened, Replies, ServerCall, SharedInput, Step, Stop,
    StreamInput, Transcript, Written, WrittenFrames,
};
pub use stopping::stopped;
pub use surviving::{FaultHistory, run_with_faults, run_with_faults_on};
pub use upgrading::upgraded;
