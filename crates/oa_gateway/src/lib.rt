//! The decisions of the gateway about bytes: which of a client's bytes are whole requests, in which
//! frames they go to the server, and to which client the server's frames go. It also decides whose
//! turn it is, and when a batch begins.
//!
//! It has no sockets and no clock, and allocates nothing: its caller lends it bytes and places, and
//! carries out its decisions. A number of the server serves one client after another. Its history
//! is a list of deeds (`specs/Places`), and the theorems are about any such list (`laws`).
#![tactic(auto)]

mod beginning;
mod disconnects;
mod exclusive;
mod frames;
mod hearing;
pub mod laws;
mod place;
mod queue;
mod requests;
#[cfg(test)]
mod tests;
mod turns;

pub use beginning::Moment;
pub use disconnects::{Conduct, Patience, Verdict, heaviest, judge, must_give_way};
pub use exclusive::{Exclusion, Waiting, Whose, waiting_in};
pub use frames::{GATEWAY, NOW_BYTES, put_now};
pub use hearing::{Heard, hear, restart};
pub use place::{ABSENT, ENDING, NumberState, OVER, PRESENT, Standing};
pub use queue::Queue;
pub use requests::{WholeRequests, find_requests};
pub use turns::{BatchLimits, Taking};
