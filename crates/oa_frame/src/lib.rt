//! Bodies and replies as lines of digits or as records, and a session over them.
//!
//! Contract: `serve` writes exactly the replies of its server to the bodies that it read, or a
//! prefix of them if the writer fails (`Session`).
//!
//! Used by oa_server for its sessions, and by the program for the digits of a dump.
#![tactic(auto)]

mod buffer;
mod ends;
mod framing;
mod hex_lines;
pub mod laws;
mod lines;
mod records;
mod session;
mod writing;

pub use ends::End;
pub use framing::{Framing, Read, read_body};
pub use session::{Loss, Responder, Served, serve};
pub use writing::{put_hex, put_reply, put_some};
