//! Many clients in one stream of frames: demultiplexing their requests, and a session over them.
//!
//! Contract: each client's bodies are those that a session of its own would have read, whatever
//! comes between them (`laws::each_has_its_own`, `laws::each_is_a_session`). `Streams::take` finds
//! them one by one, in the order in which they came (`Demultiplexes`). `serve_clients` calls its
//! server in that order. It writes exactly the replies, or a prefix of them if the writer fails
//! (`ServesClients`).
#![tactic(auto)]

mod client;
mod clients;
mod found;
mod frame;
pub mod laws;
mod outgoing;
mod responder;
mod serving;
mod session_end;
mod step;
mod streams;

pub use clients::Clients;
pub use frame::{ALL_CLIENTS, FrameHead, MAX_FRAME_BYTES, frame_head};
pub use outgoing::{put_last_of, put_reply_of};
pub use responder::SharedResponder;
pub use serving::serve_clients;
pub use session_end::SessionEnd;
pub use step::{ClientItem, ClientStep, WholeRecord};
pub use streams::{Demux, DemuxItem, DemuxStep};
