//! Readers and writers of bytes, and buffers between them and their callers.
//!
//! Contract: `Source::fill` and `Sink::put` state what reads and writes do to bytes. No reader is
//! called before the writer is flushed (`Ahead::more`).
//!
//! Used by oa_frame, and by the program over standard input and output.
#![tactic(auto)]

mod ahead;
mod behind;
mod cutting;
mod gathered;
mod inlet;
mod interrupted;
mod outlet;
mod sink;
mod source;
mod stretch;

pub use ahead::{BufferedSource, More};
pub use behind::BufferedSink;
pub use cutting::ChunkedSource;
pub use gathered::VecSink;
pub use inlet::StdSource;
pub use interrupted::Interrupted;
pub use outlet::StdSink;
pub use sink::{Sink, Unwritten};
pub use source::{Next, Source};
