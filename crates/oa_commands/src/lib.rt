//! The commands on a library's text and on a store's file, what they print, and the faults that end
//! the program: one line and a status.
//!
//! Contract: `format_store` returns a disk whose every image is the new store (`IsNewlyFormatted`).
//! `upgrade_store` returns one that was upgraded to format 2 (`IsUpgraded`). `write_dump` writes
//! the lines of the store that was read (`dump`), and `write_library_text` the canonical text of a library.
//! Each returns only its own faults (`IsOfFormat`, `IsOfUpgrade`, `IsOfDump`, `IsOfCheck`). Each
//! fault has the status of one table (`status_of`), which is never 0. So has the end of a session
//! (`of_end`, `of_session_end`). Tested, not proved (`tests/`): which file a path names, its lock,
//! and how it is lengthened.
//!
//! Used by the program.
#![tactic(auto)]

mod dump;
mod ending;
mod fault;
mod hint;
mod library;
mod limit;
mod place;
mod reason;
mod shown;
mod store;
mod streams;
mod text;
mod upgrade;

pub use dump::write_dump;
pub use ending::{client_ended, clients_ended};
pub use fault::Fault;
pub use library::{STANDARD_INPUT, read_library_file};
pub use place::TextPlace;
pub use store::{format_store, open_store_file};
pub use streams::{StandardStreams, tell};
pub use text::write_library_text;
pub use upgrade::upgrade_store;
