//! Compatibility: which library can replace another, and which tables a library can have; and the
//! library of a text.
//!
//! Contract: `keeps` returns None exactly if a new library is compatible with an old one
//! (`KeepsLibrary`), and otherwise the first incompatibility. `fits` is true exactly for the tables
//! that a library can have, and what a request changes preserves this (`laws::changes_that_fit`).
//! `read_library` returns the library of a text (`LibraryTexts`).
//!
//! Used by oa_turn, for REPLACE LIBRARY and its laws, and by oa_server, which opens a store.
#![tactic(auto)]

mod fitting;
pub mod laws;
mod library_text;
mod lost;

pub use fitting::fits;
pub use library_text::{TextError, read_library};
pub use lost::{Incompatibility, keeps};
