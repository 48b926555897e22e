//! Type libraries: a checked tree with indexes, and the look-ups of a server in it.
//!
//! Contract: `check` returns a library if and only if the tree has no error (`IsLibrary`), and
//! otherwise the first error. Each look-up returns what the definitions over the tree say
//! (`Members`, `Names`, `Descriptions`).
//!
//! Used by oa_compat, oa_bind, oa_decision, oa_turn, oa_server and the program.
#![tactic(auto)]

mod access;
mod codes;
mod defaults;
mod describe;
mod described;
mod dispinterface;
mod forms;
mod groups;
mod index;
pub mod laws;
mod library;
mod member;
mod members;
mod names;

pub use access::{Access, Kind, MemberFault};
pub use describe::{Description, form_at};
pub use described::{Content, DescribeError, DescribedEntry, DescribedMember, DescribedParameter};
pub use dispinterface::Dispinterface;
pub use forms::Form;
pub use library::{Library, check};
pub use member::Member;
pub use names::DispIds;
