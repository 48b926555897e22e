//! The table of objects: a cell for each property and each list of arguments, the changes of a
//! table, and the locks of a session.
//!
//! Contract: `apply` of an event results in the one new table (`applied`), or returns the reason
//! why the event does not apply, or out of memory with nothing changed.
//!
//! Used by oa_image, which encodes it; by oa_compat, oa_decision and oa_turn; and by the storage
//! crates, whose stores contain such tables.
#![tactic(auto)]

mod difference;
mod event;
mod fault;
pub mod laws;
mod live;
mod name;
mod objects;
mod place;
mod size;
mod table;
mod value;

pub use event::Event;
pub use fault::TableFault;
pub use live::LiveObject;
pub use name::CellName;
pub use place::Place;
pub use size::place_size;
pub use table::{LARGEST_IMAGE, Table};
