//! The semantic checks of a tree, the declarations of its interfaces, and the values of defaults.
//!
//! Contract: `check_tree` returns the first error of a tree in the order of the checks
//! (`Breaches`), or the names and GUIDs of its items if it has none. `mark` marks one default
//! interface in each coclass.
//!
//! Used by oa_typelib, and above it by oa_compat, oa_bind, oa_decision and oa_turn; and by the
//! commands.
#![tactic(auto)]

mod agreement;
mod checks;
mod declaration;
mod default_value;
mod fault;
mod folding;
mod guids;
mod marking;
mod member_checks;
mod places;
mod repeats;
mod sets;
mod taken;

pub use agreement::{is_optional, is_same_name, same_parameters, same_result};
pub use checks::{Checked, check_tree, entry_names, item_name};
pub use declaration::{Declaration, DeclarationKind, declarations};
pub use default_value::value_of_default;
pub use fault::{CheckError, WrittenName};
pub use folding::folded;
pub use guids::{is_zero_guid, place_in_front};
pub use marking::mark;
pub use places::{at, class_at, interface_at, items_of};
pub use sets::{FoldedNames, Guids};
