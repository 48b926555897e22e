//! Deciding about a request, over a library, a table of objects and its locks, which are only read:
//! the reply, the change that it asks for, or why it is refused.
//!
//! Contract: `Decider::decide` returns the defined decision (`decided`), or out of memory if an
//! allocation may be needed (`Decides`). `Decider::plan_value` does so for a call with no more than
//! a new value (`PlansValue`). `limit_violation` returns why an event is not allowed (`allowed`), and
//! `surely_fits` is true only within the limits. A description's fields are its bytes, and
//! have all entries of a coclass (`laws::no_entry_is_left_out`).
//!
//! Used by oa_turn, which makes the changes.
#![tactic(auto)]

mod applies;
mod decider;
mod decision;
mod description;
mod fields;
pub mod laws;
mod limits;
mod plan;
mod refusal;

pub use decider::Decider;
pub use decider::cell::BoundCell;
pub use decision::{DecideError, Decision, LockChange};
pub use fields::Fields;
pub use limits::{limit_violation, max_table_image, surely_fits};
pub use plan::{Plan, Planned, ValuePlan, ValuePut};
pub use refusal::Refusal;
