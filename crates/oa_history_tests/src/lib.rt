//! Tests of sessions on a disk in memory that crash at each point in time, or fail at each call,
//! through the functions of oa_history.
//!
//! Contract: safety, as of every function; the tests also check the number of crashes, opens and
//! failures of a script.
//!
//! A private function returns None if an allocation fails, or if something else happens than the test
//! expects; one that searches returns None if it finds nothing.
//!
//! Used by no crate.
#![tactic(auto)]

#[cfg(test)]
mod beginnings;
pub mod counts;
#[cfg(test)]
mod formats;
#[cfg(test)]
mod script;
#[cfg(test)]
mod script_failures;
#[cfg(test)]
mod script_histories;
#[cfg(test)]
mod script_shared;
