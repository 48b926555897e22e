//! Tests of disks, and of the journal and the store on disks in memory, with crashes.
//!
//! Contract: safety, as of every function; the tests crash a disk at points of its clock.
//!
//! A private function returns None if an allocation fails, or if something else happens than the test
//! expects; one that searches returns None if it finds nothing.
//!
//! Used by no crate.
#![tactic(auto)]

#[cfg(test)]
mod disk;
#[cfg(test)]
mod file;
#[cfg(test)]
mod formats;
#[cfg(test)]
mod journal;
pub mod moments;
#[cfg(test)]
mod store;
#[cfg(test)]
mod upgrading;
