//! Tests of values, their encodings, and the strings and tables that contain them, for what no
//! request reaches.
//!
//! Contract: safety, as of every function; the tests contain the expected values.
//!
//! A private function returns None if an allocation fails, or if something else happens than the test
//! expects; one that searches returns None if it finds nothing.
//!
//! Used by no crate.
#![tactic(auto)]

pub mod arrays;
#[cfg(test)]
mod asserts;
#[cfg(test)]
mod bstr;
#[cfg(test)]
mod cells;
#[cfg(test)]
mod image;
#[cfg(test)]
mod model;
#[cfg(test)]
mod ndr;
#[cfg(test)]
mod record;
#[cfg(test)]
mod share;
#[cfg(test)]
mod shown;
#[cfg(test)]
mod stream;
#[cfg(test)]
mod table;
#[cfg(test)]
mod variant;
pub mod wire_variant;
#[cfg(test)]
mod without_memory;
