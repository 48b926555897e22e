//! The names of a look-up.
ghost use Rattle.std.specs.Prelude.{◌≡◌, ◌≤◌, length, map};
ghost use Rattle.oa_model.specs.promise.Limits.{max_names};

use std::marker::Model;

/// From 1 to 17 names as UTF-16 units: first that of a member, then those of its parameters
/// (rgszNames, MS-OAUT section 3.1.4.3).
#[derive(Debug, Drop)]
pub struct Names {
    names: Vec<Vec<u16>>,
}

impl Model for Names {
    ghost use Rattle.std.specs.Prelude.{List, ℕ, ◌≤◌, length, map};
    ghost use Rattle.oa_model.specs.promise.Limits.{max_names};

    ghost Value = { List (List ℕ) };

    ghost view = { λ n. map (λ name. name.items) n.names.items };

    ghost invariant = { λ n. (1 ≤ length n.names.items) × (length n.names.items ≤ max_names) };
}

impl Names {
    /// Makes a list of 1 to 17 names, each as UTF-16 units.
    pub fn new(names: Vec<Vec<u16>>) -> Names
        requires some { 1 ≤ length names.items }
        requires few { length names.items ≤ max_names }
        ensures { result ≡ map (λ name. name.items) names.items }
    {
        Names { names }
    }

    /// Returns the names in order, from 1 to 17.
    pub fn as_slice(&self) -> &[Vec<u16>]
        ensures value { map (λ name. name.items) result.now ≡ self.now }
        ensures some { 1 ≤ length result.now }
        ensures few { length result.now ≤ max_names }
    {
        self.names.as_slice()
    }
}
