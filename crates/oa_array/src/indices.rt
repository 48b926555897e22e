//! Index lists.
ghost use Rattle.std.specs.Prelude.{◌≡◌, ◌≤◌, length};
ghost use Rattle.oa_model.specs.Limits.{max_index_list};

use std::marker::Model;

/// The index list of a request or of a log record: at most 65,535 indices. Contracts see it as a
/// list of integers.
#[derive(Debug, Drop)]
pub struct Indices {
    values: Vec<i32>,
}

impl Model for Indices {
    ghost use Rattle.std.specs.Prelude.{List, ℤ, ◌≤◌, length};
    ghost use Rattle.oa_model.specs.Limits.{max_index_list};

    ghost Value = { List ℤ };

    ghost view = { λ i. i.values.items };

    ghost invariant = { λ i. length i.values.items ≤ max_index_list };
}

impl Indices {
    /// Makes an index list of at most 65,535 indices.
    pub fn new(values: Vec<i32>) -> Indices
        requires { length values.items ≤ max_index_list }
        ensures { result ≡ values.items }
    {
        Indices { values }
    }

    /// Returns the indices.
    pub fn as_slice(&self) -> &[i32]
        ensures value { result.now ≡ self.now }
        ensures few { length self.now ≤ max_index_list }
    {
        self.values.as_slice()
    }
}
