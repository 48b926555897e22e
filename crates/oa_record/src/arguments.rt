//! The lists of a call: DISPIDs and arguments.
ghost use Rattle.std.specs.Prelude.{◌≡◌, ◌≤◌, length};
ghost use Rattle.oa_model.specs.promise.Limits.{max_arguments};

use oa_variant::Variant;
use std::marker::Model;

/// The DISPIDs of the named arguments of a call, at most 32 (rgdispidNamedArgs, MS-OAUT section
/// 3.1.4.4).
#[derive(Debug, Drop)]
pub struct Dispids {
    dispids: Vec<i32>,
}

impl Model for Dispids {
    ghost use Rattle.std.specs.Prelude.{List, ℤ, ◌≤◌, length};
    ghost use Rattle.oa_model.specs.promise.Limits.{max_arguments};

    ghost Value = { List ℤ };

    ghost view = { λ d. d.dispids.items };

    ghost invariant = { λ d. length d.dispids.items ≤ max_arguments };
}

impl Dispids {
    /// Makes a list of at most 32 DISPIDs.
    pub fn new(dispids: Vec<i32>) -> Dispids
        requires { length dispids.items ≤ max_arguments }
        ensures { result ≡ dispids.items }
    {
        Dispids { dispids }
    }

    /// Returns the DISPIDs in order, at most 32.
    pub fn as_slice(&self) -> &[i32]
        ensures value { result.now ≡ self.now }
        ensures few { length result.now ≤ max_arguments }
    {
        self.dispids.as_slice()
    }
}

/// The arguments of a call in the order of rgvarg, at most 32 (MS-OAUT section 3.1.4.4): the named
/// ones first, then the others from the last parameter to the first.
#[derive(Debug, Drop)]
pub struct Arguments {
    values: Vec<Variant>,
}

impl Model for Arguments {
    ghost use Rattle.std.specs.Prelude.{List, ◌≤◌, length};
    ghost use Rattle.oa_model.specs.promise.Limits.{max_arguments};
    ghost use Rattle.oa_variant.specs.declared.variant.Variant.{Variant as AVariant};

    ghost Value = { List AVariant };

    ghost view = { λ a. a.values.items };

    ghost invariant = { λ a. length a.values.items ≤ max_arguments };
}

impl Arguments {
    /// Makes a list of at most 32 values.
    pub fn new(values: Vec<Variant>) -> Arguments
        requires { length values.items ≤ max_arguments }
        ensures { result ≡ values.items }
    {
        Arguments { values }
    }

    /// Returns the values in the order of rgvarg, at most 32.
    pub fn as_slice(&self) -> &[Variant]
        ensures value { result.now ≡ self.now }
        ensures few { length result.now ≤ max_arguments }
    {
        self.values.as_slice()
    }

    /// Returns the values in the order of rgvarg, at most 32, as an owned `Vec`.
    pub fn into_vec(self) -> Vec<Variant>
        ensures value { result.items ≡ self }
        ensures few { length result.items ≤ max_arguments }
    {
        let Arguments { values } = self;
        values
    }
}
