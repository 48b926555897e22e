//! The elements of arrays.
ghost use Rattle.std.specs.Prelude.{◌≡◌, ◌↔◌, IsTrue, IsSome, IfOk};
ghost use Rattle.oa_model.specs.declared.var_type.VarType.{VarType};
ghost use Rattle.oa_model.specs.promise.Types.{sf_type_of};

use oa_model::VarType;
use std::alloc::{AllocError, Global};

/// A value that can be an element of an array. In contracts, `Fits value elem` means that the value
/// can be an element of an array of the type `elem`. `zero_of elem` is the zero value of that type.
/// The theorem `zero_fits` says that this zero value fits, if there are such arrays.
pub trait Cell: Drop {
    ghost Fits: { Self → VarType → Type 0 };

    ghost zero_of: { VarType → Self };

    /// Returns whether the value can be an element of an array of this type.
    fn fits(&self, elem: VarType) -> bool
        ensures { IsTrue result ↔ Fits self.now elem };

    /// Returns the zero value of a type, which each new element has.
    fn zero(elem: VarType) -> Self
        ensures { result ≡ zero_of elem };

    /// Returns an equal value in memory of its own. Err: an allocation fails.
    fn copy(&self, alloc: Global) -> Result<Self, AllocError>
        ensures { IfOk result (λ copy. copy ≡ self.now) };

    ghost zero_fits: { (elem : VarType) → IsSome (sf_type_of elem) → Fits (zero_of elem) elem };
}
