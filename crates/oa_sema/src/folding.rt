//! Names folded to lower case.
ghost use Rattle.std.specs.Prelude.{◌≡◌, IfOk};
ghost use Rattle.oa_model.specs.promise.Folding.{folded_name};

use oa_idl::Name;
use oa_model::fold;
use std::alloc::{AllocError, Global};

/// Returns a declared name in UTF-16 units, with A to Z replaced by a to z. Err: an allocation
/// fails.
pub fn folded(alloc: Global, name: &Name) -> Result<Vec<u16>, AllocError>
    ensures { IfOk result (λ v. v.items ≡ folded_name name.now) }
{
    name.as_bytes()
        .iter()
        .map(|b| u16::from(fold(*b)))
        .collect(alloc)
}
