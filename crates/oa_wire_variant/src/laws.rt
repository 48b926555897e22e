//! Theorems about the definitions, each the contract of a function with an empty body.

ghost use Rattle.std.specs.Prelude.{◌≡◌, ℕ, List, [], ◌++◌};
ghost use Rattle.oa_variant.specs.declared.variant.Variant.{Variant};
ghost use Rattle.oa_variant.specs.Variants.{IsVariant};
ghost use Rattle.oa_variant.specs.promise.Variants.{unlocked};
ghost use Rattle.oa_wire_variant.specs.promise.Variants.{Spells};
ghost use Rattle.oa_wire_variant.specs.promise.Canon.{canon};

/// No bytes encode two values.
pub fn one_value()
    ensures { (bytes : List ℕ) (v w : Variant) → Spells bytes v → Spells bytes w → v ≡ w }
{}

/// The canonical encoding of a value encodes the value without the locks of an array. Each
/// `Variant` of the code satisfies the condition (`oa_variant::laws::is_variant`).
pub fn canon_spells()
    ensures { (v : Variant) → IsVariant v → Spells (canon v) (unlocked v) }
{}

/// No encoding is a proper prefix of another.
pub fn no_proper_prefix()
    ensures { (bytes rest : List ℕ) (v w : Variant) → Spells bytes v → Spells (bytes ++ rest) w → rest ≡ [] }
{}
