//! The condition of the theorem about encodings, for callers that have a value.
ghost use Rattle.oa_variant.specs.promise.Variants.{unlocked};
ghost use Rattle.oa_wire_variant.specs.promise.Variants.{Spells};
ghost use Rattle.oa_wire_variant.specs.promise.Canon.{canon};

use oa_variant::Variant;
use oa_wire_variant::laws;

/// States that every `Variant` meets the condition of `canon_spells`.
pub fn is_spelled(value: &Variant)
    ensures { Spells (canon value.now) (unlocked value.now) }
{
    oa_variant::laws::is_variant(value);
    laws::canon_spells();
}
