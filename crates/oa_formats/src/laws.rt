//! Theorems about the images of values, each the contract of a function with an empty body.
ghost use Rattle.std.specs.Prelude.{◌≡◌};
ghost use Rattle.oa_variant.specs.Scalars.{IsScalar};
ghost use Rattle.oa_variant.specs.Variants.{IsVariant};
ghost use Rattle.oa_variant.specs.promise.Variants.{unlocked};
ghost use Rattle.oa_variant.specs.declared.scalar.Scalar.{Scalar};
ghost use Rattle.oa_variant.specs.declared.variant.Variant.{Variant};
ghost use Rattle.oa_formats.specs.promise.Values.{scalar_format};
ghost use Rattle.oa_formats.specs.promise.Variants.{value};

/// Each scalar has an image. Every `Scalar` meets `IsScalar` (`oa_variant::laws::is_scalar`).
pub fn scalars_have_images()
    ensures { (s : Scalar) → IsScalar s → scalar_format.Is s }
{}

/// Each value has an image, of an array without its locks. Every `Variant` meets `IsVariant`
/// (`oa_variant::laws::is_variant`).
pub fn values_have_images()
    ensures { (v : Variant) → IsVariant v → value.Is (unlocked v) }
{}

/// The image of a value contains no locks.
pub fn value_images_hold_no_locks()
    ensures { (v : Variant) → value.image (unlocked v) ≡ value.image v }
{}
