//! Theorems about the definitions, each the contract of a function with an empty body.
ghost use Rattle.std.specs.Prelude.{◌≡◌, ◌↔◌, true, false, ℤ, ℕ, Ok, Err};
ghost use Rattle.oa_model.specs.promise.Integers.{is_integer_type};
ghost use Rattle.oa_model.specs.declared.var_type.VarType.{VarType as AType};
ghost use Rattle.oa_model.specs.declared.var_type.VarType.TheVariants as types;
ghost use Rattle.oa_model.specs.declared.var_type.ValueType.{ValueType as AValueType};
ghost use Rattle.oa_model.specs.declared.var_type.ValueType.TheVariants as kinds;
ghost use Rattle.oa_variant.specs.promise.Keys.{key_number};
ghost use Rattle.oa_variant.specs.promise.Scalars.{type_of, fits_type};
ghost use Rattle.oa_variant.specs.Scalars.{IsScalar};
ghost use Rattle.oa_variant.specs.promise.Variants.{value_type_of, fits_declared};
ghost use Rattle.oa_variant.specs.declared.scalar.Scalar.{Scalar as AScalar};
ghost use Rattle.oa_variant.specs.declared.variant.Variant.{Variant as AVariant};
ghost use Rattle.oa_coerce.specs.promise.Numbers.{counts_units};
ghost use Rattle.oa_coerce.specs.Numbers.{IsNearest};
ghost use Rattle.oa_coerce.specs.Coercions.{CoercesScalar, Coerces};
ghost use Rattle.oa_coerce.specs.Refusals.{RefusesScalar, RefusesCoercion};
ghost use Rattle.oa_coerce.specs.promise.Answers.{coerced_scalar, coerced};
ghost use Rattle.oa_coerce.specs.Answers.{is_memory};
ghost use Rattle.oa_coerce.specs.declared.fault.CoerceFault.{CoerceFault as AFault};
ghost use Rattle.oa_coerce.specs.declared.number.Number.{Number as ANumber};

/// A number has at most one nearest count of units.
pub fn one_nearest_count()
    ensures { (x : ANumber) (places : ℕ) (a b : ℤ) → IsNearest x places a → IsNearest x places b → a ≡ b }
{}

/// The coercion of a value to a type has at most one result.
pub fn one_answer()
    ensures { (v a b : AVariant) (to : AValueType) → Coerces v to a → Coerces v to b → a ≡ b }
{}

/// Coercion to a value's own type, and to VARIANT, changes nothing.
pub fn own_type_changes_nothing()
    ensures own { (v made : AVariant) → Coerces v (value_type_of v) made ↔ (made ≡ v) }
    ensures variant { (v made : AVariant) → Coerces v (kinds.One types.Variant) made ↔ (made ≡ v) }
{}

/// The result of a coercion is of the declared type; that of a scalar is of the scalar type.
pub fn answer_fits()
    ensures value { (v made : AVariant) (to : AValueType) → Coerces v to made → fits_declared made to ≡ true }
    ensures scalar { (s made : AScalar) (to : AType) → CoercesScalar s to made → fits_type made to ≡ true }
{}

/// Coercion from one integer type to another keeps the number.
pub fn integers_stay()
    ensures { (s made : AScalar) (to : AType) → is_integer_type (type_of s) ≡ true → is_integer_type to ≡ true →
        CoercesScalar s to made → key_number made ≡ key_number s }
{}

/// A value of an integer type or of CY that is coerced to DECIMAL can be coerced back to itself.
pub fn decimals_come_back()
    ensures { (s made : AScalar) → counts_units (type_of s) ≡ true → IsScalar s →
        CoercesScalar s types.Decimal made → CoercesScalar made (type_of s) s }
{}

/// The function `coerced_scalar` computes the result of the coercion of a scalar, or its refusal.
pub fn scalar_answer_is_coercion()
    ensures made { (s made : AScalar) (to : AType) → CoercesScalar s to made ↔ (coerced_scalar s to ≡ Ok made) }
    ensures refused { (s : AScalar) (to : AType) (f : AFault) → RefusesScalar s to f → coerced_scalar s to ≡ Err f }
{}

/// The function `coerced` computes the result of the coercion of a value, or its refusal except
/// `Memory`.
pub fn answer_is_coercion()
    ensures made { (v made : AVariant) (to : AValueType) → Coerces v to made ↔ (coerced v to ≡ Ok made) }
    ensures refused { (v : AVariant) (to : AValueType) (f : AFault) → RefusesCoercion v to f → is_memory f ≡ false → coerced v to ≡ Err f }
{}
