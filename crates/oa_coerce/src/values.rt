//! Coercion of scalars and of values.
ghost use Rattle.std.specs.Prelude.{◌≡◌, true, IfOk, IfErr, IsTrue};
ghost use Rattle.oa_variant.specs.Variants.{HasZero};
ghost use Rattle.oa_variant.specs.promise.Variants.{fits_declared};
ghost use Rattle.oa_coerce.specs.Coercions.{CoercesScalar, Coerces};
ghost use Rattle.oa_coerce.specs.Refusals.{RefusesScalar, RefusesCoercion};
ghost use Rattle.oa_coerce.specs.promise.Answers.{coerced_scalar, coerced};
ghost use Rattle.oa_coerce.specs.Answers.{IsScalarAnswer, IsCoercion};

use crate::CoerceFault;
use crate::number::{nearest, number_in, with_count};
use crate::rule::{Rule, places, rule_for};
use oa_array::Cell;
use oa_model::{ValueType, VarType};
use oa_variant::{Decimal, Scalar, Variant};
use std::alloc::Global;

/// Coerces a scalar to a type, and returns the result. Every scalar is unchanged as VARIANT.
/// Allocates nothing.
///
/// Err contains the scalar and the reason: `TypeMismatch` if and only if there is no rule for the
/// two types; `Overflow` if and only if the number, rounded to the type's unit, is outside the
/// range of the type.
pub fn coerce_scalar(value: Scalar, to: VarType) -> Result<Scalar, (Scalar, CoerceFault)>
    ensures made { IfOk result (λ made. CoercesScalar value to made) }
    ensures refused { IfErr result (λ e. (e.0 ≡ value) × RefusesScalar value to e.1) }
    ensures answer { IsScalarAnswer (coerced_scalar value to) result }
{
    scalar_by_rule(value, to)
}

/// Coerces a scalar as `coerce_scalar` does, with the same errors. Its contract is over the
/// relation alone.
fn scalar_by_rule(value: Scalar, to: VarType) -> Result<Scalar, (Scalar, CoerceFault)>
    ensures made { IfOk result (λ made. CoercesScalar value to made) }
    ensures refused { IfErr result (λ e. (e.0 ≡ value) × RefusesScalar value to e.1) }
{
    match rule_for(value.var_type(), to) {
        Rule::Unchanged => Ok(value),
        Rule::Zero => Ok(Scalar::zero(to)),
        Rule::Nearest => match with_count(to, nearest(number_in(&value), places(to))) {
            Some(made) => Ok(made),
            None => Err((value, CoerceFault::Overflow)),
        },
        Rule::Exact => {
            let number = number_in(&value);
            let is_negative = number.count < 0;
            let magnitude = number.count.unsigned_abs();
            Ok(Scalar::Decimal(Decimal::new(is_negative, number.scale, magnitude)))
        }
        Rule::ToTruth => Ok(Scalar::Bool(number_in(&value).count != 0)),
        Rule::NoRule => Err((value, CoerceFault::TypeMismatch)),
    }
}

/// Coerces a value to a declared type, and returns the result. The type must be a scalar type or
/// that of an array with an sfType. Every value is unchanged as VARIANT.
///
/// Err contains the value and the reason: `TypeMismatch` if and only if there is no rule for the
/// two types; `Overflow` if and only if the number, rounded to the type's unit, is outside the
/// range of the type; `Memory` if EMPTY is to become an array and an allocation fails.
#[inline(always)]
pub fn coerce(
    alloc: Global,
    value: Variant,
    declared: ValueType,
) -> Result<Variant, (Variant, CoerceFault)>
    requires { HasZero declared }
    ensures made { IfOk result (λ made. Coerces value declared made) }
    ensures refused { IfErr result (λ e. (e.0 ≡ value) × RefusesCoercion value declared e.1) }
    ensures answer { IsCoercion (coerced value declared) result }
{
    value_by_rule(alloc, value, declared)
}

/// Coerces a value as `coerce` does, with the same errors. Its contract is over the relation alone.
#[inline(always)]
fn value_by_rule(
    alloc: Global,
    value: Variant,
    declared: ValueType,
) -> Result<Variant, (Variant, CoerceFault)>
    requires { HasZero declared }
    ensures made { IfOk result (λ made. Coerces value declared made) }
    ensures refused { IfErr result (λ e. (e.0 ≡ value) × RefusesCoercion value declared e.1) }
{
    if is_long(&value, declared) {
        return Ok(value);
    }
    other_value(alloc, value, declared)
}

/// Returns whether a value is a long, as most are, and the declared type is long. The caller then
/// returns the value without a call, so that it is not moved.
#[inline(always)]
fn is_long(value: &Variant, declared: ValueType) -> bool
    ensures { IsTrue result → fits_declared value.now declared ≡ true }
{
    match (value, declared) {
        (Variant::One(Scalar::I4(_)), ValueType::One(VarType::I4)) => true,
        _ => false,
    }
}

/// Coerces any value as `value_by_rule` does, with the same errors.
fn other_value(
    alloc: Global,
    value: Variant,
    declared: ValueType,
) -> Result<Variant, (Variant, CoerceFault)>
    requires { HasZero declared }
    ensures made { IfOk result (λ made. Coerces value declared made) }
    ensures refused { IfErr result (λ e. (e.0 ≡ value) × RefusesCoercion value declared e.1) }
{
    if value.fits(declared) {
        return Ok(value);
    }
    match value {
        Variant::One(scalar) => match declared {
            ValueType::One(to) => match scalar_by_rule(scalar, to) {
                Ok(made) => Ok(Variant::One(made)),
                Err((scalar, fault)) => Err((Variant::One(scalar), fault)),
            },
            ValueType::Array(_) => {
                if scalar.var_type() != VarType::Empty {
                    return Err((Variant::One(scalar), CoerceFault::TypeMismatch));
                }
                Variant::zero(alloc, declared).map_err(|_| (
                    Variant::One(scalar),
                    CoerceFault::Memory,
                ))
            }
        },
        Variant::Array(array) => Err((Variant::Array(array), CoerceFault::TypeMismatch)),
    }
}
