//! Theorems about the definitions, each the contract of a function that changes nothing.
ghost use Rattle.std.specs.Prelude.{◌≡◌, ◌↔◌, true, All};
ghost use Rattle.std.specs.declared.cmp.Ordering.TheVariants.{Equal};
ghost use Rattle.oa_variant.specs.declared.scalar.Scalar.{Scalar as AScalar};
ghost use Rattle.oa_variant.specs.Scalars.{IsScalar};
ghost use Rattle.oa_variant.specs.Variants.{IsBound, IsVariant};
ghost use Rattle.oa_variant.specs.promise.Variants.{unlocked};
ghost use Rattle.oa_variant.specs.declared.variant.Variant.{Variant as AVariant};
ghost use Rattle.oa_variant.specs.promise.Keys.{scalar_cmp};

use crate::{Scalar, Variant};
use oa_model::Bound;

/// Proves the invariant of scalars: the number is in the range of its type, the text and the
/// DECIMAL are within their limits.
pub fn is_scalar(scalar: &Scalar)
    ensures { IsScalar scalar.now }
{
    match scalar {
        Scalar::Empty | Scalar::Null | Scalar::Bool(_) => {}
        Scalar::I1(n) => {
            let _value = *n;
        }
        Scalar::I2(n) => {
            let _value = *n;
        }
        Scalar::I4(n) => {
            let _value = *n;
        }
        Scalar::I8(n) => {
            let _value = *n;
        }
        Scalar::Int(n) => {
            let _value = *n;
        }
        Scalar::Ui1(n) => {
            let _value = *n;
        }
        Scalar::Ui2(n) => {
            let _value = *n;
        }
        Scalar::Ui4(n) => {
            let _value = *n;
        }
        Scalar::Ui8(n) => {
            let _value = *n;
        }
        Scalar::Uint(n) => {
            let _value = *n;
        }
        Scalar::Cy(n) => {
            let _value = *n;
        }
        Scalar::Error(code) => {
            let _value = *code;
        }
        Scalar::Bstr(text) => {
            let _ = text.as_bytes();
        }
        Scalar::Decimal(d) => {
            let _ = d.scale();
            let _ = d.magnitude();
        }
    }
}

/// Scalars that compare as equal in the order of keys are the same.
pub fn equal_is_same()
    ensures { (a b : AScalar) → scalar_cmp a b ≡ Equal → a ≡ b }
{}

/// Proves the invariant of values: their scalars are as `is_scalar` says; an array has an element
/// of its type for each index list, and bounds of 32 bits.
pub fn is_variant(value: &Variant)
    ensures { IsVariant value.now }
{
    match value {
        Variant::One(scalar) => is_scalar(scalar),
        Variant::Array(array) => {
            are_scalars(array.cells());
            are_bounds(array.bounds());
        }
    }
}

/// Proves the invariant of each element of an array.
fn are_scalars(cells: &[Scalar])
    ensures { All IsScalar cells.now }
{
    'cells: for cell in cells {
        is_scalar(cell);
    }
}

/// Proves the invariant of each bound of an array.
fn are_bounds(bounds: &[Bound])
    ensures { All IsBound bounds.now }
{
    'bounds: for bound in bounds {
        is_bound(bound);
    }
}

/// Proves the invariant of a bound: its numbers are in the ranges of their types.
#[tactic(auto, unfolding(crate::specs::Variants::IsBound))]
fn is_bound(bound: &Bound)
    ensures { IsBound bound.now }
{
    let _count = bound.count;
    let _lower = bound.lower;
}

/// Two values are equal if and only if they are the same except for the locks of an array.
pub fn equal_is_same_but_for_locks()
    ensures { (a b : AVariant) → (⟦<Variant as PartialEq>⟧.eq a b ≡ true) ↔ (unlocked a ≡ unlocked b) }
{}
