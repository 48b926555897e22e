//! The values of parameters' defaults.
ghost use Rattle.std.specs.Prelude.{◌≡◌, ◌*ℤ◌, pos, IfOk, is_some};
ghost use Rattle.oa_sema.specs.promise.Defaults.{integer_within, decimal_from, number_as, wide, holds_texts, text_as};
ghost use Rattle.oa_sema.specs.promise.Defaults.{holds_truths, default_of, default_value};

use oa_bstr::{Bstr, BstrError};
use oa_idl::{Characters, Literal, Parameter};
use oa_model::{ValueType, VarType};
use oa_variant::{Decimal, Scalar};
use std::alloc::{AllocError, Global};

/// The largest number of characters of a default string.
const MAX_CHARACTERS: usize = 131_072;
/// The magnitude of a DECIMAL is below this bound, 2^96.
const MAGNITUDE_BOUND: u128 = 1 << 96;

/// Returns a number as a count of ten-thousandths; None if it does not fit an i64.
fn as_currency(n: i128) -> Option<i64>
    ensures { result ≡ integer_within 9223372036854775808 (n *ℤ pos 10000) }
{
    i64::try_from(n.checked_mul(10_000)?).ok()
}

/// Returns a number as a DECIMAL of scale 0; None if it does not fit.
fn as_decimal(n: i128) -> Option<Decimal>
    ensures { result ≡ decimal_from n }
{
    let magnitude = n.unsigned_abs();
    if magnitude < MAGNITUDE_BOUND {
        Some(Decimal::new(n < 0, 0, magnitude))
    } else {
        None
    }
}

/// Returns a number as a value of a type; None if the type has no such value. Allocates nothing.
#[tactic(auto, unfolding(crate::specs::promise::Defaults::number_as))]
fn number_as(t: VarType, n: i128) -> Option<Scalar>
    ensures { result ≡ number_as t n }
{
    match t {
        VarType::I1 => Some(Scalar::I1(i8::try_from(n).ok()?)),
        VarType::I2 => Some(Scalar::I2(i16::try_from(n).ok()?)),
        VarType::I4 | VarType::Variant => Some(Scalar::I4(i32::try_from(n).ok()?)),
        VarType::I8 => Some(Scalar::I8(i64::try_from(n).ok()?)),
        VarType::Int => Some(Scalar::Int(i32::try_from(n).ok()?)),
        VarType::Ui1 => Some(Scalar::Ui1(u8::try_from(n).ok()?)),
        VarType::Ui2 => Some(Scalar::Ui2(u16::try_from(n).ok()?)),
        VarType::Ui4 => Some(Scalar::Ui4(u32::try_from(n).ok()?)),
        VarType::Ui8 => Some(Scalar::Ui8(u64::try_from(n).ok()?)),
        VarType::Uint => Some(Scalar::Uint(u32::try_from(n).ok()?)),
        VarType::Error => Some(Scalar::Error(u32::try_from(n).ok()?)),
        VarType::Cy => Some(Scalar::Cy(as_currency(n)?)),
        VarType::Decimal => Some(Scalar::Decimal(as_decimal(n)?)),
        VarType::Empty | VarType::Null | VarType::Bstr | VarType::Bool => None,
    }
}

/// Returns whether a string can be a default of this type.
fn holds_texts(t: VarType) -> bool
    ensures { result ≡ holds_texts t }
{
    matches!(t, VarType::Bstr | VarType::Variant)
}

/// Returns whether `TRUE` or `FALSE` can be a default of this type.
fn holds_truths(t: VarType) -> bool
    ensures { result ≡ holds_truths t }
{
    matches!(t, VarType::Bool | VarType::Variant)
}

/// Encodes ASCII characters as 16-bit units, low byte first. Err: an allocation fails.
#[tactic(auto, unfolding(crate::specs::promise::Defaults::wide))]
fn wide(alloc: Global, characters: &[u8]) -> Result<Vec<u8>, AllocError>
    ensures { IfOk result (λ v. v.items ≡ wide characters.now) }
{
    let mut bytes = Vec::new(alloc);
    for character in characters {
        bytes.extend_from_slice(&[*character, 0])?;
    }
    Ok(bytes)
}

/// Returns a string as a value of a type; None if the type has no such value. Err: an allocation
/// fails.
fn text_as(alloc: Global, t: VarType, text: &Characters) -> Result<Option<Scalar>, AllocError>
    ensures { IfOk result (λ s. s ≡ text_as t text.now) }
{
    if !holds_texts(t) || text.as_bytes().len() > MAX_CHARACTERS {
        return Ok(None);
    }
    let bytes = wide(alloc, text.as_bytes())?;
    match Bstr::from_bytes(alloc, bytes.as_slice()) {
        Ok(text) => Ok(Some(Scalar::Bstr(text))),
        Err(BstrError::TooLong) => Ok(None),
        Err(BstrError::Memory) => Err(AllocError),
    }
}

/// Returns whether a default has a value of the parameter's type. Allocates nothing.
pub(crate) fn has_default(value_type: ValueType, default: &Literal) -> bool
    ensures { result ≡ is_some (default_of value_type default.now) }
{
    let ValueType::One(t) = value_type else {
        return false;
    };
    match default {
        Literal::Number(n) => number_as(t, *n).is_some(),
        Literal::Text(text) => holds_texts(t) && text.as_bytes().len() <= MAX_CHARACTERS,
        Literal::Bool(_) => holds_truths(t),
    }
}

/// Returns a default as a value of the parameter's type. A number becomes one of that type: a count
/// of ten-thousandths for CURRENCY, a DECIMAL of scale 0, an I4 for VARIANT. A truth value becomes
/// a BOOL, and a string a text of 16-bit units for BSTR and VARIANT. None if the type has no such
/// value, and for each array type. Err: an allocation fails.
pub(crate) fn default_value(
    alloc: Global,
    value_type: ValueType,
    default: &Literal,
) -> Result<Option<Scalar>, AllocError>
    ensures { IfOk result (λ s. s ≡ default_of value_type default.now) }
{
    let ValueType::One(t) = value_type else {
        return Ok(None);
    };
    match default {
        Literal::Number(n) => Ok(number_as(t, *n)),
        Literal::Text(text) => text_as(alloc, t, text),
        Literal::Bool(b) => Ok(if holds_truths(t) {
            Some(Scalar::Bool(*b))
        } else {
            None
        }),
    }
}

/// Returns the value of a parameter's default, in the parameter's type. None if the parameter has
/// no default, or if the type has no such value. Err: an allocation fails.
pub fn value_of_default(alloc: Global, parameter: &Parameter) -> Result<Option<Scalar>, AllocError>
    ensures { IfOk result (λ value. value ≡ default_value parameter.now) }
{
    match &parameter.default {
        Some(default) => default_value(alloc, parameter.value_type, default),
        None => Ok(None),
    }
}
