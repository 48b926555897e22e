//! The agreement of the get and the put of a property.
ghost use Rattle.std.specs.Prelude.{◌≡◌};
ghost use Rattle.std.specs.Cmp.Lexicographic.{pointwise};
ghost use Rattle.oa_sema.specs.promise.Agreement.{same_value_type, same_result, same_literal, same_default};
ghost use Rattle.oa_sema.specs.promise.Agreement.{is_optional, same_parameter, agree};
ghost use Rattle.oa_sema.specs.promise.Libraries.{same_name};

use crate::declaration::Declaration;
use oa_idl::{Literal, Name, Parameter};
use oa_model::ValueType;

/// Returns whether two names are equal without regard to the case of A to Z.
pub fn is_same_name(a: &Name, b: &Name) -> bool
    ensures { result ≡ same_name a.now b.now }
{
    a.as_bytes().eq_ignore_ascii_case(b.as_bytes())
}

/// Returns whether two types have the same number.
fn same_type(a: ValueType, b: ValueType) -> bool
    ensures { result ≡ same_value_type a b }
{
    a.vt() == b.vt()
}

/// Returns whether both are None, or both are the same type.
pub fn same_result(a: Option<ValueType>, b: Option<ValueType>) -> bool
    ensures { result ≡ same_result a b }
{
    match (a, b) {
        (None, None) => true,
        (Some(a), Some(b)) => same_type(a, b),
        _ => false,
    }
}

/// Returns whether two defaults are the same number, text or truth value.
fn same_literal(a: &Literal, b: &Literal) -> bool
    ensures { result ≡ same_literal a.now b.now }
{
    match (a, b) {
        (Literal::Number(a), Literal::Number(b)) => *a == *b,
        (Literal::Text(a), Literal::Text(b)) => a.as_bytes() == b.as_bytes(),
        (Literal::Bool(a), Literal::Bool(b)) => *a == *b,
        _ => false,
    }
}

/// Returns whether both have no default, or the same one.
fn same_default(a: &Option<Literal>, b: &Option<Literal>) -> bool
    ensures { result ≡ same_default a.now b.now }
{
    match (a, b) {
        (None, None) => true,
        (Some(a), Some(b)) => same_literal(a, b),
        _ => false,
    }
}

/// Returns whether a call may omit the parameter: it is declared `optional`, or it has a default.
pub fn is_optional(parameter: &Parameter) -> bool
    ensures { result ≡ is_optional parameter.now }
{
    parameter.is_optional || parameter.default.is_some()
}

/// Returns whether two parameters agree, as `same_parameters` says.
#[tactic(auto, unfolding(crate::specs::promise::Agreement::same_parameter))]
fn same_parameter(a: &Parameter, b: &Parameter) -> bool
    ensures { result ≡ same_parameter a.now b.now }
{
    is_same_name(&a.name, &b.name)
        && same_type(a.value_type, b.value_type)
        && a.is_in == b.is_in
        && is_optional(a) == is_optional(b)
        && same_default(&a.default, &b.default)
}

/// Returns whether two lists of parameters have the same length and agree one by one: in the name
/// without regard to the case of A to Z, the type, `in`, the default, and whether a call may omit
/// the parameter.
pub fn same_parameters(a: &[Parameter], b: &[Parameter]) -> bool
    ensures { result ≡ pointwise same_parameter a.now b.now }
{
    if a.len() != b.len() {
        return false;
    }
    for place in 0..a.len() {
        if !same_parameter(&a[place], &b[place]) {
            return false;
        }
    }
    true
}

/// Returns whether a get and a put agree: in the DISPID, the type of the property's value, and the
/// parameters.
#[tactic(auto, unfolding(crate::specs::promise::Agreement::agree))]
pub(crate) fn agree(a: &Declaration<'_>, b: &Declaration<'_>) -> bool
    ensures { result ≡ agree a.now b.now }
{
    a.id == b.id
        && same_result(a.type_of_value(), b.type_of_value())
        && same_parameters(a.own_parameters(), b.own_parameters())
}
