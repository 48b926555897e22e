//! The coercion rule for two types.
ghost use Rattle.std.specs.Prelude.{◌≡◌, ◌≤◌};
ghost use Rattle.oa_coerce.specs.promise.Numbers.{counts_units, decimal_places};
ghost use Rattle.oa_coerce.specs.promise.Coercions.{rule_for};

use oa_model::VarType;

/// A coercion rule: the result for a value.
#[derive(Clone, Copy)]
pub(crate) enum Rule {
    /// The value itself.
    Unchanged,
    /// The zero value of the type.
    Zero,
    /// The value of the type with the nearest number.
    Nearest,
    /// The DECIMAL with the same number.
    Exact,
    /// False if the number is 0, otherwise true.
    ToTruth,
    /// None: the value is refused.
    NoRule,
}

/// Returns whether the values of a type are whole counts of one unit: those of the integer types
/// and of CY.
pub(crate) fn counts_units(one: VarType) -> bool
    ensures { result ≡ counts_units one }
{
    one.is_integer() || one == VarType::Cy
}

/// Returns the number of decimal places of that unit: 4 for CY, otherwise 0.
pub(crate) fn places(one: VarType) -> u8
    ensures value { result ≡ decimal_places one }
    ensures few { result ≤ 4 }
{
    if one == VarType::Cy { 4 } else { 0 }
}

/// Returns the rule for the coercion of a scalar from one type to another.
pub(crate) fn rule_for(from: VarType, to: VarType) -> Rule
    ensures { result ≡ rule_for from to }
{
    if to == VarType::Variant || from == to {
        Rule::Unchanged
    } else if from == VarType::Empty {
        Rule::Zero
    } else if (counts_units(from) || from == VarType::Decimal) && counts_units(to) {
        Rule::Nearest
    } else if from == VarType::Bool && to.is_signed_integer() {
        Rule::Nearest
    } else if counts_units(from) && to == VarType::Decimal {
        Rule::Exact
    } else if from.is_signed_integer() && to == VarType::Bool {
        Rule::ToTruth
    } else {
        Rule::NoRule
    }
}
