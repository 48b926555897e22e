//! Numbers, and their rounding to units.
ghost use Rattle.std.specs.Prelude.{◌≡◌, ◌≤◌, ◌<◌, ◌^◌, unsigned_abs, IfSome, IsNone, IsTrue};
ghost use Rattle.oa_variant.specs.promise.Keys.{key_number};
ghost use Rattle.oa_variant.specs.promise.Scalars.{type_of};
ghost use Rattle.oa_variant.specs.Scalars.{IsScalar};
ghost use Rattle.oa_variant.specs.declared.scalar.Scalar.{Scalar as AScalar};
ghost use Rattle.oa_coerce.specs.promise.Numbers.{number_in, counts_units};
ghost use Rattle.oa_coerce.specs.Numbers.{IsNearest, IsNearestWhole};

use oa_model::VarType;
use oa_variant::Scalar;

/// The number count / 10^scale.
#[derive(Clone, Copy)]
pub(crate) struct Number {
    /// The count of units, with its sign.
    pub(crate) count: i128,
    /// The number of decimal places of the unit, from 0 to 28.
    pub(crate) scale: u8,
}

/// Returns the number of a scalar: -1 for true, and 0 if it has none.
pub(crate) fn number_in(value: &Scalar) -> Number
    ensures value { result ≡ number_in value.now }
    ensures scale { result.scale ≤ 28 }
    ensures count { unsigned_abs result.count < 2 ^ 96 }
{
    let (count, scale) = match value {
        Scalar::I1(n) => (*n as i128, 0),
        Scalar::I2(n) => (*n as i128, 0),
        Scalar::I4(n) => (*n as i128, 0),
        Scalar::I8(n) => (*n as i128, 0),
        Scalar::Int(n) => (*n as i128, 0),
        Scalar::Ui1(n) => (*n as i128, 0),
        Scalar::Ui2(n) => (*n as i128, 0),
        Scalar::Ui4(n) => (*n as i128, 0),
        Scalar::Ui8(n) => (*n as i128, 0),
        Scalar::Uint(n) => (*n as i128, 0),
        Scalar::Cy(n) => (*n as i128, 4),
        Scalar::Error(code) => (*code as i128, 0),
        Scalar::Bool(true) => (-1, 0),
        Scalar::Bool(false) | Scalar::Empty | Scalar::Null | Scalar::Bstr(_) => (0, 0),
        Scalar::Decimal(d) => {
            let count = d.magnitude() as i128;
            (if d.is_negative() { -count } else { count }, d.scale())
        }
    };
    Number { count, scale }
}

/// Returns the whole number nearest to whole / unit, and the even one of two that are equally near.
fn nearest_whole(whole: u128, unit: u128) -> u128
    requires unit { (0 < unit) × (unit < 2 ^ 100) }
    requires whole { whole < 2 ^ 120 }
    ensures nearest { IsNearestWhole whole unit result }
    ensures bound { result ≤ 2 ^ 120 }
{
    let below = whole / unit;
    let rest = whole % unit;
    if 2 * rest > unit || (2 * rest == unit && below % 2 == 1) {
        below + 1
    } else {
        below
    }
}

/// Returns the nearest count of units of 1 / 10^`places` to a number, and the even one of two that
/// are equally near.
pub(crate) fn nearest(number: Number, places: u8) -> i128
    requires scale { number.scale ≤ 28 }
    requires count { unsigned_abs number.count < 2 ^ 96 }
    requires places { places ≤ 4 }
    ensures { IsNearest number places result }
{
    let unit = 10u128.pow(number.scale as u32);
    let whole = number.count.unsigned_abs() * 10u128.pow(places as u32);
    let count = nearest_whole(whole, unit) as i128;
    if number.count < 0 { -count } else { count }
}

/// Returns the scalar of an integer type or of CY with this count of units. None if the type has no
/// such scalar.
pub(crate) fn with_count(to: VarType, count: i128) -> Option<Scalar>
    requires { IsTrue (counts_units to) }
    ensures some { IfSome result (λ made. (type_of made ≡ to) × (key_number made ≡ count)) }
    ensures none { IsNone result → (made : AScalar) → IsScalar made → type_of made ≡ to → key_number made ≡ count → ⊥ }
{
    match to {
        VarType::I1 => i8::try_from(count).ok().map(Scalar::I1),
        VarType::I2 => i16::try_from(count).ok().map(Scalar::I2),
        VarType::I4 => i32::try_from(count).ok().map(Scalar::I4),
        VarType::I8 => i64::try_from(count).ok().map(Scalar::I8),
        VarType::Int => i32::try_from(count).ok().map(Scalar::Int),
        VarType::Ui1 => u8::try_from(count).ok().map(Scalar::Ui1),
        VarType::Ui2 => u16::try_from(count).ok().map(Scalar::Ui2),
        VarType::Ui4 => u32::try_from(count).ok().map(Scalar::Ui4),
        VarType::Ui8 => u64::try_from(count).ok().map(Scalar::Ui8),
        VarType::Uint => u32::try_from(count).ok().map(Scalar::Uint),
        VarType::Cy => i64::try_from(count).ok().map(Scalar::Cy),
        _ => None,
    }
}
