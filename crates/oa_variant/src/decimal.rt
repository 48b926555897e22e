//! DECIMAL values.
ghost use Rattle.std.specs.Prelude.{◌≡◌, ◌≤◌, ◌<◌, ◌^◌};
ghost use Rattle.std.specs.Cmp.{partial_equiv_from_equiv, eq_by_cmp_equiv};
ghost use Rattle.std.specs.Ordering.{eq_by_cmp};
ghost use Rattle.oa_variant.specs.promise.Decimals.{decimal_cmp};
ghost use Rattle.oa_variant.specs.Decimals.{decimals_total};

use std::cmp::Ordering;
use std::marker::Model;

/// The weight of the high bits of a magnitude, which follow its 64 low bits: 2^64.
const ABOVE_LOW: u128 = 0x1_0000_0000_0000_0000;

/// A DECIMAL (MS-OAUT section 2.2.26): a sign, a scale from 0 to 28 and a magnitude below 2^96. Its
/// number is sign × magnitude / 10^scale. The scale, and the sign of a zero, are part of the value.
/// There is no `<`, since the order of keys (`key_cmp`) is not that of the numbers.
///
/// The magnitude is stored as its 32 high and 64 low bits. So an element of an array needs no more
/// bytes for it than for a text.
#[derive(Clone, Copy, Debug)]
pub struct Decimal {
    negative: bool,
    scale: u8,
    high: u32,
    low: u64,
}

impl Model for Decimal {
    ghost use Rattle.std.specs.Prelude.{◌≤◌, ◌<◌, ◌^◌, ◌+◌, ◌*◌};
    ghost use Rattle.oa_variant.specs.promise.Decimals.{DecimalValue, high_of, low_of, halves};

    ghost Value = { DecimalValue };

    ghost view = { λ d. record { negative = d.negative; scale = d.scale; magnitude = d.high * 2 ^ 64 + d.low } };

    ghost invariant = { λ d. (d.scale ≤ 28) × (d.high < 2 ^ 32) × (d.low < 2 ^ 64) };

    ghost inverse = { λ d. record { negative = d.negative; scale = d.scale; high = high_of d.magnitude; low = low_of d.magnitude } };

    ghost inverse_ok = { λ d is. let parts = halves d.high d.low is.2 in
        λ i. record { negative = d.negative; scale = d.scale; high = parts.0 i; low = parts.1 i } };
}

impl Decimal {
    /// Makes the DECIMAL with this sign (`negative`: minus), scale (at most 28 decimal places) and
    /// magnitude (below 2^96).
    pub fn new(negative: bool, scale: u8, magnitude: u128) -> Decimal
        requires { (scale ≤ 28) × (magnitude < 2 ^ 96) }
        ensures { result ≡ record { negative = negative; scale = scale; magnitude = magnitude } }
    {
        Decimal {
            negative,
            scale,
            high: (magnitude / ABOVE_LOW) as u32,
            low: (magnitude % ABOVE_LOW) as u64,
        }
    }

    /// Returns whether the sign is minus. A zero can have a minus sign too.
    pub fn is_negative(&self) -> bool
        ensures { result ≡ self.now.negative }
    {
        self.negative
    }

    /// Returns the number of decimal places, from 0 to 28.
    pub fn scale(&self) -> u8
        ensures value { result ≡ self.now.scale }
        ensures small { result ≤ 28 }
    {
        self.scale
    }

    /// Returns the digits as a whole number, below 2^96.
    pub fn magnitude(&self) -> u128
        ensures value { result ≡ self.now.magnitude }
        ensures small { result < 2 ^ 96 }
    {
        self.high as u128 * ABOVE_LOW + self.low as u128
    }

    /// Returns the order of two DECIMALs as keys: by sign (plus first), scale and magnitude, and
    /// not by their numbers (this project's choice).
    pub(crate) fn key_cmp(&self, other: &Decimal) -> Ordering
        ensures { result ≡ decimal_cmp self.now other.now }
    {
        let by_sign = self.negative.cmp(&other.negative);
        let by_scale = self.scale.cmp(&other.scale);
        let by_magnitude = self.magnitude().cmp(&other.magnitude());
        by_sign.then(by_scale.then(by_magnitude))
    }
}

/// Two are equal if sign, scale and magnitude are: 1.0 is not 1.00.
impl PartialEq for Decimal {
    ghost eq = { eq_by_cmp decimal_cmp };

    ghost laws = { partial_equiv_from_equiv (eq_by_cmp_equiv decimals_total) };

    fn eq(&self, other: &Decimal) -> bool {
        self.key_cmp(other) == Ordering::Equal
    }
}

impl Eq for Decimal {
    ghost laws = { eq_by_cmp_equiv decimals_total };
}
