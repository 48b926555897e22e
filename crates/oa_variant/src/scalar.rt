//! Scalars and their order.
ghost use Rattle.std.specs.Prelude.{◌≡◌, ◌↔◌, IsTrue, IsOk, IfOk, None};
ghost use Rattle.std.specs.Cmp.{partial_order_from_total, partial_equiv_from_equiv, eq_by_cmp_equiv};
ghost use Rattle.std.specs.Cmp.Rules.{comparing};
ghost use Rattle.std.specs.Ordering.{as_partial_cmp, eq_by_cmp};
ghost use Rattle.std.proofs.Common.{rules};
ghost use Rattle.oa_variant.specs.promise.Scalars.{type_of, text_of, zero_of, FitsType, fits_type};
ghost use Rattle.oa_variant.specs.Scalars.{zero_fits};
ghost use Rattle.std.specs.Option.{option_map};
ghost use Rattle.oa_variant.specs.promise.Keys.{key_number, decimal_of, scalar_cmp};
ghost use Rattle.oa_variant.specs.Keys.{scalars_total};

use crate::Decimal;
use oa_array::Cell;
use oa_bstr::Bstr;
use oa_model::VarType;
use std::alloc::{AllocError, Global};
use std::cmp::Ordering;

/// A value that is not an array, with its type (MS-OAUT section 2.2.7). Values of different types
/// are different, even if their numbers are equal.
#[derive(Debug, Drop)]
pub enum Scalar {
    /// No value.
    Empty,
    /// The null of databases.
    Null,
    /// A signed number of 8 bits.
    I1(i8),
    /// A signed number of 16 bits.
    I2(i16),
    /// A signed number of 32 bits.
    I4(i32),
    /// A signed number of 64 bits.
    I8(i64),
    /// A signed number of 32 bits, of the type INT.
    Int(i32),
    /// An unsigned number of 8 bits.
    Ui1(u8),
    /// An unsigned number of 16 bits.
    Ui2(u16),
    /// An unsigned number of 32 bits.
    Ui4(u32),
    /// An unsigned number of 64 bits.
    Ui8(u64),
    /// An unsigned number of 32 bits, of the type UINT.
    Uint(u32),
    /// A currency: a count of ten-thousandths (MS-OAUT section 2.2.24).
    Cy(i64),
    /// True or false.
    Bool(bool),
    /// A code.
    Error(u32),
    /// A text, or the null BSTR.
    Bstr(Bstr),
    /// A decimal number.
    Decimal(Decimal),
}

impl Scalar {
    /// Returns the type, which is never VARIANT.
    pub fn var_type(&self) -> VarType
        ensures { result ≡ type_of self.now }
    {
        match self {
            Scalar::Empty => VarType::Empty,
            Scalar::Null => VarType::Null,
            Scalar::I1(_) => VarType::I1,
            Scalar::I2(_) => VarType::I2,
            Scalar::I4(_) => VarType::I4,
            Scalar::I8(_) => VarType::I8,
            Scalar::Int(_) => VarType::Int,
            Scalar::Ui1(_) => VarType::Ui1,
            Scalar::Ui2(_) => VarType::Ui2,
            Scalar::Ui4(_) => VarType::Ui4,
            Scalar::Ui8(_) => VarType::Ui8,
            Scalar::Uint(_) => VarType::Uint,
            Scalar::Cy(_) => VarType::Cy,
            Scalar::Bool(_) => VarType::Bool,
            Scalar::Error(_) => VarType::Error,
            Scalar::Bstr(_) => VarType::Bstr,
            Scalar::Decimal(_) => VarType::Decimal,
        }
    }

    /// Returns the number, with 0 for false and 1 for true; 0 if the scalar has none.
    fn number(&self) -> i128
        ensures { result ≡ key_number self.now }
    {
        match self {
            Scalar::Empty | Scalar::Null | Scalar::Bstr(_) | Scalar::Decimal(_) => 0,
            Scalar::I1(n) => *n as i128,
            Scalar::I2(n) => *n as i128,
            Scalar::I4(n) => *n as i128,
            Scalar::I8(n) => *n as i128,
            Scalar::Int(n) => *n as i128,
            Scalar::Ui1(n) => *n as i128,
            Scalar::Ui2(n) => *n as i128,
            Scalar::Ui4(n) => *n as i128,
            Scalar::Ui8(n) => *n as i128,
            Scalar::Uint(n) => *n as i128,
            Scalar::Cy(n) => *n as i128,
            Scalar::Bool(false) => 0,
            Scalar::Bool(true) => 1,
            Scalar::Error(code) => *code as i128,
        }
    }

    /// Returns the bytes of the text. None for the null BSTR, and if the scalar has no text.
    fn text(&self) -> Option<&[u8]>
        ensures { option_map (λ x. x.now) result ≡ text_of self.now }
    {
        match self {
            Scalar::Bstr(text) => {
                if text.is_null() {
                    None
                } else {
                    Some(text.as_bytes())
                }
            }
            _ => None,
        }
    }

    /// Returns the DECIMAL, or zero if the scalar is of another type.
    fn decimal(&self) -> Decimal
        ensures { result ≡ decimal_of self.now }
    {
        match self {
            Scalar::Decimal(d) => *d,
            _ => Decimal::new(false, 0, 0),
        }
    }
}

/// A scalar can be an element of an array of its own type, and of an array of VARIANT.
impl Cell for Scalar {
    ghost Fits = { FitsType };

    ghost zero_of = { zero_of };

    ghost zero_fits = { λ elem _. zero_fits elem };

    /// Returns whether the scalar can be an element of an array of this type: it is of that type,
    /// or the type is VARIANT.
    fn fits(&self, elem: VarType) -> bool
        ensures fits { IsTrue result ↔ FitsType self.now elem }
        ensures test { result ≡ fits_type self.now elem }
    {
        elem == VarType::Variant || self.var_type() == elem
    }

    /// Returns the zero value of a type, which a cell has before its first put: 0, false, a
    /// positive DECIMAL 0 of scale 0, the null BSTR, EMPTY for EMPTY and VARIANT, NULL for NULL
    /// (this project's choice). Allocates nothing.
    fn zero(elem: VarType) -> Scalar {
        match elem {
            VarType::Empty | VarType::Variant => Scalar::Empty,
            VarType::Null => Scalar::Null,
            VarType::I1 => Scalar::I1(0),
            VarType::I2 => Scalar::I2(0),
            VarType::I4 => Scalar::I4(0),
            VarType::I8 => Scalar::I8(0),
            VarType::Int => Scalar::Int(0),
            VarType::Ui1 => Scalar::Ui1(0),
            VarType::Ui2 => Scalar::Ui2(0),
            VarType::Ui4 => Scalar::Ui4(0),
            VarType::Ui8 => Scalar::Ui8(0),
            VarType::Uint => Scalar::Uint(0),
            VarType::Cy => Scalar::Cy(0),
            VarType::Bool => Scalar::Bool(false),
            VarType::Error => Scalar::Error(0),
            VarType::Bstr => Scalar::Bstr(Bstr::null()),
            VarType::Decimal => Scalar::Decimal(Decimal::new(false, 0, 0)),
        }
    }

    /// Returns an equal scalar, with a block of its own for a text. Err: the allocation of that
    /// block fails; the copy of a scalar without text never fails.
    fn copy(&self, alloc: Global) -> Result<Scalar, AllocError>
        ensures value { IfOk result (λ s. s ≡ self.now) }
        ensures no_text { text_of self.now ≡ None → IsOk result }
    {
        Ok(match self {
            Scalar::Empty => Scalar::Empty,
            Scalar::Null => Scalar::Null,
            Scalar::I1(n) => Scalar::I1(*n),
            Scalar::I2(n) => Scalar::I2(*n),
            Scalar::I4(n) => Scalar::I4(*n),
            Scalar::I8(n) => Scalar::I8(*n),
            Scalar::Int(n) => Scalar::Int(*n),
            Scalar::Ui1(n) => Scalar::Ui1(*n),
            Scalar::Ui2(n) => Scalar::Ui2(*n),
            Scalar::Ui4(n) => Scalar::Ui4(*n),
            Scalar::Ui8(n) => Scalar::Ui8(*n),
            Scalar::Uint(n) => Scalar::Uint(*n),
            Scalar::Cy(n) => Scalar::Cy(*n),
            Scalar::Bool(b) => Scalar::Bool(*b),
            Scalar::Error(code) => Scalar::Error(*code),
            Scalar::Bstr(text) => Scalar::Bstr(text.copy(alloc)?),
            Scalar::Decimal(d) => Scalar::Decimal(*d),
        })
    }
}

impl PartialEq for Scalar {
    ghost eq = { eq_by_cmp scalar_cmp };

    ghost laws = { partial_equiv_from_equiv (eq_by_cmp_equiv scalars_total) };

    fn eq(&self, other: &Scalar) -> bool {
        self.cmp(other) == Ordering::Equal
    }
}

impl Eq for Scalar {
    ghost laws = { eq_by_cmp_equiv scalars_total };
}

impl PartialOrd for Scalar {
    ghost partial_cmp = { as_partial_cmp scalar_cmp };

    ghost laws = { partial_order_from_total scalars_total };

    fn partial_cmp(&self, other: &Scalar) -> Option<Ordering> {
        Some(self.cmp(other))
    }
}

/// The order of keys: by the number of the type, then by value. See the definition `scalar_cmp`.
impl Ord for Scalar {
    ghost cmp = { scalar_cmp };

    ghost total = { scalars_total };

    ghost matches_partial_cmp = { Prim.search (comparing, rules) };

    ghost matches_eq = { Prim.search (comparing, rules) };

    fn cmp(&self, other: &Scalar) -> Ordering {
        let by_decimal = self.decimal().key_cmp(&other.decimal());
        let by_text = self.text().cmp(&other.text()).then(by_decimal);
        let by_number = self.number().cmp(&other.number()).then(by_text);
        self.var_type()
            .vt()
            .cmp(&other.var_type().vt())
            .then(by_number)
    }
}
