//! The types of values.
ghost use Rattle.std.specs.Prelude.{◌≡◌};
ghost use Rattle.oa_model.specs.promise.Types.{vt_of, type_at, vt_of_value, sf_type_of, element_size_of};
ghost use Rattle.oa_model.specs.promise.Types.{is_signed_type};

use crate::invoke::VT_ARRAY;

/// The type of a scalar value (VARENUM, MS-OAUT section 2.2.7). VARIANT is the type of no value: as
/// the type of an array's elements or as a declared type it allows a scalar of any type.
#[derive(Clone, Copy, Debug, PartialEq, Eq)]
pub enum VarType {
    /// 0: no value.
    Empty,
    /// 1: the null of databases.
    Null,
    /// 2: a signed number of 16 bits.
    I2,
    /// 3: a signed number of 32 bits.
    I4,
    /// 6: a signed 64-bit count of ten-thousandths.
    Cy,
    /// 8: a text.
    Bstr,
    /// 10: a code of 32 bits.
    Error,
    /// 11: true or false.
    Bool,
    /// 12: a scalar of any type.
    Variant,
    /// 14: a decimal number of 96 bits with sign and scale.
    Decimal,
    /// 16: a signed number of 8 bits.
    I1,
    /// 17: an unsigned number of 8 bits.
    Ui1,
    /// 18: an unsigned number of 16 bits.
    Ui2,
    /// 19: an unsigned number of 32 bits.
    Ui4,
    /// 20: a signed number of 64 bits.
    I8,
    /// 21: an unsigned number of 64 bits.
    Ui8,
    /// 22: a signed number of 32 bits.
    Int,
    /// 23: an unsigned number of 32 bits.
    Uint,
}

impl VarType {
    /// Returns the number of the type (MS-OAUT section 2.2.7).
    pub const fn vt(self) -> u16
        ensures { result ≡ vt_of self }
    {
        match self {
            VarType::Empty => 0,
            VarType::Null => 1,
            VarType::I2 => 2,
            VarType::I4 => 3,
            VarType::Cy => 6,
            VarType::Bstr => 8,
            VarType::Error => 10,
            VarType::Bool => 11,
            VarType::Variant => 12,
            VarType::Decimal => 14,
            VarType::I1 => 16,
            VarType::Ui1 => 17,
            VarType::Ui2 => 18,
            VarType::Ui4 => 19,
            VarType::I8 => 20,
            VarType::Ui8 => 21,
            VarType::Int => 22,
            VarType::Uint => 23,
        }
    }

    /// Returns the type with a number. None if this server's profile has no such type.
    pub const fn from_vt(number: u16) -> Option<VarType>
        ensures { result ≡ type_at number }
    {
        match number {
            0 => Some(VarType::Empty),
            1 => Some(VarType::Null),
            2 => Some(VarType::I2),
            3 => Some(VarType::I4),
            6 => Some(VarType::Cy),
            8 => Some(VarType::Bstr),
            10 => Some(VarType::Error),
            11 => Some(VarType::Bool),
            12 => Some(VarType::Variant),
            14 => Some(VarType::Decimal),
            16 => Some(VarType::I1),
            17 => Some(VarType::Ui1),
            18 => Some(VarType::Ui2),
            19 => Some(VarType::Ui4),
            20 => Some(VarType::I8),
            21 => Some(VarType::Ui8),
            22 => Some(VarType::Int),
            23 => Some(VarType::Uint),
            _ => None,
        }
    }

    /// Returns whether its values are signed numbers: I1, I2, I4, I8, INT or CY.
    pub const fn is_signed(self) -> bool
        ensures { result ≡ is_signed_type self }
    {
        matches!(
            self,
            VarType::I1 | VarType::I2 | VarType::I4 | VarType::I8 | VarType::Int | VarType::Cy
        )
    }

    /// Returns the sfType of an array with elements of this type (MS-OAUT section 2.2.8), which
    /// depends on their width; BSTR and VARIANT have their own. None if this server has no such
    /// array: EMPTY, NULL, ERROR and DECIMAL.
    pub const fn sf_type(self) -> Option<u32>
        ensures { result ≡ sf_type_of self }
    {
        match self {
            VarType::I1 | VarType::Ui1 => Some(0x10),
            VarType::I2 | VarType::Ui2 | VarType::Bool => Some(2),
            VarType::I4 | VarType::Ui4 | VarType::Int | VarType::Uint => Some(3),
            VarType::I8 | VarType::Ui8 | VarType::Cy => Some(0x14),
            VarType::Bstr => Some(8),
            VarType::Variant => Some(0xC),
            VarType::Empty | VarType::Null | VarType::Error | VarType::Decimal => None,
        }
    }

    /// Returns the cbElements of an array with elements of this type, in bytes. None if this server
    /// has no such array.
    pub const fn element_size(self) -> Option<u32>
        ensures { result ≡ element_size_of self }
    {
        match self {
            VarType::I1 | VarType::Ui1 => Some(1),
            VarType::I2 | VarType::Ui2 | VarType::Bool => Some(2),
            VarType::I4 | VarType::Ui4 | VarType::Int | VarType::Uint | VarType::Bstr => Some(4),
            VarType::I8 | VarType::Ui8 | VarType::Cy => Some(8),
            VarType::Variant => Some(16),
            VarType::Empty | VarType::Null | VarType::Error | VarType::Decimal => None,
        }
    }
}

/// The type of a value, or the declared type of a property or parameter: a scalar type, or that of
/// an array.
#[derive(Clone, Copy, Debug, PartialEq, Eq)]
pub enum ValueType {
    /// A scalar of this type.
    One(VarType),
    /// An array with elements of this type.
    Array(VarType),
}

impl ValueType {
    /// Returns the number of the type: that of the scalar, or that of the elements with 0x2000
    /// added (VT_ARRAY, MS-OAUT section 2.2.7).
    pub const fn vt(self) -> u16
        ensures { result ≡ vt_of_value self }
    {
        match self {
            ValueType::One(one) => one.vt(),
            ValueType::Array(cell) => cell.vt() + VT_ARRAY,
        }
    }
}
