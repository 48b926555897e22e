//! The integer types.
ghost use Rattle.std.specs.Prelude.{◌≡◌};
ghost use Rattle.oa_model.specs.promise.Integers.{is_integer_type, is_signed_integer};

use crate::VarType;

impl VarType {
    /// Returns whether its values are whole numbers: I1, I2, I4, I8, INT, UI1, UI2, UI4, UI8 or
    /// UINT (MS-OAUT section 2.2.7).
    pub const fn is_integer(self) -> bool
        ensures { result ≡ is_integer_type self }
    {
        matches!(
            self,
            VarType::I1
                | VarType::I2
                | VarType::I4
                | VarType::I8
                | VarType::Int
                | VarType::Ui1
                | VarType::Ui2
                | VarType::Ui4
                | VarType::Ui8
                | VarType::Uint
        )
    }

    /// Returns whether its values are whole numbers of either sign: I1, I2, I4, I8 or INT.
    pub const fn is_signed_integer(self) -> bool
        ensures { result ≡ is_signed_integer self }
    {
        self.is_integer() && self.is_signed()
    }
}
