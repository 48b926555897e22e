//! Theorems about the definitions, each the contract of a function with an empty body.
ghost use Rattle.std.specs.Prelude.{◌≡◌, ℕ, List, length, Some};
ghost use Rattle.oa_model.specs.declared.var_type.VarType.{VarType};
ghost use Rattle.oa_model.specs.promise.Guids.{wire_order};
ghost use Rattle.oa_model.specs.promise.Types.{vt_of, type_at};

/// Two conversions of a GUID to the order of the wire give the GUID again.
pub fn guid_back()
    ensures { (guid : List ℕ) → length guid ≡ 16 → wire_order (wire_order guid) ≡ guid }
{}

/// The type with the number of a type is this type.
pub fn type_back()
    ensures { (t : VarType) → type_at (vt_of t) ≡ Some t }
{}

/// The number of the type with a number is this number.
pub fn number_back()
    ensures { (number : ℕ) (t : VarType) → type_at number ≡ Some t → vt_of t ≡ number }
{}
