//! Facts about the values of the standards that no request reaches: which types are signed, and how
//! characters that names cannot contain are folded.
use crate::asserts::{assert_none, expect};
use oa_model::{HResult, VarType, fold, laws};
use std::rt::HostRuntime;

/// Each type, and whether its values are signed numbers.
const SIGNED: [(VarType, bool); 18] = [
    (VarType::Empty, false),
    (VarType::Null, false),
    (VarType::I2, true),
    (VarType::I4, true),
    (VarType::Cy, true),
    (VarType::Bstr, false),
    (VarType::Error, false),
    (VarType::Bool, false),
    (VarType::Variant, false),
    (VarType::Decimal, false),
    (VarType::I1, true),
    (VarType::Ui1, false),
    (VarType::Ui2, false),
    (VarType::Ui4, false),
    (VarType::I8, true),
    (VarType::Ui8, false),
    (VarType::Int, true),
    (VarType::Uint, false),
];

/// Returns the first type whose row is wrong.
fn first_other_type() -> Option<VarType> {
    for (one, is_signed) in SIGNED {
        if one.is_signed() != is_signed {
            return Some(one);
        }
    }
    None
}

/// Characters, and their folded forms.
const FOLDED: [(u8, u8); 10] = [
    (b'A', b'a'),
    (b'Z', b'z'),
    (b'a', b'a'),
    (b'z', b'z'),
    (b'@', b'@'),
    (b'[', b'['),
    (b'_', b'_'),
    (b'0', b'0'),
    (0xC5, 0xC5),
    (0, 0),
];

/// Returns the first character that is folded to another one than its row has.
fn first_other_fold() -> Option<u8> {
    for (character, wanted) in FOLDED {
        if fold(character) != wanted {
            return Some(character);
        }
    }
    None
}

/// Returns whether 0 is a success and E_FAIL is not, and whether the number of an array type is not
/// that of a scalar type.
fn are_numbers() -> bool {
    HResult::S_OK.is_ok() && !HResult::E_FAIL.is_ok() && VarType::from_vt(0x2003).is_none()
}

#[test]
fn types_are_signed_and_characters_folded(rt: HostRuntime) {
    assert_none(&rt, first_other_type());
    assert_none(&rt, first_other_fold());
    expect(&rt, "numbers", are_numbers());
    laws::guid_back();
    laws::type_back();
    laws::number_back();
}
