//! Keywords, marks and the names of types.
ghost use Rattle.std.specs.Prelude.{◌≡◌};
ghost use Rattle.std.specs.Str.{bytes_eq};
ghost use Rattle.oa_idl.specs.promise.Words.{kind_of, is_structure, is_type_mark, is_reserved, plain_type};
ghost use Rattle.oa_idl.specs.promise.Words.{unsigned_type, type_named, if_cell};

use oa_model::VarType;
use oa_tokens::TokenKind;

/// Returns the kind of a keyword or mark: a name, a mark, or the end of the text, which has no
/// bytes.
pub(crate) fn kind_of(sign: &[u8]) -> TokenKind
    ensures { result ≡ kind_of sign.now }
{
    match sign.split_first() {
        Some((first, _)) => {
            if first.is_ascii_alphabetic() {
                TokenKind::Name
            } else {
                TokenKind::Mark
            }
        }
        None => TokenKind::End,
    }
}

/// Returns whether a text consists of these bytes.
pub(crate) fn same_bytes(text: &[u8], bytes: &[u8]) -> bool
    ensures { result ≡ bytes_eq text.now bytes.now }
{
    text == bytes
}

/// Returns whether a name is a keyword of the structure of a text.
fn is_structure(text: &[u8]) -> bool
    ensures { result ≡ is_structure text.now }
{
    same_bytes(text, b"library")
        || same_bytes(text, b"importlib")
        || same_bytes(text, b"dispinterface")
        || same_bytes(text, b"interface")
        || same_bytes(text, b"coclass")
        || same_bytes(text, b"properties")
}

/// Returns whether a name is another keyword that is not the name of a type.
fn is_type_mark(text: &[u8]) -> bool
    ensures { result ≡ is_type_mark text.now }
{
    same_bytes(text, b"methods")
        || same_bytes(text, b"void")
        || same_bytes(text, b"unsigned")
        || same_bytes(text, b"SAFEARRAY")
}

/// Returns whether a name is a keyword or the name of a type.
#[tactic(auto, unfolding(crate::specs::promise::Words::is_reserved))]
pub(crate) fn is_reserved(text: &[u8]) -> bool
    ensures { result ≡ is_reserved text.now }
{
    is_structure(text) || is_type_mark(text) || plain_type(text).is_some()
}

/// Returns the type with this name; None if there is none.
#[tactic(auto, unfolding(crate::specs::promise::Words::plain_type))]
fn plain_type(text: &[u8]) -> Option<VarType>
    ensures { result ≡ plain_type text.now }
{
    if same_bytes(text, b"char") {
        return Some(VarType::I1);
    }
    if same_bytes(text, b"short") {
        return Some(VarType::I2);
    }
    if same_bytes(text, b"long") {
        return Some(VarType::I4);
    }
    if same_bytes(text, b"int") {
        return Some(VarType::Int);
    }
    if same_bytes(text, b"hyper") {
        return Some(VarType::I8);
    }
    if same_bytes(text, b"CURRENCY") {
        return Some(VarType::Cy);
    }
    if same_bytes(text, b"VARIANT_BOOL") {
        return Some(VarType::Bool);
    }
    if same_bytes(text, b"SCODE") {
        return Some(VarType::Error);
    }
    if same_bytes(text, b"DECIMAL") {
        return Some(VarType::Decimal);
    }
    if same_bytes(text, b"BSTR") {
        return Some(VarType::Bstr);
    }
    if same_bytes(text, b"VARIANT") {
        return Some(VarType::Variant);
    }
    None
}

/// Returns the type with this name after `unsigned`; None if there is none.
#[tactic(auto, unfolding(crate::specs::promise::Words::unsigned_type))]
fn unsigned_type(text: &[u8]) -> Option<VarType>
    ensures { result ≡ unsigned_type text.now }
{
    if same_bytes(text, b"char") {
        return Some(VarType::Ui1);
    }
    if same_bytes(text, b"short") {
        return Some(VarType::Ui2);
    }
    if same_bytes(text, b"long") {
        return Some(VarType::Ui4);
    }
    if same_bytes(text, b"int") {
        return Some(VarType::Uint);
    }
    if same_bytes(text, b"hyper") {
        return Some(VarType::Ui8);
    }
    None
}

/// Returns the type with this name, after `unsigned` or not. None if there is none, or if it is to
/// be the type of an array's elements and has no sfType.
pub(crate) fn type_named(in_array: bool, unsigned: bool, text: &[u8]) -> Option<VarType>
    ensures { result ≡ if_cell in_array (type_named unsigned text.now) }
{
    let found = if unsigned {
        unsigned_type(text)
    } else {
        plain_type(text)
    };
    let Some(found) = found else {
        return None;
    };
    if in_array && found.sf_type().is_none() {
        return None;
    }
    Some(found)
}
