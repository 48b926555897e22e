//! Libraries by their texts.
ghost use Rattle.std.specs.Prelude.{◌≡◌};
ghost use Rattle.oa_compat.specs.LibraryTexts.{IsMade, IsTextOf, check_fault, parse_fault};
ghost use Rattle.oa_typelib.specs.Typed.{IsOfText};

use oa_idl::laws::one_tree;
use oa_idl::{ParseError, Tree, parse};
use oa_sema::CheckError;
use oa_typelib::{Library, check};
use std::alloc::Global;
use std::str;
use thiserror::Error;

/// Why bytes are no library.
#[derive(Clone, Copy, Debug, PartialEq, Eq, Error)]
pub enum TextError {
    /// They are not UTF-8, or the text has no library.
    #[error("no library")]
    NoLibrary,
    /// An allocation failed.
    #[error("out of memory")]
    Memory,
}

impl From<ParseError> for TextError {
    ghost from_gives = { λ parse_error e. e ≡ parse_fault parse_error };

    fn from(error: ParseError) -> TextError {
        match error {
            ParseError::Syntax(_) | ParseError::Limit(_) => TextError::NoLibrary,
            ParseError::Memory => TextError::Memory,
        }
    }
}

impl From<CheckError> for TextError {
    ghost from_gives = { λ check_error e. e ≡ check_fault check_error };

    fn from(error: CheckError) -> TextError {
        match error {
            CheckError::DuplicateName(_)
            | CheckError::DuplicateId(_)
            | CheckError::DuplicateGuid(_)
            | CheckError::UnknownInterface(_)
            | CheckError::GetPutDisagree(_)
            | CheckError::ArrayParameter(_)
            | CheckError::BadDefault(_)
            | CheckError::TextTooLong => TextError::NoLibrary,
            CheckError::Memory => TextError::Memory,
        }
    }
}

/// Returns the library of a tree. Errors: `NoLibrary`, `Memory`.
fn made(alloc: Global, tree: Tree) -> Result<Library, TextError>
    requires { IsOfText tree }
    ensures { IsMade tree result }
{
    Ok(check(alloc, tree)?)
}

/// Returns the library of a text in UTF-8. Errors: `NoLibrary` if the bytes are not UTF-8, the text
/// violates the grammar or a limit, or `check` refuses its tree; `Memory` if an allocation fails,
/// which cannot happen for bytes that are not UTF-8 or are more than a library's text may have.
pub fn read_library(alloc: Global, bytes: &[u8]) -> Result<Library, TextError>
    ensures { IsTextOf bytes.now result }
{
    one_tree();
    let Ok(text) = str::from_utf8(bytes) else {
        return Err(TextError::NoLibrary);
    };
    made(alloc, parse(alloc, text)?)
}
