//! Why a text has no tree.
ghost use Rattle.std.specs.Prelude.{◌≡◌};
ghost use Rattle.oa_idl.specs.TextLimits.{limit_of, error_of};
ghost use Rattle.oa_idl.specs.declared.stop.Stop.TheVariants.{Memory};
ghost use Rattle.oa_idl.specs.declared.stop.ParseError.TheVariants as errors;

use std::alloc::{AllocError, AllocFailed};
use std::fmt;
use std::fmt::{Display, Formatter, Write};
use thiserror::Error;

/// A limit that a library text can exceed.
#[derive(Clone, Copy, Debug, PartialEq, Eq)]
pub enum Limit {
    /// A text has at most 262,144 bytes.
    Text,
    /// A name has at most 64 bytes.
    Name,
    /// A library has at most 256 interfaces.
    Interfaces,
    /// A library has at most 256 coclasses.
    Coclasses,
    /// An interface has at most 512 members, a get and a put counting as two.
    Members,
    /// A member has at most 16 parameters, a put's new value counting as one.
    Params,
}

impl Display for Limit {
    fn fmt<W: Write>(&self, f: &mut Formatter<W>) -> fmt::Result {
        f.write_str(match self {
            Limit::Text => "text",
            Limit::Name => "name",
            Limit::Interfaces => "interfaces",
            Limit::Coclasses => "coclasses",
            Limit::Members => "members",
            Limit::Params => "params",
        })
    }
}

/// Why `parse` returns no tree.
#[derive(Clone, Copy, Debug, PartialEq, Eq, Error)]
pub enum ParseError {
    /// The token that begins at this byte is not allowed there; or the text must not end at this
    /// byte, which is its length.
    #[error("syntax at byte {0}")]
    Syntax(usize),
    /// The text, or a name or item in it, exceeds this limit.
    #[error("limit {0}")]
    Limit(Limit),
    /// An allocation fails.
    #[error("out of memory")]
    Memory,
}

impl From<AllocError> for ParseError {
    ghost from_gives = { λ _ e. e ≡ errors.Memory };

    fn from(_e: AllocError) -> ParseError {
        ParseError::Memory
    }
}

impl<T: Drop> From<AllocFailed<T>> for ParseError {
    ghost from_gives = { λ _ e. e ≡ errors.Memory };

    fn from(_e: AllocFailed<T>) -> ParseError {
        ParseError::Memory
    }
}

/// A limit that a tree can exceed, and its text with it.
#[derive(Clone, Copy)]
pub enum TreeLimit {
    /// A name has at most 64 bytes.
    Name,
    /// A library has at most 256 interfaces.
    Interfaces,
    /// A library has at most 256 coclasses.
    Coclasses,
    /// An interface has at most 512 members, a get and a put counting as two.
    Members,
    /// A member has at most 16 parameters, a put's new value counting as one.
    Params,
}

impl TreeLimit {
    /// Returns the limit of texts that this is.
    pub(crate) fn limit(self) -> Limit
        ensures { result ≡ limit_of self }
    {
        match self {
            TreeLimit::Name => Limit::Name,
            TreeLimit::Interfaces => Limit::Interfaces,
            TreeLimit::Coclasses => Limit::Coclasses,
            TreeLimit::Members => Limit::Members,
            TreeLimit::Params => Limit::Params,
        }
    }
}

/// Why parsing stopped. The word at which it stopped is the next one.
#[derive(Clone, Copy)]
pub(crate) enum Stop {
    /// The next word is not allowed.
    Syntax,
    /// The next word, a name, exceeds this limit.
    Limit(TreeLimit),
    /// An allocation failed.
    Memory,
}

impl Stop {
    /// Returns the error of `parse` if the next word begins at the byte `place`.
    pub(crate) fn error(self, place: usize) -> ParseError
        ensures { result ≡ error_of place self }
    {
        match self {
            Stop::Syntax => ParseError::Syntax(place),
            Stop::Limit(limit) => ParseError::Limit(limit.limit()),
            Stop::Memory => ParseError::Memory,
        }
    }
}

impl From<AllocError> for Stop {
    ghost from_gives = { λ _ e. e ≡ Memory };

    fn from(_e: AllocError) -> Stop {
        Stop::Memory
    }
}

impl<T: Drop> From<AllocFailed<T>> for Stop {
    ghost from_gives = { λ _ e. e ≡ Memory };

    fn from(_e: AllocFailed<T>) -> Stop {
        Stop::Memory
    }
}
