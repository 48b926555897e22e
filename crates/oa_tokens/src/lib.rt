//! The tokens of a library text: GUIDs, names, numbers, strings and marks, without the blanks and
//! comments between them.
//!
//! Contract: `tokens` returns the one list of tokens of a text (`AreTokens`), each with its
//! position. Bytes that form no token are a last token, so that each text has such a list.
//!
//! Used by oa_idl, whose grammar is over tokens, and by oa_printer, which proves that its texts
//! have the intended tokens.
#![tactic(auto)]

pub mod laws;
mod lexer;
mod scan;

pub use lexer::{Piece, Token, TokenKind, tokens};
pub use scan::{Class, Close};
