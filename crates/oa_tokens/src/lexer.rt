//! The lexer of library texts.
ghost use Rattle.std.specs.Prelude.{◌≡◌, ◌-◌, ◌<◌, length, take, drop, IfOk};
ghost use Rattle.oa_tokens.specs.promise.Tokens.{front, AreTokens};
ghost use Rattle.oa_tokens.specs.Tokens.{IsPiece};

use crate::scan::{Class, Close, after, end_of, is_guid, is_in, run};
use std::alloc::{AllocError, Global};

/// The kind of a token.
#[derive(Clone, Copy, Debug, PartialEq, Eq)]
pub enum TokenKind {
    /// 36 bytes of the form 8-4-4-4-12.
    Guid,
    /// A name or a keyword.
    Name,
    /// A decimal or hexadecimal number, without a sign.
    Number,
    /// A string, including its quotes.
    Text,
    /// One of `[ ] ( ) { } , ; : . -`.
    Mark,
    /// Bytes that form no token, up to the end of the text.
    Junk,
    /// The end of the text, which a parser reads as a token.
    End,
}

/// A token and its position in the text.
#[derive(Clone, Copy, Debug, PartialEq, Eq)]
pub struct Token {
    /// The kind of the token.
    pub kind: TokenKind,
    /// The offset of its first byte.
    pub start: usize,
    /// The offset after its last byte.
    pub end: usize,
}

impl Token {
    /// Returns the bytes of the token in `text`. If the text ends earlier, the result ends there.
    pub fn bytes_in(self, text: &[u8]) -> &[u8]
        ensures { result.now ≡ take (self.end - self.start) (drop self.start text.now) }
    {
        let from = after(text, self.start);
        let count = self.end.saturating_sub(self.start);
        &from[..count.min(from.len())]
    }
}

/// The first piece of some bytes.
pub enum Piece {
    /// A token, with its number of bytes.
    Word(TokenKind, usize),
    /// A separator of tokens, with its number of bytes.
    Gap(usize),
    /// Bytes that form no token, up to the end.
    Broken,
}

/// Returns the first piece of the bytes: a token, a blank or a comment.
#[tactic(auto, unfolding(crate::specs::promise::Tokens::front))]
fn front(bytes: &[u8]) -> Piece
    requires { 0 < length bytes.now }
    ensures value { result ≡ front bytes.now }
    ensures size { IsPiece result (length bytes.now) }
{
    let first = bytes[0];
    let next = if 1 < bytes.len() { bytes[1] } else { 0 };
    if is_guid(bytes) {
        return Piece::Word(TokenKind::Guid, 36);
    }
    if is_in(Class::Letter, first) {
        return Piece::Word(TokenKind::Name, 1 + run(Class::Named, after(bytes, 1)));
    }
    if first == b'0' && next == b'x' {
        let digits = run(Class::Hexadecimal, after(bytes, 2));
        return Piece::Word(TokenKind::Number, if digits == 0 { 1 } else { 2 + digits });
    }
    if is_in(Class::Digit, first) {
        return Piece::Word(TokenKind::Number, 1 + run(Class::Digit, after(bytes, 1)));
    }
    if first == b'"' {
        return match end_of(Close::Quote, after(bytes, 1)) {
            Some(n) => Piece::Word(TokenKind::Text, 1 + n),
            None => Piece::Broken,
        };
    }
    if is_in(Class::Mark, first) {
        return Piece::Word(TokenKind::Mark, 1);
    }
    if is_in(Class::Blank, first) {
        return Piece::Gap(1);
    }
    if first == b'/' && next == b'/' {
        return Piece::Gap(2 + run(Class::Line, after(bytes, 2)));
    }
    if first == b'/' && next == b'*' {
        return match end_of(Close::Comment, after(bytes, 2)) {
            Some(n) => Piece::Gap(2 + n),
            None => Piece::Broken,
        };
    }
    Piece::Broken
}

/// Returns the tokens of a text, in order. Bytes that form no token are one last token, up to the
/// end of the text. Err: an allocation fails.
pub fn tokens(alloc: Global, text: &str) -> Result<Vec<Token>, AllocError>
    ensures { IfOk result (λ found. AreTokens 0 text.now found.items) }
{
    let bytes = text.as_bytes();
    let mut out = Vec::new(alloc);
    let mut at = 0;
    'pieces: while at < bytes.len() {
        match front(&bytes[at..]) {
            Piece::Gap(n) => at += n,
            Piece::Word(kind, n) => {
                out.push(Token {
                    kind,
                    start: at,
                    end: at + n,
                })?;
                at += n;
            }
            Piece::Broken => {
                out.push(Token {
                    kind: TokenKind::Junk,
                    start: at,
                    end: bytes.len(),
                })?;
                return Ok(out);
            }
        }
    }
    Ok(out)
}
