//! Reads the words of a text one after another.
ghost use Rattle.std.specs.Prelude.{◌≡◌, ◌-◌, ◌+◌, ◌*◌, ◌<◌, ◌^◌, ◌&&◌, if◌then◌else◌, length, take, drop, map, false, IfOk, IfErr, IfSome};
ghost use Rattle.oa_idl.specs.promise.Words.{word_of, passes, is_text, name_of, guid_of, digit_of, number_from};
ghost use Rattle.oa_idl.specs.promise.Words.{number_of, is_hexadecimal, below, part_from, part_of, id_number, id_from};
ghost use Rattle.oa_idl.specs.promise.Words.{id_of, word_type, same_kind, amount_from, amount_of, is_printable};
ghost use Rattle.oa_idl.specs.promise.Words.{is_escaped, characters_from, characters_of};
ghost use Rattle.oa_idl.specs.Words.{over, never_over};
ghost use Rattle.oa_idl.specs.promise.Grammar.{entry_word};
ghost use Rattle.oa_idl.specs.Reading.{ReadsWords, heads, later_words, this_at, one_at, if_meant, done, seen_first, first_word};
ghost use Rattle.oa_idl.specs.NextWords.{token_text, seen_text};
ghost use Rattle.oa_idl.specs.declared.stop.Stop.TheVariants.{Syntax};
ghost use Rattle.uuid.specs.Text.{parsed_hyphenated};

use crate::characters::Characters;
use crate::name::Name;
use crate::sign::{is_reserved, kind_of, same_bytes, type_named};
use crate::stop::{Stop, TreeLimit};
use oa_model::{MAX_NAME_CHARACTERS, PROPERTY_PUT_DISPID, UNKNOWN_DISPID, VarType};
use oa_tokens::{Token, TokenKind};
use std::alloc::{AllocError, Global};
use std::marker::Model;
use uuid::Uuid;

/// All numbers are below this bound, 2^96.
const NUMBER_BOUND: u128 = 1 << 96;
/// The number of characters of a GUID of the form 8-4-4-4-12.
const GUID_CHARACTERS: usize = 36;

/// The words of a text that have not been read yet.
#[derive(Drop)]
pub(crate) struct Reader<'a> {
    text: &'a [u8],
    rest: &'a [Token],
}

impl<'a> Model for Reader<'a> {
    ghost use Rattle.std.specs.Prelude.{List, map};
    ghost use Rattle.oa_idl.specs.promise.Forms.{Word};
    ghost use Rattle.oa_idl.specs.promise.Words.{word_of};

    ghost Value = { List Word };

    ghost view = { λ r. map (word_of r.text.now) r.rest.now };
}

/// Returns whether both kinds are equal.
fn same_kind(a: TokenKind, b: TokenKind) -> bool
    ensures { result ≡ same_kind a b }
{
    match (a, b) {
        (TokenKind::Guid, TokenKind::Guid) => true,
        (TokenKind::Name, TokenKind::Name) => true,
        (TokenKind::Number, TokenKind::Number) => true,
        (TokenKind::Text, TokenKind::Text) => true,
        (TokenKind::Mark, TokenKind::Mark) => true,
        (TokenKind::Junk, TokenKind::Junk) => true,
        (TokenKind::End, TokenKind::End) => true,
        _ => false,
    }
}

/// Returns the value of a decimal or hexadecimal digit.
fn digit_of(byte: u8) -> u8
    ensures { result ≡ digit_of byte }
{
    if byte <= b'9' {
        return byte.saturating_sub(b'0');
    }
    if b'a' <= byte {
        byte - (b'a' - 10)
    } else {
        byte - (b'A' - 10)
    }
}

/// Returns the number with these digits; None if it is not below 2^96.
#[tactic(auto, unfolding(crate::specs::promise::Words::number_from), using(crate::proofs::Digits::digit_steps))]
fn digits(hexadecimal: bool, text: &[u8]) -> Option<u128>
    ensures small { IfSome result (λ n. n < 2 ^ 96) }
    ensures value { result ≡ below (2 ^ 96) (number_from (if hexadecimal then 16 else 10) 0 text.now) }
{
    let base = if hexadecimal { 16u128 } else { 10u128 };
    let mut value = 0u128;
    let mut n = 0;
    while n < text.len() {
        let next = base * value + u128::from(digit_of(text[n]));
        if next >= NUMBER_BOUND {
            return None;
        }
        value = next;
        n += 1;
    }
    Some(value)
}

/// Returns whether a number begins with `0x`.
fn is_hexadecimal(text: &[u8]) -> bool
    ensures { result ≡ is_hexadecimal text.now }
{
    1 < text.len() && text[0] == b'0' && text[1] == b'x'
}

/// Returns the value of a number; None if it is not below 2^96.
#[tactic(auto, unfolding(crate::specs::promise::Words::number_of))]
fn number_of(text: &[u8]) -> Option<u128>
    ensures value { result ≡ number_of text.now }
    ensures small { IfSome result (λ n. n < 2 ^ 96) }
{
    if is_hexadecimal(text) {
        return digits(true, &text[2..]);
    }
    digits(false, text)
}

/// Returns a part of a version: 0 for any number if it does not count. None if it counts and is
/// above 65,535.
fn part_from(counts: bool, number: Option<u128>) -> Option<u16>
    ensures { result ≡ part_from counts number }
{
    if !counts {
        return Some(0);
    }
    u16::try_from(number?).ok()
}

/// Returns the number as an i32 with the sign `negative`; None if it does not fit. A hexadecimal
/// number without a sign is read as two's complement.
fn id_number(negative: bool, hexadecimal: bool, value: u128) -> Option<i32>
    ensures { result ≡ id_number negative hexadecimal value }
{
    let value = u32::try_from(value).ok()?;
    if negative {
        return 0i32.checked_sub_unsigned(value);
    }
    if hexadecimal {
        return Some(value.cast_signed());
    }
    i32::try_from(value).ok()
}

/// Returns the DISPID with this number; None if it does not fit an i32, or is -1 or -3.
fn id_from(negative: bool, hexadecimal: bool, number: Option<u128>) -> Option<i32>
    ensures { result ≡ id_from negative hexadecimal number }
{
    let id = id_number(negative, hexadecimal, number?)?;
    if id == UNKNOWN_DISPID || id == PROPERTY_PUT_DISPID {
        None
    } else {
        Some(id)
    }
}

/// Returns the number of a default with its sign; None if there is no number.
fn amount_from(negative: bool, number: Option<u128>) -> Option<i128>
    requires { IfSome number (λ n. n < 2 ^ 96) }
    ensures { result ≡ amount_from negative number }
{
    if negative {
        return 0i128.checked_sub_unsigned(number?);
    }
    0i128.checked_add_unsigned(number?)
}

/// Returns whether the byte is an ASCII character from the space to the tilde.
fn is_printable(byte: u8) -> bool
    ensures { result ≡ is_printable byte }
{
    b' ' <= byte && byte <= b'~'
}

/// Returns whether the byte may follow a backslash: a quote or a backslash.
fn is_escaped(byte: u8) -> bool
    ensures { result ≡ is_escaped byte }
{
    byte == b'"' || byte == b'\\'
}

/// Returns the characters up to the quote that closes a string; None if one of them is not allowed,
/// or if there is no such quote. Err: an allocation fails.
#[tactic(auto, using(crate::proofs::Strings::character_steps))]
fn characters(alloc: Global, text: &[u8]) -> Result<Option<Characters>, AllocError>
    ensures { IfOk result (λ found. found ≡ characters_from false text.now) }
{
    let mut out = Vec::new(alloc);
    let mut marked = false;
    let mut n = 0;
    while n < text.len() {
        let byte = text[n];
        if marked {
            if !is_escaped(byte) {
                return Ok(None);
            }
            out.push(byte)?;
            marked = false;
        } else {
            if byte == b'"' {
                return Ok(Some(Characters::from_bytes(out)));
            }
            if byte == b'\\' {
                marked = true;
            } else {
                if !is_printable(byte) {
                    return Ok(None);
                }
                out.push(byte)?;
            }
        }
        n += 1;
    }
    Ok(None)
}

/// Returns the bytes after the quote at the beginning of a string.
fn behind_quote(text: &[u8]) -> &[u8]
    ensures { result.now ≡ drop 1 text.now }
{
    match text.split_first() {
        Some((_quote, rest)) => rest,
        None => text,
    }
}

/// Parses a GUID of the form 8-4-4-4-12; None if the text has another form.
fn guid_of(text: &[u8]) -> Option<Uuid>
    ensures { result ≡ parsed_hyphenated text.now }
{
    if text.len() != GUID_CHARACTERS {
        return None;
    }
    Uuid::try_parse_ascii(text).ok()
}

impl<'a> Reader<'a> {
    /// Makes a reader of all words of the tokens.
    pub(crate) fn new(text: &'a [u8], tokens: &'a [Token]) -> Reader<'a>
        ensures { result ≡ map (word_of text.entry.now) tokens.entry.now }
    {
        Reader { text, rest: tokens }
    }

    /// Returns the number of words that are left.
    pub(crate) fn left(&self) -> usize
        ensures { result ≡ length self.now }
    {
        self.rest.len()
    }

    /// Returns the kind of the next word and its bytes; None if no word is left.
    fn first(&self) -> Option<(TokenKind, &'a [u8])>
        ensures { seen_first result ≡ first_word self.now }
    {
        if self.rest.is_empty() {
            return None;
        }
        let token = self.rest[0];
        Some((token.kind, token.bytes_in(self.text)))
    }

    /// Returns the bytes of the next word, if it has this kind. Err: `Syntax`.
    fn token_text(&self, kind: TokenKind) -> Result<&'a [u8], Stop>
        ensures text { seen_text result ≡ token_text kind self.now }
        ensures syntax { IfErr result (λ e. e ≡ Syntax) }
    {
        match self.first() {
            Some((found, text)) if same_kind(found, kind) => Ok(text),
            _ => Err(Stop::Syntax),
        }
    }

    /// Skips the next word and returns its meaning. Err: `Syntax` if it has none.
    fn taken<T>(&mut self, meant: Option<T>) -> Result<T, Stop>
        ensures { ReadsWords (λ x. x) result self.new (if_meant meant never_over self.old) }
    {
        let Some(value) = meant else {
            return Err(Stop::Syntax);
        };
        self.skip();
        Ok(value)
    }

    /// Skips the next word.
    #[tactic(auto, using(crate::proofs::Maps::map_rest))]
    pub(crate) fn skip(&mut self)
        ensures { self.new ≡ later_words self.old }
    {
        if !self.rest.is_empty() {
            self.rest = &self.rest[1..];
        }
    }

    /// Returns whether the next word is this keyword or mark.
    #[tactic(auto, unfolding(crate::specs::promise::Words::passes))]
    pub(crate) fn is(&self, sign: &[u8]) -> bool
        ensures { result ≡ heads (passes sign.now) self.now }
    {
        match self.first() {
            Some((kind, text)) => same_kind(kind, kind_of(sign)) && text == sign,
            None => false,
        }
    }

    /// Reads this keyword or mark. Err: `Syntax` if the next word is another one.
    #[tactic(auto, unfolding(crate::specs::Reading::this_at))]
    pub(crate) fn take(&mut self, sign: &[u8]) -> Result<(), Stop>
        ensures { ReadsWords (λ _. done) result self.new (this_at (passes sign.now) self.old) }
    {
        if !self.is(sign) {
            return Err(Stop::Syntax);
        }
        self.skip();
        Ok(())
    }

    /// Reads `dispinterface` or `interface`. Err: `Syntax` if the next word is another one.
    #[tactic(auto, unfolding(crate::specs::Reading::this_at, crate::specs::promise::Words::passes))]
    pub(crate) fn entry_word(&mut self) -> Result<(), Stop>
        ensures { ReadsWords (λ _. done) result self.new (this_at entry_word self.old) }
    {
        let text = self.token_text(TokenKind::Name)?;
        if !same_bytes(text, b"dispinterface") && !same_bytes(text, b"interface") {
            return Err(Stop::Syntax);
        }
        self.skip();
        Ok(())
    }

    /// Reads a string and drops it. Err: `Syntax` if the next word is no string.
    #[tactic(auto, unfolding(crate::specs::Reading::this_at, crate::specs::promise::Words::is_text))]
    pub(crate) fn text(&mut self) -> Result<(), Stop>
        ensures { ReadsWords (λ _. done) result self.new (this_at is_text self.old) }
    {
        self.token_text(TokenKind::Text)?;
        self.skip();
        Ok(())
    }

    /// Skips the next word if it is this keyword or mark.
    #[tactic(auto, unfolding(crate::proofs::OnReadings::combinators))]
    pub(crate) fn perhaps(&mut self, sign: &[u8])
        ensures { self.new ≡ (if heads (passes sign.now) self.old then later_words self.old else self.old) }
    {
        if self.is(sign) {
            self.skip();
        }
    }

    /// Reads a name, that of an item after `count` others. Err: `Syntax` if the next word is no
    /// name or a keyword; `Limit(Name)` if the name is too long; `Limit(limit)` if `count` is
    /// `bound` or more; `Memory`.
    #[tactic(auto, unfolding(crate::specs::Reading::one_at, crate::specs::promise::Words::name_of))]
    pub(crate) fn name(
        &mut self,
        alloc: Global,
        limit: TreeLimit,
        bound: usize,
        count: usize,
    ) -> Result<Name, Stop>
        ensures value { ReadsWords (λ n. n) result self.new (one_at name_of (over limit bound count) self.old) }
        ensures few { IfOk result (λ _. count < bound) }
    {
        let text = self.token_text(TokenKind::Name)?;
        if is_reserved(text) {
            return Err(Stop::Syntax);
        }
        if text.len() > MAX_NAME_CHARACTERS {
            return Err(Stop::Limit(TreeLimit::Name));
        }
        if bound <= count {
            return Err(Stop::Limit(limit));
        }
        let bytes = Vec::from_slice(alloc, text)?;
        self.skip();
        Ok(Name::from_bytes(bytes))
    }

    /// Reads a GUID. Err: `Syntax` if the next word is none.
    #[tactic(auto, unfolding(crate::specs::Reading::one_at, crate::specs::promise::Words::guid_of))]
    pub(crate) fn guid(&mut self) -> Result<Uuid, Stop>
        ensures { ReadsWords (λ g. g) result self.new (one_at guid_of never_over self.old) }
    {
        let text = self.token_text(TokenKind::Guid)?;
        self.taken(guid_of(text))
    }

    /// Reads a part of a version. If `counts` is false, any number is read as 0. Err: `Syntax` if
    /// the next word is no number, or it counts and is above 65,535.
    #[tactic(auto, unfolding(crate::specs::Reading::one_at, crate::specs::promise::Words::part_of))]
    pub(crate) fn part(&mut self, counts: bool) -> Result<u16, Stop>
        ensures { ReadsWords (λ n. n) result self.new (one_at (part_of counts) never_over self.old) }
    {
        let text = self.token_text(TokenKind::Number)?;
        self.taken(part_from(counts, number_of(text)))
    }

    /// Reads the number of an `id`; `negative` is whether a minus precedes it. Err: `Syntax` if the
    /// next word is no number, or no DISPID.
    #[tactic(auto, unfolding(crate::specs::Reading::one_at, crate::specs::promise::Words::id_of))]
    pub(crate) fn id(&mut self, negative: bool) -> Result<i32, Stop>
        ensures { ReadsWords (λ n. n) result self.new (one_at (id_of negative) never_over self.old) }
    {
        let text = self.token_text(TokenKind::Number)?;
        self.taken(id_from(negative, is_hexadecimal(text), number_of(text)))
    }

    /// Reads a word of a type; `unsigned` is whether `unsigned` precedes it, `in_array` whether it
    /// is the type of an array's elements. Err: `Syntax` if the next word is no such type.
    #[tactic(auto, unfolding(crate::specs::Reading::one_at, crate::specs::promise::Words::word_type))]
    pub(crate) fn type_word(&mut self, in_array: bool, unsigned: bool) -> Result<VarType, Stop>
        ensures { ReadsWords (λ t. t) result self.new (one_at (word_type in_array unsigned) never_over self.old) }
    {
        let text = self.token_text(TokenKind::Name)?;
        self.taken(type_named(in_array, unsigned, text))
    }

    /// Returns whether the next word is a string.
    #[tactic(auto, unfolding(crate::specs::promise::Words::is_text))]
    pub(crate) fn is_string(&self) -> bool
        ensures { result ≡ heads is_text self.now }
    {
        self.token_text(TokenKind::Text).is_ok()
    }

    /// Reads the number of a default; `negative` is whether a minus precedes it. Err: `Syntax` if
    /// the next word is no number below 2^96.
    #[tactic(auto, unfolding(crate::specs::Reading::one_at, crate::specs::promise::Words::amount_of))]
    pub(crate) fn amount(&mut self, negative: bool) -> Result<i128, Stop>
        ensures { ReadsWords (λ n. n) result self.new (one_at (amount_of negative) never_over self.old) }
    {
        let text = self.token_text(TokenKind::Number)?;
        self.taken(amount_from(negative, number_of(text)))
    }

    /// Reads a default string. Err: `Syntax` if the next word is no string, or has a character that
    /// is not allowed; `Memory`.
    #[tactic(auto, unfolding(crate::specs::Reading::one_at, crate::specs::promise::Words::characters_of))]
    pub(crate) fn characters(&mut self, alloc: Global) -> Result<Characters, Stop>
        ensures { ReadsWords (λ n. n) result self.new (one_at characters_of never_over self.old) }
    {
        let text = self.token_text(TokenKind::Text)?;
        self.taken(characters(alloc, behind_quote(text))?)
    }
}
