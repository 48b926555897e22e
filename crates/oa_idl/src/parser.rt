//! Parses a library text.
ghost use Rattle.std.specs.Prelude.{◌≡◌, ◌-◌, ◌+◌, ◌<◌, ◌^◌, length, map, IfOk, codes};
ghost use Rattle.oa_model.specs.promise.Limits.{max_members};
ghost use Rattle.oa_idl.specs.promise.Forms.{nowhere};
ghost use Rattle.oa_idl.specs.promise.Words.{word_of, passes};
ghost use Rattle.oa_idl.specs.Reading.{ReadsWords, done, heads, until};
ghost use Rattle.oa_idl.specs.promise.IsTree.{IsTree};
ghost use Rattle.oa_idl.specs.IsTree.{AnswersText, AnswersTree, place_after};
ghost use Rattle.oa_idl.specs.promise.Grammar.{one_more, entry_grow, no_entry, items_grow};
ghost use Rattle.oa_idl.specs.GrammarReading.{type_word_at, value_type_at, property_at, methods_at, ends_properties, members_at};
ghost use Rattle.oa_idl.specs.GrammarReading.{interface_at, named_entry_at, entry_at, last_entry_at, coclass_at, import_at, item_at};
ghost use Rattle.oa_idl.specs.GrammarReading.{elements_within, library_at};
ghost use Rattle.oa_idl.specs.promise.Trees.{TreeValue};
ghost use Rattle.oa_idl.specs.Parsed.{IsParsed};

use crate::attributes::{head, property_head};
use crate::items::{Coclass, Interface, Item};
use crate::method::Method;
use crate::methods::methods;
use crate::parts::{Entry, Property};
use crate::reader::Reader;
use crate::seen::{EntriesSeen, ItemsSeen};
use crate::stop::{Limit, ParseError, Stop, TreeLimit};
use crate::tree::Tree;
use oa_model::{MAX_COCLASSES, MAX_INTERFACES, MAX_LIBRARY_BYTES, MAX_MEMBERS, ValueType, VarType};
use oa_tokens::{Token, TokenKind, tokens};
use std::alloc::Global;
use uuid::Uuid;

/// Reads the name of a scalar type; `in_array` is whether it is the type of an array's elements.
/// Err: `Syntax`.
#[tactic(auto, unfolding(crate::proofs::OnReadings::combinators, crate::specs::GrammarReading::type_word_at))]
fn type_word(r: &mut Reader<'_>, in_array: bool) -> Result<VarType, Stop>
    ensures { ReadsWords (λ t. t) result r.new (type_word_at in_array r.old) }
{
    if r.is(b"unsigned") {
        r.take(b"unsigned")?;
        return r.type_word(in_array, true);
    }
    r.type_word(in_array, false)
}

/// Reads a type: a scalar type, or `SAFEARRAY` with the type of its elements. Err: `Syntax`.
#[tactic(auto, unfolding(crate::proofs::OnReadings::combinators, crate::specs::GrammarReading::value_type_at))]
pub(crate) fn value_type(r: &mut Reader<'_>) -> Result<ValueType, Stop>
    ensures { ReadsWords (λ t. t) result r.new (value_type_at r.old) }
{
    if r.is(b"SAFEARRAY") {
        r.take(b"SAFEARRAY")?;
        r.take(b"(")?;
        let cell = type_word(r, true)?;
        r.take(b")")?;
        return Ok(ValueType::Array(cell));
    }
    let one = type_word(r, false)?;
    Ok(ValueType::One(one))
}

/// Reads a property. `count` is the number of members before it in its interface. Err: `Syntax`,
/// `Limit`, `Memory`.
#[tactic(auto, unfolding(crate::proofs::OnReadings::combinators, crate::specs::GrammarReading::property_at))]
fn property(alloc: Global, r: &mut Reader<'_>, count: usize) -> Result<Property, Stop>
    ensures value { ReadsWords (λ p. p) result r.new (property_at count r.old) }
    ensures few { IfOk result (λ _. count < max_members) }
{
    let head = property_head(r)?;
    let value_type = value_type(r)?;
    let name = r.name(alloc, TreeLimit::Members, MAX_MEMBERS, count)?;
    r.take(b";")?;
    Ok(Property {
        id: head.id,
        readonly: head.readonly,
        value_type,
        name,
    })
}

/// Returns whether the section of properties ends before the next word.
#[tactic(auto, using(crate::proofs::Loop::either_heads))]
fn ends_section(r: &Reader<'_>) -> bool
    ensures { result ≡ heads ends_properties r.now }
{
    r.is(b"methods") || r.is(b"}")
}

/// Reads fewer than `room` properties, and then the section of methods and the closing brace. Err:
/// `Syntax`, `Limit`, `Memory`.
#[tactic(auto, using(crate::proofs::Loop::properties_err, crate::proofs::Loop::properties_end_err))]
fn properties(
    alloc: Global,
    r: &mut Reader<'_>,
    room: usize,
) -> Result<(Vec<Property>, Vec<Method>), Stop>
    ensures { ReadsWords (λ v. (v.0.items, v.1.items)) result r.new
        (until ends_properties nowhere property_at one_more methods_at room 0 r.old) }
{
    let mut all = Vec::new(alloc);
    let mut count = 0;
    for _ in 0..room {
        if ends_section(r) {
            let methods = methods(alloc, r, count)?;
            return Ok((all, methods));
        }
        let next = property(alloc, r, count)?;
        all.push(next)?;
        count += 1;
    }
    Err(Stop::Syntax)
}

/// Reads both sections of members, and the closing brace. Err: `Syntax`, `Limit`, `Memory`.
#[tactic(auto, unfolding(crate::proofs::OnReadings::combinators, crate::specs::GrammarReading::members_at))]
fn members(alloc: Global, r: &mut Reader<'_>) -> Result<(Vec<Property>, Vec<Method>), Stop>
    ensures { ReadsWords (λ v. (v.0.items, v.1.items)) result r.new (members_at r.old) }
{
    if r.is(b"properties") {
        r.take(b"properties")?;
        r.take(b":")?;
        let room = r.left();
        return properties(alloc, r, room);
    }
    let methods = methods(alloc, r, 0)?;
    Ok((Vec::new(alloc), methods))
}

/// Reads an interface, after its attributes. `seen` are the numbers of items before it. Err:
/// `Syntax`, `Limit`, `Memory`.
#[tactic(auto, unfolding(crate::proofs::OnReadings::combinators, crate::specs::GrammarReading::interface_at))]
fn interface(alloc: Global, r: &mut Reader<'_>, seen: ItemsSeen, guid: Uuid) -> Result<Item, Stop>
    ensures { ReadsWords (λ x. x) result r.new (interface_at seen guid r.old) }
{
    r.take(b"dispinterface")?;
    let name = r.name(
        alloc,
        TreeLimit::Interfaces,
        MAX_INTERFACES,
        seen.interfaces,
    )?;
    r.take(b"{")?;
    let (properties, methods) = members(alloc, r)?;
    Ok(Item::Interface(Interface {
        guid,
        name,
        properties,
        methods,
    }))
}

/// Reads an entry, after its `[default]`. Err: `Syntax`, `Limit`, `Memory`.
#[tactic(auto, unfolding(crate::proofs::OnReadings::combinators, crate::specs::GrammarReading::named_entry_at))]
fn named(alloc: Global, r: &mut Reader<'_>, is_default: bool) -> Result<Entry, Stop>
    ensures { ReadsWords (λ e. e) result r.new (named_entry_at is_default r.old) }
{
    r.entry_word()?;
    let interface = r.name(alloc, TreeLimit::Name, 1, 0)?;
    r.take(b";")?;
    Ok(Entry {
        is_default,
        interface,
    })
}

/// Reads an entry of a coclass. At most one entry is marked as the default. Err: `Syntax`, `Limit`,
/// `Memory`.
#[tactic(auto, unfolding(crate::proofs::OnReadings::combinators, crate::specs::GrammarReading::entry_at))]
fn entry(alloc: Global, r: &mut Reader<'_>, seen: EntriesSeen) -> Result<Entry, Stop>
    ensures { ReadsWords (λ e. e) result r.new (entry_at seen r.old) }
{
    if r.is(b"[") {
        if seen.default {
            return Err(Stop::Syntax);
        }
        r.take(b"[")?;
        r.take(b"default")?;
        r.take(b"]")?;
        return named(alloc, r, true);
    }
    named(alloc, r, false)
}

/// Returns the state of the list after one more entry.
fn with_entry(seen: EntriesSeen, entry: &Entry) -> EntriesSeen
    ensures { result ≡ entry_grow seen entry.now }
{
    EntriesSeen {
        some: true,
        default: seen.default || entry.is_default,
    }
}

/// Reads fewer than `room` entries, at least one, and the brace that closes them. Err: `Syntax`,
/// `Limit`, `Memory`.
#[tactic(auto, using(crate::proofs::Loop::until_err, crate::proofs::Loop::until_out))]
fn entries(alloc: Global, r: &mut Reader<'_>, room: usize) -> Result<Vec<Entry>, Stop>
    ensures { ReadsWords (λ v. (v.items, done)) result r.new
        (until (passes (codes "}")) nowhere entry_at entry_grow last_entry_at room no_entry r.old) }
{
    let mut all = Vec::new(alloc);
    let mut seen = EntriesSeen {
        some: false,
        default: false,
    };
    for _ in 0..room {
        if r.is(b"}") {
            if !seen.some {
                return Err(Stop::Syntax);
            }
            r.skip();
            return Ok(all);
        }
        let next = entry(alloc, r, seen)?;
        seen = with_entry(seen, &next);
        all.push(next)?;
    }
    Err(Stop::Syntax)
}

/// Reads a coclass, after its attributes. `seen` are the numbers of items before it. Err: `Syntax`,
/// `Limit`, `Memory`.
#[tactic(auto, unfolding(crate::proofs::OnReadings::combinators, crate::specs::GrammarReading::entries_at, crate::specs::GrammarReading::coclass_at))]
fn coclass(alloc: Global, r: &mut Reader<'_>, seen: ItemsSeen, guid: Uuid) -> Result<Item, Stop>
    ensures { ReadsWords (λ x. x) result r.new (coclass_at seen guid r.old) }
{
    r.take(b"coclass")?;
    let name = r.name(alloc, TreeLimit::Coclasses, MAX_COCLASSES, seen.coclasses)?;
    r.take(b"{")?;
    let room = r.left();
    let entries = entries(alloc, r, room)?;
    Ok(Item::Coclass(Coclass {
        guid,
        name,
        entries,
    }))
}

/// Reads an interface or a coclass. `seen` are the numbers of items before it. Err: `Syntax`,
/// `Limit`, `Memory`.
#[tactic(auto, unfolding(crate::proofs::OnReadings::combinators, crate::specs::GrammarReading::item_at))]
fn item(alloc: Global, r: &mut Reader<'_>, seen: ItemsSeen) -> Result<Item, Stop>
    ensures { ReadsWords (λ x. x) result r.new (item_at seen r.old) }
{
    let head = head(r, false)?;
    if r.is(b"dispinterface") {
        return interface(alloc, r, seen, head.guid);
    }
    coclass(alloc, r, seen, head.guid)
}

/// Returns the numbers of items after one more item.
fn counted(seen: ItemsSeen, item: &Item) -> ItemsSeen
    requires { (seen.interfaces + 1 < 2 ^ 64) × (seen.coclasses + 1 < 2 ^ 64) }
    ensures { result ≡ items_grow seen item.now }
{
    match item {
        Item::Interface(_) => ItemsSeen {
            interfaces: seen.interfaces + 1,
            ..seen
        },
        Item::Coclass(_) => ItemsSeen {
            coclasses: seen.coclasses + 1,
            ..seen
        },
    }
}

/// Reads an `importlib`, which is ignored. Err: `Syntax`.
#[tactic(auto, unfolding(crate::proofs::OnReadings::combinators, crate::specs::GrammarReading::import_at))]
fn import(r: &mut Reader<'_>) -> Result<(), Stop>
    ensures { ReadsWords (λ _. done) result r.new (import_at r.old) }
{
    r.take(b"importlib")?;
    r.take(b"(")?;
    r.text()?;
    r.take(b")")?;
    r.take(b";")
}

/// Reads fewer than `room` imports and items, and the brace that closes them; returns the items.
/// Err: `Syntax`, `Limit`, `Memory`.
fn items(alloc: Global, r: &mut Reader<'_>, room: usize) -> Result<Vec<Item>, Stop>
    ensures { ReadsWords (λ v. v.items) result r.new (elements_within room r.old) }
{
    let mut all = Vec::new(alloc);
    let mut seen = ItemsSeen {
        interfaces: 0,
        coclasses: 0,
    };
    for _ in 0..room {
        if r.is(b"}") {
            r.skip();
            return Ok(all);
        }
        if r.is(b"importlib") {
            import(r)?;
            continue;
        }
        let next = item(alloc, r, seen)?;
        r.perhaps(b";");
        seen = counted(seen, &next);
        all.push(next)?;
    }
    Err(Stop::Syntax)
}

/// Reads a whole text. Err: `Syntax`, `Limit`, `Memory`.
#[tactic(auto, unfolding(crate::proofs::OnReadings::combinators, crate::specs::GrammarReading::library_contents_at, crate::specs::GrammarReading::library_at))]
fn library(alloc: Global, r: &mut Reader<'_>) -> Result<Tree, Stop>
    ensures { ReadsWords (λ t. t) result r.new (library_at r.old) }
{
    let head = head(r, true)?;
    r.take(b"library")?;
    let name = r.name(alloc, TreeLimit::Name, 1, 0)?;
    r.take(b"{")?;
    let room = r.left();
    let items = items(alloc, r, room)?;
    r.perhaps(b";");
    r.take(b"")?;
    Ok(Tree {
        guid: head.guid,
        version: head.version,
        name,
        items,
    })
}

/// Returns the byte at which the first of the last `left` tokens begins; `end` if there are none.
fn place_of_rest(end: usize, tokens: &[Token], left: usize) -> usize
    ensures { result ≡ place_after end tokens.now (length tokens.now - left) }
{
    let read = tokens.len().saturating_sub(left);
    match tokens.get(read) {
        Some(token) => token.start,
        None => end,
    }
}

/// Parses the words of the tokens, of which the last is the end of the text. Errors are those of
/// `parse` except `Limit(Text)`.
fn parse_words(alloc: Global, text: &[u8], words: &[Token]) -> Result<Tree, ParseError>
    ensures { IsParsed (length text.now) words.now (map (word_of text.now) words.now) result }
{
    let mut r = Reader::new(text, words);
    let read = library(alloc, &mut r);
    let place = place_of_rest(text.len(), words, r.left());
    read.map_err(|stop| stop.error(place))
}

/// Parses a library text (docs/reference/idl.md).
///
/// `Ok` with the one tree of the text, if and only if the text is in the grammar and memory
/// suffices.
///
/// Errors:
/// - `Limit(Text)`: the text has more than 262,144 bytes.
/// - `Syntax(place)`: the token that begins at this byte is not allowed there, or the text must not
///   end there. No text of the grammar begins with the tokens up to and including this one.
/// - Another `Limit`: a name is too long, or it is that of an interface, coclass, member or
///   parameter above the limit. No text of the grammar that keeps the limit begins with the tokens
///   up to and including this name.
/// - `Memory`: an allocation fails.
pub fn parse(alloc: Global, text: &str) -> Result<Tree, ParseError>
    ensures exact { AnswersText text.now result }
    ensures found { (t : TreeValue) → IsTree text.now t → AnswersTree t result }
{
    if text.len() > MAX_LIBRARY_BYTES {
        return Err(ParseError::Limit(Limit::Text));
    }
    let mut words = tokens(alloc, text)?;
    words.push(Token {
        kind: TokenKind::End,
        start: text.len(),
        end: text.len(),
    })?;
    parse_words(alloc, text.as_bytes(), words.as_slice())
}
