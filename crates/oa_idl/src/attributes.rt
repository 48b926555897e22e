//! Parses lists of attributes.
ghost use Rattle.std.specs.Prelude.{codes};
ghost use Rattle.oa_idl.specs.declared.seen.HeadSeen.{HeadSeen};
ghost use Rattle.oa_idl.specs.declared.seen.PropertySeen.{PropertySeen};
ghost use Rattle.oa_idl.specs.promise.Words.{passes};
ghost use Rattle.oa_idl.specs.Reading.{ReadsWords, done, gather};
ghost use Rattle.oa_idl.specs.promise.Grammar.{head_grow, head_finish, property_grow, property_finish};
ghost use Rattle.oa_idl.specs.promise.Grammar.HeadAttribute.{Guid, Numbered};
ghost use Rattle.oa_idl.specs.GrammarReading.{grown_at, next_grown_at, last_at, help_at, minor_at, head_attribute_at, head_full, head_at};
ghost use Rattle.oa_idl.specs.GrammarReading.{uuid_at, version_at, signed_number_at, numbered_at, property_attribute_at, property_full, property_head_at};

use crate::parts::Version;
use crate::reader::Reader;
use crate::seen::{HeadSeen, HeadValues, PropertyHead, PropertySeen};
use crate::stop::Stop;
use uuid::Uuid;

/// Reads a `helpstring` attribute and drops its text. Err: `Syntax`.
#[tactic(auto, unfolding(crate::proofs::OnReadings::combinators, crate::specs::GrammarReading::help_at))]
pub(crate) fn help(r: &mut Reader<'_>) -> Result<(), Stop>
    ensures { ReadsWords (λ _. done) result r.new (help_at r.old) }
{
    r.take(b"helpstring")?;
    r.take(b"(")?;
    r.text()?;
    r.take(b")")
}

// ---- of a library or an item

/// Reads the second part of a version, which is 0 if it is missing, and the closing bracket. Err:
/// `Syntax`.
#[tactic(auto, unfolding(crate::proofs::OnReadings::combinators, crate::specs::GrammarReading::minor_at))]
fn minor(r: &mut Reader<'_>, counts: bool) -> Result<u16, Stop>
    ensures { ReadsWords (λ n. n) result r.new (minor_at counts r.old) }
{
    if r.is(b".") {
        r.take(b".")?;
        let minor = r.part(counts)?;
        r.take(b")")?;
        return Ok(minor);
    }
    r.take(b")")?;
    Ok(0)
}

/// Reads a `uuid` attribute. Err: `Syntax`.
#[tactic(auto, unfolding(crate::proofs::OnReadings::combinators, crate::specs::GrammarReading::uuid_at))]
fn uuid(r: &mut Reader<'_>) -> Result<Uuid, Stop>
    ensures { ReadsWords (λ g. Guid g) result r.new (uuid_at r.old) }
{
    r.take(b"uuid")?;
    r.take(b"(")?;
    let guid = r.guid()?;
    r.take(b")")?;
    Ok(guid)
}

/// Reads a `version` attribute. If `counts` is false, any numbers are allowed and read as 0. Err:
/// `Syntax`.
#[tactic(auto, unfolding(crate::proofs::OnReadings::combinators, crate::specs::GrammarReading::version_at))]
fn version(r: &mut Reader<'_>, counts: bool) -> Result<Version, Stop>
    ensures { ReadsWords (λ v. Numbered v) result r.new (version_at counts r.old) }
{
    r.take(b"version")?;
    r.take(b"(")?;
    let major = r.part(counts)?;
    let minor = minor(r, counts)?;
    Ok(Version { major, minor })
}

/// Reads an attribute that has not been read before, and adds it to `seen`. Err: `Syntax`.
#[tactic(auto, unfolding(crate::proofs::OnReadings::combinators, crate::specs::GrammarReading::head_attribute_at))]
fn head_attribute(r: &mut Reader<'_>, counts: bool, seen: HeadSeen) -> Result<HeadSeen, Stop>
    ensures { ReadsWords (λ s. s) result r.new (grown_at (head_attribute_at counts) head_grow seen r.old) }
{
    if r.is(b"uuid") {
        if seen.uuid {
            return Err(Stop::Syntax);
        }
        let guid = uuid(r)?;
        return Ok(HeadSeen {
            uuid: true,
            head: HeadValues { guid, ..seen.head },
            ..seen
        });
    }
    if r.is(b"version") {
        if seen.version {
            return Err(Stop::Syntax);
        }
        let version = version(r, counts)?;
        return Ok(HeadSeen {
            version: true,
            head: HeadValues {
                version,
                ..seen.head
            },
            ..seen
        });
    }
    if seen.help {
        return Err(Stop::Syntax);
    }
    help(r)?;
    Ok(HeadSeen { help: true, ..seen })
}

/// Reads a comma and the next attribute. Err: `Syntax`.
#[tactic(auto, unfolding(crate::proofs::OnReadings::combinators))]
fn next_head_attribute(r: &mut Reader<'_>, counts: bool, seen: HeadSeen) -> Result<HeadSeen, Stop>
    ensures { ReadsWords (λ s. s) result r.new (next_grown_at (head_attribute_at counts) head_grow head_full seen r.old) }
{
    if seen.uuid && seen.version && seen.help {
        return Err(Stop::Syntax);
    }
    r.take(b",")?;
    head_attribute(r, counts, seen)
}

/// Reads the bracket that closes the list. There must be a `uuid`. Err: `Syntax`.
#[tactic(auto, unfolding(crate::proofs::OnReadings::combinators))]
fn last_head_attribute(r: &mut Reader<'_>, seen: HeadSeen) -> Result<HeadValues, Stop>
    ensures { ReadsWords (λ h. h) result r.new (last_at head_finish seen r.old) }
{
    if !seen.uuid {
        return Err(Stop::Syntax);
    }
    r.take(b"]")?;
    Ok(seen.head)
}

/// Reads at most `room - 1` further attributes, and the bracket that closes the list. Err:
/// `Syntax`.
#[tactic(auto, unfolding(crate::proofs::OnReadings::round), using(crate::proofs::Loop::gathering))]
fn more_head_attributes(
    r: &mut Reader<'_>,
    counts: bool,
    seen: HeadSeen,
    room: usize,
) -> Result<HeadValues, Stop>
    ensures { ReadsWords (λ h. h) result r.new (gather (passes (codes "]")) (next_grown_at (head_attribute_at counts) head_grow head_full)
        (last_at head_finish) room seen r.old) }
{
    if room == 0 {
        return Err(Stop::Syntax);
    }
    if r.is(b"]") {
        return last_head_attribute(r, seen);
    }
    let next = next_head_attribute(r, counts, seen)?;
    more_head_attributes(r, counts, next, room - 1)
}

/// Reads the attributes of a library, whose version counts, or of an item, whose version is
/// ignored. Err: `Syntax`.
#[tactic(auto, unfolding(crate::proofs::OnReadings::combinators, crate::specs::GrammarReading::head_at))]
pub(crate) fn head(r: &mut Reader<'_>, counts: bool) -> Result<HeadValues, Stop>
    ensures { ReadsWords (λ h. h) result r.new (head_at counts r.old) }
{
    r.take(b"[")?;
    let first = head_attribute(
        r,
        counts,
        HeadSeen {
            uuid: false,
            version: false,
            help: false,
            head: HeadValues {
                guid: Uuid::nil(),
                version: Version { major: 0, minor: 0 },
            },
        },
    )?;
    let room = r.left();
    more_head_attributes(r, counts, first, room)
}

// ---- of a property

/// Reads the number of an `id` with its sign. Err: `Syntax`.
#[tactic(auto, unfolding(crate::proofs::OnReadings::combinators, crate::specs::GrammarReading::signed_number_at))]
fn signed(r: &mut Reader<'_>) -> Result<i32, Stop>
    ensures { ReadsWords (λ i. i) result r.new (signed_number_at r.old) }
{
    if r.is(b"-") {
        r.take(b"-")?;
        return r.id(true);
    }
    r.id(false)
}

/// Reads an `id` attribute, and returns its DISPID. Err: `Syntax`.
#[tactic(auto, unfolding(crate::proofs::OnReadings::combinators, crate::specs::GrammarReading::numbered_at))]
pub(crate) fn numbered(r: &mut Reader<'_>) -> Result<i32, Stop>
    ensures { ReadsWords (λ i. i) result r.new (numbered_at r.old) }
{
    r.take(b"id")?;
    r.take(b"(")?;
    let id = signed(r)?;
    r.take(b")")?;
    Ok(id)
}

/// Reads an attribute that has not been read before, and adds it to `seen`. Err: `Syntax`.
#[tactic(auto, unfolding(crate::proofs::OnReadings::combinators, crate::specs::GrammarReading::id_at, crate::specs::GrammarReading::property_attribute_at))]
fn property_attribute(r: &mut Reader<'_>, seen: PropertySeen) -> Result<PropertySeen, Stop>
    ensures { ReadsWords (λ s. s) result r.new (grown_at property_attribute_at property_grow seen r.old) }
{
    if r.is(b"id") {
        if seen.id.is_some() {
            return Err(Stop::Syntax);
        }
        let id = numbered(r)?;
        return Ok(PropertySeen {
            id: Some(id),
            ..seen
        });
    }
    if r.is(b"readonly") {
        if seen.readonly {
            return Err(Stop::Syntax);
        }
        r.take(b"readonly")?;
        return Ok(PropertySeen {
            readonly: true,
            ..seen
        });
    }
    if seen.help {
        return Err(Stop::Syntax);
    }
    help(r)?;
    Ok(PropertySeen { help: true, ..seen })
}

/// Reads a comma and the next attribute. Err: `Syntax`.
#[tactic(auto, unfolding(crate::proofs::OnReadings::combinators))]
fn next_property_attribute(r: &mut Reader<'_>, seen: PropertySeen) -> Result<PropertySeen, Stop>
    ensures { ReadsWords (λ s. s) result r.new (next_grown_at property_attribute_at property_grow property_full seen r.old) }
{
    if seen.id.is_some() && seen.readonly && seen.help {
        return Err(Stop::Syntax);
    }
    r.take(b",")?;
    property_attribute(r, seen)
}

/// Reads the bracket that closes the list. There must be an `id`. Err: `Syntax`.
#[tactic(auto, unfolding(crate::proofs::OnReadings::combinators))]
fn last_property_attribute(r: &mut Reader<'_>, seen: PropertySeen) -> Result<PropertyHead, Stop>
    ensures { ReadsWords (λ h. h) result r.new (last_at property_finish seen r.old) }
{
    let Some(id) = seen.id else {
        return Err(Stop::Syntax);
    };
    r.take(b"]")?;
    Ok(PropertyHead {
        id,
        readonly: seen.readonly,
    })
}

/// Reads at most `room - 1` further attributes, and the bracket that closes the list. Err:
/// `Syntax`.
#[tactic(auto, unfolding(crate::proofs::OnReadings::round), using(crate::proofs::Loop::gathering))]
fn more_property_attributes(
    r: &mut Reader<'_>,
    seen: PropertySeen,
    room: usize,
) -> Result<PropertyHead, Stop>
    ensures { ReadsWords (λ h. h) result r.new (gather (passes (codes "]")) (next_grown_at property_attribute_at property_grow property_full)
        (last_at property_finish) room seen r.old) }
{
    if room == 0 {
        return Err(Stop::Syntax);
    }
    if r.is(b"]") {
        return last_property_attribute(r, seen);
    }
    let next = next_property_attribute(r, seen)?;
    more_property_attributes(r, next, room - 1)
}

/// Reads the attributes of a property. Err: `Syntax`.
#[tactic(auto, unfolding(crate::proofs::OnReadings::combinators, crate::specs::GrammarReading::property_head_at))]
pub(crate) fn property_head(r: &mut Reader<'_>) -> Result<PropertyHead, Stop>
    ensures { ReadsWords (λ h. h) result r.new (property_head_at r.old) }
{
    r.take(b"[")?;
    let first = property_attribute(
        r,
        PropertySeen {
            id: None,
            readonly: false,
            help: false,
        },
    )?;
    let room = r.left();
    more_property_attributes(r, first, room)
}
