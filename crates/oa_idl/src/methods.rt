//! Parses the section `methods:`.
ghost use Rattle.std.specs.Prelude.{◌≡◌, ◌<◌, IfOk, codes};
ghost use Rattle.oa_model.specs.promise.Limits.{max_members};
ghost use Rattle.oa_idl.specs.promise.Forms.{nowhere};
ghost use Rattle.oa_idl.specs.promise.Words.{passes};
ghost use Rattle.oa_idl.specs.Reading.{ReadsWords, done, gather, until};
ghost use Rattle.oa_idl.specs.promise.Grammar.{one_more, is_form, method_grow, method_finish, may_be_void};
ghost use Rattle.oa_idl.specs.promise.Grammar.{may_have_type};
ghost use Rattle.oa_idl.specs.GrammarReading.{grown_at, next_grown_at, last_at, method_attribute_at, method_full};
ghost use Rattle.oa_idl.specs.GrammarReading.{method_head_at, result_type_at, method_body_at, method_at, closing_at, methods_at};

use crate::attributes::{help, numbered};
use crate::method::Method;
use crate::parameters::parameters;
use crate::parser::value_type;
use crate::parts::MethodKind;
use crate::reader::Reader;
use crate::seen::{MethodHead, MethodSeen};
use crate::stop::{Stop, TreeLimit};
use oa_model::{MAX_MEMBERS, ValueType};
use std::alloc::Global;

/// Returns whether the member is a get or put of a property.
fn is_form(kind: MethodKind) -> bool
    ensures { result ≡ is_form kind }
{
    match kind {
        MethodKind::Method => false,
        MethodKind::Get | MethodKind::Put => true,
    }
}

/// Reads an attribute that has not been read before, and adds it to `seen`. `propget` and `propput`
/// exclude each other. Err: `Syntax`.
#[tactic(auto, unfolding(crate::proofs::OnReadings::combinators, crate::specs::GrammarReading::method_attribute_at))]
fn method_attribute(r: &mut Reader<'_>, seen: MethodSeen) -> Result<MethodSeen, Stop>
    ensures { ReadsWords (λ s. s) result r.new (grown_at method_attribute_at method_grow seen r.old) }
{
    if r.is(b"id") {
        if seen.id.is_some() {
            return Err(Stop::Syntax);
        }
        let id = numbered(r)?;
        return Ok(MethodSeen {
            id: Some(id),
            ..seen
        });
    }
    if r.is(b"propget") {
        if is_form(seen.kind) {
            return Err(Stop::Syntax);
        }
        r.take(b"propget")?;
        return Ok(MethodSeen {
            kind: MethodKind::Get,
            ..seen
        });
    }
    if r.is(b"propput") {
        if is_form(seen.kind) {
            return Err(Stop::Syntax);
        }
        r.take(b"propput")?;
        return Ok(MethodSeen {
            kind: MethodKind::Put,
            ..seen
        });
    }
    if seen.help {
        return Err(Stop::Syntax);
    }
    help(r)?;
    Ok(MethodSeen { help: true, ..seen })
}

/// Reads a comma and the next attribute. Err: `Syntax`.
#[tactic(auto, unfolding(crate::proofs::OnReadings::combinators))]
fn next_method_attribute(r: &mut Reader<'_>, seen: MethodSeen) -> Result<MethodSeen, Stop>
    ensures { ReadsWords (λ s. s) result r.new (next_grown_at method_attribute_at method_grow method_full seen r.old) }
{
    if seen.id.is_some() && is_form(seen.kind) && seen.help {
        return Err(Stop::Syntax);
    }
    r.take(b",")?;
    method_attribute(r, seen)
}

/// Reads the bracket that closes the list. There must be an `id`. Err: `Syntax`.
#[tactic(auto, unfolding(crate::proofs::OnReadings::combinators))]
fn last_method_attribute(r: &mut Reader<'_>, seen: MethodSeen) -> Result<MethodHead, Stop>
    ensures { ReadsWords (λ h. h) result r.new (last_at method_finish seen r.old) }
{
    let Some(id) = seen.id else {
        return Err(Stop::Syntax);
    };
    r.take(b"]")?;
    Ok(MethodHead {
        id,
        kind: seen.kind,
    })
}

/// Reads at most `room - 1` further attributes, and the bracket that closes the list. Err:
/// `Syntax`.
#[tactic(auto, unfolding(crate::proofs::OnReadings::round), using(crate::proofs::Loop::gathering))]
fn more_method_attributes(
    r: &mut Reader<'_>,
    seen: MethodSeen,
    room: usize,
) -> Result<MethodHead, Stop>
    ensures { ReadsWords (λ h. h) result r.new (gather (passes (codes "]")) (next_grown_at method_attribute_at method_grow method_full)
        (last_at method_finish) room seen r.old) }
{
    if room == 0 {
        return Err(Stop::Syntax);
    }
    if r.is(b"]") {
        return last_method_attribute(r, seen);
    }
    let next = next_method_attribute(r, seen)?;
    more_method_attributes(r, next, room - 1)
}

/// Reads the attributes of a method. Err: `Syntax`.
#[tactic(auto, unfolding(crate::proofs::OnReadings::combinators, crate::specs::GrammarReading::method_head_at))]
fn method_head(r: &mut Reader<'_>) -> Result<MethodHead, Stop>
    ensures { ReadsWords (λ h. h) result r.new (method_head_at r.old) }
{
    r.take(b"[")?;
    let first = method_attribute(
        r,
        MethodSeen {
            id: None,
            kind: MethodKind::Method,
            help: false,
        },
    )?;
    let room = r.left();
    more_method_attributes(r, first, room)
}

/// Returns whether the result may be `void`.
fn may_be_void(kind: MethodKind) -> bool
    ensures { result ≡ may_be_void kind }
{
    match kind {
        MethodKind::Method | MethodKind::Put => true,
        MethodKind::Get => false,
    }
}

/// Returns whether the result may have a type.
fn may_have_type(kind: MethodKind) -> bool
    ensures { result ≡ may_have_type kind }
{
    match kind {
        MethodKind::Method | MethodKind::Get => true,
        MethodKind::Put => false,
    }
}

/// Reads the type of a result; None for `void`. Err: `Syntax`, also if a member of this kind has no
/// such result.
#[tactic(auto, unfolding(crate::proofs::OnReadings::combinators, crate::specs::GrammarReading::result_type_at))]
fn result_type(r: &mut Reader<'_>, kind: MethodKind) -> Result<Option<ValueType>, Stop>
    ensures { ReadsWords (λ t. t) result r.new (result_type_at kind r.old) }
{
    if r.is(b"void") {
        if !may_be_void(kind) {
            return Err(Stop::Syntax);
        }
        r.take(b"void")?;
        return Ok(None);
    }
    if !may_have_type(kind) {
        return Err(Stop::Syntax);
    }
    let found = value_type(r)?;
    Ok(Some(found))
}

/// Reads the part of a method after its attributes. `count` is the number of members before it in
/// its interface. Err: `Syntax`, `Limit`, `Memory`.
#[tactic(auto, unfolding(crate::proofs::OnReadings::combinators, crate::specs::GrammarReading::parameters_at, crate::specs::GrammarReading::method_body_at))]
fn method_body(
    alloc: Global,
    r: &mut Reader<'_>,
    count: usize,
    head: MethodHead,
) -> Result<Method, Stop>
    ensures value { ReadsWords (λ m. m) result r.new (method_body_at count head r.old) }
    ensures few { IfOk result (λ _. count < max_members) }
{
    let value_type = result_type(r, head.kind)?;
    let name = r.name(alloc, TreeLimit::Members, MAX_MEMBERS, count)?;
    r.take(b"(")?;
    let room = r.left();
    let parameters = parameters(alloc, r, head.kind, room)?;
    r.take(b";")?;
    Ok(Method {
        id: head.id,
        kind: head.kind,
        value_type,
        name,
        parameters,
    })
}

/// Reads a method. `count` is the number of members before it in its interface. Err: `Syntax`,
/// `Limit`, `Memory`.
#[tactic(auto, unfolding(crate::proofs::OnReadings::combinators, crate::specs::GrammarReading::method_at))]
fn method(alloc: Global, r: &mut Reader<'_>, count: usize) -> Result<Method, Stop>
    ensures value { ReadsWords (λ m. m) result r.new (method_at count r.old) }
    ensures few { IfOk result (λ _. count < max_members) }
{
    let head = method_head(r)?;
    method_body(alloc, r, count, head)
}

/// Reads fewer than `room` methods, after `before` members, and the brace that closes them. Err:
/// `Syntax`, `Limit`, `Memory`.
#[tactic(auto, using(crate::proofs::Loop::until_err, crate::proofs::Loop::until_out))]
fn method_list(
    alloc: Global,
    r: &mut Reader<'_>,
    before: usize,
    room: usize,
) -> Result<Vec<Method>, Stop>
    ensures { ReadsWords (λ v. (v.items, done)) result r.new
        (until (passes (codes "}")) nowhere method_at one_more closing_at room before r.old) }
{
    let mut all = Vec::new(alloc);
    let mut count = before;
    for _ in 0..room {
        if r.is(b"}") {
            r.skip();
            return Ok(all);
        }
        let next = method(alloc, r, count)?;
        all.push(next)?;
        count += 1;
    }
    Err(Stop::Syntax)
}

/// Reads the section of methods, which may be missing, and the brace that closes the interface.
/// `before` is the number of members before it. Err: `Syntax`, `Limit`, `Memory`.
#[tactic(auto, unfolding(crate::proofs::OnReadings::combinators, crate::specs::GrammarReading::methods_at))]
pub(crate) fn methods(alloc: Global, r: &mut Reader<'_>, before: usize) -> Result<Vec<Method>, Stop>
    ensures { ReadsWords (λ v. v.items) result r.new (methods_at before r.old) }
{
    if r.is(b"methods") {
        r.take(b"methods")?;
        r.take(b":")?;
        let room = r.left();
        return method_list(alloc, r, before, room);
    }
    r.take(b"}")?;
    Ok(Vec::new(alloc))
}
