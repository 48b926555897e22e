//! Parses the parameters of a member.
ghost use Rattle.std.specs.Prelude.{◌≡◌, ◌<◌, IfOk, codes};
ghost use Rattle.oa_model.specs.promise.Limits.{max_parameters};
ghost use Rattle.oa_idl.specs.promise.Forms.{nowhere};
ghost use Rattle.oa_idl.specs.promise.Words.{passes};
ghost use Rattle.oa_idl.specs.Reading.{ReadsWords, done, gather, until};
ghost use Rattle.oa_idl.specs.promise.Grammar.{one_more, no_parameter, parameter_grow, parameter_finish, may_end};
ghost use Rattle.oa_idl.specs.GrammarReading.{grown_at, next_grown_at, last_at, amount_at, literal_at, default_at, parameter_attribute_at};
ghost use Rattle.oa_idl.specs.GrammarReading.{parameter_full, parameter_head_at, typed_at, parameter_at, next_parameter_at};
ghost use Rattle.oa_idl.specs.GrammarReading.{last_parameter_at};

use crate::parser::value_type;
use crate::parts::{Literal, MethodKind, Parameter};
use crate::reader::Reader;
use crate::seen::ParameterSeen;
use crate::stop::{Stop, TreeLimit};
use oa_model::MAX_PARAMETERS;
use std::alloc::Global;

/// Reads the number of a default with its sign. Err: `Syntax`.
#[tactic(auto, unfolding(crate::proofs::OnReadings::combinators, crate::specs::GrammarReading::amount_at))]
fn amount(r: &mut Reader<'_>) -> Result<i128, Stop>
    ensures { ReadsWords (λ n. n) result r.new (amount_at r.old) }
{
    if r.is(b"-") {
        r.take(b"-")?;
        return r.amount(true);
    }
    r.amount(false)
}

/// Reads the value of a default: `TRUE`, `FALSE`, a string or a number. Err: `Syntax`, `Memory`.
#[tactic(auto, unfolding(crate::proofs::OnReadings::combinators, crate::specs::GrammarReading::literal_at))]
fn literal(alloc: Global, r: &mut Reader<'_>) -> Result<Literal, Stop>
    ensures { ReadsWords (λ v. v) result r.new (literal_at r.old) }
{
    if r.is(b"TRUE") {
        r.take(b"TRUE")?;
        return Ok(Literal::Bool(true));
    }
    if r.is(b"FALSE") {
        r.take(b"FALSE")?;
        return Ok(Literal::Bool(false));
    }
    if r.is_string() {
        let text = r.characters(alloc)?;
        return Ok(Literal::Text(text));
    }
    let number = amount(r)?;
    Ok(Literal::Number(number))
}

/// Reads a `defaultvalue` attribute and returns its value. Err: `Syntax`, `Memory`.
#[tactic(auto, unfolding(crate::proofs::OnReadings::combinators, crate::specs::GrammarReading::default_at))]
fn default(alloc: Global, r: &mut Reader<'_>) -> Result<Literal, Stop>
    ensures { ReadsWords (λ v. v) result r.new (default_at r.old) }
{
    r.take(b"defaultvalue")?;
    r.take(b"(")?;
    let value = literal(alloc, r)?;
    r.take(b")")?;
    Ok(value)
}

/// Reads an attribute that has not been read before, and adds it to `seen`. Err: `Syntax`,
/// `Memory`.
#[tactic(auto, unfolding(crate::proofs::OnReadings::combinators, crate::specs::GrammarReading::parameter_attribute_at))]
fn parameter_attribute(
    alloc: Global,
    r: &mut Reader<'_>,
    seen: ParameterSeen,
) -> Result<ParameterSeen, Stop>
    ensures { ReadsWords (λ s. s) result r.new (grown_at parameter_attribute_at parameter_grow seen r.old) }
{
    if r.is(b"in") {
        if seen.is_in {
            return Err(Stop::Syntax);
        }
        r.take(b"in")?;
        return Ok(ParameterSeen {
            is_in: true,
            ..seen
        });
    }
    if r.is(b"optional") {
        if seen.is_optional {
            return Err(Stop::Syntax);
        }
        r.take(b"optional")?;
        return Ok(ParameterSeen {
            is_optional: true,
            ..seen
        });
    }
    if seen.default.is_some() {
        return Err(Stop::Syntax);
    }
    let value = default(alloc, r)?;
    Ok(ParameterSeen {
        is_in: seen.is_in,
        is_optional: seen.is_optional,
        default: Some(value),
    })
}

/// Reads a comma and the next attribute. Err: `Syntax`, `Memory`.
#[tactic(auto, unfolding(crate::proofs::OnReadings::combinators))]
fn next_parameter_attribute(
    alloc: Global,
    r: &mut Reader<'_>,
    seen: ParameterSeen,
) -> Result<ParameterSeen, Stop>
    ensures { ReadsWords (λ s. s) result r.new (next_grown_at parameter_attribute_at parameter_grow parameter_full seen r.old) }
{
    if seen.is_in && seen.is_optional && seen.default.is_some() {
        return Err(Stop::Syntax);
    }
    r.take(b",")?;
    parameter_attribute(alloc, r, seen)
}

/// Reads the bracket that closes the list. No attribute is required. Err: `Syntax`.
#[tactic(auto, unfolding(crate::proofs::OnReadings::combinators))]
fn last_parameter_attribute(r: &mut Reader<'_>, seen: ParameterSeen) -> Result<ParameterSeen, Stop>
    ensures { ReadsWords (λ h. h) result r.new (last_at parameter_finish seen r.old) }
{
    r.take(b"]")?;
    Ok(seen)
}

/// Reads at most `room - 1` further attributes, and the bracket that closes the list. Err:
/// `Syntax`, `Memory`.
#[tactic(auto, unfolding(crate::proofs::OnReadings::round), using(crate::proofs::Loop::gathering))]
fn more_parameter_attributes(
    alloc: Global,
    r: &mut Reader<'_>,
    seen: ParameterSeen,
    room: usize,
) -> Result<ParameterSeen, Stop>
    ensures { ReadsWords (λ h. h) result r.new (gather (passes (codes "]"))
        (next_grown_at parameter_attribute_at parameter_grow parameter_full) (last_at parameter_finish) room seen r.old) }
{
    if room == 0 {
        return Err(Stop::Syntax);
    }
    if r.is(b"]") {
        return last_parameter_attribute(r, seen);
    }
    let next = next_parameter_attribute(alloc, r, seen)?;
    more_parameter_attributes(alloc, r, next, room - 1)
}

/// Returns the attributes of a parameter without any.
fn no_parameter() -> ParameterSeen
    ensures { result ≡ no_parameter }
{
    ParameterSeen {
        is_in: false,
        is_optional: false,
        default: None,
    }
}

/// Reads the attributes of a parameter. Err: `Syntax`, `Memory`.
#[tactic(auto, unfolding(crate::proofs::OnReadings::combinators, crate::specs::GrammarReading::parameter_head_at))]
fn parameter_head(alloc: Global, r: &mut Reader<'_>) -> Result<ParameterSeen, Stop>
    ensures { ReadsWords (λ h. h) result r.new (parameter_head_at r.old) }
{
    r.take(b"[")?;
    let first = parameter_attribute(alloc, r, no_parameter())?;
    let room = r.left();
    more_parameter_attributes(alloc, r, first, room)
}

/// Reads the type and name of a parameter, after `count` others. Err: `Syntax`, `Limit`, `Memory`.
#[tactic(auto, unfolding(crate::proofs::OnReadings::combinators, crate::specs::GrammarReading::typed_at))]
fn typed(
    alloc: Global,
    r: &mut Reader<'_>,
    count: usize,
    seen: ParameterSeen,
) -> Result<Parameter, Stop>
    ensures value { ReadsWords (λ p. p) result r.new (typed_at count seen r.old) }
    ensures few { IfOk result (λ _. count < max_parameters) }
{
    let value_type = value_type(r)?;
    let name = r.name(alloc, TreeLimit::Params, MAX_PARAMETERS, count)?;
    Ok(Parameter {
        is_in: seen.is_in,
        is_optional: seen.is_optional,
        default: seen.default,
        value_type,
        name,
    })
}

/// Reads a parameter, after `count` others. Err: `Syntax`, `Limit`, `Memory`.
#[tactic(auto, unfolding(crate::proofs::OnReadings::combinators, crate::specs::GrammarReading::parameter_at))]
fn parameter(alloc: Global, r: &mut Reader<'_>, count: usize) -> Result<Parameter, Stop>
    ensures value { ReadsWords (λ p. p) result r.new (parameter_at count r.old) }
    ensures few { IfOk result (λ _. count < max_parameters) }
{
    if r.is(b"[") {
        let seen = parameter_head(alloc, r)?;
        return typed(alloc, r, count, seen);
    }
    typed(alloc, r, count, no_parameter())
}

/// Reads a parameter after `count` others, with the comma before it unless it is the first. Err:
/// `Syntax`, `Limit`, `Memory`.
#[tactic(auto, unfolding(crate::proofs::OnReadings::combinators, crate::specs::GrammarReading::separated_at))]
fn next_parameter(alloc: Global, r: &mut Reader<'_>, count: usize) -> Result<Parameter, Stop>
    ensures value { ReadsWords (λ p. p) result r.new (next_parameter_at count r.old) }
    ensures few { IfOk result (λ _. count < max_parameters) }
{
    if count == 0 {
        return parameter(alloc, r, count);
    }
    r.take(b",")?;
    parameter(alloc, r, count)
}

/// Returns whether the list of parameters may end after `count` parameters.
fn may_end(kind: MethodKind, count: usize) -> bool
    ensures { result ≡ may_end kind count }
{
    match kind {
        MethodKind::Method | MethodKind::Get => true,
        MethodKind::Put => count != 0,
    }
}

/// Reads fewer than `room` parameters of a member of this kind, and the bracket that closes them.
/// Err: `Syntax`, also for a put without parameters; `Limit`; `Memory`.
#[tactic(auto, using(crate::proofs::Loop::until_err, crate::proofs::Loop::until_out))]
pub(crate) fn parameters(
    alloc: Global,
    r: &mut Reader<'_>,
    kind: MethodKind,
    room: usize,
) -> Result<Vec<Parameter>, Stop>
    ensures { ReadsWords (λ v. (v.items, done)) result r.new
        (until (passes (codes ")")) nowhere next_parameter_at one_more (last_parameter_at kind) room 0 r.old) }
{
    let mut all = Vec::new(alloc);
    let mut count = 0;
    for _ in 0..room {
        if r.is(b")") {
            if !may_end(kind, count) {
                return Err(Stop::Syntax);
            }
            r.skip();
            return Ok(all);
        }
        let next = next_parameter(alloc, r, count)?;
        all.push(next)?;
        count += 1;
    }
    Err(Stop::Syntax)
}
