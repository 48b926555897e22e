//! The checks before any argument is coerced. They allocate nothing.
ghost use Rattle.std.specs.Prelude.{◌≡◌, ◌≢◌, ◌≤◌, ◌<◌, ◌+◌, length, true, IfErr, IfSome, OnOk};
ghost use Rattle.std.specs.List.{position_from};
ghost use Rattle.oa_model.specs.promise.Limits.{max_arguments, max_parameters};
ghost use Rattle.oa_bind.specs.Given.{given_call};
ghost use Rattle.oa_bind.specs.promise.Names.{complete, is_consistent, lacks, most, names_none, repeats, well_named};
ghost use Rattle.oa_bind.specs.promise.Refusals.{any_at};
ghost use Rattle.oa_bind.specs.Refusals.{lacks_memory};

use crate::BindFault;
use crate::given::{index_of, is_parameter, says_missing};
use oa_idl::Parameter;
use oa_model::{HResult, PROPERTY_PUT_DISPID};
use oa_sema::is_optional;
use oa_typelib::Kind;
use oa_variant::Variant;

/// Returns whether a DISPID occurs twice. Each is compared with those after it.
fn has_repeat(named: &[i32]) -> bool
    requires { length named.now ≤ max_arguments }
    ensures { result ≡ repeats named.now }
{
    'named: for i in 0..named.len() {
        if named[i + 1..].contains(&named[i]) {
            return true;
        }
    }
    false
}

/// Returns whether there are no more names than arguments, none occurs twice, and a put names its
/// new value and a get none.
fn is_consistent(kind: Kind, named: &[i32], count: usize) -> bool
    requires { length named.now ≤ max_arguments }
    ensures test { result ≡ is_consistent kind named.now count }
    ensures few { result ≡ true → length named.now ≤ count }
{
    if named.len() > count || has_repeat(named) {
        return false;
    }
    let names_value = named.contains(&PROPERTY_PUT_DISPID);
    match kind {
        Kind::Get => !names_value,
        Kind::Put => names_value,
    }
}

/// Returns the largest number of arguments: one for each parameter, and the new value of a put.
fn most(kind: Kind, parameters: &[Parameter]) -> usize
    requires { length parameters.now ≤ max_parameters }
    ensures { result ≡ most kind parameters.now }
{
    match kind {
        Kind::Get => parameters.len(),
        Kind::Put => parameters.len() + 1,
    }
}

/// Returns whether a DISPID other than that of the new value is that of no parameter, or of one
/// that is also given by position.
fn names_none(positions: usize, parameters: usize, id: i32) -> bool
    ensures { result ≡ names_none positions parameters id }
{
    id != PROPERTY_PUT_DISPID && (!is_parameter(parameters, id) || is_parameter(positions, id))
}

/// Returns the lowest index of such a DISPID; None if there is none.
fn first_unknown(named: &[i32], positions: usize, parameters: usize) -> Option<usize>
    ensures value { result ≡ position_from (names_none positions parameters) 0 named.now }
    ensures within { IfSome result (λ i. i < length named.now) }
{
    'named: for i in 0..named.len() {
        if names_none(positions, parameters, named[i]) {
            return Some(i);
        }
    }
    None
}

/// Returns whether the parameter at a place is required and missing.
fn lacks(named: &[i32], arguments: &[Variant], place: usize, parameter: &Parameter) -> bool
    requires place { place < max_parameters }
    requires named { length named.now ≤ length arguments.now }
    ensures { result ≡ lacks (given_call named.now arguments.now) place parameter.now }
{
    if is_optional(parameter) {
        return false;
    }
    match index_of(named, arguments.len(), place as i32) {
        None => true,
        Some(i) => says_missing(&arguments[i]),
    }
}

/// Returns whether some parameter is required and missing.
#[tactic(auto, unfolding(crate::specs::promise::Refusals::any_at))]
fn any_lacks(parameters: &[Parameter], named: &[i32], arguments: &[Variant]) -> bool
    requires few { length parameters.now ≤ max_parameters }
    requires named { length named.now ≤ length arguments.now }
    ensures { result ≡ any_at (lacks (given_call named.now arguments.now)) 0 parameters.now }
{
    'parameters: for place in 0..parameters.len() {
        if lacks(named, arguments, place, &parameters[place]) {
            return true;
        }
    }
    false
}

/// Checks the names and the number of the arguments, of which there are `count`. Errors, in this
/// order: E_INVALIDARG, DISP_E_BADPARAMCOUNT, and DISP_E_PARAMNOTFOUND with the lowest index of an
/// unknown name.
#[tactic(auto, unfolding(crate::specs::promise::Names::well_named))]
pub(crate) fn check_names(
    parameters: &[Parameter],
    kind: Kind,
    named: &[i32],
    count: usize,
) -> Result<(), BindFault>
    requires parameters { length parameters.now ≤ max_parameters }
    requires named { length named.now ≤ max_arguments }
    ensures value { result ≡ well_named parameters.now kind named.now count }
    ensures named { OnOk result (length named.now ≤ count) }
    ensures few { OnOk result (count ≤ max_parameters + 1) }
    ensures memory { IfErr result (λ fault. fault ≢ lacks_memory) }
{
    if !is_consistent(kind, named, count) {
        return Err(BindFault::of(HResult::E_INVALIDARG));
    }
    if count > most(kind, parameters) {
        return Err(BindFault::of(HResult::DISP_E_BADPARAMCOUNT));
    }
    if let Some(i) = first_unknown(named, count - named.len(), parameters.len()) {
        return Err(BindFault::at(HResult::DISP_E_PARAMNOTFOUND, i as u32));
    }
    Ok(())
}

/// Checks that each required parameter has an argument. Err: DISP_E_PARAMNOTOPTIONAL.
#[tactic(auto, unfolding(crate::specs::promise::Names::complete))]
pub(crate) fn check_complete(
    parameters: &[Parameter],
    named: &[i32],
    arguments: &[Variant],
) -> Result<(), BindFault>
    requires few { length parameters.now ≤ max_parameters }
    requires named { length named.now ≤ length arguments.now }
    ensures value { result ≡ complete parameters.now (given_call named.now arguments.now) }
    ensures memory { IfErr result (λ fault. fault ≢ lacks_memory) }
{
    if any_lacks(parameters, named, arguments) {
        return Err(BindFault::of(HResult::DISP_E_PARAMNOTOPTIONAL));
    }
    Ok(())
}
