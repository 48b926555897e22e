//! Makes the values of the parameters, and the new value of a put.
ghost use Rattle.std.specs.Prelude.{◌≡◌, ◌≢◌, ◌≤◌, ◌<◌, ◌+◌, ℕ, true, false, length, map, pos, slice_get, Some, IfErr, IfOk, OnErr, OnOk};
ghost use Rattle.oa_model.specs.promise.Limits.{max_arguments, max_parameters};
ghost use Rattle.oa_coerce.specs.promise.Answers.{coerced};
ghost use Rattle.oa_coerce.specs.Answers.{is_memory};
ghost use Rattle.oa_coerce.specs.promise.Refusals.{IsArrayType, coercion_code};
ghost use Rattle.oa_sema.specs.promise.Defaults.{default_value};
ghost use Rattle.oa_variant.specs.Variants.{HasZero};
ghost use Rattle.oa_bind.specs.promise.Bindings.{PutsArray, missing_value, given_new_value, parameter_value};
ghost use Rattle.oa_bind.specs.promise.Bindings.{scalar_type, told_of_argument, value_by_argument, without_default};
ghost use Rattle.oa_bind.specs.Given.{Stay, given_call};
ghost use Rattle.oa_bind.specs.promise.Given.{argument_index};
ghost use Rattle.oa_bind.specs.Refusals.{BindsAs, lacks_memory};
ghost use Rattle.oa_bind.specs.promise.Refusals.{each_at};

use crate::BindFault;
use crate::given::{MISSING, index_of, says_missing, take};
use oa_array::Cell;
use oa_coerce::{CoerceFault, coerce, coerce_scalar};
use oa_idl::Parameter;
use oa_model::{HResult, PROPERTY_PUT_DISPID, ValueType, VarType};
use oa_typelib::Kind;
use oa_variant::{Scalar, Variant};
use std::alloc::{AllocError, Global};

/// Returns the type of a parameter's values.
fn scalar_type(declared: ValueType) -> VarType
    ensures { result ≡ scalar_type declared }
{
    match declared {
        ValueType::One(one) | ValueType::Array(one) => one,
    }
}

/// Returns the value of a missing argument for a parameter without a default.
fn without_default(to: VarType) -> Scalar
    ensures { result ≡ without_default to }
{
    if to == VarType::Variant {
        Scalar::Error(MISSING)
    } else {
        Scalar::zero(to)
    }
}

/// Returns the value of a missing argument, given the value of the parameter's default. Err: an
/// allocation fails.
fn missing_value(
    alloc: Global,
    parameter: &Parameter,
    default: &Option<Scalar>,
) -> Result<Scalar, AllocError>
    requires { default.now ≡ default_value parameter.now }
    ensures { IfOk result (λ s. s ≡ missing_value parameter.now) }
{
    match default {
        Some(value) => value.copy(alloc),
        None => Ok(without_default(scalar_type(parameter.value_type))),
    }
}

/// Coerces the argument at index `i` to a type. Allocates nothing. Err: DISP_E_TYPEMISMATCH or
/// DISP_E_OVERFLOW, with the index.
fn value_by(to: VarType, i: usize, argument: Variant) -> Result<Scalar, BindFault>
    requires { i < max_arguments }
    ensures { result ≡ value_by_argument to i argument }
{
    match argument {
        Variant::One(scalar) => {
            let at = i as u32;
            coerce_scalar(scalar, to).map_err(|(_, fault)| BindFault::at(fault.code(), at))
        }
        Variant::Array(_) => Err(BindFault::at(HResult::DISP_E_TYPEMISMATCH, i as u32)),
    }
}

/// Returns the value of the parameter at a place. Moves its argument out; the others stay. Err: the
/// argument cannot be coerced; E_OUTOFMEMORY without an index.
fn value(
    alloc: Global,
    parameter: &Parameter,
    default: &Option<Scalar>,
    place: usize,
    named: &[i32],
    arguments: &mut Vec<Variant>,
) -> Result<Scalar, BindFault>
    requires default { default.now ≡ default_value parameter.now }
    requires place { place < max_parameters }
    requires named { length named.now ≤ length arguments.old.items }
    requires few { length arguments.old.items ≤ max_parameters + 1 }
    ensures value { BindsAs (λ s. s) (parameter_value (given_call named.now arguments.old.items) place parameter.now) result }
    ensures others { (j : ℕ) → argument_index named.now (length arguments.old.items) (pos place) ≢ Some j
        → slice_get arguments.new.items j ≡ slice_get arguments.old.items j }
    ensures len { length arguments.new.items ≡ length arguments.old.items }
{
    let Some(i) = index_of(named, arguments.len(), place as i32) else {
        return Ok(missing_value(alloc, parameter, default)?);
    };
    if says_missing(&arguments[i]) {
        return Ok(missing_value(alloc, parameter, default)?);
    }
    let argument = take(arguments, i);
    value_by(scalar_type(parameter.value_type), i, argument)
}

/// Returns the values of the parameters in their order, given the values of their defaults. Moves
/// their arguments out; the others stay. Allocates nothing if there are no parameters. Err: the
/// first argument that cannot be coerced, with its index; E_OUTOFMEMORY without an index.
pub(crate) fn key(
    alloc: Global,
    parameters: &[Parameter],
    defaults: &[Option<Scalar>],
    named: &[i32],
    arguments: &mut Vec<Variant>,
) -> Result<Vec<Scalar>, BindFault>
    requires defaults { defaults.now ≡ map default_value parameters.now }
    requires short { length parameters.now ≤ max_parameters }
    requires named { length named.now ≤ length arguments.old.items }
    requires few { length arguments.old.items ≤ max_parameters + 1 }
    ensures key { BindsAs (λ v. v.items) (each_at (parameter_value (given_call named.now arguments.old.items)) 0 parameters.now) result }
    ensures others { OnOk result (Stay named.now arguments.old.items arguments.new.items (length parameters.now)) }
    ensures len { length arguments.new.items ≡ length arguments.old.items }
    ensures some { OnErr result (0 < length parameters.now) }
{
    let mut key = Vec::with_capacity(alloc, parameters.len())?;
    'parameters: for place in 0..parameters.len() {
        let value = value(
            alloc,
            &parameters[place],
            &defaults[place],
            place,
            named,
            arguments,
        )?;
        key.push(value)?;
    }
    Ok(key)
}

/// Returns the error for the argument at an index; `Memory` is about no argument.
fn fault_at(fault: CoerceFault, at: u32) -> BindFault
    ensures memory { is_memory fault ≡ true → result ≡ lacks_memory }
    ensures argument { is_memory fault ≡ false → result ≡ record { code = coercion_code fault; index = Some at } }
{
    match fault {
        CoerceFault::Memory => BindFault::of(fault.code()),
        CoerceFault::Overflow | CoerceFault::TypeMismatch => BindFault::at(fault.code(), at),
    }
}

/// Coerces the argument at index `i` to the declared type of a new value. Err: it cannot be
/// coerced; E_OUTOFMEMORY without an index.
fn new_value_by(
    alloc: Global,
    argument: Variant,
    i: usize,
    declared: ValueType,
) -> Result<Variant, BindFault>
    requires zero { HasZero declared }
    requires few { i < max_arguments }
    ensures value { BindsAs (λ v. v) (told_of_argument i (coerced argument declared)) result }
    ensures memory { IfErr result (λ fault. fault ≡ lacks_memory → IsArrayType declared) }
{
    let at = i as u32;
    coerce(alloc, argument, declared).map_err(|(_, fault)| fault_at(fault, at))
}

/// Returns the new value of a put, or None for a get. Moves its argument out. Err:
/// DISP_E_TYPEMISMATCH or DISP_E_OVERFLOW with the argument's index; E_OUTOFMEMORY without an
/// index.
pub(crate) fn new_value(
    alloc: Global,
    declared: ValueType,
    kind: Kind,
    named: &[i32],
    arguments: &mut Vec<Variant>,
) -> Result<Option<Variant>, BindFault>
    requires zero { HasZero declared }
    requires named { length named.now ≤ length arguments.old.items }
    requires few { length arguments.old.items ≤ max_parameters + 1 }
    ensures value { BindsAs (λ v. v) (given_new_value (given_call named.now arguments.old.items) declared kind) result }
    ensures memory { IfErr result (λ fault. fault ≡ lacks_memory → PutsArray declared kind) }
{
    match kind {
        Kind::Get => Ok(None),
        Kind::Put => {
            let Some(i) = index_of(named, arguments.len(), PROPERTY_PUT_DISPID) else {
                return Err(BindFault::of(HResult::E_INVALIDARG));
            };
            let argument = take(arguments, i);
            Ok(Some(new_value_by(alloc, argument, i, declared)?))
        }
    }
}
