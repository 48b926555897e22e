//! Binds the arguments of a call.
ghost use Rattle.std.specs.Prelude.{◌≡◌, ◌≤◌, length, map, IfErr};
ghost use Rattle.oa_model.specs.promise.Limits.{max_arguments, max_parameters};
ghost use Rattle.oa_typelib.specs.Bindable.{IsBindable};
ghost use Rattle.oa_sema.specs.promise.Defaults.{default_value};
ghost use Rattle.oa_variant.specs.Variants.{HasZero};
ghost use Rattle.oa_bind.specs.promise.Bindings.{BindingTakesMemory, bound_call, bound_to};
ghost use Rattle.oa_bind.specs.Given.{given_call};
ghost use Rattle.oa_bind.specs.Refusals.{BindsAs, lacks_memory};

use crate::names::{check_complete, check_names};
use crate::values::{key, new_value};
use crate::{BindFault, BoundCall};
use oa_idl::Parameter;
use oa_model::ValueType;
use oa_typelib::{Kind, Member};
use oa_variant::{Scalar, Variant};
use std::alloc::Global;

/// Binds the arguments of a call of a property (MS-OAUT section 3.1.4.4), and returns the bound
/// call. The arguments are in the order of rgvarg. The first ones are named, each by the DISPID at
/// its index in `named`. The others are given by position, the last of them for the first
/// parameter. The DISPID of a parameter is its position, counted from 0. The DISPID of a put's new
/// value is -3. `member` is one that a `Dispinterface` has returned. At most 32 arguments are
/// named, as in a record, since each name is compared with each other one.
///
/// Errors, in this order:
/// - E_INVALIDARG: there are more names than arguments, a DISPID is named twice, or -3 is missing
///   in a put or named in a get.
/// - DISP_E_BADPARAMCOUNT: there are more arguments than parameters and the new value of a put.
/// - DISP_E_PARAMNOTFOUND, with the lowest index whose name is that of no parameter, or of one that
///   is also given by position.
/// - DISP_E_PARAMNOTOPTIONAL: a required parameter has no argument, or one that is marked as
///   missing (ERROR DISP_E_PARAMNOTFOUND).
/// - DISP_E_TYPEMISMATCH or DISP_E_OVERFLOW, with the index of an argument that cannot be coerced.
///   This is the first by the positions of the parameters, the new value last.
///
/// E_OUTOFMEMORY without an index if an allocation fails. This occurs only for a property with
/// parameters, or in a put of one of an array type. It never occurs in place of one of the first
/// four errors.
pub fn bind(
    alloc: Global,
    member: &Member<'_>,
    kind: Kind,
    arguments: Vec<Variant>,
    named: &[i32],
) -> Result<BoundCall, BindFault>
    requires bindable { IsBindable member.now }
    requires named { length named.now ≤ max_arguments }
    ensures call { BindsAs (λ c. c) (bound_to member.now kind (record { named = named.now; arguments = arguments.items })) result }
    ensures memory { IfErr result (λ fault. fault ≡ lacks_memory
        → BindingTakesMemory member.now.parameters member.now.value_type kind (record { named = named.now; arguments = arguments.items })) }
{
    bind_parts(
        alloc,
        member.parameters,
        member.defaults(),
        member.value_type,
        kind,
        arguments,
        named,
    )
}

/// Binds the arguments as `bind` does, for a property with these parameters, values of their
/// defaults, and type. Errors are those of `bind`.
#[tactic(auto, unfolding(crate::specs::promise::Bindings::bound_call))]
fn bind_parts(
    alloc: Global,
    parameters: &[Parameter],
    defaults: &[Option<Scalar>],
    declared: ValueType,
    kind: Kind,
    mut arguments: Vec<Variant>,
    named: &[i32],
) -> Result<BoundCall, BindFault>
    requires defaults { defaults.now ≡ map default_value parameters.now }
    requires few { length parameters.now ≤ max_parameters }
    requires zero { HasZero declared }
    requires named { length named.now ≤ max_arguments }
    ensures call { BindsAs (λ c. c) (bound_call parameters.now declared kind (given_call named.now arguments.items)) result }
    ensures memory { IfErr result (λ fault. fault ≡ lacks_memory
        → BindingTakesMemory parameters.now declared kind (given_call named.now arguments.items)) }
{
    check_names(parameters, kind, named, arguments.len())?;
    check_complete(parameters, named, arguments.as_slice())?;
    let key = key(alloc, parameters, defaults, named, &mut arguments)?;
    let value = new_value(alloc, declared, kind, named, &mut arguments)?;
    Ok(BoundCall { key, value })
}
