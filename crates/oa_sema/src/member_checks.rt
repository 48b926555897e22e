//! The checks of an interface's declarations, each for one interface at a time.
ghost use Rattle.std.specs.Prelude.{◌≡◌, [], IfOk, map, find, option_copied};
ghost use Rattle.std.specs.Option.{option_map, option_and_then};
ghost use Rattle.oa_model.specs.promise.Folding.{folded_name};
ghost use Rattle.oa_sema.specs.promise.Breaches.{first_broken, is_array, first_array_parameter, is_bad, if_optional};
ghost use Rattle.oa_sema.specs.promise.Breaches.{bad_default_in, in_interface};
ghost use Rattle.oa_sema.specs.promise.Declarations.{declarations, new_value};
ghost use Rattle.oa_sema.specs.MemberChecks.{alike, breaks, broken_at, breach_by};
ghost use Rattle.oa_sema.specs.declared.member_checks.Rule.TheVariants.{OneMember, Agreement};
ghost use Rattle.oa_sema.specs.promise.Repeats.{first_answer};
ghost use Rattle.oa_sema.specs.Repeats.{places_before};

use crate::agreement::{agree, is_optional, is_same_name};
use crate::declaration::{Declaration, declarations};
use crate::default_value::has_default;
use crate::folding::folded;
use crate::repeats::earlier;
use oa_idl::{Interface, Item, Name, Parameter};
use oa_model::ValueType;
use std::alloc::{AllocError, Global};

/// A check of the declarations of one interface.
#[derive(Clone, Copy)]
pub(crate) enum MemberCheck {
    /// No two members have the same DISPID.
    Ids,
    /// The get and the put of a property agree.
    Forms,
    /// No parameter of a property is an array.
    Arrays,
    /// Each default has a value of the parameter's type, and no new value of a put is optional or
    /// has a default.
    Defaults,
}

/// A rule for two declarations of one interface.
#[derive(Clone, Copy)]
pub(crate) enum Rule {
    /// If they have the same DISPID, they have the same name.
    OneMember,
    /// If they have the same name, they agree.
    Agreement,
}

/// Returns whether two declarations violate a rule.
fn breaks(rule: Rule, later: &Declaration<'_>, earlier: &Declaration<'_>) -> bool
    ensures { result ≡ breaks rule later.now earlier.now }
{
    match rule {
        Rule::OneMember => later.id == earlier.id && !is_same_name(later.name, earlier.name),
        Rule::Agreement => is_same_name(later.name, earlier.name) && !agree(later, earlier),
    }
}

/// Returns the DISPIDs of declarations. Err: an allocation fails.
fn ids(alloc: Global, all: &[Declaration<'_>]) -> Result<Vec<i32>, AllocError>
    ensures { IfOk result (λ v. v.items ≡ map (λ d. d.id) all.now) }
{
    all.iter().map(|d| d.id).collect(alloc)
}

/// Returns the folded names of declarations. Err: an allocation fails.
fn folded_names(alloc: Global, all: &[Declaration<'_>]) -> Result<Vec<Vec<u16>>, AllocError>
    ensures { IfOk result (λ v. map (λ k. k.items) v.items ≡ map (λ d. folded_name d.name) all.now) }
{
    let mut keys = Vec::new(alloc);
    for declaration in all {
        keys.push(folded(alloc, declaration.name)?)?;
    }
    Ok(keys)
}

/// Returns for each declaration the last place before it with the same DISPID; None if there is
/// none. Err: an allocation fails.
fn same_ids_before(alloc: Global, all: &[Declaration<'_>]) -> Result<Vec<Option<usize>>, AllocError>
    ensures { IfOk result (λ v. v.items ≡ places_before (alike OneMember) [] all.now) }
{
    let keys = ids(alloc, all)?;
    earlier(alloc, keys)
}

/// Returns for each declaration the last place before it with the same name; None if there is none.
/// Err: an allocation fails.
fn same_names_before(
    alloc: Global,
    all: &[Declaration<'_>],
) -> Result<Vec<Option<usize>>, AllocError>
    ensures { IfOk result (λ v. v.items ≡ places_before (alike Agreement) [] all.now) }
{
    let keys = folded_names(alloc, all)?;
    earlier(alloc, keys)
}

/// Returns for each declaration the last place before it to which a rule applies; None if there is
/// none. Err: an allocation fails.
fn places_before(
    alloc: Global,
    rule: Rule,
    all: &[Declaration<'_>],
) -> Result<Vec<Option<usize>>, AllocError>
    ensures { IfOk result (λ v. v.items ≡ places_before (alike rule) [] all.now) }
{
    match rule {
        Rule::OneMember => same_ids_before(alloc, all),
        Rule::Agreement => same_names_before(alloc, all),
    }
}

/// Returns whether a declaration violates a rule together with the one at the place `other`.
fn is_broken(
    rule: Rule,
    all: &[Declaration<'_>],
    later: &Declaration<'_>,
    other: Option<usize>,
) -> bool
    ensures { result ≡ broken_at rule all.now later.now other }
{
    let Some(other) = other else {
        return false;
    };
    let Some(earlier) = all.get(other) else {
        return false;
    };
    breaks(rule, later, earlier)
}

/// Returns the name of the first declaration that violates a rule together with one before it; None
/// if there is none. `before` are the places of `places_before`.
fn first_broken<'a>(
    rule: Rule,
    all: &[Declaration<'a>],
    before: &[Option<usize>],
) -> Option<&'a Name>
    requires { before.now ≡ places_before (alike rule) [] all.now }
    ensures { option_copied result ≡ first_broken (breaks rule) all.now }
{
    for place in 0..all.len() {
        let later = &all[place];
        let other = before[place];
        if is_broken(rule, all, later, other) {
            return Some(later.name);
        }
    }
    None
}

/// Returns the name of the first declaration that violates a rule together with one before it; None
/// if there is none. Err: an allocation fails.
fn check_rule<'a>(
    alloc: Global,
    rule: Rule,
    all: &[Declaration<'a>],
) -> Result<Option<&'a Name>, AllocError>
    ensures { IfOk result (λ name. option_copied name ≡ first_broken (breaks rule) all.now) }
{
    let before = places_before(alloc, rule, all)?;
    Ok(first_broken(rule, all, before.as_slice()))
}

/// Returns whether it is an array type.
fn is_array(value_type: ValueType) -> bool
    ensures { result ≡ is_array value_type }
{
    matches!(value_type, ValueType::Array(_))
}

/// Returns the first parameter with an array type; None if there is none.
fn find_array(parameters: &[Parameter]) -> Option<&Parameter>
    ensures { option_copied result ≡ find (λ p. is_array p.value_type) parameters.now }
{
    parameters.iter().find(|p| is_array(p.value_type))
}

/// Returns the name of a parameter; None if there is no parameter.
fn name_of(parameter: Option<&Parameter>) -> Option<&Name>
    ensures { option_copied result ≡ option_map (λ p. p.name) (option_copied parameter.entry) }
{
    match parameter {
        Some(parameter) => Some(&parameter.name),
        None => None,
    }
}

/// Returns the name of the first array among the parameters of a get or put; None if there is none.
fn array_in<'a>(declaration: &Declaration<'a>) -> Option<&'a Name>
    ensures { option_copied result ≡ first_array_parameter declaration.now }
{
    if declaration.kind.is_form() {
        name_of(find_array(declaration.own_parameters()))
    } else {
        None
    }
}

/// Returns whether the parameter has a default without a value of its type.
fn is_bad(parameter: &Parameter) -> bool
    ensures { result ≡ is_bad parameter.now.value_type parameter.now.default }
{
    match &parameter.default {
        None => false,
        Some(default) => !has_default(parameter.value_type, default),
    }
}

/// Returns the first parameter whose default has no value of its type; None if there is none.
fn find_bad(parameters: &[Parameter]) -> Option<&Parameter>
    ensures { option_copied result ≡ find (λ p. is_bad p.value_type p.default) parameters.now }
{
    parameters.iter().find(|p| is_bad(p))
}

/// Returns the name of the new value of a put, if it is optional or has a default; otherwise None.
fn optional_value<'a>(declaration: &Declaration<'a>) -> Option<&'a Name>
    ensures { option_copied result ≡ option_and_then if_optional (new_value declaration.now) }
{
    let value = declaration.new_value()?;
    if is_optional(value) {
        Some(&value.name)
    } else {
        None
    }
}

/// Returns the name of the first parameter of a declaration whose default has no value of its type.
/// Otherwise returns the name of a new value that is optional or has a default; None if there is
/// none.
fn bad_default_in<'a>(declaration: &Declaration<'a>) -> Option<&'a Name>
    ensures { option_copied result ≡ bad_default_in declaration.now }
{
    match name_of(find_bad(declaration.own_parameters())) {
        Some(name) => Some(name),
        None => optional_value(declaration),
    }
}

/// Returns the name of the first array among the parameters of gets and puts; None if there is
/// none.
fn first_array<'a>(all: &[Declaration<'a>]) -> Option<&'a Name>
    ensures { option_copied result ≡ first_answer first_array_parameter all.now }
{
    for declaration in all {
        if let Some(name) = array_in(declaration) {
            return Some(name);
        }
    }
    None
}

/// Returns the name of the first parameter with a bad default; None if there is none.
fn first_bad_default<'a>(all: &[Declaration<'a>]) -> Option<&'a Name>
    ensures { option_copied result ≡ first_answer bad_default_in all.now }
{
    for declaration in all {
        if let Some(name) = bad_default_in(declaration) {
            return Some(name);
        }
    }
    None
}

/// Runs a check of an interface's declarations. Returns the name that it finds, or None. Err: an
/// allocation fails.
fn check_declarations<'a>(
    alloc: Global,
    check: MemberCheck,
    all: &[Declaration<'a>],
) -> Result<Option<&'a Name>, AllocError>
    ensures { IfOk result (λ name. option_copied name ≡ breach_by check all.now) }
{
    match check {
        MemberCheck::Ids => check_rule(alloc, Rule::OneMember, all),
        MemberCheck::Forms => check_rule(alloc, Rule::Agreement, all),
        MemberCheck::Arrays => Ok(first_array(all)),
        MemberCheck::Defaults => Ok(first_bad_default(all)),
    }
}

/// Runs a check of an interface. Returns the name that it finds, or None. Err: an allocation fails.
fn check_interface(
    alloc: Global,
    check: MemberCheck,
    interface: &Interface,
) -> Result<Option<&Name>, AllocError>
    ensures { IfOk result (λ name. option_copied name ≡ breach_by check (declarations interface.now)) }
{
    let all = declarations(alloc, interface)?;
    check_declarations(alloc, check, all.as_slice())
}

/// Runs a check of an item, if it is an interface. Returns the name that it finds, or None. Err: an
/// allocation fails.
fn check_inside(alloc: Global, check: MemberCheck, item: &Item) -> Result<Option<&Name>, AllocError>
    ensures { IfOk result (λ name. option_copied name ≡ in_interface (breach_by check) item.now) }
{
    match item {
        Item::Interface(interface) => check_interface(alloc, check, interface),
        Item::Coclass(_) => Ok(None),
    }
}

/// Runs a check of all interfaces, in their order. Returns the first name that it finds; None if no
/// interface violates the check. Err: an allocation fails.
pub(crate) fn check_members(
    alloc: Global,
    check: MemberCheck,
    items: &[Item],
) -> Result<Option<&Name>, AllocError>
    ensures { IfOk result (λ name. option_copied name ≡ first_answer (in_interface (breach_by check)) items.now) }
{
    for item in items {
        let found = check_inside(alloc, check, item)?;
        if let Some(name) = found {
            return Ok(Some(name));
        }
    }
    Ok(None)
}
