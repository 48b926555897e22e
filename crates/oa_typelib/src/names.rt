//! Looks up DISPIDs by names.
ghost use Rattle.std.specs.Prelude.{◌≡◌, ◌++◌, IfOk, OnOk, map, position, None, Some};
ghost use Rattle.oa_model.specs.promise.Folding.{folded, folded_name};
ghost use Rattle.oa_sema.specs.promise.Libraries.{same_name};
ghost use Rattle.oa_typelib.specs.promise.Names.{dispids_reply, ids_in, named_in, or_unknown, parameter_named};

use crate::dispinterface::Dispinterface;
use oa_idl::Parameter;
use oa_model::{UNKNOWN_DISPID, fold};
use oa_sema::Declaration;
use std::alloc::{AllocError, Global};
use std::marker::Model;

/// The DISPIDs of names.
#[derive(Drop)]
pub struct DispIds {
    /// One for each name; -1 (UNKNOWN_DISPID) for an unknown name.
    pub ids: Vec<i32>,
    /// Whether all names are known.
    pub all_known: bool,
}

impl Model for DispIds {
    ghost use Rattle.oa_typelib.specs.promise.NamedValues.{DispIdsValue};

    ghost Value = { DispIdsValue };

    ghost view = { λ d. record { ids = d.ids.items; all_known = d.all_known } };
}

/// Maps the UTF-16 units of A to Z to those of a to z. Returns any other unit unchanged.
fn fold_unit(unit: u16) -> u16
    ensures { result ≡ folded unit }
{
    if unit >= u16::from(b'A') && unit <= u16::from(b'Z') {
        unit + 32
    } else {
        unit
    }
}

/// Folds a name that a client has sent, in UTF-16 units. Err: an allocation fails.
fn folded_name(alloc: Global, name: &[u16]) -> Result<Vec<u16>, AllocError>
    ensures { IfOk result (λ v. v.items ≡ folded_name name.now) }
{
    name.iter().map(|u| fold_unit(*u)).collect(alloc)
}

/// Returns whether a client's name equals a declared one, without regard to the case of A to Z.
fn is_same_name(name: &[u16], declared: &[u8]) -> bool
    ensures { result ≡ same_name name.now declared.now }
{
    match (name.split_first(), declared.split_first()) {
        (Some((unit, units)), Some((byte, bytes))) => {
            fold_unit(*unit) == u16::from(fold(*byte)) && is_same_name(units, bytes)
        }
        (None, None) => true,
        _ => false,
    }
}

/// Returns the place of the parameter with a name, counted from 0; None if there is none.
fn parameter_place(parameters: &[Parameter], name: &[u16]) -> Option<usize>
    ensures { result ≡ position (λ p. same_name name.now p.name) parameters.now }
{
    parameters
        .iter()
        .position(|p| is_same_name(name, p.name.as_bytes()))
}

/// Returns the DISPID of the parameter with a name, which is its place; None if there is none.
fn parameter_named(parameters: &[Parameter], name: &[u16]) -> Option<i32>
    ensures { result ≡ parameter_named parameters.now name.now }
{
    i32::try_from(parameter_place(parameters, name)?).ok()
}

/// Returns None for each name. Err: an allocation fails.
fn unknown(alloc: Global, names: &[Vec<u16>]) -> Result<Vec<Option<i32>>, AllocError>
    ensures { IfOk result (λ v. v.items ≡ map (λ name. None) (map (λ n. n.items) names.now)) }
{
    let mut ids = Vec::new(alloc);
    for _ in names {
        ids.push(None)?;
    }
    Ok(ids)
}

/// Appends the DISPID of the parameter with each name; None for an unknown name. Err: an allocation
/// fails.
fn add_parameters(
    ids: &mut Vec<Option<i32>>,
    parameters: &[Parameter],
    names: &[Vec<u16>],
) -> Result<(), AllocError>
    ensures { OnOk result (ids.new.items ≡ ids.old.items ++ map (λ n. parameter_named parameters.now n.items) names.now) }
{
    for name in names {
        ids.push(parameter_named(parameters, name.as_slice()))?;
    }
    Ok(())
}

/// Returns the DISPIDs of the names of a member and its parameters. The first is that of `member`,
/// whatever the first name is. Err: an allocation fails.
fn ids_in(
    alloc: Global,
    member: &Declaration<'_>,
    names: &[Vec<u16>],
) -> Result<Vec<Option<i32>>, AllocError>
    ensures { IfOk result (λ v. v.items ≡ ids_in (Some member.now) (map (λ n. n.items) names.now)) }
{
    let mut ids = Vec::new(alloc);
    let Some((_, others)) = names.split_first() else {
        return Ok(ids);
    };
    ids.push(Some(member.id))?;
    add_parameters(&mut ids, member.own_parameters(), others)?;
    Ok(ids)
}

/// Returns the DISPIDs of the names of a member of the interface and of its parameters; None for an
/// unknown name. Err: an allocation fails.
pub(crate) fn named_in(
    alloc: Global,
    interface: &Dispinterface<'_>,
    names: &[Vec<u16>],
) -> Result<Vec<Option<i32>>, AllocError>
    ensures { IfOk result (λ v. v.items ≡ named_in interface.now (map (λ n. n.items) names.now)) }
{
    let Some(first) = names.first() else {
        return Ok(Vec::new(alloc));
    };
    let key = folded_name(alloc, first.as_slice())?;
    match interface.forms_named(key.as_slice()).main() {
        Some(member) => ids_in(alloc, &member.declaration, names),
        None => unknown(alloc, names),
    }
}

/// Returns the DISPID, or -1 for None.
fn or_unknown(id: Option<i32>) -> i32
    ensures { result ≡ or_unknown id }
{
    id.unwrap_or(UNKNOWN_DISPID)
}

/// Makes the reply to a look-up of names from the DISPID of each, None for an unknown one. Err: the
/// allocation fails.
pub(crate) fn told(alloc: Global, ids: &[Option<i32>]) -> Result<DispIds, AllocError>
    ensures { IfOk result (λ d. d ≡ dispids_reply ids.now) }
{
    let mut answered = Vec::with_capacity(alloc, ids.len())?;
    let mut all_known = true;
    'ids: for id in ids {
        answered.push(or_unknown(*id))?;
        all_known &= id.is_some();
    }
    Ok(DispIds {
        ids: answered,
        all_known,
    })
}
