//! The members of an interface: its declarations by their names and by their DISPIDs.
ghost use Rattle.std.specs.Prelude.{◌≡◌, IfOk, map};
ghost use Rattle.oa_model.specs.promise.Folding.{folded_name};
ghost use Rattle.oa_sema.specs.promise.Defaults.{default_value};
ghost use Rattle.oa_sema.specs.Defaults.{defaults_of};
ghost use Rattle.oa_sema.specs.promise.Libraries.{same};
ghost use Rattle.oa_typelib.specs.Groups.{keys_with_places};
ghost use Rattle.oa_typelib.specs.Indexes.{grouped, members_in};

use crate::groups::{FoldedName, Groups, places_by_id, places_by_name};
use oa_idl::{Item, Name, Parameter};
use oa_sema::{Declaration, declarations, value_of_default};
use oa_variant::Scalar;
use std::alloc::{AllocError, Global};
use std::marker::Model;

/// Returns the values of the defaults of parameters; None for a parameter without one. Err: an
/// allocation fails.
fn values_of(alloc: Global, parameters: &[Parameter]) -> Result<Vec<Option<Scalar>>, AllocError>
    ensures { IfOk result (λ v. v.items ≡ map default_value parameters.now) }
{
    let mut values = Vec::new(alloc);
    for parameter in parameters {
        values.push(value_of_default(alloc, parameter)?)?;
    }
    Ok(values)
}

/// Returns the values of the defaults of the parameters of each declaration. Err: an allocation
/// fails.
fn all_values(
    alloc: Global,
    declarations: &[Declaration],
) -> Result<Vec<Vec<Option<Scalar>>>, AllocError>
    ensures { IfOk result (λ v. map (λ xs. xs.items) v.items ≡ map defaults_of declarations.now) }
{
    let mut all = Vec::new(alloc);
    for declaration in declarations {
        all.push(values_of(alloc, declaration.parameters)?)?;
    }
    Ok(all)
}

/// The places of an interface's declarations by their folded names and by their DISPIDs.
#[derive(Drop)]
pub(crate) struct Members {
    /// The places of the declarations by their folded names.
    pub(crate) by_name: Groups<FoldedName>,
    /// The places of the declarations by their DISPIDs.
    pub(crate) by_id: Groups<i32>,
    /// For each declaration the values of its parameters' defaults.
    pub(crate) defaults: Vec<Vec<Option<Scalar>>>,
}

impl Model for Members {
    ghost use Rattle.std.specs.Prelude.{map};
    ghost use Rattle.oa_typelib.specs.IndexValues.{MembersValue};

    ghost Value = { MembersValue };

    ghost view = { λ m. record { by_name = m.by_name; by_id = m.by_id; defaults = map (λ xs. xs.items) m.defaults.items } };
}

/// Returns the names of declarations. Err: an allocation fails.
fn names_of<'a>(
    alloc: Global,
    declarations: &[Declaration<'a>],
) -> Result<Vec<&'a Name>, AllocError>
    ensures { IfOk result (λ v. map (λ n. n.now) v.items ≡ map (λ d. d.name) declarations.now) }
{
    let mut names = Vec::new(alloc);
    for declaration in declarations {
        names.push(declaration.name)?;
    }
    Ok(names)
}

/// Groups the places of declarations by the folded name. Err: an allocation fails.
fn by_name(alloc: Global, declarations: &[Declaration]) -> Result<Groups<FoldedName>, AllocError>
    ensures { IfOk result (λ g. g ≡ keys_with_places same (map (λ d. folded_name d.name) declarations.now)) }
{
    let names = names_of(alloc, declarations)?;
    places_by_name(alloc, names.as_slice())
}

impl Members {
    /// Makes the members of these declarations. Err: an allocation fails.
    fn grouped(alloc: Global, declarations: &[Declaration]) -> Result<Members, AllocError>
        ensures { IfOk result (λ m. m ≡ grouped declarations.now) }
    {
        Ok(Members {
            by_name: by_name(alloc, declarations)?,
            by_id: places_by_id(alloc, declarations)?,
            defaults: all_values(alloc, declarations)?,
        })
    }

    /// Makes the members of an item; a coclass has none. Err: an allocation fails.
    pub(crate) fn of(alloc: Global, item: &Item) -> Result<Members, AllocError>
        ensures { IfOk result (λ m. m ≡ members_in item.now) }
    {
        match item {
            Item::Interface(interface) => {
                Members::grouped(alloc, declarations(alloc, interface)?.as_slice())
            }
            Item::Coclass(_) => Members::grouped(alloc, &[]),
        }
    }
}
