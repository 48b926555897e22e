//! The index of a library's members and interfaces.
ghost use Rattle.std.specs.Prelude.{◌≡◌, IfOk, map, slice_get, is_some, option_copied};
ghost use Rattle.oa_model.specs.promise.Folding.{folded_name};
ghost use Rattle.oa_sema.specs.Libraries.{folded_names};
ghost use Rattle.oa_sema.specs.promise.Libraries.{same};
ghost use Rattle.oa_typelib.specs.promise.Descriptions.{interfaces_of};
ghost use Rattle.oa_typelib.specs.Groups.{keys_with_places};
ghost use Rattle.oa_typelib.specs.Indexes.{entered_in, enters, first_in, flag_at, index_of, members_in};

use crate::groups::{FoldedName, Groups, places_by_name};
use crate::members::Members;
use oa_idl::{Coclass, Item, Name, Tree};
use oa_sema::{at, entry_names, folded, item_name, items_of};
use std::alloc::{AllocError, Global};
use std::marker::Model;

/// Returns the members of each item. Err: an allocation fails.
fn all_members(alloc: Global, items: &[Item]) -> Result<Vec<Members>, AllocError>
    ensures { IfOk result (λ v. v.items ≡ map members_in items.now) }
{
    let mut members = Vec::new(alloc);
    for item in items {
        members.push(Members::of(alloc, item)?)?;
    }
    Ok(members)
}

/// Returns the names of the interfaces. Err: an allocation fails.
fn interface_names(alloc: Global, items: &[Item]) -> Result<Vec<&Name>, AllocError>
    ensures { IfOk result (λ v. map (λ n. n.now) v.items ≡ map (λ i. i.name) (interfaces_of items.now)) }
{
    let mut names = Vec::new(alloc);
    for item in items {
        match item {
            Item::Interface(interface) => names.push(&interface.name)?,
            Item::Coclass(_) => {}
        }
    }
    Ok(names)
}

/// Returns the folded name of each item. Err: an allocation fails.
fn item_keys(alloc: Global, items: &[Item]) -> Result<Vec<Vec<u16>>, AllocError>
    ensures { IfOk result (λ v. map (λ k. k.items) v.items ≡ folded_names items.now) }
{
    let mut keys = Vec::new(alloc);
    for item in items {
        keys.push(folded(alloc, item_name(item))?)?;
    }
    Ok(keys)
}

/// Groups the places among the interfaces by the folded name. Err: an allocation fails.
fn by_interface(alloc: Global, items: &[Item]) -> Result<Groups<FoldedName>, AllocError>
    ensures { IfOk result (λ g. g ≡ keys_with_places same (map (λ i. folded_name i.name) (interfaces_of items.now))) }
{
    let names = interface_names(alloc, items)?;
    places_by_name(alloc, names.as_slice())
}

/// Returns for each folded name whether it has a group. Err: an allocation fails.
fn flags_of(
    alloc: Global,
    groups: &Groups<FoldedName>,
    keys: &[Vec<u16>],
) -> Result<Vec<bool>, AllocError>
    ensures { IfOk result (λ v. v.items ≡ map (λ k. is_some (first_in groups.now k.items)) keys.now) }
{
    let mut flags = Vec::new(alloc);
    for key in keys {
        flags.push(groups.first(key.as_slice()).is_some())?;
    }
    Ok(flags)
}

/// Returns for each folded name whether an entry of the coclass has it. Err: an allocation fails.
fn entered_by(alloc: Global, class: &Coclass, keys: &[Vec<u16>]) -> Result<Vec<bool>, AllocError>
    ensures { IfOk result (λ v. v.items ≡ map (enters class.now) (map (λ k. k.items) keys.now)) }
{
    let names = entry_names(alloc, class.entries.as_slice())?;
    let entries = places_by_name(alloc, names.as_slice())?;
    flags_of(alloc, &entries, keys)
}

/// Returns for each folded name whether an entry of a coclass has it; nothing for an interface.
/// Err: an allocation fails.
fn entered_in(alloc: Global, item: &Item, keys: &[Vec<u16>]) -> Result<Vec<bool>, AllocError>
    ensures { IfOk result (λ v. v.items ≡ entered_in (map (λ k. k.items) keys.now) item.now) }
{
    match item {
        Item::Interface(_) => Ok(Vec::new(alloc)),
        Item::Coclass(class) => entered_by(alloc, class, keys),
    }
}

/// Returns for each coclass and each item whether an entry of the coclass names the item. The row
/// of an interface is empty. Err: an allocation fails.
fn entered_rows(alloc: Global, items: &[Item]) -> Result<Vec<Vec<bool>>, AllocError>
    ensures { IfOk result (λ v. map (λ row. row.items) v.items ≡ map (entered_in (folded_names items.now)) items.now) }
{
    let keys = item_keys(alloc, items)?;
    let mut rows = Vec::new(alloc);
    for item in items {
        rows.push(entered_in(alloc, item, keys.as_slice())?)?;
    }
    Ok(rows)
}

/// The index of a library's members and interfaces.
#[derive(Drop)]
pub(crate) struct Index {
    /// The members of each item.
    members: Vec<Members>,
    /// The places of the interfaces among the interfaces, by their folded names.
    interfaces: Groups<FoldedName>,
    /// For each coclass and each item whether an entry of the coclass names the item, by their
    /// places.
    entered: Vec<Vec<bool>>,
}

impl Model for Index {
    ghost use Rattle.std.specs.Prelude.{map};
    ghost use Rattle.oa_typelib.specs.IndexValues.{IndexValue};

    ghost Value = { IndexValue };

    ghost view = { λ x. record { members = x.members.items; interfaces = x.interfaces; entered = map (λ row. row.items) x.entered.items } };
}

impl Index {
    /// Makes the index of a tree. Err: an allocation fails.
    pub(crate) fn of(alloc: Global, tree: &Tree) -> Result<Index, AllocError>
        ensures { IfOk result (λ x. x ≡ index_of tree.now) }
    {
        let items = items_of(tree);
        Ok(Index {
            members: all_members(alloc, items)?,
            interfaces: by_interface(alloc, items)?,
            entered: entered_rows(alloc, items)?,
        })
    }

    /// Returns the members of the item at a place, counted from 0; None if there is none.
    pub(crate) fn members(&self, place: usize) -> Option<&Members>
        ensures { option_copied result ≡ slice_get self.now.members place }
    {
        at(self.members.as_slice(), place)
    }

    /// Returns the place among the interfaces of the interface with a folded name; None if there is
    /// none.
    pub(crate) fn interface(&self, name: &[u16]) -> Option<usize>
        ensures { result ≡ first_in self.now.interfaces name.now }
    {
        self.interfaces.first(name)
    }

    /// Returns whether an entry of the coclass at place `class` names the item at `place`.
    pub(crate) fn enters(&self, class: usize, place: usize) -> bool
        ensures { result ≡ flag_at self.now.entered class place }
    {
        let Some(row) = at(self.entered.as_slice(), class) else {
            return false;
        };
        let Some(flag) = at(row.as_slice(), place) else {
            return false;
        };
        *flag
    }
}
