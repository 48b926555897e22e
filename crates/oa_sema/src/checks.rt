//! The passes of `check_tree`, one for each kind of error.
ghost use Rattle.std.specs.Prelude.{◌≡◌, ◌++◌, ◌∷◌, [], IfOk, is_some, map};
ghost use Rattle.std.specs.Option.{option_map, option_or};
ghost use Rattle.oa_model.specs.promise.Folding.{folded_name};
ghost use Rattle.oa_sema.specs.Breaches.{RefusesBreach, repeated_in};
ghost use Rattle.oa_sema.specs.promise.Breaches.{repeated_name, declared_breach, inner_breach, name_breach, id_breach};
ghost use Rattle.oa_sema.specs.promise.Breaches.{guid_breach, unknown_name, entry_breach, interface_breach};
ghost use Rattle.oa_sema.specs.promise.Breaches.{form_breach, array_breach, default_breach, form_breaches};
ghost use Rattle.oa_sema.specs.promise.Breaches.{key_breaches, tree_breach};
ghost use Rattle.oa_sema.specs.promise.Declarations.{declarations};
ghost use Rattle.oa_sema.specs.Libraries.{folded_names};
ghost use Rattle.oa_sema.specs.promise.Libraries.{item_name, item_guid, interface_named};
ghost use Rattle.oa_sema.specs.promise.Repeats.{first_answer, first_after};
ghost use Rattle.oa_sema.specs.Taken.{repeated_by, takes_reading, takes_setting, with_taken};
ghost use Rattle.oa_sema.specs.declared.fault.CheckError.TheVariants.{DuplicateName, DuplicateId, DuplicateGuid, UnknownInterface};
ghost use Rattle.oa_sema.specs.declared.fault.CheckError.TheVariants.{GetPutDisagree, ArrayParameter, BadDefault};

use crate::declaration::{Declaration, declarations};
use crate::fault::{CheckError, WrittenName};
use crate::folding::folded;
use crate::member_checks::{MemberCheck, check_members};
use crate::places::{interface_at, items_of};
use crate::repeats::{Distinct, told_apart};
use crate::sets::{FoldedNames, Guids};
use crate::taken::Taken;
use oa_idl::{Coclass, Entry, Interface, Item, Name, Parameter, Tree};
use std::alloc::{AllocError, Global};
use uuid::Uuid;

/// Returns the name of an item.
pub fn item_name(item: &Item) -> &Name
    ensures { result.now ≡ item_name item.now }
{
    match item {
        Item::Interface(interface) => &interface.name,
        Item::Coclass(class) => &class.name,
    }
}

/// Returns the GUID of an item.
pub(crate) fn item_guid(item: &Item) -> Uuid
    ensures { result ≡ item_guid item.now }
{
    match item {
        Item::Interface(interface) => interface.guid,
        Item::Coclass(class) => class.guid,
    }
}

/// Returns the names in a coclass's entries, in their order. Err: an allocation fails.
pub fn entry_names(alloc: Global, entries: &[Entry]) -> Result<Vec<&Name>, AllocError>
    ensures { IfOk result (λ v. map (λ n. n.now) v.items ≡ map (λ e. e.interface) entries.now) }
{
    let mut names = Vec::new(alloc);
    for entry in entries {
        names.push(&entry.interface)?;
    }
    Ok(names)
}

/// Returns the names of parameters, in their order. Err: an allocation fails.
fn parameter_names(alloc: Global, parameters: &[Parameter]) -> Result<Vec<&Name>, AllocError>
    ensures { IfOk result (λ v. map (λ n. n.now) v.items ≡ map (λ p. p.name) parameters.now) }
{
    let mut names = Vec::new(alloc);
    for parameter in parameters {
        names.push(&parameter.name)?;
    }
    Ok(names)
}

/// Returns each name folded. Err: an allocation fails.
fn all_folded(alloc: Global, names: &[&Name]) -> Result<Vec<Vec<u16>>, AllocError>
    ensures { IfOk result (λ v. map (λ k. k.items) v.items ≡ map (λ n. folded_name n.now) names.now) }
{
    let mut keys = Vec::new(alloc);
    for name in names {
        keys.push(folded(alloc, name)?)?;
    }
    Ok(keys)
}

/// Returns the first name that equals one before it; None if there is none. Err: an allocation
/// fails.
fn first_repeated<'a>(alloc: Global, names: &[&'a Name]) -> Result<Option<&'a Name>, AllocError>
    ensures { IfOk result (λ r. option_map (λ n. n.now) r ≡ repeated_name (map (λ n. n.now) names.now)) }
{
    let keys = all_folded(alloc, names)?;
    let Some(place) = told_apart(alloc, keys)?.repeat() else {
        return Ok(None);
    };
    Ok(Some(names[place]))
}

/// Checks that no name equals one before it. Errors: `DuplicateName` with the first such name;
/// `Memory`.
fn check_repeated(alloc: Global, names: &[&Name]) -> Result<(), CheckError>
    ensures { RefusesBreach (option_map DuplicateName (repeated_name (map (λ n. n.now) names.now))) (λ _. Unit {0}) result }
{
    match first_repeated(alloc, names)? {
        Some(name) => Err(CheckError::DuplicateName(WrittenName::copy(alloc, name)?)),
        None => Ok(()),
    }
}

/// Adds the name of a declaration to those of the declarations before it, and checks the names of
/// its parameters. Errors: `DuplicateName` with the declaration's name or a parameter's; `Memory`.
fn admit_declaration(
    alloc: Global,
    taken: &mut Taken,
    declaration: &Declaration<'_>,
) -> Result<(), CheckError>
    ensures refuses { RefusesBreach (option_map DuplicateName (repeated_by taken.old.reading taken.old.setting declaration.now))
        (λ _. (taken.new.reading ≡ with_taken takes_reading declaration.now taken.old.reading)
        × (taken.new.setting ≡ with_taken takes_setting declaration.now taken.old.setting)) result }
{
    if !taken.take(alloc, declaration)? {
        return Err(CheckError::DuplicateName(WrittenName::copy(alloc, declaration.name)?));
    }
    let names = parameter_names(alloc, declaration.parameters)?;
    check_repeated(alloc, names.as_slice())
}

/// Checks the names of an interface's declarations and their parameters. Errors: `DuplicateName`,
/// `Memory`.
fn check_declared(alloc: Global, all: &[Declaration<'_>]) -> Result<(), CheckError>
    ensures { RefusesBreach (option_map DuplicateName (first_after declared_breach [] all.now)) (λ _. Unit {0}) result }
{
    let mut taken = Taken::new(alloc);
    for declaration in all {
        admit_declaration(alloc, &mut taken, declaration)?;
    }
    Ok(())
}

/// Checks the names of an interface's declarations and their parameters. Errors: `DuplicateName`,
/// `Memory`.
fn check_interface_names(alloc: Global, interface: &Interface) -> Result<(), CheckError>
    ensures { RefusesBreach (option_map DuplicateName (first_after declared_breach [] (declarations interface.now))) (λ _. Unit {0}) result }
{
    let all = declarations(alloc, interface)?;
    check_declared(alloc, all.as_slice())
}

/// Checks that no two entries of a coclass have the same name. Errors: `DuplicateName` with the
/// later name; `Memory`.
fn check_coclass_names(alloc: Global, class: &Coclass) -> Result<(), CheckError>
    ensures { RefusesBreach (option_map DuplicateName (repeated_name (map (λ e. e.interface) class.now.entries))) (λ _. Unit {0}) result }
{
    let names = entry_names(alloc, class.entries.as_slice())?;
    check_repeated(alloc, names.as_slice())
}

/// Checks the names inside an item. Errors: `DuplicateName`, `Memory`.
fn check_inner_names(alloc: Global, item: &Item) -> Result<(), CheckError>
    ensures { RefusesBreach (option_map DuplicateName (inner_breach item.now)) (λ _. Unit {0}) result }
{
    match item {
        Item::Interface(interface) => check_interface_names(alloc, interface),
        Item::Coclass(class) => check_coclass_names(alloc, class),
    }
}

/// Adds the name of an item to those of the items before it, and checks the names inside it.
/// Errors: `DuplicateName` with the item's name or one inside it; `Memory`.
fn admit(alloc: Global, seen: &mut FoldedNames, item: &Item) -> Result<(), CheckError>
    ensures refuses { RefusesBreach (option_map DuplicateName (repeated_in seen.old item.now))
        (λ _. seen.new ≡ seen.old ++ folded_name (item_name item.now) ∷ []) result }
{
    let name = item_name(item);
    if !seen.insert(folded(alloc, name)?)? {
        return Err(CheckError::DuplicateName(WrittenName::copy(alloc, name)?));
    }
    check_inner_names(alloc, item)
}

/// Checks that no two items have the same name, and the names inside each; returns the items'
/// folded names. Errors: `DuplicateName`, `Memory`.
fn check_names(alloc: Global, items: &[Item]) -> Result<FoldedNames, CheckError>
    ensures { RefusesBreach (option_map DuplicateName (name_breach items.now)) (λ names. names ≡ folded_names items.now) result }
{
    let mut seen = FoldedNames::new(alloc);
    for item in items {
        admit(alloc, &mut seen, item)?;
    }
    Ok(seen)
}

/// Checks that no two members of an interface have the same DISPID. Errors: `DuplicateId` with the
/// later member's name; `Memory`.
fn check_ids(alloc: Global, items: &[Item]) -> Result<(), CheckError>
    ensures { RefusesBreach (option_map DuplicateId (id_breach items.now)) (λ _. Unit {0}) result }
{
    match check_members(alloc, MemberCheck::Ids, items)? {
        Some(name) => Err(CheckError::DuplicateId(WrittenName::copy(alloc, name)?)),
        None => Ok(()),
    }
}

/// Returns the library's GUID followed by those of the items. Err: an allocation fails.
fn all_guids(alloc: Global, library: Uuid, items: &[Item]) -> Result<Vec<Uuid>, AllocError>
    ensures { IfOk result (λ v. v.items ≡ library ∷ map item_guid items.now) }
{
    let mut guids = Vec::new(alloc);
    guids.push(library)?;
    for item in items {
        guids.push(item_guid(item))?;
    }
    Ok(guids)
}

/// Checks that no two items have the same GUID, and none has the library's; returns the items'
/// GUIDs. Errors: `DuplicateGuid` with the first repeated one; `Memory`.
fn check_guids(alloc: Global, library: Uuid, items: &[Item]) -> Result<Guids, CheckError>
    ensures { RefusesBreach (option_map DuplicateGuid (guid_breach library items.now)) (λ guids. guids ≡ map item_guid items.now) result }
{
    match told_apart(alloc, all_guids(alloc, library, items)?)? {
        Distinct::All(mut set) => {
            let _ = set.shift_remove_index(0);
            Ok(Guids::from_set(set))
        }
        // The library's GUID is the first, so it equals none before it.
        Distinct::Repeat(place) => Err(CheckError::DuplicateGuid(item_guid(&items[place - 1]))),
    }
}

/// Returns whether an item of that name is an interface; `names` are the folded names of the items.
/// Err: an allocation fails.
fn is_interface(
    alloc: Global,
    names: &FoldedNames,
    items: &[Item],
    name: &Name,
) -> Result<bool, AllocError>
    requires { names.now ≡ folded_names items.now }
    ensures { IfOk result (λ b. b ≡ is_some (interface_named items.now name.now)) }
{
    let Some(place) = names.place(folded(alloc, name)?.as_slice()) else {
        return Ok(false);
    };
    Ok(interface_at(items, place).is_some())
}

/// Checks that each entry names an interface. Errors: `UnknownInterface` with the first other name;
/// `Memory`.
fn check_entries(
    alloc: Global,
    names: &FoldedNames,
    items: &[Item],
    entries: &[Entry],
) -> Result<(), CheckError>
    requires { names.now ≡ folded_names items.now }
    ensures { RefusesBreach (option_map UnknownInterface (first_answer (unknown_name items.now) entries.now)) (λ _. Unit {0}) result }
{
    for entry in entries {
        if !is_interface(alloc, names, items, &entry.interface)? {
            return Err(CheckError::UnknownInterface(WrittenName::copy(alloc, &entry.interface)?));
        }
    }
    Ok(())
}

/// Checks the entries of an item, if it is a coclass. Errors: `UnknownInterface`, `Memory`.
fn check_item(
    alloc: Global,
    names: &FoldedNames,
    items: &[Item],
    item: &Item,
) -> Result<(), CheckError>
    requires { names.now ≡ folded_names items.now }
    ensures { RefusesBreach (option_map UnknownInterface (entry_breach items.now item.now)) (λ _. Unit {0}) result }
{
    match item {
        Item::Interface(_) => Ok(()),
        Item::Coclass(class) => check_entries(alloc, names, items, class.entries.as_slice()),
    }
}

/// Checks that each entry of each coclass names an interface. Errors: `UnknownInterface`, `Memory`.
fn check_interfaces(alloc: Global, names: &FoldedNames, items: &[Item]) -> Result<(), CheckError>
    requires { names.now ≡ folded_names items.now }
    ensures { RefusesBreach (option_map UnknownInterface (interface_breach items.now)) (λ _. Unit {0}) result }
{
    for item in items {
        check_item(alloc, names, items, item)?;
    }
    Ok(())
}

/// Checks that the get and the put of each property agree. Errors: `GetPutDisagree` with the later
/// one's name; `Memory`.
fn check_forms(alloc: Global, items: &[Item]) -> Result<(), CheckError>
    ensures { RefusesBreach (option_map GetPutDisagree (form_breach items.now)) (λ _. Unit {0}) result }
{
    match check_members(alloc, MemberCheck::Forms, items)? {
        Some(name) => Err(CheckError::GetPutDisagree(WrittenName::copy(alloc, name)?)),
        None => Ok(()),
    }
}

/// Checks that no parameter of a property is an array. Errors: `ArrayParameter` with the first such
/// parameter's name; `Memory`.
fn check_arrays(alloc: Global, items: &[Item]) -> Result<(), CheckError>
    ensures { RefusesBreach (option_map ArrayParameter (array_breach items.now)) (λ _. Unit {0}) result }
{
    match check_members(alloc, MemberCheck::Arrays, items)? {
        Some(name) => Err(CheckError::ArrayParameter(WrittenName::copy(alloc, name)?)),
        None => Ok(()),
    }
}

/// Checks that each default has a value of its parameter's type, and that no new value of a put has
/// a default or is optional. Errors: `BadDefault` with the first such parameter's name; `Memory`.
fn check_defaults(alloc: Global, items: &[Item]) -> Result<(), CheckError>
    ensures { RefusesBreach (option_map BadDefault (default_breach items.now)) (λ _. Unit {0}) result }
{
    match check_members(alloc, MemberCheck::Defaults, items)? {
        Some(name) => Err(CheckError::BadDefault(WrittenName::copy(alloc, name)?)),
        None => Ok(()),
    }
}

/// Checks the gets and puts of properties and the parameters, after the checks of names, DISPIDs
/// and interfaces. Errors: the first of `GetPutDisagree`, `ArrayParameter` and `BadDefault`;
/// `Memory`.
fn check_form_kinds(alloc: Global, items: &[Item]) -> Result<(), CheckError>
    ensures { RefusesBreach (form_breaches items.now) (λ _. Unit {0}) result }
{
    check_forms(alloc, items)?;
    check_arrays(alloc, items)?;
    check_defaults(alloc, items)?;
    Ok(())
}

/// The names and GUIDs of a tree's items by their places, which a successful check returns.
#[derive(Drop)]
pub struct Checked {
    /// The folded names.
    pub names: FoldedNames,
    /// The GUIDs of the items, without the library's.
    pub guids: Guids,
}

/// Checks names, DISPIDs and GUIDs, and returns names and GUIDs. Errors: the first of
/// `DuplicateName`, `DuplicateId` and `DuplicateGuid`; `Memory`.
fn check_keys(alloc: Global, tree: &Tree) -> Result<Checked, CheckError>
    ensures { RefusesBreach (key_breaches tree.now)
        (λ c. (c.names ≡ folded_names tree.now.items) × (c.guids ≡ map item_guid tree.now.items)) result }
{
    let items = items_of(tree);
    let names = check_names(alloc, items)?;
    check_ids(alloc, items)?;
    let guids = check_guids(alloc, tree.guid, items)?;
    Ok(Checked { names, guids })
}

/// Checks the entries of coclasses, the gets and puts of properties, and the parameters, after the
/// check of names. Errors: `UnknownInterface`, or those of `check_form_kinds`; `Memory`.
fn check_contents(alloc: Global, tree: &Tree, names: &FoldedNames) -> Result<(), CheckError>
    requires { names.now ≡ folded_names tree.now.items }
    ensures { RefusesBreach (option_or (option_map UnknownInterface (interface_breach tree.now.items)) (form_breaches tree.now.items))
        (λ _. Unit {0}) result }
{
    let items = items_of(tree);
    check_interfaces(alloc, names, items)?;
    check_form_kinds(alloc, items)
}

/// Runs all checks of a tree in their order, except that of its text's length, and returns names
/// and GUIDs of its items. Err: the first error, which is never `TextTooLong`, or `Memory` if an
/// allocation fails.
pub fn check_tree(alloc: Global, tree: &Tree) -> Result<Checked, CheckError>
    ensures { RefusesBreach (tree_breach tree.now)
        (λ c. (c.names ≡ folded_names tree.now.items) × (c.guids ≡ map item_guid tree.now.items)) result }
{
    let checked = check_keys(alloc, tree)?;
    check_contents(alloc, tree, &checked.names)?;
    Ok(checked)
}
