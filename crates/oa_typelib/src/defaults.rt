//! The default interfaces of coclasses, by their places among the items.
ghost use Rattle.std.specs.Prelude.{◌≡◌, IfOk, map, find, option_copied};
ghost use Rattle.oa_typelib.specs.Indexes.{default_among, default_in};

use oa_idl::{Entry, Item};
use oa_sema::{FoldedNames, folded};
use std::alloc::{AllocError, Global};

/// Returns the entry that is marked as the default; None if there is none.
fn default_entry(entries: &[Entry]) -> Option<&Entry>
    ensures { option_copied result ≡ find (λ e. e.is_default) entries.now }
{
    entries.iter().find(|e| e.is_default)
}

/// Returns the place of the interface that the default entry names; None if there is none. Err: an
/// allocation fails.
fn entry_place(
    alloc: Global,
    names: &FoldedNames,
    entries: &[Entry],
) -> Result<Option<usize>, AllocError>
    ensures { IfOk result (λ place. place ≡ default_among names.now entries.now) }
{
    let Some(entry) = default_entry(entries) else {
        return Ok(None);
    };
    let key = folded(alloc, &entry.interface)?;
    Ok(names.place(key.as_slice()))
}

/// Returns the place of an item's default interface; None for an interface. Err: an allocation
/// fails.
fn item_default(
    alloc: Global,
    names: &FoldedNames,
    item: &Item,
) -> Result<Option<usize>, AllocError>
    ensures { IfOk result (λ place. place ≡ default_in names.now item.now) }
{
    match item {
        Item::Interface(_) => Ok(None),
        Item::Coclass(class) => entry_place(alloc, names, class.entries.as_slice()),
    }
}

/// Returns for each item the place of its default interface; None for an interface. Err: an
/// allocation fails.
pub(crate) fn find_defaults(
    alloc: Global,
    names: &FoldedNames,
    items: &[Item],
) -> Result<Vec<Option<usize>>, AllocError>
    ensures { IfOk result (λ v. v.items ≡ map (default_in names.now) items.now) }
{
    let mut places = Vec::new(alloc);
    for item in items {
        places.push(item_default(alloc, names, item)?)?;
    }
    Ok(places)
}
