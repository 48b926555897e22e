//! Marks one default interface in each coclass.
ghost use Rattle.std.specs.Prelude.{◌≡◌, map};
ghost use Rattle.std.specs.List.{list_any};
ghost use Rattle.oa_sema.specs.promise.Libraries.{marked_entries, marked_item, marked};

use oa_idl::{Entry, Item, Tree};

/// Returns whether some entry is marked as the default.
fn marks_default(entries: &[Entry]) -> bool
    ensures { result ≡ list_any (λ e. e.is_default) entries.now }
{
    entries.iter().any(|e| e.is_default)
}

/// Marks the first entry if none is marked.
fn mark_entries(entries: &mut [Entry])
    ensures { entries.new ≡ marked_entries entries.old }
{
    if !marks_default(entries) && !entries.is_empty() {
        entries[0].is_default = true;
    }
}

/// Marks a default interface, if the item is a coclass.
fn mark_item(item: &mut Item)
    ensures { item.new ≡ marked_item item.old }
{
    if let Item::Coclass(class) = item {
        mark_entries(class.entries.as_mut_slice());
    }
}

/// Marks a default interface in each coclass.
fn mark_items(items: &mut [Item])
    ensures { items.new ≡ map marked_item items.old }
{
    for item in items.iter_mut() {
        mark_item(item);
    }
}

/// Marks one default interface in each coclass, and returns the tree. It is the first entry, unless
/// another one is marked.
pub fn mark(tree: Tree) -> Tree
    ensures { result ≡ marked tree }
{
    let Tree {
        guid,
        version,
        name,
        mut items,
    } = tree;
    mark_items(items.as_mut_slice());
    Tree {
        guid,
        version,
        name,
        items,
    }
}
