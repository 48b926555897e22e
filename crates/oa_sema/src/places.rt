//! Items by their places, counted from 0.
ghost use Rattle.std.specs.Prelude.{◌≡◌, option_copied, slice_get};
ghost use Rattle.std.specs.Option.{option_and_then};
ghost use Rattle.oa_sema.specs.promise.Libraries.{as_interface, as_class};

use oa_idl::{Coclass, Interface, Item, Tree};

/// Returns the entry of a list at a place, counted from 0; None if there is none.
pub fn at<T>(items: &[T], place: usize) -> Option<&T>
    ensures { option_copied result ≡ slice_get items.now place }
{
    items.get(place)
}

/// Returns the interface at a place among the items, counted from 0. None if the item is a coclass,
/// or if there is none.
pub fn interface_at(items: &[Item], place: usize) -> Option<&Interface>
    ensures { option_copied result ≡ option_and_then as_interface (slice_get items.now place) }
{
    match at(items, place)? {
        Item::Interface(interface) => Some(interface),
        Item::Coclass(_) => None,
    }
}

/// Returns the coclass at a place among the items, counted from 0. None if the item is an
/// interface, or if there is none.
pub fn class_at(items: &[Item], place: usize) -> Option<&Coclass>
    ensures { option_copied result ≡ option_and_then as_class (slice_get items.now place) }
{
    match at(items, place)? {
        Item::Interface(_) => None,
        Item::Coclass(class) => Some(class),
    }
}

/// Returns the tree's items.
pub fn items_of(tree: &Tree) -> &[Item]
    ensures { result.now ≡ tree.now.items }
{
    tree.items.as_slice()
}
