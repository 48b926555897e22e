//! Libraries.
ghost use Rattle.std.specs.Prelude.{◌≡◌, true, List, ℕ, IfOk, IsSome, nat_le, length, map, position, option_copied, slice_get};
ghost use Rattle.oa_printer.specs.promise.Canonical.{canonical};
ghost use Rattle.std.specs.Option.{option_and_then, option_map};
ghost use Rattle.oa_idl.specs.promise.IsTree.{IsTree};
ghost use Rattle.oa_model.specs.promise.Limits.{max_library_bytes};
ghost use Rattle.oa_sema.specs.Breaches.{RefusesBreach};
ghost use Rattle.oa_sema.specs.promise.Breaches.{first_breach, length_breach, text_breach, tree_breach};
ghost use Rattle.oa_typelib.specs.promise.Checked.{IsChecked};
ghost use Rattle.uuid.specs.Parts.{is_nil_bytes};
ghost use Rattle.oa_typelib.specs.Contents.{Describes};
ghost use Rattle.oa_typelib.specs.promise.Descriptions.{description_at, interfaces_of};
ghost use Rattle.oa_sema.specs.promise.Libraries.{as_class, as_interface, same, item_guid, class_of, if_entered};
ghost use Rattle.oa_sema.specs.promise.Libraries.{interface_of, default_interface, selected_in, marked};
ghost use Rattle.oa_typelib.specs.Indexes.{default_in, entered_in, flag_at, index_of, members_in};
ghost use Rattle.oa_sema.specs.Libraries.{folded_names};
ghost use Rattle.oa_sema.specs.promise.IsLibrary.{IsLibrary};
ghost use Rattle.oa_typelib.specs.Typed.{IsOfText};

use crate::defaults::find_defaults;
use crate::describe::{
    Description, class_description, count_interfaces, interface_description, nth_class,
    nth_interface,
};
use crate::described::DescribeError;
use crate::dispinterface::Dispinterface;
use crate::index::Index;
use crate::members::Members;
use oa_idl::{Coclass, Item, Tree};
use oa_model::MAX_LIBRARY_BYTES;
use oa_printer::laws::marked_is_read;
use oa_printer::print;
use oa_sema::{
    CheckError, Checked, FoldedNames, Guids, at, check_tree, class_at, interface_at, is_zero_guid,
    items_of, mark, place_in_front,
};
use std::alloc::Global;
use std::marker::Model;
use uuid::Uuid;

/// A type library: a tree that passes all checks, with one default interface marked in each
/// coclass.
pub struct Library {
    alloc: Global,
    tree: Tree,
    /// The canonical text of the tree.
    text: Vec<u8>,
    /// The GUIDs of the tree's items.
    guids: Guids,
    /// The members of the interfaces.
    index: Index,
    /// For each item the place of its default interface; None for an interface.
    defaults: Vec<Option<usize>>,
}

// An implementation by hand: a function that owns a library drops it in one step.
impl Drop for Library {
    fn drop(self) {
        let Library {
            alloc: _alloc,
            tree: _tree,
            text: _text,
            guids: _guids,
            index: _index,
            defaults: _defaults,
        } = self;
    }
}

impl Model for Library {
    ghost use Rattle.oa_idl.specs.promise.IsTree.{IsTree};
    ghost use Rattle.oa_idl.specs.promise.Trees.{TreeValue};
    ghost use Rattle.oa_typelib.specs.promise.Checked.{IsChecked};
    ghost use Rattle.oa_typelib.specs.Indexes.{IsIndexed};
    ghost use Rattle.oa_typelib.specs.Typed.{IsTyped};

    ghost Value = { TreeValue };

    ghost view = { λ l. l.tree };

    ghost invariant = { λ l. IsIndexed l.tree l.guids l.index l.defaults.items l.text.items
        × IsTyped l.tree × IsTree l.text.items l.tree × IsChecked l.tree };
}

/// Checks a tree that was parsed from some text, as `parse` returns it, and makes the library.
///
/// Err contains the first error. The kinds of errors are checked in the order of the variants of
/// `CheckError`, each over the whole tree. Within a kind, the error whose later item comes first in
/// the text is the first. `Memory` may occur in place of any result.
pub fn check(alloc: Global, tree: Tree) -> Result<Library, CheckError>
    requires { IsOfText tree }
    ensures refuses { RefusesBreach (first_breach tree) (λ library. library ≡ marked tree) result }
    ensures library { IfOk result (λ library. (text : List ℕ) → IsTree text tree → IsLibrary text library) }
{
    let Checked { names, guids } = check_tree(alloc, &tree)?;
    library_of(alloc, tree, &names, guids)
}

/// Makes the library of a tree that passes all checks except perhaps the last, the length of its
/// canonical text. Errors: `TextTooLong`, `Memory`.
fn library_of(
    alloc: Global,
    tree: Tree,
    names: &FoldedNames,
    guids: Guids,
) -> Result<Library, CheckError>
    requires text { IsOfText tree }
    requires unbroken { tree_breach tree ≡ None }
    requires names { names.now ≡ folded_names tree.items }
    requires guids { guids ≡ map item_guid tree.items }
    ensures { RefusesBreach (text_breach tree) (λ library. library ≡ marked tree) result }
{
    let tree = mark(tree);
    let Kept {
        text,
        index,
        defaults,
    } = kept_of(alloc, &tree, names)?;
    marked_is_read();
    Ok(Library {
        alloc,
        tree,
        text,
        guids,
        index,
        defaults,
    })
}

/// The parts of a library beside its tree and its GUIDs.
#[derive(Drop)]
struct Kept {
    text: Vec<u8>,
    index: Index,
    defaults: Vec<Option<usize>>,
}

/// Makes these parts for a tree with marked defaults. Errors: `TextTooLong` if its canonical text
/// is too long; `Memory`.
fn kept_of(alloc: Global, tree: &Tree, names: &FoldedNames) -> Result<Kept, CheckError>
    ensures { RefusesBreach (length_breach tree.now) (λ kept. (kept.text.items ≡ canonical tree.now) × (kept.index ≡ index_of tree.now)
        × (kept.defaults.items ≡ map (default_in names.now) tree.now.items)) result }
{
    let text = library_text(alloc, tree)?;
    Ok(Kept {
        text,
        index: Index::of(alloc, tree)?,
        defaults: find_defaults(alloc, names, items_of(tree))?,
    })
}

/// Prints the canonical text of the tree. Errors: `TextTooLong` if it has more than
/// `MAX_LIBRARY_BYTES` bytes; `Memory`.
fn library_text(alloc: Global, tree: &Tree) -> Result<Vec<u8>, CheckError>
    ensures { RefusesBreach (length_breach tree.now) (λ text. text.items ≡ canonical tree.now) result }
{
    let text = print(alloc, tree)?;
    if !is_text(text.as_slice()) {
        return Err(CheckError::TextTooLong);
    }
    Ok(text)
}

/// Returns whether a text has at most `MAX_LIBRARY_BYTES` bytes.
fn is_text(text: &[u8]) -> bool
    ensures { result ≡ nat_le (length text.now) max_library_bytes }
{
    text.len() <= MAX_LIBRARY_BYTES
}

impl Library {
    /// Returns the tree, with one default interface marked in each coclass.
    pub fn tree(&self) -> &Tree
        ensures { result.now ≡ self.now }
    {
        &self.tree
    }

    /// Returns the canonical text of the tree (docs/reference/idl.md). Parsing it returns the same
    /// tree.
    pub fn text(&self) -> &[u8]
        ensures text { result.now ≡ canonical self.now }
        ensures read { IsTree result.now self.now }
    {
        self.text.as_slice()
    }

    /// Proves a fact and executes nothing: the library is that of some text.
    pub fn is_checked(&self)
        ensures { IsChecked self.now }
    {
        let _tree = &self.tree;
    }

    /// Returns the place of the item with a GUID, counted from 0; None if no item has it.
    #[inline(always)]
    fn place(&self, guid: &Uuid) -> Option<usize>
        ensures { result ≡ position (λ i. same guid.now (item_guid i)) self.now.items }
    {
        if let Some(place) = place_in_front(self.items(), guid) {
            return Some(place);
        }
        self.guids.place(guid)
    }

    /// Returns the tree's items.
    pub fn items(&self) -> &[Item]
        ensures { result.now ≡ self.now.items }
    {
        items_of(&self.tree)
    }

    /// Returns the members of the item at a place; None if there is none.
    fn members_at(&self, place: usize) -> Option<&Members>
        ensures { option_copied result ≡ option_map members_in (slice_get self.now.items place) }
    {
        self.index.members(place)
    }

    /// Returns the interface at a place among the items, counted from 0. None if the item is a
    /// coclass, or if there is none.
    pub fn interface_at(&self, place: usize) -> Option<Dispinterface<'_>>
        ensures { result ≡ option_and_then as_interface (slice_get self.now.items place) }
    {
        self.is_checked();
        let interface = interface_at(self.items(), place)?;
        let members = self.members_at(place)?;
        Some(Dispinterface::of(self.alloc, interface, members))
    }

    /// Returns the place of the default interface of the coclass at a place. None if the item is an
    /// interface, or if there is none.
    pub fn default_at(&self, place: usize) -> Option<usize>
        ensures { result ≡ option_and_then (default_in (folded_names self.now.items)) (slice_get self.now.items place) }
    {
        *at(self.defaults.as_slice(), place)?
    }

    /// Returns the coclass with a GUID; None if there is none.
    pub fn class(&self, guid: &Uuid) -> Option<&Coclass>
        ensures { option_copied result ≡ class_of self.now guid.now }
    {
        let place = self.place(guid)?;
        class_at(self.items(), place)
    }

    /// Returns the interface with a GUID; None if there is none.
    pub fn interface(&self, guid: &Uuid) -> Option<Dispinterface<'_>>
        ensures { result ≡ interface_of self.now guid.now }
    {
        let place = self.place(guid)?;
        self.interface_at(place)
    }

    /// Returns the default interface of the coclass with a GUID. None if there is no such coclass.
    #[inline(always)]
    pub fn default_interface(&self, class: &Uuid) -> Option<Dispinterface<'_>>
        ensures { result ≡ option_and_then (default_interface self.now.items) (class_of self.now class.now) }
    {
        let place = self.place(class)?;
        let default = self.default_at(place)?;
        self.interface_at(default)
    }

    /// Returns the interface at `place` if an entry of the coclass at place `class` names it;
    /// otherwise None.
    #[inline(always)]
    pub fn entered_at(&self, class: usize, place: usize) -> Option<Dispinterface<'_>>
        ensures { result ≡ option_and_then
            (λ c. option_and_then (if_entered c) (option_and_then as_interface (slice_get self.now.items place)))
            (option_and_then as_class (slice_get self.now.items class)) }
    {
        let found = self.interface_at(place)?;
        if self.enters(class, place) {
            Some(found)
        } else {
            None
        }
    }

    /// Returns whether an entry of the coclass at place `class` names the item at `place`.
    fn enters(&self, class: usize, place: usize) -> bool
        ensures { result ≡ flag_at (map (entered_in (folded_names self.now.items)) self.now.items) class place }
    {
        self.index.enters(class, place)
    }

    /// Returns the interface with the GUID `interface` if an entry of the coclass with the GUID
    /// `class` names it. None if there is no such coclass, interface or entry. The zero GUID has no
    /// special meaning here: it finds an interface whose own GUID is zero.
    #[inline(always)]
    pub fn entered(&self, class: &Uuid, interface: &Uuid) -> Option<Dispinterface<'_>>
        ensures { result ≡ option_and_then (λ c. option_and_then (if_entered c) (interface_of self.now interface.now))
            (class_of self.now class.now) }
    {
        let class = self.place(class)?;
        let place = self.place(interface)?;
        self.entered_at(class, place)
    }

    /// Returns the interface that a GUID selects for the coclass with the GUID `class`. The zero
    /// GUID selects the coclass's default interface, which each coclass has; an interface whose own
    /// GUID is zero can be selected only so. Any other GUID selects the interface that has it, if
    /// an entry of the coclass names it. None if there is no such coclass, interface or entry.
    #[inline(always)]
    pub fn select(&self, class: &Uuid, interface: &Uuid) -> Option<Dispinterface<'_>>
        ensures selected { result ≡ selected_in self.now class.now interface.now }
        ensures default { is_nil_bytes interface.now ≡ true → IsSome (class_of self.now class.now) → IsSome result }
    {
        self.is_checked();
        if is_zero_guid(interface) {
            return self.default_interface(class);
        }
        self.entered(class, interface)
    }

    /// Returns interface number `index`, counted from 0; None if there are fewer.
    fn nth_interface(&self, index: usize) -> Option<Dispinterface<'_>>
        ensures { result ≡ slice_get (interfaces_of self.now.items) index }
    {
        let place = nth_interface(self.items(), index)?;
        self.interface_at(place)
    }

    /// Returns the description with an index, counted from 0. The interfaces come first, in the
    /// text's order, followed by the coclasses. The members of an interface are in the order in
    /// which their names first appear, a get before its put. Each declaration is spelled as in the
    /// text. Defaults are values of their parameters' types.
    ///
    /// Errors: `BadIndex` if and only if the library has fewer interfaces and coclasses; `Memory`
    /// if an allocation fails, and only if there is such a description.
    pub fn describe(&self, index: u32) -> Result<Description<'_>, DescribeError>
        ensures { Describes (description_at self.now index) result }
    {
        let index = index as usize;
        if let Some(interface) = self.nth_interface(index) {
            return Ok(interface_description(self.alloc, &interface)?);
        }
        let items = self.items();
        let Some(class) = nth_class(items, index - count_interfaces(items)) else {
            return Err(DescribeError::BadIndex);
        };
        Ok(class_description(self.alloc, &self.index, class)?)
    }
}
