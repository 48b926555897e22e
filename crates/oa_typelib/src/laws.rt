//! Theorems about the definitions alone.
ghost use Rattle.std.specs.Prelude.{◌≡◌, ℕ, Some, slice_get};
ghost use Rattle.oa_idl.specs.promise.Trees.{TreeValue};
ghost use Rattle.oa_idl.specs.promise.Values.{InterfaceValue};
ghost use Rattle.oa_idl.specs.declared.items.Item.TheVariants.{Interface};
ghost use Rattle.oa_typelib.specs.promise.Checked.{IsChecked};
ghost use Rattle.oa_typelib.specs.Checked.{HasSoundItems};
ghost use Rattle.oa_typelib.specs.Naming.{NamesMembers, NamesParameters};

/// In a library a call can be bound to each property, each coclass has a default interface, and
/// each of its entries has a description.
pub fn sound_items()
    ensures { (t : TreeValue) → IsChecked t → HasSoundItems t }
{}

/// In an interface of a library, the first of the names has a DISPID if and only if a member has
/// the name. It is that member's DISPID.
pub fn names_of_members()
    ensures { (t : TreeValue) (place : ℕ) (i : InterfaceValue) → IsChecked t
        → slice_get t.items place ≡ Some (Interface i) → NamesMembers i }
{}

/// Each later name has a DISPID if and only if a parameter of that member has the name. It is the
/// parameter's position.
pub fn names_of_parameters()
    ensures { (t : TreeValue) (place : ℕ) (i : InterfaceValue) → IsChecked t
        → slice_get t.items place ≡ Some (Interface i) → NamesParameters i }
{}
