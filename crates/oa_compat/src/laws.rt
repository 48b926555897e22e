//! Theorems about the definitions, each the contract of a function with an empty body.
ghost use Rattle.std.specs.Prelude.{◌≡◌, ℕ, ℤ, true, List, Some, IfOk, IfSome};
ghost use Rattle.oa_sema.specs.promise.IsLibrary.{IsLibrary};
ghost use Rattle.oa_sema.specs.promise.Libraries.{selected_in};
ghost use Rattle.oa_idl.specs.promise.Trees.{TreeValue};
ghost use Rattle.oa_idl.specs.promise.Values.{InterfaceValue};
ghost use Rattle.oa_compat.specs.Brings.{brings_fitting};
ghost use Rattle.oa_compat.specs.promise.Fits.{entered, fits};
ghost use Rattle.oa_compat.specs.promise.Keeps.{KeepsLibrary};
ghost use Rattle.oa_table.specs.promise.Events.{applied};
ghost use Rattle.oa_table.specs.promise.Locks.{with_lock, without_lock};
ghost use Rattle.oa_table.specs.promise.Tables.{TableValue, unlocked_table};
ghost use Rattle.oa_table.specs.Tables.{first_table};
ghost use Rattle.oa_table.specs.declared.event.Event.{Event as AnEvent};
ghost use Rattle.oa_table.specs.declared.name.CellName.{CellName as AName};
ghost use Rattle.oa_typelib.specs.promise.Checked.{IsChecked};
ghost use Rattle.oa_typelib.specs.promise.Members.{member_in, property_in};
ghost use Rattle.oa_typelib.specs.declared.access.Access.{Access as AnAccess};

use oa_variant::laws::equal_is_same;

/// A text has at most one library.
pub fn one_library()
    ensures { (text : List ℕ) (a b : TreeValue) → IsLibrary text a → IsLibrary text b → a ≡ b }
{
    oa_idl::laws::one_tree();
}

/// The first table fits each library. If a table fits its library, it still does after an event
/// whose values fit. It also does after each change of locks, which do not matter for that.
pub fn changes_that_fit()
    ensures first { (library : TreeValue) → fits library first_table ≡ true }
    ensures event { (library : TreeValue) (table : TableValue) (event : AnEvent) → fits library table ≡ true
        → brings_fitting library table event ≡ true
        → IfOk (applied event table) (λ new. fits library new ≡ true) }
    ensures lock { (library : TreeValue) (table : TableValue) (name : AName) → fits library table ≡ true
        → IfOk (with_lock name table) (λ new. fits library new ≡ true) }
    ensures unlock { (library : TreeValue) (table : TableValue) (name : AName) → fits library table ≡ true
        → IfOk (without_lock name table) (λ new. fits library new ≡ true) }
    ensures locks { (library : TreeValue) (table : TableValue) → fits library (unlocked_table table) ≡ fits library table }
{
    equal_is_same();
}

/// A call addresses what a fitting cell belongs to. The interface that it selects, also by the zero
/// GUID, is one of the coclass with its own GUID. The member that it finds, in any form, is the
/// property with the DISPID.
pub fn calls_reach_what_fits()
    ensures interface { (library : TreeValue) (class guid : List ℕ) → IsChecked library
        → IfSome (selected_in library class guid) (λ found. entered library class found.guid ≡ Some found) }
    ensures property { (interface : InterfaceValue) (id : ℤ) (access : AnAccess)
        → IfOk (member_in interface id access) (λ found. property_in interface id ≡ Some found.0) }
{}

/// A table that fits a library fits each library that is compatible with it.
pub fn kept_fits()
    ensures { (new old : TreeValue) → IsChecked new → KeepsLibrary new old → (table : TableValue) → fits old table ≡ true
        → fits new table ≡ true }
{}
