//! A theorem about descriptions: the contract of a function with an empty body.
ghost use Rattle.std.specs.Prelude.{◌≡◌, ◌+◌, ℕ, Some, length, map, slice_get};
ghost use Rattle.std.specs.List.{filter_map};
ghost use Rattle.oa_idl.specs.promise.Trees.{TreeValue};
ghost use Rattle.oa_idl.specs.promise.Values.{CoclassValue};
ghost use Rattle.oa_typelib.specs.promise.Checked.{IsChecked};
ghost use Rattle.oa_typelib.specs.promise.Descriptions.{class_description, classes_of, description_at};
ghost use Rattle.oa_typelib.specs.promise.Descriptions.{entry_description, interfaces_of};

/// The descriptions of a library's interfaces are followed by one of each coclass, and none leaves
/// an entry out. An entry names an interface of the library, with an index of 32 bits. It is in the
/// description at its place in the text.
pub fn no_entry_is_left_out()
    ensures described { (library : TreeValue) (index : ℕ) (class : CoclassValue)
        → slice_get (classes_of library.items) index ≡ Some class
        → description_at library (length (interfaces_of library.items) + index)
        ≡ Some (class_description (interfaces_of library.items) class) }
    ensures entries { (library : TreeValue) (index : ℕ) (class : CoclassValue)
        → IsChecked library → slice_get (classes_of library.items) index ≡ Some class
        → map Some (filter_map (entry_description (interfaces_of library.items)) class.entries)
        ≡ map (entry_description (interfaces_of library.items)) class.entries }
{}
