//! What is lost if a library replaces another.
ghost use Rattle.std.specs.Prelude.{◌≡◌, ◌↔◌, true, Some, None, slice_get};
ghost use Rattle.std.specs.List.{filter_map, list_any};
ghost use Rattle.std.specs.Option.{option_and_then, option_map, option_map_or};
ghost use Rattle.oa_idl.specs.declared.items.Item.TheVariants.{Coclass as AClass};
ghost use Rattle.oa_sema.specs.promise.Declarations.{declarations};
ghost use Rattle.oa_typelib.specs.promise.Descriptions.{classes_of, interfaces_of, put_last};
ghost use Rattle.oa_compat.specs.promise.Keeps.{KeepsLibrary, default_guid, dispid_lost, first_lost, guid_lost};
ghost use Rattle.oa_compat.specs.promise.Keeps.{is_kept_by, keeps_class, keeps_default, keeps_entries, keeps_entry};
ghost use Rattle.oa_compat.specs.promise.Keeps.{lost_class, lost_declaration, lost_interface, lost_member};
ghost use Rattle.oa_compat.specs.Keeps.{lost_form};
ghost use Rattle.oa_sema.specs.promise.Libraries.{as_class, as_interface, class_of};
ghost use Rattle.oa_sema.specs.promise.Repeats.{first_answer};

use oa_idl::Coclass;
use oa_sema::{Declaration, class_at, is_same_name, same_parameters, same_result};
use oa_typelib::{Dispinterface, Library, form_at};
use uuid::Uuid;

/// An incompatibility: the first thing of an old library that a new one does not have.
#[derive(Clone, Copy, Debug, PartialEq, Eq)]
pub enum Incompatibility {
    /// The whole interface with the GUID.
    Interface(Uuid),
    /// The member with the DISPID, of the interface with the GUID.
    Member(Uuid, i32),
    /// The whole coclass with the GUID.
    Coclass(Uuid),
}

impl Incompatibility {
    /// Returns the GUID of the interface or of the coclass.
    pub fn guid(&self) -> Uuid
        ensures { result ≡ guid_lost self.now }
    {
        match self {
            Incompatibility::Interface(guid)
            | Incompatibility::Member(guid, _)
            | Incompatibility::Coclass(guid) => *guid,
        }
    }

    /// Returns the DISPID of the member; -1 (DISPID_UNKNOWN), which no member has, for a whole
    /// interface or coclass.
    pub fn dispid(&self) -> i32
        ensures { result ≡ dispid_lost self.now }
    {
        match self {
            Incompatibility::Interface(_) | Incompatibility::Coclass(_) => -1,
            Incompatibility::Member(_, dispid) => *dispid,
        }
    }
}

/// Returns whether a declaration preserves another one.
#[tactic(auto, unfolding(crate::specs::promise::Keeps::is_kept_by))]
fn is_kept_by(was: &Declaration<'_>, now: &Declaration<'_>) -> bool
    ensures { result ≡ is_kept_by was.now now.now }
{
    was.id == now.id
        && was.kind == now.kind
        && is_same_name(was.name, now.name)
        && same_result(was.value_type, now.value_type)
        && same_parameters(was.parameters, now.parameters)
}

/// Returns whether one of the declarations at some places preserves a declaration.
fn any_keeps(now: &Dispinterface<'_>, places: &[usize], was: &Declaration<'_>) -> bool
    ensures { result ≡ list_any (is_kept_by was.now) (filter_map (slice_get (declarations now.now)) places.now) }
{
    let Some((place, places)) = places.split_first() else {
        return false;
    };
    match now.form(*place) {
        Some(form) => is_kept_by(was, &form.declaration) || any_keeps(now, places, was),
        None => any_keeps(now, places, was),
    }
}

/// Returns the DISPID of a declaration that is not preserved; None if it is.
fn lost_declaration(now: &Dispinterface<'_>, was: &Declaration<'_>) -> Option<i32>
    ensures { result ≡ lost_declaration now.now was.now }
{
    if any_keeps(now, now.places_with(was.id), was) {
        None
    } else {
        Some(was.id)
    }
}

/// Returns the DISPID of the declaration at a place, if it has the form (a put or not) and is not
/// preserved; otherwise None.
fn lost_form(
    now: &Dispinterface<'_>,
    was: &Dispinterface<'_>,
    place: usize,
    puts: bool,
) -> Option<i32>
    ensures { result ≡ lost_form now.now was.now puts place }
{
    let form = form_at(was, place, puts)?;
    lost_declaration(now, &form.declaration)
}

/// Returns the DISPID of the first lost declaration of a form (a put or not) among those at some
/// places; None if none is lost.
fn lost_at(
    now: &Dispinterface<'_>,
    was: &Dispinterface<'_>,
    places: &[usize],
    puts: bool,
) -> Option<i32>
    ensures { result ≡ first_answer (lost_form now.now was.now puts) places.now }
{
    'places: for place in places {
        let lost = lost_form(now, was, *place, puts);
        if lost.is_some() {
            return lost;
        }
    }
    None
}

/// Returns the DISPID of the first lost declaration of a member, a get before its put; None if none
/// is lost.
fn lost_of_member(now: &Dispinterface<'_>, was: &Dispinterface<'_>, places: &[usize]) -> Option<i32>
    ensures { result ≡ first_answer (lost_declaration now.now) (put_last (filter_map (slice_get (declarations was.now)) places.now)) }
{
    let lost = lost_at(now, was, places, false);
    if lost.is_some() {
        return lost;
    }
    lost_at(now, was, places, true)
}

/// Returns the DISPID of the first lost declaration of an interface; None if none is lost.
fn lost_member(now: &Dispinterface<'_>, was: &Dispinterface<'_>) -> Option<i32>
    ensures { result ≡ lost_member now.now was.now }
{
    let groups = was.groups();
    'members: for places in groups {
        let lost = lost_of_member(now, was, places.as_slice());
        if lost.is_some() {
            return lost;
        }
    }
    None
}

/// Returns the first incompatibility of a new library with an old interface; None if there is none.
fn lost_interface(new: &Library, was: &Dispinterface<'_>) -> Option<Incompatibility>
    ensures { result ≡ lost_interface new.now was.now }
{
    let guid = was.interface().guid;
    let Some(now) = new.interface(&guid) else {
        return Some(Incompatibility::Interface(guid));
    };
    match lost_member(&now, was) {
        Some(dispid) => Some(Incompatibility::Member(guid, dispid)),
        None => None,
    }
}

/// Returns the first incompatibility of a new library with an old interface, if there is one; None
/// if there is no incompatibility.
fn lost_of(new: &Library, was: Option<Dispinterface<'_>>) -> Option<Incompatibility>
    ensures { result ≡ option_and_then (lost_interface new.now) was.entry }
{
    lost_interface(new, &was?)
}

/// Returns the first incompatibility with an old interface, in the text's order; None if there is
/// none.
fn first_interface(new: &Library, old: &Library) -> Option<Incompatibility>
    ensures { result ≡ first_answer (lost_interface new.now) (interfaces_of old.now.items) }
{
    let items = old.items();
    'items: for place in 0..items.len() {
        let lost = lost_of(new, old.interface_at(place));
        if lost.is_some() {
            return lost;
        }
    }
    None
}

/// Returns the GUID of an interface; None if there is no interface.
fn guid_of(interface: Option<Dispinterface<'_>>) -> Option<Uuid>
    ensures { result ≡ option_map (λ i. i.guid) interface.entry }
{
    Some(interface?.interface().guid)
}

/// Returns whether a coclass has an interface with the GUID of the one at a place, if the old
/// coclass has that.
fn keeps_entry(
    new: &Library,
    old: &Library,
    place: usize,
    was: &Coclass,
    now: &Coclass,
    at: usize,
) -> bool
    requires there { slice_get old.now.items place ≡ Some (AClass was.now) }
    requires found { class_of new.now was.now.guid ≡ Some now.now }
    ensures { result ≡ option_map_or (keeps_entry new.now now.now was.now) (option_and_then as_interface (slice_get old.now.items at)) true }
{
    match old.entered_at(place, at) {
        Some(interface) => new
            .entered(&was.guid, &interface.interface().guid)
            .is_some(),
        None => true,
    }
}

/// Returns whether a coclass has an interface with the GUID of each interface of the old coclass at
/// a place.
fn keeps_entries(new: &Library, old: &Library, place: usize, was: &Coclass, now: &Coclass) -> bool
    requires there { slice_get old.now.items place ≡ Some (AClass was.now) }
    requires found { class_of new.now was.now.guid ≡ Some now.now }
    ensures { result ≡ keeps_entries new.now old.now now.now was.now }
{
    let items = old.items();
    'items: for at in 0..items.len() {
        if !keeps_entry(new, old, place, was, now, at) {
            return false;
        }
    }
    true
}

/// Returns the GUID of the default interface of the coclass at a place; None if it has none.
fn default_before(old: &Library, place: usize) -> Option<Uuid>
    ensures { result ≡ option_and_then (default_guid old.now.items) (option_and_then as_class (slice_get old.now.items place)) }
{
    let default = old.default_at(place)?;
    guid_of(old.interface_at(default))
}

/// Returns whether the default interface of a coclass has the GUID of that of the old coclass at a
/// place.
fn keeps_default(new: &Library, old: &Library, place: usize, was: &Coclass, now: &Coclass) -> bool
    requires there { slice_get old.now.items place ≡ Some (AClass was.now) }
    requires found { class_of new.now was.now.guid ≡ Some now.now }
    ensures { result ≡ keeps_default new.now old.now now.now was.now }
{
    let after = guid_of(new.default_interface(&was.guid));
    default_before(old, place) == after
}

/// Returns whether a coclass of the new library preserves the old coclass at a place.
fn keeps_class(new: &Library, old: &Library, place: usize, was: &Coclass) -> bool
    requires there { slice_get old.now.items place ≡ Some (AClass was.now) }
    ensures { result ≡ keeps_class new.now old.now was.now }
{
    let Some(now) = new.class(&was.guid) else {
        return false;
    };
    keeps_entries(new, old, place, was, now) && keeps_default(new, old, place, was, now)
}

/// Returns the incompatibility with the item at a place, if it is a coclass and is lost; otherwise
/// None.
fn lost_class(new: &Library, old: &Library, place: usize) -> Option<Incompatibility>
    ensures { result ≡ option_and_then (lost_class new.now old.now) (option_and_then as_class (slice_get old.now.items place)) }
{
    let was = class_at(old.items(), place)?;
    if keeps_class(new, old, place, was) {
        None
    } else {
        Some(Incompatibility::Coclass(was.guid))
    }
}

/// Returns the first incompatibility with an old coclass, in the text's order; None if there is
/// none.
fn first_class(new: &Library, old: &Library) -> Option<Incompatibility>
    ensures { result ≡ first_answer (lost_class new.now old.now) (classes_of old.now.items) }
{
    let items = old.items();
    'items: for place in 0..items.len() {
        let lost = lost_class(new, old, place);
        if lost.is_some() {
            return lost;
        }
    }
    None
}

/// Returns the first incompatibility of a new library with an old one; None if it is backward
/// compatible. Allocates nothing.
///
/// For each old interface, the new library must have one with its GUID that declares everything
/// that the old one declares. Each declaration must have its name (A to Z folded), DISPID, kind,
/// type and parameters. For each old coclass, it must have one with its GUID, all of its
/// interfaces, and its default one. It may have more.
///
/// The old interfaces are checked first, in the text's order. The members of each are in the order
/// in which their names first occur, a get before its put. Then the coclasses are checked.
pub fn keeps(new: &Library, old: &Library) -> Option<Incompatibility>
    ensures exactly { (result ≡ None) ↔ KeepsLibrary new.now old.now }
    ensures first { result ≡ first_lost new.now old.now }
{
    new.is_checked();
    let lost = first_interface(new, old);
    if lost.is_some() {
        return lost;
    }
    first_class(new, old)
}
