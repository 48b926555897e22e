//! Makes the descriptions of interfaces and coclasses.
ghost use Rattle.std.specs.Prelude.{◌≡◌, ◌++◌, if◌then◌else◌, Some, None, IfOk, OnOk, map, length, option_copied, slice_get};
ghost use Rattle.std.specs.List.{filter, filter_map};
ghost use Rattle.std.specs.Option.{option_and_then};
ghost use Rattle.oa_sema.specs.promise.Declarations.{declarations};
ghost use Rattle.oa_sema.specs.promise.Defaults.{default_value};
ghost use Rattle.oa_typelib.specs.Indexes.{described_class, entry_in, is_put_or_not};
ghost use Rattle.oa_typelib.specs.promise.Descriptions.{classes_of, described_entry, interface_description};
ghost use Rattle.oa_typelib.specs.promise.Descriptions.{interfaces_of, member_description, members_described};
ghost use Rattle.oa_typelib.specs.promise.Descriptions.{parameter_description, put_last};
ghost use Rattle.oa_sema.specs.promise.Libraries.{as_interface};

use crate::described::{Content, DescribedEntry, DescribedMember, DescribedParameter};
use crate::dispinterface::Dispinterface;
use crate::forms::Form;
use crate::index::Index;
use oa_idl::{Coclass, Entry, Interface, Item, Name, Parameter};
use oa_sema::{DeclarationKind, folded, is_optional};
use oa_variant::Scalar;
use std::alloc::{AllocError, Global};
use std::marker::Model;
use uuid::Uuid;

/// The type information of an interface or a coclass (MS-OAUT section 3.7.4: ITypeInfo).
#[derive(Drop)]
pub struct Description<'a> {
    /// The GUID.
    pub guid: Uuid,
    /// The name, spelled as in the text.
    pub name: &'a Name,
    /// The members of an interface, or the entries of a coclass.
    pub content: Content<'a>,
}

impl<'a> Model for Description<'a> {
    ghost use Rattle.oa_typelib.specs.promise.DescriptionValues.{DescriptionValue};
    ghost use Rattle.oa_typelib.specs.Contents.{content_of};

    ghost Value = { DescriptionValue };

    ghost view = { λ d. record { guid = d.guid; name = d.name.now; content = content_of d.content } };
}

/// Describes a parameter whose default has the given value.
fn parameter<'a>(parameter: &'a Parameter, default: &'a Option<Scalar>) -> DescribedParameter<'a>
    requires { default.now ≡ default_value parameter.now }
    ensures { result ≡ parameter_description parameter.now }
{
    DescribedParameter {
        value_type: parameter.value_type,
        is_in: parameter.is_in,
        is_optional: is_optional(parameter),
        name: &parameter.name,
        default: default.as_ref(),
    }
}

/// Describes parameters with the values of their defaults. Err: an allocation fails.
fn parameters<'a>(
    alloc: Global,
    parameters: &'a [Parameter],
    defaults: &'a [Option<Scalar>],
) -> Result<Vec<DescribedParameter<'a>>, AllocError>
    requires { defaults.now ≡ map default_value parameters.now }
    ensures { IfOk result (λ v. v.items ≡ map parameter_description parameters.now) }
{
    let mut all = Vec::new(alloc);
    'parameters: for place in 0..parameters.len() {
        all.push(parameter(&parameters[place], &defaults[place]))?;
    }
    Ok(all)
}

/// Describes a declaration. Err: an allocation fails.
fn member<'a>(alloc: Global, form: &Form<'a>) -> Result<DescribedMember<'a>, AllocError>
    ensures { IfOk result (λ m. m ≡ member_description form.now) }
{
    let declaration = &form.declaration;
    Ok(DescribedMember {
        id: declaration.id,
        kind: declaration.kind,
        value_type: declaration.value_type,
        name: declaration.name,
        parameters: parameters(alloc, declaration.parameters, form.defaults())?,
    })
}

/// Returns whether the kind is a put, if `puts` is true; otherwise whether it is no put.
fn is_put_or_not(kind: DeclarationKind, puts: bool) -> bool
    ensures { result ≡ is_put_or_not puts kind }
{
    if puts { kind.is_put() } else { !kind.is_put() }
}

/// Returns the declaration at `place`, counted from 0, if it has the form: a put if `puts` is true,
/// no put otherwise. None if it does not, or there is none.
pub fn form_at<'a>(interface: &Dispinterface<'a>, place: usize, puts: bool) -> Option<Form<'a>>
    ensures { result ≡ option_and_then (λ d. if is_put_or_not puts d.kind then Some d else None)
        (slice_get (declarations interface.now) place) }
{
    let form = interface.form(place)?;
    if is_put_or_not(form.declaration.kind, puts) {
        Some(form)
    } else {
        None
    }
}

/// Appends the declarations at some places that are puts, if `puts` is true, or that are no puts.
/// Err: an allocation fails.
fn add_forms<'a>(
    alloc: Global,
    members: &mut Vec<DescribedMember<'a>>,
    interface: &Dispinterface<'a>,
    places: &[usize],
    puts: bool,
) -> Result<(), AllocError>
    ensures { OnOk result (members.new.items ≡ members.old.items ++ map member_description
        (filter (λ d. is_put_or_not puts d.kind) (filter_map (slice_get (declarations interface.now)) places.now))) }
{
    for place in places {
        if let Some(form) = form_at(interface, *place, puts) {
            members.push(member(alloc, &form)?)?;
        }
    }
    Ok(())
}

/// Appends the declarations of a member, a get before its put. Err: an allocation fails.
fn add_member<'a>(
    alloc: Global,
    members: &mut Vec<DescribedMember<'a>>,
    interface: &Dispinterface<'a>,
    places: &[usize],
) -> Result<(), AllocError>
    ensures { OnOk result (members.new.items ≡ members.old.items ++ map member_description
        (put_last (filter_map (slice_get (declarations interface.now)) places.now))) }
{
    add_forms(alloc, members, interface, places, false)?;
    add_forms(alloc, members, interface, places, true)
}

/// Describes the members of an interface, in the order in which their names first appear. Err: an
/// allocation fails.
fn members<'a>(
    alloc: Global,
    interface: &Dispinterface<'a>,
) -> Result<Vec<DescribedMember<'a>>, AllocError>
    ensures { IfOk result (λ v. v.items ≡ map member_description (members_described interface.now)) }
{
    let mut members = Vec::new(alloc);
    let groups = interface.groups();
    for places in groups {
        add_member(alloc, &mut members, interface, places.as_slice())?;
    }
    Ok(members)
}

/// Returns the description of an interface. Err: an allocation fails.
pub(crate) fn interface_description<'a>(
    alloc: Global,
    interface: &Dispinterface<'a>,
) -> Result<Description<'a>, AllocError>
    ensures { IfOk result (λ d. d ≡ interface_description interface.now) }
{
    let described: &'a Interface = interface.interface();
    Ok(Description {
        guid: described.guid,
        name: &described.name,
        content: Content::Interface(members(alloc, interface)?),
    })
}

/// Makes the description of an entry; None if the index does not fit a u32.
fn entry_at(is_default: bool, interface: usize) -> Option<DescribedEntry>
    ensures { result ≡ described_entry is_default interface }
{
    let interface = u32::try_from(interface).ok()?;
    Some(DescribedEntry {
        is_default,
        interface,
    })
}

/// Describes an entry; None if it names no interface of the library. Err: an allocation fails.
fn entry(alloc: Global, index: &Index, entry: &Entry) -> Result<Option<DescribedEntry>, AllocError>
    ensures { IfOk result (λ e. e ≡ entry_in index.now.interfaces entry.now) }
{
    let name = folded(alloc, &entry.interface)?;
    let Some(interface) = index.interface(name.as_slice()) else {
        return Ok(None);
    };
    Ok(entry_at(entry.is_default, interface))
}

/// Describes the entries of a coclass, without those that name no interface. Err: an allocation
/// fails.
fn entries(
    alloc: Global,
    index: &Index,
    entries: &[Entry],
) -> Result<Vec<DescribedEntry>, AllocError>
    ensures { IfOk result (λ v. v.items ≡ filter_map (entry_in index.now.interfaces) entries.now) }
{
    let mut all = Vec::new(alloc);
    for one in entries {
        if let Some(described) = entry(alloc, index, one)? {
            all.push(described)?;
        }
    }
    Ok(all)
}

/// Returns the description of a coclass. Err: an allocation fails.
pub(crate) fn class_description<'a>(
    alloc: Global,
    index: &Index,
    class: &'a Coclass,
) -> Result<Description<'a>, AllocError>
    ensures { IfOk result (λ d. d ≡ described_class index.now.interfaces class.now) }
{
    Ok(Description {
        guid: class.guid,
        name: &class.name,
        content: Content::Coclass(entries(alloc, index, class.entries.as_slice())?),
    })
}

/// Returns the place among the items of interface number `index`, counted from 0; None if there are
/// fewer.
pub(crate) fn nth_interface(items: &[Item], index: usize) -> Option<usize>
    ensures { option_and_then (λ place. option_and_then as_interface (slice_get items.now place)) result
        ≡ slice_get (interfaces_of items.now) index }
{
    let mut left = index;
    'items: for place in 0..items.len() {
        if let Item::Interface(_) = &items[place] {
            if left == 0 {
                return Some(place);
            }
            left -= 1;
        }
    }
    None
}

/// Returns the number of items that are interfaces.
pub(crate) fn count_interfaces(items: &[Item]) -> usize
    ensures { result ≡ length (interfaces_of items.now) }
{
    let mut count = 0;
    for item in items {
        match item {
            Item::Interface(_) => count += 1,
            Item::Coclass(_) => {}
        }
    }
    count
}

/// Returns coclass number `index`, counted from 0; None if there are fewer.
pub(crate) fn nth_class(items: &[Item], index: usize) -> Option<&Coclass>
    ensures { option_copied result ≡ slice_get (classes_of items.now) index }
{
    let mut left = index;
    for item in items {
        if let Item::Coclass(class) = item {
            if left == 0 {
                return Some(class);
            }
            left -= 1;
        }
    }
    None
}
