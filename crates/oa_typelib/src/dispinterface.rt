//! An interface of a library, and look-ups of its members.
ghost use Rattle.std.specs.Prelude.{◌≡◌, true, IfOk, IfSome, map, slice_get};
ghost use Rattle.std.specs.List.{filter, filter_map};
ghost use Rattle.std.specs.Option.{option_map};
ghost use Rattle.oa_model.specs.promise.Folding.{folded_name};
ghost use Rattle.oa_sema.specs.promise.Declarations.{declarations};
ghost use Rattle.oa_sema.specs.promise.Libraries.{same};
ghost use Rattle.oa_typelib.specs.Bindable.{AreSound, IsBindable};
ghost use Rattle.oa_typelib.specs.Indexes.{grouped};
ghost use Rattle.oa_typelib.specs.promise.Members.{forms_with, has_form, member_in, property_in};
ghost use Rattle.oa_typelib.specs.promise.Names.{names_told};

use crate::access::{Access, Kind, MemberFault};
use crate::forms::{Form, Forms, declaration_at};
use crate::member::{Member, find, property};
use crate::members::Members;
use crate::names::{DispIds, named_in, told};
use oa_idl::Interface;
use oa_sema::{DeclarationKind, at};
use std::alloc::{AllocError, Global};
use std::marker::Model;

/// An interface of a library with the index of its members. A caller that keeps it does not search
/// for the GUID again.
#[derive(Drop)]
pub struct Dispinterface<'a> {
    alloc: Global,
    interface: &'a Interface,
    members: &'a Members,
}

impl<'a> Model for Dispinterface<'a> {
    ghost use Rattle.std.specs.Prelude.{◌≡◌};
    ghost use Rattle.oa_idl.specs.promise.Values.{InterfaceValue};
    ghost use Rattle.oa_typelib.specs.Bindable.{AreSound};
    ghost use Rattle.oa_sema.specs.promise.Declarations.{declarations};
    ghost use Rattle.oa_typelib.specs.Indexes.{grouped};

    ghost Value = { InterfaceValue };

    ghost view = { λ i. i.interface.now };

    ghost invariant = { λ i. (i.members.now ≡ grouped (declarations i.interface.now)) × AreSound (declarations i.interface.now) };
}

impl<'a> Dispinterface<'a> {
    /// Makes the handle of an interface from its index.
    pub(crate) fn of(
        alloc: Global,
        interface: &'a Interface,
        members: &'a Members,
    ) -> Dispinterface<'a>
        requires indexed { members.now ≡ grouped (declarations interface.now) }
        requires sound { AreSound (declarations interface.now) }
        ensures { result ≡ interface.now }
    {
        Dispinterface {
            alloc,
            interface,
            members,
        }
    }

    /// Returns the interface in the tree.
    pub fn interface(&self) -> &'a Interface
        ensures { result.now ≡ self.now }
    {
        self.interface
    }

    /// Proves a fact and executes nothing: a call can be bound to each property of the interface.
    fn is_sound(&self)
        ensures { AreSound (declarations self.now) }
    {
        let _interface = self.interface;
    }

    /// Returns the declaration at a place, counted from 0: first the properties in the text's
    /// order, then the methods. None if there are fewer.
    pub fn form(&self, place: usize) -> Option<Form<'a>>
        ensures { result ≡ slice_get (declarations self.now) place }
    {
        let interface: &'a Interface = self.interface;
        let members: &'a Members = self.members;
        let declaration = declaration_at(interface, place)?;
        let defaults = at(members.defaults.as_slice(), place)?;
        Some(Form::of(declaration, defaults.as_slice()))
    }

    /// Returns the kind of the declaration at a place, counted from 0; None if there are fewer.
    pub(crate) fn kind_at(&self, place: usize) -> Option<DeclarationKind>
        ensures { result ≡ option_map (λ d. d.kind) (slice_get (declarations self.now) place) }
    {
        let declaration = declaration_at(self.interface, place)?;
        Some(declaration.kind)
    }

    /// Copies the handle.
    fn again(&self) -> Dispinterface<'a>
        ensures { result ≡ self.now }
    {
        Dispinterface {
            alloc: self.alloc,
            interface: self.interface,
            members: self.members,
        }
    }

    /// Returns the declarations with a DISPID.
    pub(crate) fn forms_with(&self, id: i32) -> Forms<'a>
        ensures { result ≡ forms_with id self.now }
    {
        let members: &'a Members = self.members;
        Forms::at(self.again(), members.by_id.places(&id))
    }

    /// Returns the places of the declarations with a DISPID, counted from 0; none if no member has
    /// it.
    pub fn places_with(&self, id: i32) -> &'a [usize]
        ensures { filter_map (slice_get (declarations self.now)) result.now ≡ forms_with id self.now }
    {
        let members: &'a Members = self.members;
        members.by_id.places_of(id)
    }

    /// Returns the declarations with a name, which is given folded, in UTF-16 units.
    pub(crate) fn forms_named(&self, name: &[u16]) -> Forms<'a>
        ensures { result ≡ filter (λ d. same name.now (folded_name d.name)) (declarations self.now) }
    {
        let members: &'a Members = self.members;
        Forms::at(self.again(), members.by_name.places(name))
    }

    /// Returns the places of the declarations of each member, in the order in which the members'
    /// names first appear.
    pub fn groups(&self) -> &'a [Vec<usize>]
        ensures { map (λ ps. ps.items) result.now ≡ (grouped (declarations self.now)).by_name.places }
    {
        let members: &'a Members = self.members;
        members.by_name.groups()
    }

    /// Finds the member with a DISPID and the form of it that a call uses. A call can be bound to
    /// this member: it has at most 16 parameters, all of them scalars, and each default is a value
    /// of its parameter's type. The type of the member is a scalar type, or an array type that the
    /// profile has.
    ///
    /// Errors:
    /// - `MemberNotFound`: no member has the DISPID, the flags select no form, or the member does
    ///   not have the form, such as a put of a readonly property. A call of a method also fails so,
    ///   unless the next line applies.
    /// - `NotImplemented`: the member is a method, METHOD is set and PROPERTYPUT is not.
    pub fn member(&self, id: i32, access: Access) -> Result<(Member<'a>, Kind), MemberFault>
        ensures found { result ≡ member_in self.now id access }
        ensures bindable { IfOk result (λ found. IsBindable found.0) }
        ensures formed { IfOk result (λ found. has_form found.0 found.1 ≡ true) }
    {
        self.is_sound();
        find(&self.forms_with(id), access)
    }

    /// Returns the property with a DISPID, whatever forms it has. None if no member has the DISPID,
    /// or if it is a method.
    pub fn property(&self, id: i32) -> Option<Member<'a>>
        ensures found { result ≡ property_in self.now id }
        ensures bindable { IfSome result IsBindable }
    {
        self.is_sound();
        property(&self.forms_with(id))
    }

    /// Returns the DISPIDs of names, which are given in UTF-16 units (MS-OAUT section 3.1.4.3). The
    /// first name is that of a member. The others are names of its parameters, except a put's new
    /// value; the DISPID of a parameter is its position, counted from 0. Names are compared without
    /// regard to the case of A to Z; all other characters must be equal. An unknown name has the
    /// DISPID -1. If the member is unknown, all names are unknown. Err: an allocation fails.
    pub fn dispid(&self, names: &[Vec<u16>]) -> Result<DispIds, AllocError>
        ensures { IfOk result (λ found. found ≡ names_told self.now (map (λ n. n.items) names.now)) }
    {
        let ids = named_in(self.alloc, self, names)?;
        told(self.alloc, ids.as_slice())
    }
}
