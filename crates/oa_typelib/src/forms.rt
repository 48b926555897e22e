//! The declarations of a member.
ghost use Rattle.std.specs.Prelude.{◌≡◌, is_some, map, slice_get};
ghost use Rattle.std.specs.List.{filter_map};
ghost use Rattle.oa_sema.specs.promise.Declarations.{declarations, own_parameters};
ghost use Rattle.oa_sema.specs.promise.Defaults.{default_value};
ghost use Rattle.oa_sema.specs.Defaults.{defaults_of};
ghost use Rattle.oa_typelib.specs.promise.Members.{form_for, main_form};

use crate::access::{Kind, lets};
use crate::dispinterface::Dispinterface;
use oa_idl::Interface;
use oa_sema::Declaration;
use oa_variant::Scalar;
use std::marker::Model;

/// Returns the declaration of an interface at a place, counted from 0: first the properties in the
/// text's order, then the methods. None if there are fewer.
pub(crate) fn declaration_at(interface: &Interface, place: usize) -> Option<Declaration<'_>>
    ensures { result ≡ slice_get (declarations interface.now) place }
{
    let properties = interface.properties.as_slice();
    if place < properties.len() {
        Some(Declaration::of_property(&properties[place]))
    } else {
        let method = interface.methods.get(place - properties.len())?;
        Some(Declaration::of_method(method))
    }
}

/// A declaration with the values of its parameters' defaults.
#[derive(Drop)]
pub struct Form<'a> {
    /// The declaration.
    pub declaration: Declaration<'a>,
    defaults: &'a [Option<Scalar>],
}

impl<'a> Model for Form<'a> {
    ghost use Rattle.std.specs.Prelude.{◌≡◌};
    ghost use Rattle.oa_sema.specs.promise.DeclarationValues.{DeclarationValue};
    ghost use Rattle.oa_sema.specs.Defaults.{defaults_of};

    ghost Value = { DeclarationValue };

    ghost view = { λ f. f.declaration };

    ghost invariant = { λ f. f.defaults.now ≡ defaults_of f.declaration };
}

impl<'a> Form<'a> {
    /// Makes a form from a declaration and the values of its parameters' defaults.
    pub(crate) fn of(declaration: Declaration<'a>, defaults: &'a [Option<Scalar>]) -> Form<'a>
        requires { defaults.now ≡ defaults_of declaration }
        ensures { result ≡ declaration.entry }
    {
        Form {
            declaration,
            defaults,
        }
    }

    /// Returns the values of the parameters' defaults; None for a parameter without one.
    pub(crate) fn defaults(&self) -> &'a [Option<Scalar>]
        ensures { result.now ≡ defaults_of self.now }
    {
        self.defaults
    }

    /// Returns the values of the parameters' defaults, without the new value of a put; None for a
    /// parameter without one.
    pub(crate) fn own_defaults(&self) -> &'a [Option<Scalar>]
        ensures { result.now ≡ map default_value (own_parameters self.now) }
    {
        self.declaration.own_values(self.defaults)
    }
}

/// Returns the first declaration at these places; None if there is none.
fn first_at<'a>(interface: &Dispinterface<'a>, places: &[usize]) -> Option<Form<'a>>
    ensures { result ≡ slice_get (filter_map (slice_get (declarations interface.now)) places.now) 0 }
{
    let (place, places) = places.split_first()?;
    match interface.form(*place) {
        Some(form) => Some(form),
        None => first_at(interface, places),
    }
}

/// Returns the first declaration at these places that has the form `kind`; None if there is none.
fn form_at<'a>(interface: &Dispinterface<'a>, places: &[usize], kind: Kind) -> Option<Form<'a>>
    ensures { result ≡ form_for kind (filter_map (slice_get (declarations interface.now)) places.now) }
{
    let (place, places) = places.split_first()?;
    let Some(form) = interface.form(*place) else {
        return form_at(interface, places, kind);
    };
    if lets(form.declaration.kind, kind) {
        Some(form)
    } else {
        form_at(interface, places, kind)
    }
}

/// Returns whether some declaration at these places has the form `kind`. Reads only the kinds of
/// the declarations.
fn any_lets(interface: &Dispinterface<'_>, places: &[usize], kind: Kind) -> bool
    ensures { result ≡ is_some (form_for kind (filter_map (slice_get (declarations interface.now)) places.now)) }
{
    let Some((place, places)) = places.split_first() else {
        return false;
    };
    match interface.kind_at(*place) {
        Some(found) => lets(found, kind) || any_lets(interface, places, kind),
        None => any_lets(interface, places, kind),
    }
}

/// Some declarations of an interface, by their places.
#[derive(Drop)]
pub(crate) struct Forms<'a> {
    interface: Dispinterface<'a>,
    places: &'a [usize],
}

impl<'a> Model for Forms<'a> {
    ghost use Rattle.std.specs.Prelude.{List, slice_get};
    ghost use Rattle.std.specs.List.{filter_map};
    ghost use Rattle.oa_sema.specs.promise.DeclarationValues.{DeclarationValue};
    ghost use Rattle.oa_sema.specs.promise.Declarations.{declarations};

    ghost Value = { List DeclarationValue };

    ghost view = { λ f. filter_map (slice_get (declarations f.interface)) f.places.now };
}

impl<'a> Forms<'a> {
    /// Makes the list of the declarations at these places.
    pub(crate) fn at(interface: Dispinterface<'a>, places: &'a [usize]) -> Forms<'a>
        ensures { result ≡ filter_map (slice_get (declarations interface.entry)) places.now }
    {
        Forms { interface, places }
    }

    /// Returns the first declaration that has the form `kind`; None if there is none.
    pub(crate) fn form_for(&self, kind: Kind) -> Option<Form<'a>>
        ensures { result ≡ form_for kind self.now }
    {
        form_at(&self.interface, self.places, kind)
    }

    /// Returns whether some declaration has the form `kind`.
    pub(crate) fn any_lets(&self, kind: Kind) -> bool
        ensures { result ≡ is_some (form_for kind self.now) }
    {
        any_lets(&self.interface, self.places, kind)
    }

    /// Returns the declaration whose name and parameters are those of the member: the first that
    /// can be read, otherwise the first. None if there is none.
    pub(crate) fn main(&self) -> Option<Form<'a>>
        ensures { result ≡ main_form self.now }
    {
        match self.form_for(Kind::Get) {
            Some(form) => Some(form),
            None => first_at(&self.interface, self.places),
        }
    }
}
