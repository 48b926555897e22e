//! Properties of interfaces, as a call uses them.
ghost use Rattle.std.specs.Prelude.{◌≡◌, map, option_copied, slice_get};
ghost use Rattle.std.specs.Option.{option_and_then, option_map};
ghost use Rattle.oa_sema.specs.promise.Declarations.{type_of_value};
ghost use Rattle.oa_sema.specs.promise.Defaults.{default_value};
ghost use Rattle.oa_typelib.specs.promise.Members.{answer, has_form, main_form, property_of, property_with};

use crate::access::{Access, Kind, MemberFault, is_method};
use crate::forms::{Form, Forms};
use oa_idl::{Name, Parameter};
use oa_model::ValueType;
use oa_variant::Scalar;
use std::marker::Model;

/// A property of an interface. If it is declared by a get and a put, its name and parameters are
/// those of the get.
#[derive(Drop)]
pub struct Member<'a> {
    /// The DISPID.
    pub id: i32,
    /// The name, spelled as in the text.
    pub name: &'a Name,
    /// The type of the property's value, which is the type of a put's new value.
    pub value_type: ValueType,
    /// The parameters, without the new value of a put.
    pub parameters: &'a [Parameter],
    /// The values of the parameters' defaults.
    defaults: &'a [Option<Scalar>],
    /// Whether the property can be read.
    pub has_get: bool,
    /// Whether the property can be set.
    pub has_put: bool,
}

impl<'a> Model for Member<'a> {
    ghost use Rattle.std.specs.Prelude.{◌≡◌, map};
    ghost use Rattle.oa_sema.specs.promise.Defaults.{default_value};
    ghost use Rattle.oa_typelib.specs.promise.MemberValues.{MemberValue};

    ghost Value = { MemberValue };

    ghost view = { λ m. record {
      id = m.id;
      name = m.name.now;
      value_type = m.value_type;
      parameters = m.parameters.now;
      has_get = m.has_get;
      has_put = m.has_put;
    } };

    ghost invariant = { λ m. m.defaults.now ≡ map default_value m.parameters.now };
}

impl<'a> Member<'a> {
    /// Makes the property of these declarations; `main` has its name and parameters. None if `main`
    /// has no type.
    pub(crate) fn of(forms: &Forms<'a>, main: &Form<'a>) -> Option<Member<'a>>
        ensures { result ≡ option_map (property_of forms.now main.now) (type_of_value main.now) }
    {
        let declaration = &main.declaration;
        Some(Member {
            id: declaration.id,
            name: declaration.name,
            value_type: declaration.type_of_value()?,
            parameters: declaration.own_parameters(),
            defaults: main.own_defaults(),
            has_get: forms.any_lets(Kind::Get),
            has_put: forms.any_lets(Kind::Put),
        })
    }

    /// Returns whether the property has the form.
    pub(crate) fn has(&self, kind: Kind) -> bool
        ensures { result ≡ has_form self.now kind }
    {
        match kind {
            Kind::Get => self.has_get,
            Kind::Put => self.has_put,
        }
    }

    /// Returns for each parameter the value of its default, converted to the declared type; for
    /// VARIANT an I4, a BSTR or a BOOL. None if it has no default.
    pub fn defaults(&self) -> &'a [Option<Scalar>]
        ensures { result.now ≡ map default_value self.now.parameters }
    {
        self.defaults
    }

    /// Returns the value of the default of the parameter at a place, counted from 0. None if it has
    /// no default, or if there is no such parameter.
    pub fn default(&self, place: usize) -> Option<&'a Scalar>
        ensures { option_copied result ≡ option_and_then default_value (slice_get self.now.parameters place) }
    {
        match self.defaults().get(place)? {
            Some(value) => Some(value),
            None => None,
        }
    }
}

/// Returns the property of these declarations. None if they are a method, or if there are none.
pub(crate) fn property<'a>(forms: &Forms<'a>) -> Option<Member<'a>>
    ensures { result ≡ property_with (main_form forms.now) forms.now }
{
    let main = forms.main()?;
    if is_method(main.declaration.kind) {
        return None;
    }
    Member::of(forms, &main)
}

/// Returns the property of these declarations and the form of it that a call uses. Errors are those
/// of `Dispinterface::member`.
pub(crate) fn find<'a>(forms: &Forms<'a>, access: Access) -> Result<(Member<'a>, Kind), MemberFault>
    ensures { result ≡ answer (main_form forms.now) forms.now access }
{
    let Some(main) = forms.main() else {
        return Err(MemberFault::MemberNotFound);
    };
    if is_method(main.declaration.kind) {
        return Err(access.of_method());
    }
    let Some(member) = Member::of(forms, &main) else {
        return Err(MemberFault::MemberNotFound);
    };
    let Some(kind) = access.kind() else {
        return Err(MemberFault::MemberNotFound);
    };
    if member.has(kind) {
        Ok((member, kind))
    } else {
        Err(MemberFault::MemberNotFound)
    }
}
