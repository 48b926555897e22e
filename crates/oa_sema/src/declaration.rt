//! The declarations of an interface.
ghost use Rattle.std.specs.Prelude.{◌≡◌, ◌++◌, IfOk, OnOk, map, option_copied};
ghost use Rattle.oa_sema.specs.promise.Declarations.{kind_of_property, kind_of_method, of_property, of_method};
ghost use Rattle.oa_sema.specs.promise.Declarations.{declarations, is_put, is_get_or_put, own_parameters, new_value};
ghost use Rattle.oa_sema.specs.promise.Declarations.{type_of_value};
ghost use Rattle.oa_sema.specs.promise.Defaults.{default_value};
ghost use Rattle.oa_sema.specs.Defaults.{defaults_of};

use oa_idl::{Interface, Method, MethodKind, Name, Parameter, Property};
use oa_model::ValueType;
use oa_variant::Scalar;
use std::alloc::{AllocError, Global};
use std::marker::Model;

/// The kind of a declaration (MS-OAUT sections 2.2.14 and 2.2.18: INVOKEKIND, VARFLAG_FREADONLY).
#[derive(Clone, Copy, Debug, PartialEq, Eq)]
pub enum DeclarationKind {
    /// A property of `properties:` that can be read and set.
    Property,
    /// A property of `properties:` that can only be read.
    ReadonlyProperty,
    /// A method.
    Method,
    /// The get of a property.
    Get,
    /// The put of a property. Its last parameter is the new value.
    Put,
}

impl DeclarationKind {
    /// Returns the kind of a property of `properties:`.
    fn of_property(readonly: bool) -> DeclarationKind
        ensures { result ≡ kind_of_property readonly }
    {
        if readonly {
            DeclarationKind::ReadonlyProperty
        } else {
            DeclarationKind::Property
        }
    }

    /// Returns the kind of a member of `methods:`.
    fn of_method(kind: MethodKind) -> DeclarationKind
        ensures { result ≡ kind_of_method kind }
    {
        match kind {
            MethodKind::Method => DeclarationKind::Method,
            MethodKind::Get => DeclarationKind::Get,
            MethodKind::Put => DeclarationKind::Put,
        }
    }

    /// Returns whether it is a put.
    pub fn is_put(self) -> bool
        ensures { result ≡ is_put self }
    {
        matches!(self, DeclarationKind::Put)
    }

    /// Returns whether it is a get or a put.
    pub(crate) fn is_form(self) -> bool
        ensures { result ≡ is_get_or_put self }
    {
        matches!(self, DeclarationKind::Get | DeclarationKind::Put)
    }
}

/// A declaration of an interface: a property of `properties:`, or a method, a get or a put of
/// `methods:`.
#[derive(Drop)]
pub struct Declaration<'a> {
    /// The DISPID.
    pub id: i32,
    /// The name, spelled as in the text.
    pub name: &'a Name,
    /// The kind.
    pub kind: DeclarationKind,
    /// The type in the text; None is void.
    pub value_type: Option<ValueType>,
    /// The parameters in the text. The last one of a put is the new value.
    pub parameters: &'a [Parameter],
}

impl<'a> Model for Declaration<'a> {
    ghost use Rattle.oa_sema.specs.promise.DeclarationValues.{DeclarationValue};

    ghost Value = { DeclarationValue };

    ghost view = { λ d. record { id = d.id; name = d.name.now; kind = d.kind; value_type = d.value_type; parameters = d.parameters.now } };
}

impl<'a> Declaration<'a> {
    /// Makes the declaration of a property of `properties:`, which has no parameters.
    pub fn of_property(property: &'a Property) -> Declaration<'a>
        ensures { result ≡ of_property property.now }
    {
        Declaration {
            id: property.id,
            name: &property.name,
            kind: DeclarationKind::of_property(property.readonly),
            value_type: Some(property.value_type),
            parameters: &[],
        }
    }

    /// Makes the declaration of a method, a get or a put of `methods:`.
    pub fn of_method(method: &'a Method) -> Declaration<'a>
        ensures { result ≡ of_method method.now }
    {
        Declaration {
            id: method.id,
            name: &method.name,
            kind: DeclarationKind::of_method(method.kind),
            value_type: method.value_type,
            parameters: method.parameters.as_slice(),
        }
    }

    /// Returns the parameters without the new value of a put.
    pub fn own_parameters(&self) -> &'a [Parameter]
        ensures { result.now ≡ own_parameters self.now }
    {
        if self.kind.is_put() {
            &self.parameters[..self.parameters.len().saturating_sub(1)]
        } else {
            self.parameters
        }
    }

    /// Returns the values of the defaults of `own_parameters`, from those of all parameters; None
    /// for a parameter without a default.
    pub fn own_values<'b>(&self, defaults: &'b [Option<Scalar>]) -> &'b [Option<Scalar>]
        requires { defaults.now ≡ defaults_of self.now }
        ensures { result.now ≡ map default_value (own_parameters self.now) }
    {
        if self.kind.is_put() {
            &defaults[..defaults.len().saturating_sub(1)]
        } else {
            defaults
        }
    }

    /// Returns the new value of a put, its last parameter; None if it is no put.
    pub(crate) fn new_value(&self) -> Option<&'a Parameter>
        ensures { option_copied result ≡ new_value self.now }
    {
        if self.kind.is_put() {
            self.parameters.get(self.parameters.len().saturating_sub(1))
        } else {
            None
        }
    }

    /// Returns the type of the property's value, which of a put is the type of its new value; or
    /// the type of a method's result. None is void.
    pub fn type_of_value(&self) -> Option<ValueType>
        ensures { result ≡ type_of_value self.now }
    {
        if self.kind.is_put() {
            Some(self.new_value()?.value_type)
        } else {
            self.value_type
        }
    }
}

/// Returns the declarations of the section `properties:`. Err: an allocation fails.
fn of_properties<'a>(
    alloc: Global,
    properties: &'a [Property],
) -> Result<Vec<Declaration<'a>>, AllocError>
    ensures { IfOk result (λ v. v.items ≡ map of_property properties.now) }
{
    let mut all = Vec::new(alloc);
    for property in properties {
        all.push(Declaration::of_property(property))?;
    }
    Ok(all)
}

/// Appends the declarations of the section `methods:`. Err: an allocation fails.
fn add_methods<'a>(all: &mut Vec<Declaration<'a>>, methods: &'a [Method]) -> Result<(), AllocError>
    ensures { OnOk result (all.new.items ≡ all.old.items ++ map of_method methods.now) }
{
    for method in methods {
        all.push(Declaration::of_method(method))?;
    }
    Ok(())
}

/// Returns the declarations of an interface: the properties followed by the methods, each in the
/// text's order. Err: an allocation fails.
pub fn declarations(
    alloc: Global,
    interface: &Interface,
) -> Result<Vec<Declaration<'_>>, AllocError>
    ensures { IfOk result (λ v. v.items ≡ declarations interface.now) }
{
    let mut all = of_properties(alloc, interface.properties.as_slice())?;
    add_methods(&mut all, interface.methods.as_slice())?;
    Ok(all)
}
