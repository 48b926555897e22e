//! The parts of the descriptions of interfaces and coclasses.
ghost use Rattle.std.specs.Prelude.{◌≡◌};
ghost use Rattle.oa_typelib.specs.declared.described.DescribeError.TheVariants.{Memory};

use oa_idl::Name;
use oa_model::ValueType;
use oa_sema::DeclarationKind;
use oa_variant::Scalar;
use std::alloc::AllocError;
use std::marker::Model;
use thiserror::Error;

/// The description of a parameter of a member.
#[derive(Drop)]
pub struct DescribedParameter<'a> {
    /// The declared type.
    pub value_type: ValueType,
    /// Whether it is declared `in` (PARAMFLAG_FIN, MS-OAUT section 2.2.15).
    pub is_in: bool,
    /// Whether a call may omit it (PARAMFLAG_FOPT): it is declared `optional`, or it has a default.
    pub is_optional: bool,
    /// The name, spelled as in the text.
    pub name: &'a Name,
    /// The value of the default (PARAMFLAG_FHASDEFAULT), converted to the declared type; for
    /// VARIANT an I4, a BSTR or a BOOL.
    pub default: Option<&'a Scalar>,
}

impl<'a> Model for DescribedParameter<'a> {
    ghost use Rattle.std.specs.Prelude.{option_copied};
    ghost use Rattle.oa_typelib.specs.promise.DescriptionValues.{ParameterDescription};

    ghost Value = { ParameterDescription };

    ghost view = { λ p. record {
      value_type = p.value_type;
      is_in = p.is_in;
      is_optional = p.is_optional;
      name = p.name.now;
      default = option_copied p.default;
    } };
}

/// The description of a declaration: a property of `properties:`, or a method, a get or a put of
/// `methods:`.
#[derive(Drop)]
pub struct DescribedMember<'a> {
    /// The DISPID.
    pub id: i32,
    /// Whether it is a property, a method, a get or a put.
    pub kind: DeclarationKind,
    /// The declared type; None is void.
    pub value_type: Option<ValueType>,
    /// The name, spelled as in this declaration.
    pub name: &'a Name,
    /// The parameters in the text's order. The last one of a put is the new value.
    pub parameters: Vec<DescribedParameter<'a>>,
}

impl<'a> Model for DescribedMember<'a> {
    ghost use Rattle.oa_typelib.specs.promise.DescriptionValues.{MemberDescription};

    ghost Value = { MemberDescription };

    ghost view = { λ m. record {
      id = m.id;
      kind = m.kind;
      value_type = m.value_type;
      name = m.name.now;
      parameters = m.parameters.items;
    } };
}

/// The description of an entry of a coclass.
#[derive(Drop)]
pub struct DescribedEntry {
    /// Whether it is the coclass's default interface.
    pub is_default: bool,
    /// The index of the interface among the descriptions.
    pub interface: u32,
}

impl Model for DescribedEntry {
    ghost use Rattle.oa_typelib.specs.promise.DescriptionValues.{EntryDescription};

    ghost Value = { EntryDescription };

    ghost view = { λ e. record { is_default = e.is_default; interface = e.interface } };
}

/// The content of a description.
#[derive(Drop)]
pub enum Content<'a> {
    /// The members of an interface, in the order in which their names first appear, a get before
    /// its put.
    Interface(Vec<DescribedMember<'a>>),
    /// The entries of a coclass in the text's order.
    Coclass(Vec<DescribedEntry>),
}

/// Why there is no description.
#[derive(Clone, Copy, Debug, PartialEq, Eq, Error)]
pub enum DescribeError {
    /// The library has no interface or coclass with that index (DISP_E_BADINDEX).
    #[error("bad index")]
    BadIndex,
    /// An allocation fails (E_OUTOFMEMORY).
    #[error("out of memory")]
    Memory,
}

impl From<AllocError> for DescribeError {
    ghost from_gives = { λ _ e. e ≡ Memory };

    fn from(_error: AllocError) -> DescribeError {
        DescribeError::Memory
    }
}
