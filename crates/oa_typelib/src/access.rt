//! Which form of a member a call uses, and why there may be none.
ghost use Rattle.std.specs.Prelude.{◌≡◌};
ghost use Rattle.oa_typelib.specs.promise.Members.{is_method, kind_asked, lets, method_fault};

use oa_model::{GET_FLAG, METHOD_FLAG, PUT_FLAG};
use oa_sema::DeclarationKind;
use thiserror::Error;

/// The form of a property that a call uses.
#[derive(Clone, Copy, Debug, PartialEq, Eq)]
pub enum Kind {
    /// The call reads the property.
    Get,
    /// The call sets the property.
    Put,
}

/// How a call chooses the form of the property.
#[derive(Clone, Copy, Debug, PartialEq, Eq)]
pub enum Access {
    /// By the flags of a call of Invoke (MS-OAUT section 3.1.4.4): METHOD 1, PROPERTYGET 2,
    /// PROPERTYPUT 4, PROPERTYPUTREF 8.
    Flags(u16),
    /// The get form, whatever the flags are.
    Get,
    /// The put form, whatever the flags are.
    Put,
}

impl Access {
    /// Returns the form of the property that the call uses. With flags: a put if PROPERTYPUT is
    /// set, otherwise a get if PROPERTYGET is set, otherwise None. Other bits are ignored.
    pub fn kind(self) -> Option<Kind>
        ensures { result ≡ kind_asked self }
    {
        match self {
            Access::Flags(flags) => {
                if flags & PUT_FLAG != 0 {
                    Some(Kind::Put)
                } else if flags & GET_FLAG != 0 {
                    Some(Kind::Get)
                } else {
                    None
                }
            }
            Access::Get => Some(Kind::Get),
            Access::Put => Some(Kind::Put),
        }
    }

    /// Returns the error of a call of a method: `NotImplemented` if METHOD is set and PROPERTYPUT
    /// is not, otherwise `MemberNotFound`.
    pub(crate) fn of_method(self) -> MemberFault
        ensures { result ≡ method_fault self }
    {
        match self {
            Access::Flags(flags) => {
                if flags & METHOD_FLAG != 0 && flags & PUT_FLAG == 0 {
                    MemberFault::NotImplemented
                } else {
                    MemberFault::MemberNotFound
                }
            }
            Access::Get | Access::Put => MemberFault::MemberNotFound,
        }
    }
}

/// Returns whether a declaration of this kind has the form `kind`.
pub(crate) fn lets(declared: DeclarationKind, kind: Kind) -> bool
    ensures { result ≡ lets kind declared }
{
    match kind {
        Kind::Get => matches!(
            declared,
            DeclarationKind::Property | DeclarationKind::ReadonlyProperty | DeclarationKind::Get
        ),
        Kind::Put => matches!(declared, DeclarationKind::Property | DeclarationKind::Put),
    }
}

/// Returns whether a declaration of this kind is a method.
pub(crate) fn is_method(declared: DeclarationKind) -> bool
    ensures { result ≡ is_method declared }
{
    matches!(declared, DeclarationKind::Method)
}

/// Why a call finds no member.
#[derive(Clone, Copy, Debug, PartialEq, Eq, Error)]
pub enum MemberFault {
    /// The interface has no member with that DISPID, or the member does not have the form that the
    /// call uses (DISP_E_MEMBERNOTFOUND).
    #[error("member not found")]
    MemberNotFound,
    /// The call is that of a method: a library contains no bodies of methods (E_NOTIMPL).
    #[error("not implemented")]
    NotImplemented,
}
