//! Why a tree is not a library.
ghost use Rattle.std.specs.Prelude.{◌≡◌, IfOk};
ghost use Rattle.oa_sema.specs.declared.fault.CheckError.TheVariants.{Memory};

use oa_idl::Name;
use std::alloc::{AllocError, AllocFailed, Global};
use std::fmt;
use std::fmt::{Debug, Display, Formatter, Write};
use std::marker::Model;
use thiserror::Error;
use uuid::Uuid;

/// A name, spelled as in the text, for an error message.
#[derive(Drop)]
pub struct WrittenName {
    name: Name,
}

impl Model for WrittenName {
    ghost use Rattle.std.specs.Prelude.{List, ℕ};

    ghost Value = { List ℕ };

    ghost view = { λ w. w.name };
}

impl WrittenName {
    /// Returns a copy of a name. Err: the allocation fails.
    pub(crate) fn copy(alloc: Global, name: &Name) -> Result<WrittenName, AllocError>
        ensures { IfOk result (λ w. w ≡ name.now) }
    {
        let bytes = name.as_bytes().to_vec(alloc)?;
        Ok(WrittenName {
            name: Name::from_bytes(bytes),
        })
    }

    /// Returns the bytes of the name.
    pub fn as_bytes(&self) -> &[u8]
        ensures { result.now ≡ self.now }
    {
        self.name.as_bytes()
    }
}

impl Display for WrittenName {
    fn fmt<W: Write>(&self, f: &mut Formatter<W>) -> fmt::Result {
        for byte in self.as_bytes() {
            f.write_char(char::from(*byte))?;
        }
        Ok(())
    }
}

impl Debug for WrittenName {
    fn fmt<W: Write>(&self, f: &mut Formatter<W>) -> fmt::Result {
        Display::fmt(self, f)
    }
}

/// Why a tree is not a library. An error contains the name or GUID of the later of two items that
/// clash, or the name of the parameter. Names are spelled as in the text.
#[derive(Debug, Drop, Error)]
pub enum CheckError {
    /// Two items of the library, two members of an interface, two parameters of a member or two
    /// entries of a coclass have the same name, without regard to the case of A to Z. The get and
    /// the put of a property have one name.
    #[error("duplicate name {0}")]
    DuplicateName(WrittenName),
    /// Two members of an interface have the same DISPID.
    #[error("duplicate id {0}")]
    DuplicateId(WrittenName),
    /// An interface or a coclass has the GUID of another one, or that of the library.
    #[error("duplicate guid {0}")]
    DuplicateGuid(Uuid),
    /// An entry of a coclass does not name an interface.
    #[error("unknown interface {0}")]
    UnknownInterface(WrittenName),
    /// The get and the put of a property differ in the DISPID, in the type of the property's value,
    /// or in a parameter's name, type, flags or default.
    #[error("get and put disagree {0}")]
    GetPutDisagree(WrittenName),
    /// A parameter of a property has an array type.
    #[error("array parameter {0}")]
    ArrayParameter(WrittenName),
    /// A parameter's default has no value of its type; or the new value of a put has a default or
    /// is optional.
    #[error("bad default {0}")]
    BadDefault(WrittenName),
    /// The canonical text has more than 262,144 bytes.
    #[error("limit text")]
    TextTooLong,
    /// An allocation fails.
    #[error("out of memory")]
    Memory,
}

impl From<AllocError> for CheckError {
    ghost from_gives = { λ _ e. e ≡ Memory };

    fn from(_error: AllocError) -> CheckError {
        CheckError::Memory
    }
}

impl<T: Drop> From<AllocFailed<T>> for CheckError {
    ghost from_gives = { λ _ e. e ≡ Memory };

    fn from(_error: AllocFailed<T>) -> CheckError {
        CheckError::Memory
    }
}
