//! Opcodes of requests.
ghost use Rattle.std.specs.Prelude.{◌≡◌};
ghost use Rattle.oa_record.specs.promise.Opcodes.{opcode_number, opcode_named};
ghost use Rattle.oa_record.specs.Opcodes.{opcode_in};

use byteorder::{ByteOrder, LittleEndian};

/// The operation of a request, from the u16 at offset 4 of its body. Operations with the same
/// fields share a variant (this project's choice).
#[derive(Clone, Copy, Debug, PartialEq, Eq)]
pub enum Opcode {
    /// 1: create an object of a coclass, which a GUID names.
    Create,
    /// The operations whose only field is a number.
    ByNumber(ByNumber),
    /// 3: look up the DISPIDs of a member and of its parameters.
    GetIds,
    /// The operations whose fields are a call.
    ByCall(ByCall),
    /// 5: read an element of an array that is the value of a property.
    GetElement,
    /// 6: set an element of such an array.
    PutElement,
    /// 7: change the first listed bound of such an array.
    Redimension,
    /// The operations without fields.
    Query(Query),
    /// 12: replace the server's library by that of a text. `Request` has no variant for it, since
    /// its text is borrowed (see `is_replacement`).
    Replace,
}

/// An operation whose only field is a number.
#[derive(Clone, Copy, Debug, PartialEq, Eq)]
pub enum ByNumber {
    /// 2: release the object with this number.
    Release,
    /// 10: describe an interface or a coclass of the library. The number counts from 0 the
    /// interfaces in the order of the library's text, and after them the coclasses.
    TypeInfo,
}

/// An operation whose fields are a call of a member.
#[derive(Clone, Copy, Debug, PartialEq, Eq)]
pub enum ByCall {
    /// 4: call the member.
    Invoke,
    /// 8: lock the array that is the value of a property.
    Lock,
    /// 9: release a lock of such an array.
    Unlock,
}

/// An operation without fields. It is allowed at any time and changes nothing.
#[derive(Clone, Copy, Debug, PartialEq, Eq)]
pub enum Query {
    /// 11: list the live objects.
    Objects,
}

impl Opcode {
    /// Returns the number of the opcode, from 1 to 12.
    pub fn number(self) -> u16
        ensures { result ≡ opcode_number self }
    {
        match self {
            Opcode::Create => 1,
            Opcode::ByNumber(ByNumber::Release) => 2,
            Opcode::GetIds => 3,
            Opcode::ByCall(ByCall::Invoke) => 4,
            Opcode::GetElement => 5,
            Opcode::PutElement => 6,
            Opcode::Redimension => 7,
            Opcode::ByCall(ByCall::Lock) => 8,
            Opcode::ByCall(ByCall::Unlock) => 9,
            Opcode::ByNumber(ByNumber::TypeInfo) => 10,
            Opcode::Query(Query::Objects) => 11,
            Opcode::Replace => 12,
        }
    }

    /// Returns the opcode with a number, or None if no opcode has it.
    pub fn from_number(number: u16) -> Option<Opcode>
        ensures { result ≡ opcode_named number }
    {
        match number {
            1 => Some(Opcode::Create),
            2 => Some(Opcode::ByNumber(ByNumber::Release)),
            3 => Some(Opcode::GetIds),
            4 => Some(Opcode::ByCall(ByCall::Invoke)),
            5 => Some(Opcode::GetElement),
            6 => Some(Opcode::PutElement),
            7 => Some(Opcode::Redimension),
            8 => Some(Opcode::ByCall(ByCall::Lock)),
            9 => Some(Opcode::ByCall(ByCall::Unlock)),
            10 => Some(Opcode::ByNumber(ByNumber::TypeInfo)),
            11 => Some(Opcode::Query(Query::Objects)),
            12 => Some(Opcode::Replace),
            _ => None,
        }
    }
}

/// Returns the opcode at offset 4 of a body. None if the body has fewer than 8 bytes, or if no
/// opcode has this number.
pub fn opcode_of(body: &[u8]) -> Option<Opcode>
    ensures { result ≡ opcode_in body.now }
{
    if body.len() < 8 {
        None
    } else {
        Opcode::from_number(LittleEndian::read_u16(&body[4..]))
    }
}
