//! Requests as Rust types.
use crate::{Arguments, ByCall, ByNumber, Dispids, Names, Query};
use oa_array::Indices;
use oa_model::Bound;
use oa_variant::Variant;
use uuid::Uuid;

/// A request, as a body encodes it (this project's choice).
#[derive(Debug, Drop)]
pub enum Request {
    /// Creates an object of a coclass.
    Create {
        /// The GUID of the coclass.
        class: Uuid,
    },
    /// A request whose only field is a number.
    ByNumber(ByNumber, u32),
    /// Looks up the DISPIDs of a member and of its parameters.
    GetIds(GetIds),
    /// A request whose fields are a call of a member of an object.
    ByCall(ByCall, Call),
    /// Reads an element of an array that is the value of a property.
    GetElement {
        /// The call that names the property.
        call: Call,
        /// The indices of the element, at most 16: one for each bound, in the order of the bounds.
        indices: Indices,
    },
    /// Sets an element of an array that is the value of a property.
    PutElement {
        /// The call that names the property.
        call: Call,
        /// The indices of the element, at most 16: one for each bound, in the order of the bounds.
        indices: Indices,
        /// The new value, which is not an argument of the call.
        value: Variant,
    },
    /// Replaces the first listed bound of an array that is the value of a property.
    Redimension {
        /// The call that names the property.
        call: Call,
        /// The new first listed bound (SAFEARRAYBOUND, MS-OAUT section 2.2.30.1).
        bound: Bound,
    },
    /// A request without fields.
    Query(Query),
}

/// A look-up of names (IDispatch::GetIDsOfNames, MS-OAUT section 3.1.4.3).
#[derive(Debug, Drop)]
pub struct GetIds {
    /// The number of the object.
    pub object: u32,
    /// The interface; the zero GUID means the default interface.
    pub interface: Uuid,
    /// The riid, which is reserved.
    pub riid: Uuid,
    /// The locale; any value is allowed.
    pub lcid: u32,
    /// The names to look up.
    pub names: Names,
}

/// The fields at the start of a call's head: the object, the member and how it is called
/// (IDispatch::Invoke, MS-OAUT section 3.1.4.4).
#[derive(Clone, Copy, Debug, PartialEq, Eq)]
pub struct CallHead {
    /// The number of the object.
    pub object: u32,
    /// The DISPID of the member.
    pub dispid: i32,
    /// The interface; the zero GUID means the default interface.
    pub interface: Uuid,
    /// The riid, which is reserved.
    pub riid: Uuid,
    /// The locale; any value is allowed.
    pub lcid: u32,
    /// How the member is called: 1 calls a method, 2 reads a property, 4 puts a property, 8 puts a
    /// property by reference.
    pub flags: u16,
}

/// A call of a member (IDispatch::Invoke, MS-OAUT section 3.1.4.4). Requests on elements, bounds
/// and locks of an array name its property by a call.
#[derive(Debug, Drop)]
pub struct Call {
    /// The object, the member and how it is called.
    pub head: CallHead,
    /// The DISPIDs of the named arguments, which come first in `arguments`. A body may have more
    /// DISPIDs than arguments.
    pub named: Dispids,
    /// The arguments.
    pub arguments: Arguments,
}

/// An INVOKE without arguments, or with one argument that is named DISPID_PROPERTYPUT (MS-OAUT
/// section 2.2.32.1). It needs no lists, so that no memory is allocated for them.
#[derive(Debug, Drop)]
pub struct ValueCall {
    /// The object, the member and how it is called.
    pub head: CallHead,
    /// The new value; None if there are no arguments.
    pub value: Option<Variant>,
}
