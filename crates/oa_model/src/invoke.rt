//! Constants of IDispatch::Invoke and of type information, as MS-OAUT defines them.

/// DISPATCH_METHOD, a flag of a call (MS-OAUT section 3.1.4.4).
pub const METHOD_FLAG: u16 = 1;
/// DISPATCH_PROPERTYGET, a flag of a call.
pub const GET_FLAG: u16 = 2;
/// DISPATCH_PROPERTYPUT, a flag of a call.
pub const PUT_FLAG: u16 = 4;
/// DISPATCH_PROPERTYPUTREF, a flag of a call.
pub const PUT_REF_FLAG: u16 = 8;
/// DISPID_UNKNOWN: the DISPID of an unknown name (MS-OAUT section 2.2.32.1).
pub const UNKNOWN_DISPID: i32 = -1;
/// DISPID_PROPERTYPUT: the DISPID that names the new value of a property among the arguments
/// (MS-OAUT section 2.2.32.1).
pub const PROPERTY_PUT_DISPID: i32 = -3;
/// INVOKE_FUNC (INVOKEKIND, MS-OAUT section 2.2.14).
pub const INVOKE_METHOD: u16 = 1;
/// INVOKE_PROPERTYGET.
pub const INVOKE_GET: u16 = 2;
/// INVOKE_PROPERTYPUT.
pub const INVOKE_PUT: u16 = 4;
/// TKIND_DISPATCH: a description of an interface.
pub const INTERFACE_KIND: u32 = 4;
/// TKIND_COCLASS: a description of a coclass.
pub const COCLASS_KIND: u32 = 5;
/// VARFLAG_FREADONLY, a flag of a property (MS-OAUT section 2.2.18).
pub const READONLY_FLAG: u16 = 1;
/// PARAMFLAG_FIN, a flag of a parameter (MS-OAUT section 2.2.15).
pub const IN_FLAG: u16 = 1;
/// PARAMFLAG_FOPT, a flag of a parameter.
pub const OPTIONAL_FLAG: u16 = 0x10;
/// PARAMFLAG_FHASDEFAULT, a flag of a parameter.
pub const HAS_DEFAULT_FLAG: u16 = 0x20;
/// IMPLTYPEFLAG_FDEFAULT: marks the default interface among the entries of a coclass.
pub const DEFAULT_FLAG: u32 = 1;
/// VT_ARRAY, which is added to the number of the elements' type (MS-OAUT section 2.2.7).
pub const VT_ARRAY: u16 = 0x2000;
/// VT_I4: the type of a long (MS-OAUT section 2.2.7).
pub const VT_I4: u16 = 3;
/// VT_VOID: the type of a method without a result.
pub const VT_VOID: u16 = 24;
