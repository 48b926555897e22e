//! The codes of replies.
ghost use Rattle.std.specs.Prelude.{◌≡◌, ◌↔◌, IsTrue};
ghost use Rattle.oa_model.specs.promise.Codes.{s_ok};

/// The code of a reply: the 32 bits of an HRESULT (MS-ERREF section 2.1).
#[derive(Clone, Copy, Debug, PartialEq, Eq)]
pub struct HResult(pub u32);

impl HResult {
    /// Success.
    pub const S_OK: HResult = HResult(0);
    /// The request's riid is not the zero GUID.
    pub const DISP_E_UNKNOWNINTERFACE: HResult = HResult(0x8002_0001);
    /// The interface has no such member, or the member does not have the form that the call uses.
    pub const DISP_E_MEMBERNOTFOUND: HResult = HResult(0x8002_0003);
    /// The name of an argument is not that of a parameter.
    pub const DISP_E_PARAMNOTFOUND: HResult = HResult(0x8002_0004);
    /// A value does not have the required type and cannot be coerced to it.
    pub const DISP_E_TYPEMISMATCH: HResult = HResult(0x8002_0005);
    /// A name is unknown.
    pub const DISP_E_UNKNOWNNAME: HResult = HResult(0x8002_0006);
    /// A VARIANT has a type outside this server's profile.
    pub const DISP_E_BADVARTYPE: HResult = HResult(0x8002_0008);
    /// A value is outside the range of the required type.
    pub const DISP_E_OVERFLOW: HResult = HResult(0x8002_000A);
    /// An index is outside the bounds of an array, or there is no description with this index.
    pub const DISP_E_BADINDEX: HResult = HResult(0x8002_000B);
    /// The array is locked.
    pub const DISP_E_ARRAYISLOCKED: HResult = HResult(0x8002_000D);
    /// The call has more arguments than the member has parameters.
    pub const DISP_E_BADPARAMCOUNT: HResult = HResult(0x8002_000E);
    /// A required argument is missing.
    pub const DISP_E_PARAMNOTOPTIONAL: HResult = HResult(0x8002_000F);
    /// The member is a method; a type library contains no bodies of methods.
    pub const E_NOTIMPL: HResult = HResult(0x8000_4001);
    /// The coclass has no such interface.
    pub const E_NOINTERFACE: HResult = HResult(0x8000_4002);
    /// The store has stopped after an error of its device.
    pub const E_FAIL: HResult = HResult(0x8000_4005);
    /// A counter has reached its limit.
    pub const E_UNEXPECTED: HResult = HResult(0x8000_FFFF);
    /// An allocation failed; nothing has changed.
    pub const E_OUTOFMEMORY: HResult = HResult(0x8007_000E);
    /// The request's arguments contradict each other, or a value is too large.
    pub const E_INVALIDARG: HResult = HResult(0x8007_0057);
    /// There is no such object.
    pub const RPC_E_DISCONNECTED: HResult = HResult(0x8001_0108);
    /// The body is not a request: RPC_X_BAD_STUB_DATA as an HRESULT.
    pub const BAD_STUB_DATA: HResult = HResult(0x8007_06F7);
    /// The library has no such coclass.
    pub const REGDB_E_CLASSNOTREG: HResult = HResult(0x8004_0154);
    /// A write or a sync of the disk failed.
    pub const STG_E_WRITEFAULT: HResult = HResult(0x8003_001D);
    /// A read of the disk failed.
    pub const STG_E_READFAULT: HResult = HResult(0x8003_001E);
    /// The table would not fit the store.
    pub const STG_E_MEDIUMFULL: HResult = HResult(0x8003_0070);

    /// Returns whether this is S_OK, the only success code that this server returns.
    pub fn is_ok(self) -> bool
        ensures { IsTrue result ↔ (self ≡ s_ok) }
    {
        self == HResult::S_OK
    }
}
