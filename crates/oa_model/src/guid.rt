//! GUIDs on the wire.
ghost use Rattle.std.specs.Prelude.{◌≡◌, length};
ghost use Rattle.oa_model.specs.promise.Guids.{wire_order};

use uuid::Uuid;

/// Returns the 16 bytes of a GUID on the wire (MS-DTYP section 2.3.4.2): its u32, u16 and u16
/// little-endian, followed by eight bytes in the printed order.
pub fn guid_to_wire(guid: &Uuid) -> [u8; 16]
    ensures { result ≡ wire_order guid.now }
{
    guid.to_bytes_le()
}

/// Returns the GUID with these 16 bytes on the wire (MS-DTYP section 2.3.4.2).
pub fn guid_from_wire(bytes: [u8; 16]) -> Uuid
    ensures value { result ≡ wire_order bytes }
    ensures back { wire_order result ≡ bytes }
    ensures len { length result ≡ 16 }
{
    Uuid::from_bytes_le(bytes)
}
