//! GUIDs as pairs of u64, so that two are compared without a loop over their bytes.
ghost use Rattle.std.specs.Prelude.{◌≡◌, length, take, drop, position, IfNone, IfSome, None, Some};
ghost use Rattle.std.specs.Int.{from_le_bytes, to_le_bytes, w64};
ghost use Rattle.oa_sema.specs.promise.Libraries.{item_guid, same};
ghost use Rattle.uuid.specs.Parts.{is_nil_bytes};

use crate::checks::item_guid;
use oa_idl::Item;
use uuid::Uuid;

/// The number of items that are compared before a hash of all GUIDs is used.
const FRONT: usize = 8;

/// Returns the u64 of 8 bytes, little-endian.
fn number(bytes: &[u8]) -> u64
    requires { length bytes.now ≡ 8 }
    ensures number { result ≡ from_le_bytes w64 bytes.now }
    ensures bytes { to_le_bytes w64 result ≡ bytes.now }
{
    u64::from_le_bytes([
        bytes[0], bytes[1], bytes[2], bytes[3], bytes[4], bytes[5], bytes[6], bytes[7],
    ])
}

/// Returns the two halves of a GUID as numbers.
fn halves(guid: &Uuid) -> (u64, u64)
    ensures numbers { result ≡ (from_le_bytes w64 (take 8 guid.now), from_le_bytes w64 (drop 8 guid.now)) }
    ensures first { to_le_bytes w64 result.0 ≡ take 8 guid.now }
    ensures second { to_le_bytes w64 result.1 ≡ drop 8 guid.now }
{
    let (first, second) = guid.as_bytes().split_at(8);
    (number(first), number(second))
}

/// Returns whether two GUIDs are equal.
fn is_same(one: &Uuid, other: &Uuid) -> bool
    ensures { result ≡ same one.now other.now }
{
    let (first, second) = halves(one);
    let (other_first, other_second) = halves(other);
    first == other_first && second == other_second
}

/// Returns whether it is the zero GUID.
pub fn is_zero_guid(guid: &Uuid) -> bool
    ensures { result ≡ is_nil_bytes guid.now }
{
    is_same(guid, &Uuid::nil())
}

/// Returns the place, counted from 0, of the item with a GUID; None if it is not one of the first
/// eight items. So an item of a small library is found without hashing.
pub fn place_in_front(items: &[Item], guid: &Uuid) -> Option<usize>
    ensures found { IfSome result (λ place. position (λ i. same guid.now (item_guid i)) items.now ≡ Some place) }
    ensures none { IfNone result (position (λ i. same guid.now (item_guid i)) (take 8 items.now) ≡ None) }
{
    'items: for place in 0..items.len().min(FRONT) {
        if is_same(guid, &item_guid(&items[place])) {
            return Some(place);
        }
    }
    None
}
