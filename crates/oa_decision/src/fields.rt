//! The fields of a reply.
ghost use Rattle.std.specs.Prelude.{◌≡◌, ◌≤◌, [], length};
ghost use Rattle.oa_record.specs.Replies.{max_fields_bytes};

use std::alloc::Global;
use std::marker::Model;

/// The bytes of a reply's fields, at most `MAX_FIELDS_BYTES`.
#[derive(Drop)]
pub struct Fields {
    bytes: Vec<u8>,
}

impl Model for Fields {
    ghost use Rattle.std.specs.Prelude.{List, ℕ, ◌≤◌, length};
    ghost use Rattle.oa_record.specs.Replies.{max_fields_bytes};

    ghost Value = { List ℕ };

    ghost view = { λ f. f.bytes.items };

    ghost invariant = { λ f. length f.bytes.items ≤ max_fields_bytes };
}

impl Fields {
    /// Makes fields of these bytes, of which a reply can have that many.
    pub(crate) fn new(bytes: Vec<u8>) -> Fields
        requires { length bytes.items ≤ max_fields_bytes }
        ensures { result ≡ bytes.items }
    {
        Fields { bytes }
    }

    /// Makes no fields. Allocates nothing.
    pub fn none(alloc: Global) -> Fields
        ensures { result ≡ [] }
    {
        Fields {
            bytes: Vec::new(alloc),
        }
    }

    /// Returns their bytes.
    pub fn into_vec(self) -> Vec<u8>
        ensures value { result.items ≡ self }
        ensures small { length result.items ≤ max_fields_bytes }
    {
        let Fields { bytes } = self;
        bytes
    }
}
