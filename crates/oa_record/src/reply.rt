//! Replies.
ghost use Rattle.std.specs.Prelude.{◌≡◌, ◌≤◌, [], length};
ghost use Rattle.oa_record.specs.Replies.{max_fields_bytes};
ghost use Rattle.oa_record.specs.promise.Replies.{reply_head};

use oa_model::HResult;
use std::alloc::Global;
use std::marker::Model;

/// A reply: the tag of its request, a code, the index in rgvarg of the argument that the code is
/// about, and the fields. These have at most 4,294,967,275 bytes.
#[derive(Debug, Drop)]
pub struct Reply {
    tag: u32,
    code: HResult,
    index: Option<u32>,
    body: Vec<u8>,
}

impl Model for Reply {
    ghost use Rattle.std.specs.Prelude.{◌≤◌, length};
    ghost use Rattle.oa_record.specs.promise.Replies.{ReplyValue};
    ghost use Rattle.oa_record.specs.Replies.{max_fields_bytes};

    ghost Value = { ReplyValue };

    ghost view = { λ r. record { tag = r.tag; code = r.code; index = r.index; body = r.body.items } };

    ghost invariant = { λ r. length r.body.items ≤ max_fields_bytes };
}

impl Reply {
    /// Makes a reply with the tag of its request, a code, and these fields, at most 4,294,967,275
    /// bytes. `index` is that of the argument in rgvarg that the code is about; None if it is about
    /// none.
    pub fn new(tag: u32, code: HResult, index: Option<u32>, body: Vec<u8>) -> Reply
        requires { length body.items ≤ max_fields_bytes }
        ensures { result ≡ record { tag = tag; code = code; index = index; body = body.items } }
    {
        Reply {
            tag,
            code,
            index,
            body,
        }
    }

    /// Makes a reply without fields, such as a refusal; tag, code and index are as of `new`.
    /// Allocates nothing.
    pub fn bare(alloc: Global, tag: u32, code: HResult, index: Option<u32>) -> Reply
        ensures { result ≡ record { tag = tag; code = code; index = index; body = [] } }
    {
        Reply::new(tag, code, index, Vec::new(alloc))
    }

    /// Returns the tag of the request.
    pub fn tag(&self) -> u32
        ensures { result ≡ self.now.tag }
    {
        self.tag
    }

    /// Returns the code.
    pub fn code(&self) -> HResult
        ensures { result ≡ self.now.code }
    {
        self.code
    }

    /// Returns the index in rgvarg of the argument that the code is about; None if it is about
    /// none.
    pub fn index(&self) -> Option<u32>
        ensures { result ≡ self.now.index }
    {
        self.index
    }

    /// Returns the fields, at most 4,294,967,275 bytes.
    pub fn body(&self) -> &[u8]
        ensures value { result.now ≡ self.now.body }
        ensures small { length result.now ≤ max_fields_bytes }
    {
        self.body.as_slice()
    }

    /// Returns the 16 bytes before the fields: tag, code, index (0xFFFFFFFF for None), reserved,
    /// each a u32.
    #[tactic(auto, unfolding(crate::specs::promise::Replies::word))]
    pub fn head(&self) -> [u8; 16]
        ensures { result ≡ reply_head self.now }
    {
        let [a, b, c, d] = self.tag.to_le_bytes();
        let [e, f, g, h] = self.code.0.to_le_bytes();
        let [i, j, k, l] = self.index.unwrap_or(0xFFFF_FFFF).to_le_bytes();
        [a, b, c, d, e, f, g, h, i, j, k, l, 0, 0, 0, 0]
    }
}
