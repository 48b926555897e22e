//! The two buffers: one for bytes that were read, one for bytes to be written.
ghost use Rattle.std.specs.Prelude.{◌≡◌, ◌≤◌, ◌<◌, ◌+◌, ◌-◌, ◌++◌, [], length, drop, take, slice_range, vec_len, false, IfOk};
ghost use Rattle.oa_stream.specs.Source.{Loads};

use crate::{Next, Source};
use std::alloc::{AllocError, Global};

/// The size of a buffer in bytes.
pub(crate) const SIZE: usize = 8192;

/// Bytes that were read and not consumed: those from `from` up to `to`.
#[derive(Drop)]
pub struct Front {
    bytes: Vec<u8>,
    from: usize,
    to: usize,
    ghost ordered: { from ≤ to },
    ghost within: { to ≤ vec_len bytes },
    ghost some: { 0 < vec_len bytes },
}

impl Front {
    /// Makes an empty buffer of `SIZE` bytes. Err: the allocation failed.
    pub(crate) fn new(alloc: Global) -> Result<Front, AllocError>
        ensures { IfOk result (λ f. slice_range f.bytes.items f.from f.to ≡ []) }
    {
        let mut bytes = Vec::with_capacity(alloc, SIZE)?;
        bytes.resize(SIZE, 0)?;
        Ok(Front {
            bytes,
            from: 0,
            to: 0,
        })
    }

    /// Returns the bytes that were read and not consumed.
    pub(crate) fn held(&self) -> &[u8]
        ensures { result.now ≡ slice_range self.now.bytes.items self.now.from self.now.to }
    {
        let (from, to) = (self.from, self.to);
        let all = self.bytes.as_slice();
        &all[from..to]
    }

    /// Consumes the first `count` bytes, of which there are that many.
    pub(crate) fn advance(&mut self, count: usize)
        requires { count ≤ length (slice_range self.old.bytes.items self.old.from self.old.to) }
        ensures held { slice_range self.new.bytes.items self.new.from self.new.to
            ≡ drop count (slice_range self.old.bytes.items self.old.from self.old.to) }
        ensures passed { take self.new.from self.new.bytes.items
            ≡ take self.old.from self.old.bytes.items ++ take count (slice_range self.old.bytes.items self.old.from self.old.to) }
    {
        self.from += count;
    }

    /// Returns the last `count` consumed bytes, which are still in the buffer.
    #[inline(always)]
    pub(crate) fn passed(&self, count: usize) -> &[u8]
        requires { count ≤ self.now.from }
        ensures { result.now ≡ slice_range self.now.bytes.items (self.now.from - count) self.now.from }
    {
        let (from, to) = (self.from - count, self.from);
        let all = self.bytes.as_slice();
        &all[from..to]
    }

    /// Replaces the contents by the result of one read call, which is returned.
    pub(crate) fn load<S: Source>(&mut self, source: &mut S) -> Next
        requires unbroken { (S.input source.old).faulted ≡ false }
        ensures { Loads result (S.input source.old) (S.input source.new) (slice_range self.new.bytes.items self.new.from self.new.to) }
    {
        self.from = 0;
        self.to = 0;
        let next = source.fill(&mut self.bytes);
        if let Next::Bytes(count) = next {
            self.to = count;
        }
        next
    }
}

/// Bytes that are kept back: the first `len`, at most `SIZE`.
#[derive(Drop)]
pub struct Back {
    bytes: Vec<u8>,
    len: usize,
    ghost within: { len ≤ vec_len bytes },
    ghost places: { vec_len bytes ≡ 8192 },
}

impl Back {
    /// Makes an empty buffer of `SIZE` bytes. Err: the allocation failed.
    pub(crate) fn new(alloc: Global) -> Result<Back, AllocError>
        ensures { IfOk result (λ b. take b.len b.bytes.items ≡ []) }
    {
        let mut bytes = Vec::with_capacity(alloc, SIZE)?;
        bytes.resize(SIZE, 0)?;
        Ok(Back { bytes, len: 0 })
    }

    /// Returns the number of bytes that still fit.
    pub(crate) fn room(&self) -> usize
        ensures { result + self.now.len ≡ 8192 }
    {
        SIZE - self.len
    }

    /// Returns the bytes that are kept back.
    pub(crate) fn bytes(&self) -> &[u8]
        ensures { result.now ≡ take self.now.len self.now.bytes.items }
    {
        &self.bytes[..self.len]
    }

    /// Appends bytes, which must fit.
    #[inline(always)]
    pub(crate) fn push(&mut self, bytes: &[u8])
        requires { length bytes.now + self.old.len ≤ 8192 }
        ensures { take self.new.len self.new.bytes.items ≡ take self.old.len self.old.bytes.items ++ bytes.now }
    {
        let end = self.len + bytes.len();
        self.bytes[self.len..end].copy_from_slice(bytes);
        self.len = end;
    }

    /// Empties the buffer.
    pub(crate) fn clear(&mut self)
        ensures { take self.new.len self.new.bytes.items ≡ [] }
    {
        self.len = 0;
    }
}
