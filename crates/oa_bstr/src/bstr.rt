//! The BSTR.
ghost use Rattle.std.specs.Prelude.{◌≡◌, ℕ, ◌+◌, ◌*◌, ◌<◌, ◌≤◌, List, Option, Some, None, length, IfOk, IfSome, IsOk, IsTrue, ◌↔◌};
ghost use Rattle.std.specs.Result.{IsErrOf};
ghost use Rattle.std.specs.Option.{option_map};
ghost use Rattle.std.proofs.Common.{rules};
ghost use Rattle.std.specs.Cmp.{partial_equiv_from_equiv, partial_order_from_total};
ghost use Rattle.std.specs.Cmp.Rules.{comparing};
ghost use Rattle.std.specs.Ordering.{as_partial_cmp, eq_by_cmp};
ghost use Rattle.std.proofs.lemmas.Cmp.{eq_by_cmp_equiv};
ghost use Rattle.oa_bstr.specs.Block.{block_text, IsBlock};
ghost use Rattle.oa_model.specs.promise.Limits.{max_text_bytes};
ghost use Rattle.oa_bstr.specs.promise.Text.{bytes_of, text_cmp};
ghost use Rattle.oa_bstr.specs.Text.{unit_of, texts_total};
ghost use Rattle.oa_bstr.specs.declared.error.BstrError.TheVariants.{TooLong};

use crate::block;
use crate::error::BstrError;
use oa_cells::Row;
use oa_model::MAX_TEXT_BYTES;
use std::alloc::{AllocError, Global};
use std::cmp::Ordering;
use std::fmt;
use std::marker::Model;

/// A BSTR: null, or a text of at most `MAX_TEXT_BYTES`. Null and the empty text are different
/// values.
///
/// A text has a block of memory of its own with the layout of MS-OAUT section 2.2.23: a 32-bit
/// little-endian count of the bytes, the bytes, and a 16-bit zero. The block is freed with the
/// `Bstr`, in one step.
pub struct Bstr {
    row: Option<Row<u8>>,
}

impl Model for Bstr {
    ghost Value = { Option (List ℕ) };

    ghost view = { λ b. option_map block_text b.row };

    ghost invariant = { λ b. IfSome b.row IsBlock };
}

impl Bstr {
    /// Returns the null BSTR, which has no block. Allocates nothing.
    pub fn null() -> Bstr
        ensures { result ≡ None }
    {
        Bstr { row: None }
    }

    /// Makes a text of these bytes, in a block of its own.
    ///
    /// Errors: `TooLong` if and only if there are more than `MAX_TEXT_BYTES`, before any
    /// allocation; `Memory` if the allocation of the block fails.
    pub fn from_bytes(alloc: Global, bytes: &[u8]) -> Result<Bstr, BstrError>
        ensures value { IfOk result (λ b. b ≡ Some bytes.now) }
        ensures too_long { IsErrOf result TooLong ↔ (max_text_bytes < length bytes.now) }
    {
        if bytes.len() > MAX_TEXT_BYTES as usize {
            return Err(BstrError::TooLong);
        }
        let row = block::new_block(alloc, bytes)?;
        Ok(Bstr { row: Some(row) })
    }

    /// Returns whether this is the null BSTR.
    pub fn is_null(&self) -> bool
        ensures { IsTrue result ↔ (self.now ≡ None) }
    {
        self.row.is_none()
    }

    /// Returns the number of bytes of the text, at most `MAX_TEXT_BYTES`; 0 for null.
    pub fn byte_len(&self) -> u32
        ensures count { result ≡ length (bytes_of self.now) }
        ensures short { result ≤ max_text_bytes }
    {
        match &self.row {
            Some(row) => block::count(row),
            None => 0,
        }
    }

    /// Returns the bytes of the text, at most `MAX_TEXT_BYTES`; none for null.
    pub fn as_bytes(&self) -> &[u8]
        ensures bytes { result.now ≡ bytes_of self.now }
        ensures short { length result.now ≤ max_text_bytes }
    {
        match &self.row {
            Some(row) => block::text(row),
            None => &[],
        }
    }

    /// Returns the `i`-th 16-bit unit of the text, made of the bytes `2 * i` (low) and `2 * i + 1`
    /// (high). The text must have the low byte; the high one is 0 if the text ends before it.
    pub fn unit(&self, i: usize) -> u16
        requires { 2 * i < length (bytes_of self.now) }
        ensures { result ≡ unit_of (bytes_of self.now) i }
    {
        let bytes = self.as_bytes();
        let low = bytes[2 * i];
        let high = match bytes.get(2 * i + 1) {
            Some(byte) => *byte,
            None => 0,
        };
        low as u16 + 256 * high as u16
    }

    /// Returns an equal BSTR: a text in a block of its own, or null, which allocates nothing. Err:
    /// the allocation fails.
    pub fn copy(&self, alloc: Global) -> Result<Bstr, AllocError>
        ensures value { IfOk result (λ b. b ≡ self.now) }
        ensures null { self.now ≡ None → IsOk result }
    {
        match &self.row {
            Some(row) => {
                let copied = block::new_block(alloc, block::text(row))?;
                Ok(Bstr { row: Some(copied) })
            }
            None => Ok(Bstr { row: None }),
        }
    }
}

impl Drop for Bstr {
    fn drop(self) {
        let Bstr { row } = self;
        if let Some(row) = row {
            block::free(row);
        }
    }
}

impl PartialEq for Bstr {
    ghost eq = { eq_by_cmp text_cmp };

    ghost laws = { partial_equiv_from_equiv (eq_by_cmp_equiv texts_total) };

    fn eq(&self, other: &Bstr) -> bool {
        self.cmp(other) == Ordering::Equal
    }
}

impl Eq for Bstr {
    ghost laws = { eq_by_cmp_equiv texts_total };
}

impl PartialOrd for Bstr {
    ghost partial_cmp = { as_partial_cmp text_cmp };

    ghost laws = { partial_order_from_total texts_total };

    fn partial_cmp(&self, other: &Bstr) -> Option<Ordering> {
        Some(self.cmp(other))
    }
}

/// Null comes first, followed by the texts in lexicographic order of their bytes.
impl Ord for Bstr {
    ghost cmp = { text_cmp };

    ghost total = { texts_total };

    ghost matches_partial_cmp = { Prim.search (comparing, rules) };

    ghost matches_eq = { Prim.search (comparing, rules) };

    fn cmp(&self, other: &Bstr) -> Ordering {
        match (self.is_null(), other.is_null()) {
            (true, true) => Ordering::Equal,
            (true, false) => Ordering::Less,
            (false, true) => Ordering::Greater,
            (false, false) => self.as_bytes().cmp(other.as_bytes()),
        }
    }
}

impl fmt::Debug for Bstr {
    fn fmt<W: fmt::Write>(&self, f: &mut fmt::Formatter<W>) -> fmt::Result {
        if self.is_null() {
            f.write_str("null")
        } else {
            write!(f, "{:?}", self.as_bytes())
        }
    }
}
