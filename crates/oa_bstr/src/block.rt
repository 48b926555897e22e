//! The block of a text: making, reading and freeing it.
ghost use Rattle.std.specs.Prelude.{◌≡◌, ◌+◌, ◌≤◌, length, take, IfOk};
ghost use Rattle.oa_bstr.specs.Block.{block_of, block_text, IsBlock};
ghost use Rattle.oa_model.specs.promise.Limits.{max_text_bytes};

use oa_cells::{Partial, Row};
use std::alloc::{AllocError, Global};

/// The number of bytes before the text, which encode its length.
const COUNT_BYTES: usize = 4;

/// The number of bytes after the text, which are a 16-bit zero.
const ZERO_BYTES: usize = 2;

/// Makes the block of a text of these bytes. Err: the allocation fails.
pub(crate) fn new_block(alloc: Global, bytes: &[u8]) -> Result<Row<u8>, AllocError>
    requires { length bytes.now ≤ max_text_bytes }
    ensures { IfOk result (λ r. IsBlock r × (block_text r ≡ bytes.now)) }
{
    let count = bytes.len() as u32;
    let mut part = Partial::vacant(alloc, COUNT_BYTES + bytes.len() + ZERO_BYTES, 0)?;
    part.extend_from_slice(&count.to_le_bytes());
    part.extend_from_slice(bytes);
    part.extend_from_slice(&[0, 0]);
    Ok(part.full())
}

/// Returns the first `len` bytes of a block.
fn begin(row: &Row<u8>, len: usize) -> &[u8]
    requires { IsBlock row.now × (len ≤ length (block_text row.now) + 6) }
    ensures bytes { result.now ≡ take len (block_of (block_text row.now)) }
    ensures long { length result.now ≡ len }
{
    row.first(len)
}

/// Returns the number of bytes of the text in a block, which its first 4 bytes encode.
pub(crate) fn count(row: &Row<u8>) -> u32
    requires { IsBlock row.now }
    ensures { result ≡ length (block_text row.now) }
{
    let head = begin(row, COUNT_BYTES);
    u32::from_le_bytes([head[0], head[1], head[2], head[3]])
}

/// Returns the bytes of the text in a block.
pub(crate) fn text(row: &Row<u8>) -> &[u8]
    requires { IsBlock row.now }
    ensures bytes { result.now ≡ block_text row.now }
    ensures short { length result.now ≤ max_text_bytes }
{
    let end = COUNT_BYTES + count(row) as usize;
    let head_and_text = begin(row, end);
    &head_and_text[COUNT_BYTES..]
}

/// Frees the block of a text in one step.
pub(crate) fn free(row: Row<u8>)
    requires { IsBlock row }
{
    let len = COUNT_BYTES + count(&row) as usize + ZERO_BYTES;
    row.free_plain(len);
}
