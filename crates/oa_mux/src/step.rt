//! The items in a client's bytes.
ghost use Rattle.std.specs.Prelude.{◌≡◌, drop};
ghost use Rattle.oa_mux.specs.Steps.{record_body};

use oa_frame::End;

/// A whole record: the length of its body, and the body.
#[derive(Drop)]
pub enum WholeRecord<'a> {
    /// It is in the bytes that came last.
    Here(&'a [u8]),
    /// It came in parts, and was put together.
    Gathered(Vec<u8>),
}

impl WholeRecord<'_> {
    /// Returns the body of the record, which is never empty.
    pub fn body(&self) -> &[u8]
        ensures { result.now ≡ record_body self.now }
    {
        match self {
            WholeRecord::Here(bytes) => behind_length(bytes),
            WholeRecord::Gathered(bytes) => behind_length(bytes),
        }
    }
}

/// Returns the bytes after the first four, which are a length.
fn behind_length(bytes: &[u8]) -> &[u8]
    ensures { result.now ≡ drop 4 bytes.now }
{
    &bytes[bytes.len().min(4)..]
}

/// The first item in some bytes.
#[derive(Drop)]
pub enum ClientItem<'a> {
    /// Nothing whole.
    Nothing,
    /// A body.
    Body(WholeRecord<'a>),
    /// The end of the client's stream: `Closed` by a length of 0, or `TooLong`.
    Ends(End),
}

/// A step through a client's bytes.
#[derive(Drop)]
pub struct ClientStep<'a> {
    /// The number of bytes that were consumed.
    pub taken: usize,
    /// The item that the last of them completes.
    pub what: ClientItem<'a>,
}
