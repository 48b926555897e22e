//! The ends of the requests in a client's bytes.
ghost use Rattle.oa_gateway.specs.WholeRequests.{CutsAt, IsNextRequest};

/// The greatest number of bytes of a request without its length.
const MOST: usize = oa_model::MAX_REQUEST_BYTES as usize;

/// The whole requests at the beginning of some bytes.
#[derive(Clone, Copy, Debug, PartialEq, Eq)]
pub struct WholeRequests {
    /// The number of their bytes.
    pub whole: usize,
    /// Whether the four bytes after them are no length of a request: 0, or above the limit. No
    /// request follows then.
    pub ends: bool,
}

/// The beginning of some bytes.
#[derive(Clone, Copy)]
enum Next {
    /// A whole request, of this many bytes with its length.
    Whole(usize),
    /// A part of one, or nothing.
    Part,
    /// Four bytes that are no length of a request.
    Ends,
}

/// Finds the whole requests at the beginning of these bytes. Each is its length in four bytes,
/// little-endian, and that many bytes.
pub fn find_requests(bytes: &[u8]) -> WholeRequests
    ensures { CutsAt bytes.now result.whole result.ends }
{
    let mut whole = 0;
    'requests: loop {
        match next_request(&bytes[whole..]) {
            Next::Whole(count) => whole += count,
            Next::Part => return WholeRequests { whole, ends: false },
            Next::Ends => return WholeRequests { whole, ends: true },
        }
    }
}

/// Finds the first request of these bytes.
fn next_request(bytes: &[u8]) -> Next
    ensures { IsNextRequest result bytes.now }
{
    let Some((length, body)) = bytes.split_first_chunk::<4>() else {
        return Next::Part;
    };
    let count = u32::from_le_bytes(*length) as usize;
    if count == 0 || count > MOST {
        return Next::Ends;
    }
    if body.len() < count {
        return Next::Part;
    }
    Next::Whole(4 + count)
}
