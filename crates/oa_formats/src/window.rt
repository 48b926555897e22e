//! A window on a stream of bytes: an output cursor.
ghost use Rattle.std.specs.Prelude.{◌≡◌, ◌+◌, ◌++◌, length, take, drop};
ghost use Rattle.oa_formats.specs.Windows.{Adds};

/// An output cursor: it drops the first `skip` bytes written to it, puts the next ones at `at` of a
/// slice, and drops what does not fit.
#[derive(Clone, Copy, Debug, PartialEq, Eq)]
pub struct OutputCursor {
    skip: usize,
    at: usize,
}

/// Copies bytes to `out` from byte `at` on, as far as they fit. Returns the place after them.
fn lay(bytes: &[u8], at: usize, out: &mut [u8]) -> usize
    ensures place { result ≡ at + length (take (length (drop at out.old)) bytes.now) }
    ensures front { take result out.new ≡ take at out.old ++ take (length (drop at out.old)) bytes.now }
    ensures room { drop result out.new ≡ drop (length bytes.now) (drop at out.old) }
{
    if at >= out.len() {
        return at;
    }
    // If all bytes fit, the length of the copy is the caller's, so that a number becomes a single
    // store.
    if bytes.len() <= out.len() - at {
        out[at..at + bytes.len()].copy_from_slice(bytes);
        return at + bytes.len();
    }
    let n = out.len() - at;
    out[at..at + n].copy_from_slice(&bytes[..n]);
    at + n
}

impl OutputCursor {
    /// Makes a window that drops the first `skip` bytes, and puts the others from byte `at` of a
    /// slice on.
    pub fn new(skip: usize, at: usize) -> OutputCursor
        ensures { (result.skip ≡ skip) × (result.at ≡ at) }
    {
        OutputCursor { skip, at }
    }

    /// Returns the place of the next byte, in bytes from the start of the slice.
    pub fn at(&self) -> usize
        ensures { result ≡ self.now.at }
    {
        self.at
    }

    /// Writes bytes to the window of `out`. Allocates nothing.
    pub fn add(&mut self, bytes: &[u8], out: &mut [u8])
        ensures { Adds bytes.now self.old self.new out.old out.new }
    {
        if self.skip == 0 {
            self.at = lay(bytes, self.at, out);
            return;
        }
        let skipped = self.skip.min(bytes.len());
        self.skip -= skipped;
        self.at = lay(&bytes[skipped..], self.at, out);
    }
}
