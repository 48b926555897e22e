//! The buffer of bodies.
ghost use Rattle.std.specs.Prelude.{◌≤◌, length, max, vec_capacity};

/// Lengthens a buffer to `len` bytes with zeros, if it is shorter, within its capacity. So the
/// memory that is touched is only that of the longest body so far. Allocates nothing.
pub(crate) fn lengthen(buffer: &mut Vec<u8>, len: usize)
    requires { len ≤ vec_capacity buffer.old }
    ensures len { len ≤ length buffer.new.items }
    ensures longest { length buffer.new.items ≤ max (length buffer.old.items) len }
    ensures capacity { vec_capacity buffer.old ≤ vec_capacity buffer.new }
{
    if buffer.len() < len {
        buffer.resize(len, 0).unwrap();
    }
}
