//! The bounds of an array's dimension.

/// A dimension of a safe array (SAFEARRAYBOUND, MS-OAUT section 2.2.30.1). Its indices are the
/// integers `i` with `lower <= i < lower + count`; the sum is exact, so it may exceed 32 bits.
#[derive(Clone, Copy, Debug, PartialEq, Eq)]
pub struct Bound {
    /// The number of indices.
    pub count: u32,
    /// The lowest index.
    pub lower: i32,
}
