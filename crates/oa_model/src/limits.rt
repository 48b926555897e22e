//! The limits of this server. All of them are this project's choice.

/// The largest body of a request, in bytes.
pub const MAX_REQUEST_BYTES: u32 = 4_194_304;
/// The longest line of hexadecimal digits, in characters: two for each byte of a body.
pub const MAX_LINE_CHARACTERS: u32 = 2 * MAX_REQUEST_BYTES;
/// The largest BSTR, in bytes.
pub const MAX_TEXT_BYTES: u32 = 1_048_576;
/// The largest number of dimensions of a safe array, which has at least one.
pub const MAX_DIMENSIONS: usize = 16;
/// The largest number of elements of a safe array.
pub const MAX_CELLS: u32 = 65_536;
/// The largest number of parameters of a member, including the new value of a put.
pub const MAX_PARAMETERS: usize = 16;
/// The largest number of arguments of a call, and of named arguments among them.
pub const MAX_ARGUMENTS: u32 = 32;
/// The largest number of names in one look-up, which has at least one.
pub const MAX_NAMES: u32 = 17;
/// The longest name in a type library, in characters.
pub const MAX_NAME_CHARACTERS: usize = 64;
/// The longest text of a library, and its longest canonical text, in bytes.
pub const MAX_LIBRARY_BYTES: usize = 262_144;
/// The largest number of interfaces of a library.
pub const MAX_INTERFACES: usize = 256;
/// The largest number of coclasses of a library.
pub const MAX_COCLASSES: usize = 256;
/// The largest number of members of an interface; a get and a put count as two.
pub const MAX_MEMBERS: usize = 512;
/// The largest encoding of a log record, in bytes.
pub const MAX_EVENT_BYTES: usize = 4_194_304;
/// The number of bytes of log records from which on a group is committed early.
pub const GROUP_BYTES: usize = 524_288;
/// The largest number of objects that exist at the same time.
pub const MAX_LIVE_OBJECTS: usize = 65_536;
/// The largest number that an object can have.
pub const GREATEST_OBJECT_NUMBER: u32 = 4_294_967_294;
/// The largest number of locks of one cell.
pub const MAX_CELL_LOCKS: u16 = 65_535;
/// The largest number of requests of a group.
pub const MAX_GROUP: usize = 1_024;
/// The largest number of read calls for one record or line.
pub const MAX_READ_CALLS: u32 = 16_777_216;
/// The largest number of records of one session.
pub const MAX_RECORDS: u64 = 18_446_744_073_709_551_615;
