//! A script of two sessions with a checkpoint between them: the requests, the replies, the values
//! that are read after each prefix of the requests, and functions that run the script.
ghost use Rattle.std.specs.Prelude.{◌≤◌, IfSome};
ghost use Rattle.oa_history.specs.promise.CrashHistories.{IsFreshDisk};

use oa_disk::{MemoryDisk, Tear};
use oa_history::{
    Answer, Asked, CrashedSession, Replies, ServerCall, Stop, Transcript, checkpointed, formatted,
    stopped,
};
use oa_idl::parse;
use oa_record::Reply;
use oa_server::{End, Server};
use oa_table::Table;
use oa_typelib::{Library, check};
use std::alloc::Global;
use std::process::Abort;

/// The text of the library.
const SMALL: &str = "[uuid(11223344-5566-7788-99AA-BBCCDDEEFF01), version(1.0)] library Demo {
[uuid(11223344-5566-7788-99AA-BBCCDDEEFF02)] dispinterface DItem { properties: [id(1)] long Count; [id(2)] BSTR Name; [id(8)] SAFEARRAY(short) Grid; }
[uuid(11223344-5566-7788-99AA-BBCCDDEEFF03)] coclass Item { [default] dispinterface DItem; } }";

/// The first session creates an object, puts its count, its name and its grid, and changes the
/// first bound of the grid.
static FIRST: [&str; 5] = [
    "0100000001000000443322116655887799aabbccddeeff03",
    "02000000040000000100000001000000000000000000000000000000000000000000000000000000000000000000000000000000040000000100000001000000fdffffff000000001800000000000000030000000000000003000000000000000300000007000000",
    "03000000040000000100000002000000000000000000000000000000000000000000000000000000000000000000000000000000040000000100000001000000fdffffff00000000280000000000000005000000000000000800000000000000080000000000020002000000040000000200000048006900",
    "04000000040000000100000008000000000000000000000000000000000000000000000000000000000000000000000000000000040000000100000001000000fdffffff0000000058000000000000000b0000000000000002200000000000000020000000000200000002000200000002008000020000000000020002000000060000000000020002000000ffffffff030000000500000006000000010002000300040005000600",
    "05000000070000000100000008000000000000000000000000000000000000000000000000000000000000000000000000000000000000000000000000000000030000000a000000",
];

/// The second session puts the count again, and releases the object.
static SECOND: [&str; 2] = [
    "06000000040000000100000001000000000000000000000000000000000000000000000000000000000000000000000000000000040000000100000001000000fdffffff000000001800000000000000030000000000000003000000000000000300000008000000",
    "07000000020000000100000000000000",
];

/// The replies to the first session and then those to the second.
static REPLIES: [&str; 7] = [
    "0100000000000000ffffffff000000000100000000000000",
    "0200000000000000ffffffff00000000",
    "0300000000000000ffffffff00000000",
    "0400000000000000ffffffff00000000",
    "0500000000000000ffffffff00000000",
    "0600000000000000ffffffff00000000",
    "0700000000000000ffffffff00000000",
];

/// Requests that read the count, the name and the grid.
static READS: [&str; 3] = [
    "08000000040000000100000001000000000000000000000000000000000000000000000000000000000000000000000000000000020000000000000000000000",
    "09000000040000000100000002000000000000000000000000000000000000000000000000000000000000000000000000000000020000000000000000000000",
    "0a000000040000000100000008000000000000000000000000000000000000000000000000000000000000000000000000000000020000000000000000000000",
];

/// The replies to `READS` if there is no object.
const GONE: &str = "0800000008010180ffffffff00000000
0900000008010180ffffffff00000000
0a00000008010180ffffffff00000000
";

/// The replies to `READS` after each prefix of the requests.
static READ: [&str; 8] = [
    GONE,
    "0800000000000000ffffffff000000001800000000000000030000000000000003000000000000000300000000000000
0900000000000000ffffffff000000001800000000000000030000000000000008000000000000000800000000000000
0a00000000000000ffffffff000000004400000000000000090000000000000002200000000000000020000000000200000002000100000001008000020000000000020002000000000000000000020000000000000000000000000000000000
",
    "0800000000000000ffffffff000000001800000000000000030000000000000003000000000000000300000007000000
0900000000000000ffffffff000000001800000000000000030000000000000008000000000000000800000000000000
0a00000000000000ffffffff000000004400000000000000090000000000000002200000000000000020000000000200000002000100000001008000020000000000020002000000000000000000020000000000000000000000000000000000
",
    "0800000000000000ffffffff000000001800000000000000030000000000000003000000000000000300000007000000
0900000000000000ffffffff00000000280000000000000005000000000000000800000000000000080000000000020002000000040000000200000048006900
0a00000000000000ffffffff000000004400000000000000090000000000000002200000000000000020000000000200000002000100000001008000020000000000020002000000000000000000020000000000000000000000000000000000
",
    "0800000000000000ffffffff000000001800000000000000030000000000000003000000000000000300000007000000
0900000000000000ffffffff00000000280000000000000005000000000000000800000000000000080000000000020002000000040000000200000048006900
0a00000000000000ffffffff0000000058000000000000000b0000000000000002200000000000000020000000000200000002000200000002008000020000000000020002000000060000000000020002000000ffffffff030000000500000006000000010002000300040005000600
",
    "0800000000000000ffffffff000000001800000000000000030000000000000003000000000000000300000007000000
0900000000000000ffffffff00000000280000000000000005000000000000000800000000000000080000000000020002000000040000000200000048006900
0a00000000000000ffffffff000000005e000000000000000c00000000000000022000000000000000200000000002000000020002000000020080000200000000000200020000000900000000000200030000000a0000000300000005000000090000000100020003000400050006000000000000000000
",
    "0800000000000000ffffffff000000001800000000000000030000000000000003000000000000000300000008000000
0900000000000000ffffffff00000000280000000000000005000000000000000800000000000000080000000000020002000000040000000200000048006900
0a00000000000000ffffffff000000005e000000000000000c00000000000000022000000000000000200000000002000000020002000000020080000200000000000200020000000900000000000200030000000a0000000300000005000000090000000100020003000400050006000000000000000000
",
    GONE,
];

/// Returns the five requests of the first session.
pub(crate) fn first() -> &'static [&'static str] {
    &FIRST
}

/// Returns the two requests of the second session.
pub(crate) fn second() -> &'static [&'static str] {
    &SECOND
}

/// Returns the requests that read.
pub(crate) fn reads() -> &'static [&'static str] {
    &READS
}

/// Returns the replies to the requests from number `from` to before number `to`, counted from 0
/// over both sessions; None if there are fewer.
pub(crate) fn replies(from: usize, to: usize) -> Option<&'static [&'static str]> {
    REPLIES.get(from..to)
}

/// The size of a bank's body in bytes.
pub(crate) const BANK: u32 = 20_971_520;

/// A point in time after the end of any session.
pub(crate) const END: u64 = 0xffff_ffff;

/// Tears of the pending writes.
pub(crate) const TEARS: [Tear; 7] = [
    Tear::Lost,
    Tear::Kept,
    Tear::Filled(0),
    Tear::Filled(1),
    Tear::Filled(7),
    Tear::Filled(0xff),
    Tear::Cut(1),
];

/// Decodes lines of hexadecimal digits. None if one is invalid, or an allocation fails.
pub(crate) fn bodies_of(alloc: Global, lines: &[&str]) -> Option<Vec<Vec<u8>>> {
    let mut bodies = Vec::new(alloc);
    for line in lines {
        bodies.push(hex::decode(alloc, *line).ok()?).ok()?;
    }
    Some(bodies)
}

/// Returns calls with the requests in these lines, `group` requests in each. Each call is one
/// group. None if a line is invalid, or an allocation fails.
pub(crate) fn calls_of(alloc: Global, lines: &[&str], group: usize) -> Option<Vec<ServerCall>>
    requires { 1 ≤ group }
{
    let mut calls = Vec::new(alloc);
    for part in lines.chunks(group) {
        calls
            .push(ServerCall::new(bodies_of(alloc, part)?, 7))
            .ok()?;
    }
    Some(calls)
}

/// Adds the hexadecimal digits of bytes.
fn put_digits(alloc: Global, text: &mut String, bytes: &[u8]) {
    if let Ok(digits) = hex::encode(alloc, bytes) {
        let _ = text.push_str(digits.as_str());
    }
}

/// Adds a reply as a line.
fn put_reply(alloc: Global, text: &mut String, reply: &Reply) {
    put_digits(alloc, text, &reply.head());
    put_digits(alloc, text, reply.body());
    let _ = text.push_str("\n");
}

/// Adds replies as lines.
fn put_replies(alloc: Global, text: &mut String, replies: &[Reply]) {
    for reply in replies {
        put_reply(alloc, text, reply);
    }
}

/// Returns the replies of calls as lines.
fn lines_of(alloc: Global, answers: &[Answer]) -> String {
    let mut text = String::new(alloc);
    for answer in answers {
        put_replies(alloc, &mut text, answer.replies.as_slice());
    }
    text
}

/// Returns whether a session has these replies: as lines, or as the bytes written to a stream that
/// ended after this many requests.
pub(crate) fn is_answered(alloc: Global, heard: &Transcript, requests: usize, due: &[u8]) -> bool {
    match &heard.replies {
        Replies::Calls(answers) => {
            let text = lines_of(alloc, answers.as_slice());
            text.as_str().as_bytes() == due
        }
        Replies::Stream(written) => {
            let served = written.served;
            written.output.bytes() == due
                && served.requests == requests as u64
                && served.why == End::Closed
        }
        Replies::Frames(_) => false,
    }
}

/// Returns the number of requests after which these replies are read, from `least` to `most`; None
/// if there is none.
fn place_of(text: &str, least: usize, most: usize) -> Option<usize> {
    let mut place = 0usize;
    for read in &READ {
        if least <= place && place <= most && *text == **read {
            return Some(place);
        }
        place = place.saturating_add(1);
    }
    None
}

/// Returns the number of kept requests, from `least` to `most`, according to a session that reads
/// the three properties; None if there is no such number.
pub(crate) fn place_in(
    alloc: Global,
    heard: &Transcript,
    least: usize,
    most: usize,
) -> Option<usize> {
    match &heard.replies {
        Replies::Calls(answers) => {
            let text = lines_of(alloc, answers.as_slice());
            place_of(text.as_str(), least, most)
        }
        Replies::Stream(_) | Replies::Frames(_) => None,
    }
}

/// Returns the replies of a server to these requests, one call per request, as lines.
fn answered(alloc: Global, server: &mut Server<MemoryDisk>, bodies: &[Vec<u8>]) -> String {
    let mut text = String::new(alloc);
    for body in bodies {
        put_reply(alloc, &mut text, &server.answer(body.as_slice()));
    }
    text
}

/// Returns the number of requests that the server has kept, from `least` to `most`; None if there
/// is no such number. It reads with one call of three groups and with a call for each request,
/// which must agree.
pub(crate) fn read_by(
    alloc: Global,
    server: &mut Server<MemoryDisk>,
    least: usize,
    most: usize,
) -> Option<usize> {
    let bodies = bodies_of(alloc, reads())?;
    let replies = server.run(bodies.as_slice(), 1).ok()?;
    let mut text = String::new(alloc);
    put_replies(alloc, &mut text, replies.as_slice());
    let alone = answered(alloc, server, bodies.as_slice());
    if alone.as_str() != text.as_str() {
        return None;
    }
    place_of(text.as_str(), least, most)
}

/// Returns a disk of zeros whose log has capacity for each test; None if an allocation fails.
pub(crate) fn new_disk(alloc: Global) -> Option<MemoryDisk>
    ensures { IfSome result IsFreshDisk }
{
    MemoryDisk::new(alloc, 75_505_664, 200, 4000).ok()
}

/// Returns the library of `SMALL`; None if an allocation fails.
pub(crate) fn library(alloc: Global) -> Option<Library> {
    check(alloc, parse(alloc, SMALL).ok()?).ok()
}

/// Returns whether the library and the table are those of a server after `place` requests.
pub(crate) fn are_told(library: &Library, text: &[u8], table: &Table, place: usize) -> bool {
    let next = if place == 0 { 1 } else { 2 };
    text == library.text() && table.next() == next
}

/// Returns a new store with the library; None if an allocation fails.
pub(crate) fn new_store(alloc: Global) -> Option<MemoryDisk>
    ensures { IfSome result IsFreshDisk }
{
    let disk = new_disk(alloc)?;
    match formatted(alloc, disk, &library(alloc)?, BANK, END, Tear::Kept) {
        Ok((_, store)) => Some(store),
        Err(_) => None,
    }
}

/// Returns the disk after a power loss now with this tear; None if an allocation fails.
pub(crate) fn left_by(disk: &MemoryDisk, tear: Tear) -> Option<MemoryDisk>
    ensures { IfSome result IsFreshDisk }
{
    disk.crash(disk.moments(), tear).ok()
}

/// Runs a session of these calls to its end. Returns its replies and the disk after it; None if it
/// cannot be run.
fn played(
    alloc: Global,
    disk: MemoryDisk,
    calls: Vec<ServerCall>,
) -> Option<(Transcript, MemoryDisk)>
    requires { IsFreshDisk disk }
    ensures { IfSome result (λ r. IsFreshDisk r.1) }
{
    let session = CrashedSession {
        asked: Asked::Calls(calls),
        moment: END,
        tear: Tear::Lost,
    };
    stopped(alloc, disk, &session).ok()
}

/// Returns the store after the first session, with `group` requests per call, and the checkpoint.
/// None if one of them cannot be run.
pub(crate) fn next_store(alloc: Global, store: MemoryDisk, group: usize) -> Option<MemoryDisk>
    requires some { 1 ≤ group }
    requires fresh { IsFreshDisk store }
    ensures { IfSome result IsFreshDisk }
{
    let (_, store) = played(alloc, store, calls_of(alloc, first(), group)?)?;
    let end = Stop {
        moment: END,
        tear: Tear::Lost,
    };
    match checkpointed(alloc, store, end) {
        Ok((_, store)) => Some(store),
        Err(_) => None,
    }
}

/// Returns the number of requests that a store has kept, from `least` to `most`, by its three
/// properties; None if there is no such number.
pub(crate) fn read_of(alloc: Global, store: MemoryDisk, least: usize, most: usize) -> Option<usize>
    requires { IsFreshDisk store }
{
    let (heard, _) = played(alloc, store, calls_of(alloc, reads(), 3)?)?;
    place_in(alloc, &heard, least, most)
}

/// Prints the counts. Fails the test if acknowledged requests were lost or the counts differ from
/// those expected.
pub(crate) fn expect(
    rt: &(impl Abort + Print),
    counts: &str,
    found: Option<[u64; 4]>,
    due: [u64; 4],
) {
    match found {
        Some(found) => {
            let _ = println!(rt; "{counts}: {found:?}");
            assert!(rt; found == due, "due are {due:?}");
        }
        None => assert!(rt; false, "lost"),
    }
}
