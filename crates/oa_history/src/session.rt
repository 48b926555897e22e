//! The requests of a session, and its result.
ghost use Rattle.std.specs.Prelude.{◌≡◌, ◌≤◌};
ghost use Rattle.oa_model.specs.Limits.{max_group};

use oa_disk::{MemoryDisk, Tear};
use oa_frame::Framing;
use oa_record::Reply;
use oa_server::{Served, Server, SessionEnd};
use oa_stream::VecSink;

/// One call of a server: requests in groups of a size.
#[derive(Drop)]
pub struct ServerCall {
    /// The requests' bodies, in order.
    pub bodies: Vec<Vec<u8>>,
    /// The greatest number of requests of a group.
    pub group: usize,
    ghost some: { 1 ≤ group },
    ghost few: { group ≤ max_group },
}

impl ServerCall {
    /// Makes a call of these requests, one body each, in groups of at most `group` requests, from 1
    /// to 1,024.
    pub fn new(bodies: Vec<Vec<u8>>, group: usize) -> ServerCall
        requires some { 1 ≤ group }
        requires few { group ≤ max_group }
        ensures bodies { result.bodies ≡ bodies }
        ensures group { result.group ≡ group }
    {
        ServerCall { bodies, group }
    }
}

/// The input of a session over a stream, and the size of its groups.
#[derive(Drop)]
pub struct StreamInput {
    /// The bytes of the input.
    pub bytes: Vec<u8>,
    /// Whether they are lines of hexadecimal digits, or records.
    pub framing: Framing,
    /// The greatest number of requests of a group.
    pub group: usize,
    ghost some: { 1 ≤ group },
    ghost few: { group ≤ max_group },
}

impl StreamInput {
    /// Makes an input of these bytes, whose requests are answered in groups of at most `group`,
    /// from 1 to 1,024.
    pub fn new(bytes: Vec<u8>, framing: Framing, group: usize) -> StreamInput
        requires some { 1 ≤ group }
        requires few { group ≤ max_group }
        ensures bytes { result.bytes ≡ bytes }
        ensures framing { result.framing ≡ framing }
        ensures group { result.group ≡ group }
    {
        StreamInput {
            bytes,
            framing,
            group,
        }
    }
}

/// The input of a session of many clients, and the size of its groups.
#[derive(Drop)]
pub struct SharedInput {
    /// The bytes of the input: frames, each with bytes of one client's stream.
    pub bytes: Vec<u8>,
    /// The greatest number of requests of a group, of any clients.
    pub group: usize,
    ghost some: { 1 ≤ group },
    ghost few: { group ≤ max_group },
}

impl SharedInput {
    /// Makes an input of these frames, whose requests are answered in groups of at most `group`,
    /// from 1 to 1,024.
    pub fn new(bytes: Vec<u8>, group: usize) -> SharedInput
        requires some { 1 ≤ group }
        requires few { group ≤ max_group }
        ensures bytes { result.bytes ≡ bytes }
        ensures group { result.group ≡ group }
    {
        SharedInput { bytes, group }
    }
}

/// The requests of a session: calls of a server, one after another, or a stream of one client or of
/// many.
#[derive(Drop)]
pub enum Asked {
    /// Calls of a server, one after another.
    Calls(Vec<ServerCall>),
    /// The stream of one client.
    Stream(StreamInput),
    /// The stream of many clients.
    Frames(SharedInput),
}

/// A session, and its crash.
#[derive(Drop)]
pub struct CrashedSession {
    /// Its requests.
    pub asked: Asked,
    /// The point in time of its crash, by its disk's clock, which begins at 0 with the opening: `2k
    /// - 1` lies within call k of the disk, and `2k` after it. A point after the session's end
    ///   counts as its end.
    pub moment: u64,
    /// How the crash tears pending writes.
    pub tear: Tear,
}

/// The crash of a checkpoint: a point in time of its disk's clock, as for a session.
#[derive(Clone, Copy, Debug, PartialEq, Eq)]
pub struct Stop {
    /// The point in time of the crash. A point after the checkpoint's end counts as its end.
    pub moment: u64,
    /// How the crash tears pending writes.
    pub tear: Tear,
}

/// A step of a crash history: a session of a server, or a checkpoint between two of them.
#[derive(Drop)]
pub enum Step {
    /// A session, with its crash.
    CrashedSession(CrashedSession),
    /// A checkpoint, with its crash.
    Checkpoint(Stop),
}

/// The replies of a call, and the point in time at which it returned.
#[derive(Drop)]
pub struct Answer {
    /// The replies to its requests, in order.
    pub replies: Vec<Reply>,
    /// The point in time at which it returned, by its disk's clock.
    pub moment: u64,
}

/// The output of a session over a stream, and how it ended.
#[derive(Drop)]
pub struct Written {
    /// The writer, with the output.
    pub output: VecSink,
    /// The number of requests that were answered, and why the session ended.
    pub served: Served,
}

/// The output of a session of many clients, and why it ended.
#[derive(Drop)]
pub struct WrittenFrames {
    /// The writer, with the frames.
    pub output: VecSink,
    /// Why the session ended.
    pub why: SessionEnd,
}

/// The replies of a session: of each of its calls, or on a stream, to one client or to many.
#[derive(Drop)]
pub enum Replies {
    /// The replies of each call, in order.
    Calls(Vec<Answer>),
    /// The output to one client.
    Stream(Written),
    /// The output to many clients.
    Frames(WrittenFrames),
}

/// The result of a step: the replies of a session, none for a checkpoint, and its disk at its end.
#[derive(Drop)]
pub struct Transcript {
    /// Its replies.
    pub replies: Replies,
    /// Its disk at its end.
    pub disk: MemoryDisk,
}

/// A server that was opened on a disk in memory.
#[derive(Drop)]
pub struct Opened {
    /// The server.
    pub server: Server<MemoryDisk>,
}
