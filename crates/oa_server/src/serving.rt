//! Sessions over streams.
ghost use Rattle.std.specs.Prelude.{◌≡◌, ◌≤◌, [], IfOk, OnErr, OnOk, false, map, vec_capacity};
ghost use Rattle.oa_model.specs.Limits.{max_group};
ghost use Rattle.oa_stream.specs.BufferedSource.{ahead};
ghost use Rattle.oa_stream.specs.Sink.{Puts};
ghost use Rattle.oa_frame.specs.Beginnings.{AreUnbroken, HoldLongest};
ghost use Rattle.oa_frame.specs.promise.Framings.{frames, hex_lines, records};
ghost use Rattle.oa_frame.specs.promise.Sessions.{spelled_all};
ghost use Rattle.oa_record.specs.promise.Replacement.{is_replacement};
ghost use Rattle.oa_record.specs.promise.Replies.{reply_record};
ghost use Rattle.oa_server.specs.Talks.{HasTalkedInMemory, IsStoreSession, TakesBodies, ended_written, taken_written};
ghost use Rattle.oa_server.specs.Storages.{InMemory};

use crate::Server;
use crate::engine::ServerState;
use crate::grouping::{admit, admit_barrier, flush_held};
use crate::open_group::OpenGroup;
use crate::storage::Storage;
use oa_disk::Disk;
use oa_frame::{Framing, Responder, Served, put_reply, serve};
use oa_model::{HResult, MAX_LINE_CHARACTERS, MAX_REQUEST_BYTES};
use oa_record::{Reply, is_replacement};
use oa_stream::{BufferedSource, Sink, Source, Unwritten};
use std::alloc::AllocError;

/// In memory each reply is written at once. Over a store it is held until its group ends, and then
/// all replies of the group are written.
impl<D: Disk> Responder for ServerState<D> {
    ghost ready = { TakesBodies };

    ghost turn = { taken_written };

    ghost ends = { ended_written };

    ghost barrier = { is_replacement };

    fn is_barrier(&self, body: &[u8]) -> bool {
        is_replacement(body)
    }

    fn respond<W: Sink>(
        &mut self,
        framing: Framing,
        body: &[u8],
        writer: &mut W,
    ) -> Result<(), Unwritten> {
        match &mut self.storage {
            Storage::Memory(_) => {
                let reply = self.host.ordinary_turn(body);
                put_reply(framing, writer, &reply.head(), reply.body())
            }
            Storage::Disk(store) => {
                if !admit(
                    self.alloc,
                    &mut self.host,
                    store,
                    &mut self.desk.open_group,
                    body,
                ) {
                    return Ok(());
                }
                put_held(framing, writer, &mut self.desk.open_group.replies)
            }
        }
    }

    fn respond_barrier<W: Sink>(
        &mut self,
        framing: Framing,
        body: &[u8],
        writer: &mut W,
    ) -> Result<(), Unwritten> {
        match &mut self.storage {
            Storage::Memory(_) => {
                let reply = self.host.replace(body);
                put_reply(framing, writer, &reply.head(), reply.body())
            }
            Storage::Disk(store) => {
                let reply = admit_barrier(
                    self.alloc,
                    &mut self.host,
                    store,
                    &mut self.desk.open_group,
                    body,
                );
                put_reply(framing, writer, &reply.head(), reply.body())
            }
        }
    }

    fn flush_held<W: Sink>(&mut self, framing: Framing, writer: &mut W) -> Result<(), Unwritten> {
        match &mut self.storage {
            Storage::Memory(_) => Ok(()),
            Storage::Disk(store) => {
                flush_held(self.alloc, &self.host, store, &mut self.desk.open_group);
                put_held(framing, writer, &mut self.desk.open_group.replies)
            }
        }
    }

    fn drop_held(&mut self) {
        match &mut self.storage {
            Storage::Memory(_) => {}
            Storage::Disk(store) => {
                flush_held(self.alloc, &self.host, store, &mut self.desk.open_group);
                self.desk.open_group.replies.clear();
            }
        }
    }
}

/// Writes the held replies, and drops them. Err: the writer failed; they are dropped, too.
fn put_held<W: Sink>(
    framing: Framing,
    writer: &mut W,
    replies: &mut Vec<Reply>,
) -> Result<(), Unwritten>
    requires unbroken { (W.out writer.old).broken ≡ false }
    ensures puts { Puts result (W.out writer.old) (W.out writer.new)
        (spelled_all (frames framing).spelled (map reply_record replies.old.items)) }
    ensures none { replies.new.items ≡ [] }
    ensures places { vec_capacity replies.new ≡ vec_capacity replies.old }
{
    let put = put_replies(framing, writer, replies);
    replies.clear();
    put
}

/// Writes replies one after another. Err: the writer failed, and no later reply is written.
fn put_replies<W: Sink>(
    framing: Framing,
    writer: &mut W,
    replies: &[Reply],
) -> Result<(), Unwritten>
    requires unbroken { (W.out writer.old).broken ≡ false }
    ensures { Puts result (W.out writer.old) (W.out writer.new) (spelled_all (frames framing).spelled (map reply_record replies.now)) }
{
    'replies: for reply in replies {
        put_reply(framing, writer, &reply.head(), reply.body())?;
    }
    Ok(())
}

impl<D: Disk> Server<D> {
    /// Serves one client over lines of hexadecimal digits: one line for each request and for each
    /// reply. Returns the number of answered requests, and why the session ended. An empty line
    /// ends the session as `Closed`, a line above 8,388,608 characters as `TooLong`.
    ///
    /// Over a store, the changes of up to `group` requests (1 to 1,024) are committed together, and
    /// their replies are written after that. REPLACE LIBRARY ends the open group, and is a group of
    /// its own. In memory each reply is written before the next line is read. At the end the open
    /// group is committed and its replies are written. The writer is flushed before each wait for
    /// more input. Err: an allocation failed before anything was read.
    pub fn serve_hex<R: Source + Drop, W: Sink>(
        &mut self,
        reader: &mut BufferedSource<R>,
        writer: &mut W,
        group: usize,
    ) -> Result<Served, AllocError>
        requires positive { 1 ≤ group }
        requires small { group ≤ max_group }
        requires unbroken { AreUnbroken (ahead R.input reader.old) (W.out writer.old) }
        ensures session { IfOk result (IsStoreSession hex_lines (ahead R.input reader.old) (ahead R.input reader.new)
            (W.out writer.old) (W.out writer.new) group self.old.engine self.new.engine) }
        ensures memory { InMemory self.old.engine.storage → IfOk result (HasTalkedInMemory hex_lines (ahead R.input reader.old)
            (ahead R.input reader.new) (W.out writer.old) (W.out writer.new) self.old.engine.host self.new.engine.host) }
        ensures input { OnErr result (ahead R.input reader.new ≡ ahead R.input reader.old) }
        ensures output { OnErr result (W.out writer.new ≡ W.out writer.old) }
        ensures state { OnErr result (self.new ≡ self.old) }
    {
        session_with(&mut self.engine, Framing::HexLines, reader, writer, group)
    }

    /// Serves one client over records: each request and each reply follows its length in bytes, a
    /// little-endian u32. Returns the number of answered requests, and why the session ended. The
    /// length of a request is at most 4,194,304; a greater one ends the session as `TooLong`, and 0
    /// as `Closed`.
    ///
    /// Groups of at most `group` requests and flushes are as in `serve_hex`. Err: an allocation
    /// failed before anything was read.
    pub fn serve<R: Source + Drop, W: Sink>(
        &mut self,
        reader: &mut BufferedSource<R>,
        writer: &mut W,
        group: usize,
    ) -> Result<Served, AllocError>
        requires positive { 1 ≤ group }
        requires small { group ≤ max_group }
        requires unbroken { AreUnbroken (ahead R.input reader.old) (W.out writer.old) }
        ensures session { IfOk result (IsStoreSession records (ahead R.input reader.old) (ahead R.input reader.new)
            (W.out writer.old) (W.out writer.new) group self.old.engine self.new.engine) }
        ensures memory { InMemory self.old.engine.storage → IfOk result (HasTalkedInMemory records (ahead R.input reader.old)
            (ahead R.input reader.new) (W.out writer.old) (W.out writer.new) self.old.engine.host self.new.engine.host) }
        ensures input { OnErr result (ahead R.input reader.new ≡ ahead R.input reader.old) }
        ensures output { OnErr result (W.out writer.new ≡ W.out writer.old) }
        ensures state { OnErr result (self.new ≡ self.old) }
    {
        session_with(&mut self.engine, Framing::Records, reader, writer, group)
    }
}

/// Serves one client in either framing. It allocates an open group, and buffers for the longest
/// line and the longest body, and frees them at the end. Err: one of these allocations failed
/// before anything was read.
fn session_with<D: Disk, R: Source + Drop, W: Sink>(
    engine: &mut ServerState<D>,
    framing: Framing,
    reader: &mut BufferedSource<R>,
    writer: &mut W,
    group: usize,
) -> Result<Served, AllocError>
    requires positive { 1 ≤ group }
    requires unbroken { AreUnbroken (ahead R.input reader.old) (W.out writer.old) }
    ensures session { IfOk result (IsStoreSession (frames framing) (ahead R.input reader.old) (ahead R.input reader.new)
        (W.out writer.old) (W.out writer.new) group engine.old engine.new) }
    ensures memory { InMemory engine.old.storage → IfOk result (HasTalkedInMemory (frames framing) (ahead R.input reader.old)
        (ahead R.input reader.new) (W.out writer.old) (W.out writer.new) engine.old.host engine.new.host) }
    ensures open_group { OnOk result (engine.new.desk.open_group.size ≡ 0) }
    ensures input { OnErr result (ahead R.input reader.new ≡ ahead R.input reader.old) }
    ensures output { OnErr result (W.out writer.new ≡ W.out writer.old) }
    ensures state { OnErr result (engine.new ≡ engine.old) }
{
    let alloc = engine.alloc;
    let mut line = Vec::with_capacity(alloc, MAX_LINE_CHARACTERS as usize + 1)?;
    let mut body = Vec::with_capacity(alloc, MAX_REQUEST_BYTES as usize)?;
    let open_group = OpenGroup::new(alloc, group)?;
    engine.desk.open_group = open_group;
    let served = talk(engine, framing, reader, writer, &mut line, &mut body);
    engine.desk.open_group = OpenGroup::none(alloc);
    Ok(served)
}

/// Serves one client with all memory allocated: an empty group with capacity for its replies, and
/// buffers for a line and a body.
fn talk<D: Disk, R: Source + Drop, W: Sink>(
    engine: &mut ServerState<D>,
    framing: Framing,
    reader: &mut BufferedSource<R>,
    writer: &mut W,
    line: &mut Vec<u8>,
    body: &mut Vec<u8>,
) -> Served
    requires positive { 1 ≤ engine.old.desk.open_group.size }
    requires places { engine.old.desk.open_group.size ≤ vec_capacity engine.old.desk.open_group.replies }
    requires replies { engine.old.desk.open_group.replies.items ≡ [] }
    requires batch { engine.old.desk.open_group.batch ≡ [] }
    requires buffers { HoldLongest (vec_capacity line.now) (vec_capacity body.now) }
    requires unbroken { AreUnbroken (ahead R.input reader.old) (W.out writer.old) }
    ensures session { IsStoreSession (frames framing) (ahead R.input reader.old) (ahead R.input reader.new)
        (W.out writer.old) (W.out writer.new) engine.old.desk.open_group.size engine.old engine.new result }
    ensures memory { InMemory engine.old.storage → HasTalkedInMemory (frames framing) (ahead R.input reader.old) (ahead R.input reader.new)
        (W.out writer.old) (W.out writer.new) engine.old.host engine.new.host result }
{
    let last = Reply::bare(engine.alloc, 0, HResult::BAD_STUB_DATA, None).head();
    serve(engine, framing, &last, reader, writer, line, body)
}
