//! Sessions of many clients over streams.
ghost use Rattle.std.specs.Prelude.{◌≡◌, ◌<◌, ◌≤◌, [], IfOk, OnErr, OnOk, false, get_or, length};
ghost use Rattle.oa_frame.specs.Beginnings.{AreUnbroken};
ghost use Rattle.oa_frame.specs.promise.Sessions.{is_answered};
ghost use Rattle.oa_model.specs.Limits.{max_group};
ghost use Rattle.oa_record.specs.promise.Replacement.{is_replacement};
ghost use Rattle.oa_server.specs.SharedGroups.{ClearsDesk, told_at};
ghost use Rattle.oa_server.specs.promise.SharedSessions.{all_frames, frames_of, told_to, told_with, IsSharedSession};
ghost use Rattle.oa_server.specs.promise.SharedSessions.{asked_written};
ghost use Rattle.oa_server.specs.SharedTalks.{TakesAsked};
ghost use Rattle.oa_server.specs.promise.SharedMachine.ClientReply.{Leaves as ALeave};
ghost use Rattle.oa_mux.specs.promise.Outgoing.{spelled_frames};
ghost use Rattle.oa_stream.specs.BufferedSource.{ahead};
ghost use Rattle.oa_stream.specs.Sink.{Puts};

use crate::Server;
use crate::desk::{ReplyTo, SharedGroup, ask_alone, ask_over, end_over, finish_over};
use crate::engine::ServerState;
use crate::locking::{let_all_go, let_go, replace_for, turn_for};
use crate::open_group::OpenGroup;
use crate::storage::Storage;
use oa_disk::Disk;
use oa_frame::End;
use oa_model::HResult;
use oa_mux::{SessionEnd, SharedResponder, put_last_of, put_reply_of, serve_clients};
use oa_record::{Reply, is_replacement};
use oa_stream::{BufferedSource, Sink, Source, Unwritten};
use oa_turn::LockTable;
use std::alloc::{AllocError, Global};

/// In memory each reply is written at once. Over a store it is held until its group ends, and then
/// all replies of the group are written, each to its client.
impl<D: Disk> SharedResponder for ServerState<D> {
    ghost ready = { TakesAsked };

    ghost turn = { asked_written };

    ghost barrier = { is_replacement };

    fn is_alone(&self, body: &[u8]) -> bool {
        is_replacement(body)
    }

    fn answer_client<W: Sink>(
        &mut self,
        client: u32,
        body: &[u8],
        writer: &mut W,
    ) -> Result<(), Unwritten> {
        match &mut self.storage {
            Storage::Memory(_) => {
                let reply = turn_for(
                    self.alloc,
                    &mut self.host,
                    &mut self.desk.owners,
                    client,
                    body,
                );
                put_reply_of(writer, client, &reply.head(), reply.body())
            }
            Storage::Disk(store) => {
                if !ask_over(
                    self.alloc,
                    &mut self.host,
                    store,
                    &mut self.desk,
                    client,
                    body,
                ) {
                    return Ok(());
                }
                put_told(self.alloc, writer, &mut self.desk)
            }
        }
    }

    fn answer_client_alone<W: Sink>(
        &mut self,
        client: u32,
        body: &[u8],
        writer: &mut W,
    ) -> Result<(), Unwritten> {
        match &mut self.storage {
            Storage::Memory(_) => {
                let reply = replace_for(&mut self.host, body);
                put_reply_of(writer, client, &reply.head(), reply.body())
            }
            Storage::Disk(store) => {
                let reply = ask_alone(self.alloc, &mut self.host, store, &mut self.desk, body);
                put_reply_of(writer, client, &reply.head(), reply.body())
            }
        }
    }

    fn end_client<W: Sink>(
        &mut self,
        client: u32,
        why: End,
        writer: &mut W,
    ) -> Result<(), Unwritten> {
        match &mut self.storage {
            Storage::Memory(_) => {
                let_go(&mut self.host, &mut self.desk.owners, client);
                put_end(self.alloc, writer, client, why)
            }
            Storage::Disk(store) => {
                if !end_over(
                    self.alloc,
                    &mut self.host,
                    store,
                    &mut self.desk,
                    client,
                    why,
                ) {
                    return Ok(());
                }
                put_told(self.alloc, writer, &mut self.desk)
            }
        }
    }

    fn commit_now<W: Sink>(&mut self, writer: &mut W) -> Result<(), Unwritten> {
        match &mut self.storage {
            Storage::Memory(_) => Ok(()),
            Storage::Disk(store) => {
                finish_over(self.alloc, &self.host, store, &mut self.desk);
                put_told(self.alloc, writer, &mut self.desk)
            }
        }
    }

    fn abandon_clients(&mut self) {
        match &mut self.storage {
            Storage::Memory(_) => {}
            Storage::Disk(store) => {
                finish_over(self.alloc, &self.host, store, &mut self.desk);
                clear(&mut self.desk);
            }
        }
    }
}

/// Writes the held replies, each to its client, and drops them. Err: the writer failed; they are
/// dropped, too.
fn put_told<W: Sink>(alloc: Global, writer: &mut W, desk: &mut SharedGroup) -> Result<(), Unwritten>
    requires unbroken { (W.out writer.old).broken ≡ false }
    requires each { length desk.old.askers.items ≡ length desk.old.open_group.replies.items }
    ensures puts { Puts result (W.out writer.old) (W.out writer.new) (spelled_frames (all_frames (told_at desk.old))) }
    ensures cleared { ClearsDesk desk.old desk.new }
{
    let put = put_all(alloc, writer, &desk.askers, &desk.open_group.replies);
    clear(desk);
    put
}

/// Drops the held replies.
fn clear(desk: &mut SharedGroup)
    ensures { ClearsDesk desk.old desk.new }
{
    desk.askers.clear();
    desk.open_group.replies.clear();
}

/// Writes replies one after another, each to its client. Err: the writer failed, and no later reply
/// is written.
fn put_all<W: Sink>(
    alloc: Global,
    writer: &mut W,
    askers: &[ReplyTo],
    replies: &[Reply],
) -> Result<(), Unwritten>
    requires unbroken { (W.out writer.old).broken ≡ false }
    requires each { length askers.now ≡ length replies.now }
    ensures { Puts result (W.out writer.old) (W.out writer.new) (spelled_frames (all_frames (told_to askers.now replies.now))) }
{
    'replies: for i in 0..replies.len() {
        let asker = asker_of(askers, i);
        put_one(alloc, writer, asker, &replies[i])?;
    }
    Ok(())
}

/// Returns the client of reply `i`, counted from 0.
fn asker_of(askers: &[ReplyTo], i: usize) -> ReplyTo
    requires { i < length askers.now }
    ensures { get_or askers.now i result ≡ result }
{
    askers[i]
}

/// Writes one client's reply or end. Err: the writer failed.
fn put_one<W: Sink>(
    alloc: Global,
    writer: &mut W,
    asker: ReplyTo,
    reply: &Reply,
) -> Result<(), Unwritten>
    requires { (W.out writer.old).broken ≡ false }
    ensures { Puts result (W.out writer.old) (W.out writer.new) (spelled_frames (frames_of (told_with asker.client asker.why reply.now))) }
{
    match asker.why {
        None => put_reply_of(writer, asker.client, &reply.head(), reply.body()),
        Some(why) => put_end(alloc, writer, asker.client, why),
    }
}

/// Writes the end of a client: for a record that was cut or too long the reply bad stub data, with
/// tag 0, and then the frame that ends its replies. Err: the writer failed.
fn put_end<W: Sink>(alloc: Global, writer: &mut W, client: u32, why: End) -> Result<(), Unwritten>
    requires { (W.out writer.old).broken ≡ false }
    ensures { Puts result (W.out writer.old) (W.out writer.new) (spelled_frames (frames_of (ALeave client why))) }
{
    if !is_answered(why) {
        return put_last_of(writer, client);
    }
    let stub = Reply::bare(alloc, 0, HResult::BAD_STUB_DATA, None).head();
    put_reply_of(writer, client, &stub, &[])?;
    put_last_of(writer, client)
}

/// Returns whether an end has a reply.
fn is_answered(why: End) -> bool
    ensures { result ≡ is_answered why }
{
    match why {
        End::Cut | End::TooLong => true,
        _ => false,
    }
}

impl<D: Disk> Server<D> {
    /// Serves many clients over frames: reads their requests from a reader, and writes frames of
    /// replies to a writer. Returns why the session ended.
    ///
    /// Over a store, the changes of up to `group` requests (1 to 1,024) of any clients are
    /// committed together. Their replies are written after that, each to its client. The end of a
    /// client counts as a request. A *now* ends the open group; so does REPLACE LIBRARY, which is a
    /// group of its own. In memory each reply is written at once.
    ///
    /// At the start no client has a lock: locks of before belong to nobody. The end of a client
    /// releases its locks, and the end of the session those of all present clients. Err: an
    /// allocation failed before anything was read.
    pub fn serve_shared<R: Source + Drop, W: Sink>(
        &mut self,
        reader: &mut BufferedSource<R>,
        writer: &mut W,
        group: usize,
    ) -> Result<SessionEnd, AllocError>
        requires positive { 1 ≤ group }
        requires small { group ≤ max_group }
        requires unbroken { AreUnbroken (ahead R.input reader.old) (W.out writer.old) }
        ensures session { IfOk result (IsSharedSession (ahead R.input reader.old) (ahead R.input reader.new) (W.out writer.old) (W.out writer.new) group
            self.old.engine self.new.engine) }
        ensures unlocked { OnOk result (self.new.engine.desk.owners ≡ []) }
        ensures input { OnErr result (ahead R.input reader.new ≡ ahead R.input reader.old) }
        ensures output { OnErr result (W.out writer.new ≡ W.out writer.old) }
        ensures state { OnErr result (self.new ≡ self.old) }
    {
        let alloc = self.engine.alloc;
        let open_group = OpenGroup::new(alloc, group)?;
        let askers = Vec::with_capacity(alloc, group)?;
        self.engine.desk.open_group = open_group;
        self.engine.desk.askers = askers;
        self.engine.desk.owners = LockTable::new(alloc);
        let ended = serve_clients(&mut self.engine, alloc, reader, writer);
        let engine = &mut self.engine;
        let_all_go(alloc, &mut engine.host, &mut engine.desk.owners);
        Ok(ended)
    }
}
