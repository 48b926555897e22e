//! Sessions over a reader and a writer.
ghost use Rattle.std.specs.Prelude.{◌≡◌, ◌≤◌, ℕ, Bool, List, false, true, length, vec_capacity};
ghost use Rattle.oa_stream.specs.BufferedSource.{ahead, passed};
ghost use Rattle.oa_stream.specs.promise.Sink.{IsHandedOn};
ghost use Rattle.oa_stream.specs.Sink.{Puts};
ghost use Rattle.oa_frame.specs.Beginnings.{AreUnbroken, HoldLongest};
ghost use Rattle.oa_frame.specs.Framings.{IsBodyAt, body_of_read};
ghost use Rattle.oa_frame.specs.promise.Framings.{frames};
ghost use Rattle.oa_frame.specs.declared.framing.Read.TheVariants.{Body};
ghost use Rattle.oa_frame.specs.Sessions.{AnswersBody, AnswersNext, AnswersOwn, Closes, DropsHeld, FlushesHeld};
ghost use Rattle.oa_frame.specs.Sessions.{HandsOn, HasEnded, IsParted, step};
ghost use Rattle.oa_frame.specs.promise.Sessions.{Session, is_answered, last_reply, spelled_all};

use crate::writing::put_reply;
use crate::{End, Framing, Read, read_body};
use oa_model::MAX_RECORDS;
use oa_stream::{BufferedSource, Sink, Source, Unwritten};

/// A server of one client. It may hold replies back, and send those to many bodies at once. A body
/// that *comes alone* (REPLACE LIBRARY) is a barrier: held replies are written and flushed before
/// it.
///
/// Contracts see a reply as its bytes without a length.
pub trait Responder {
    /// The invariant between two bodies.
    ghost ready: { Self → Type 0 };

    /// A turn: the state before, the body, the replies that are sent then, the state after.
    ghost turn: { Self → List ℕ → List (List ℕ) → Self → Type 0 };

    /// A flush, at the end of the input and before a barrier: the state before, the replies that
    /// were still held, the state after.
    ghost ends: { Self → List (List ℕ) → Self → Type 0 };

    /// The bodies that come alone (barriers): held replies are written and flushed before such a
    /// body is answered.
    ghost barrier: { List ℕ → Bool };

    /// Returns whether a body comes alone, so that held replies have to leave before it.
    fn is_barrier(&self, body: &[u8]) -> bool
        ensures { result ≡ barrier body.now };

    /// Answers one body that does not come alone, and writes in this framing the replies that are
    /// then ready. There may be none. Err: the writer failed.
    fn respond<W: Sink>(
        &mut self,
        framing: Framing,
        body: &[u8],
        writer: &mut W,
    ) -> Result<(), Unwritten>
        requires ready { ready self.old }
        requires unbroken { (W.out writer.old).broken ≡ false }
        requires together { barrier body.now ≡ false }
        ensures answers { AnswersBody (frames framing) turn result body.now (W.out writer.old) (W.out writer.new) self.old self.new }
        ensures ready { ready self.new };

    /// Answers one body that comes alone, and writes its own reply, if any. No reply is held, and
    /// the writer has been flushed. Err: the writer failed.
    fn respond_barrier<W: Sink>(
        &mut self,
        framing: Framing,
        body: &[u8],
        writer: &mut W,
    ) -> Result<(), Unwritten>
        requires ready { ready self.old }
        requires unbroken { (W.out writer.old).broken ≡ false }
        requires barrier { barrier body.now ≡ true }
        requires ended { HasEnded ends self.old }
        requires apart { IsHandedOn (W.out writer.old) }
        ensures answers { AnswersOwn (frames framing) turn result body.now (W.out writer.old) (W.out writer.new) self.old self.new }
        ensures ready { ready self.new };

    /// Writes the replies that are still held: the input has ended, or a body comes alone. Err: the
    /// writer failed, and the replies that were not written are lost.
    fn flush_held<W: Sink>(&mut self, framing: Framing, writer: &mut W) -> Result<(), Unwritten>
        requires ready { ready self.old }
        requires unbroken { (W.out writer.old).broken ≡ false }
        ensures finishes { FlushesHeld (frames framing) ends result (W.out writer.old) (W.out writer.new) self.old self.new }
        ensures ready { ready self.new };

    /// Ends the session after the writer has failed: the replies that are still held are lost.
    fn drop_held(&mut self)
        requires ready { ready self.old }
        ensures { DropsHeld ends self.old self.new };
}

/// The point at which the writer failed, of one client or of many.
#[derive(Clone, Copy, Debug, PartialEq, Eq)]
pub enum Loss {
    /// While the reply was written.
    Answered,
    /// Before it: the request was not executed.
    Undone,
}

/// The result of a session.
#[derive(Clone, Copy, Debug, PartialEq, Eq)]
pub struct Served {
    /// The number of bodies that were read and answered.
    pub requests: u64,
    /// Why it ended.
    pub why: End,
}

/// Serves one client: reads bodies until the input ends, answers each on a writer, and flushes the
/// writer before every wait for input and at the end. Returns the number of answered bodies, and
/// why the session ended.
///
/// Held replies are written at the end, and before a body that comes alone. If they cannot be
/// written or flushed then, that body is not executed and not counted.
///
/// `last` is the reply, without a length, to a record that is cut or too long. `line` has capacity
/// for the longest line, and `body` for the longest body, so nothing is allocated here.
pub fn serve<S: Responder, R: Source + Drop, W: Sink>(
    server: &mut S,
    framing: Framing,
    last: &[u8; 16],
    reader: &mut BufferedSource<R>,
    writer: &mut W,
    line: &mut Vec<u8>,
    body: &mut Vec<u8>,
) -> Served
    requires buffers { HoldLongest (vec_capacity line.now) (vec_capacity body.now) }
    requires ready { S.ready server.old }
    requires unbroken { AreUnbroken (ahead R.input reader.old) (W.out writer.old) }
    ensures { Session (frames framing) S.barrier (step S.barrier S.turn S.ends) S.ends last.now (ahead R.input reader.old) (ahead R.input reader.new)
        (W.out writer.old) (W.out writer.new) server.old server.new result }
{
    let mut requests = 0u64;
    'turns: for _ in 0..MAX_RECORDS {
        match read_body(framing, reader, writer, line, body, requests + 1) {
            Read::Body(count, is_ahead) => {
                let bytes = body_in(reader, body, count, is_ahead);
                match answer(server, framing, bytes, writer) {
                    Ok(()) => requests += 1,
                    Err(Loss::Answered) => {
                        server.drop_held();
                        return Served {
                            requests: requests + 1,
                            why: End::WriteFault,
                        };
                    }
                    Err(Loss::Undone) => {
                        return Served {
                            requests,
                            why: End::WriteFault,
                        };
                    }
                }
            }
            Read::Ends(end) => {
                let why = close(server, framing, last, writer, end);
                return Served { requests, why };
            }
            Read::Unwritten => {
                server.drop_held();
                return Served {
                    requests,
                    why: End::WriteFault,
                };
            }
        }
    }
    let why = close(server, framing, last, writer, End::ReadFault);
    Served { requests, why }
}

/// Returns a body of `count` bytes: if `is_ahead` the last that were consumed of the read-ahead
/// buffer, otherwise the first of `buffer`.
#[inline(always)]
fn body_in<'a, R: Source + Drop>(
    reader: &'a BufferedSource<R>,
    buffer: &'a [u8],
    count: usize,
    is_ahead: bool,
) -> &'a [u8]
    requires { IsBodyAt (Body count is_ahead) buffer.now (passed reader.now) }
    ensures { result.now ≡ body_of_read count is_ahead buffer.now (passed reader.now) }
{
    if is_ahead {
        reader.passed(count)
    } else {
        &buffer[..count]
    }
}

/// Answers a body. If it comes alone, held replies are written and flushed first. Errors: `Undone`
/// if the writer failed before the body was executed, `Answered` if it failed after that.
fn answer<S: Responder, W: Sink>(
    server: &mut S,
    framing: Framing,
    body: &[u8],
    writer: &mut W,
) -> Result<(), Loss>
    requires ready { S.ready server.old }
    requires unbroken { (W.out writer.old).broken ≡ false }
    ensures answers { AnswersNext (frames framing) S.barrier S.turn S.ends result body.now (W.out writer.old) (W.out writer.new) server.old server.new }
    ensures ready { S.ready server.new }
{
    if server.is_barrier(body) {
        if let Err(_) = part(server, framing, writer) {
            return Err(Loss::Undone);
        }
        return server
            .respond_barrier(framing, body, writer)
            .map_err(|_| Loss::Answered);
    }
    server
        .respond(framing, body, writer)
        .map_err(|_| Loss::Answered)
}

/// Writes held replies, and flushes. Err: the writer failed.
fn part<S: Responder, W: Sink>(
    server: &mut S,
    framing: Framing,
    writer: &mut W,
) -> Result<(), Unwritten>
    requires ready { S.ready server.old }
    requires unbroken { (W.out writer.old).broken ≡ false }
    ensures parts { IsParted (frames framing) S.ends result (W.out writer.old) (W.out writer.new) server.old server.new }
    ensures ready { S.ready server.new }
{
    server.flush_held(framing, writer)?;
    writer.deliver()
}

/// Writes the reply `last` if the session ends by a record that is cut or too long. Err: the writer
/// failed.
fn put_last<W: Sink>(
    framing: Framing,
    last: &[u8; 16],
    writer: &mut W,
    why: End,
) -> Result<(), Unwritten>
    requires unbroken { (W.out writer.old).broken ≡ false }
    ensures { Puts result (W.out writer.old) (W.out writer.new) (spelled_all (frames framing).spelled (last_reply last.now why)) }
{
    if has_reply(why) {
        return put_reply(framing, writer, last, &[]);
    }
    Ok(())
}

/// Returns whether this end of the session has a reply: a record that is cut or too long does.
fn has_reply(why: End) -> bool
    ensures { result ≡ is_answered why }
{
    match why {
        End::Cut | End::TooLong => true,
        End::Closed | End::BadHex(_) | End::ReadFault | End::WriteFault => false,
    }
}

/// Writes the reply to a record that is no request, flushes, and returns why the session ended:
/// `WriteFault` if the writer fails.
fn hand_on<W: Sink>(framing: Framing, last: &[u8; 16], writer: &mut W, why: End) -> End
    requires unbroken { (W.out writer.old).broken ≡ false }
    ensures { HandsOn (frames framing).spelled result why (last_reply last.now why) (W.out writer.old) (W.out writer.new) }
{
    match put_last(framing, last, writer, why) {
        Ok(()) => match writer.deliver() {
            Ok(()) => why,
            Err(_) => End::WriteFault,
        },
        Err(_) => End::WriteFault,
    }
}

/// Writes held replies and the reply of this end, flushes, and returns why the session ended:
/// `WriteFault` if the writer fails.
fn close<S: Responder, W: Sink>(
    server: &mut S,
    framing: Framing,
    last: &[u8; 16],
    writer: &mut W,
    why: End,
) -> End
    requires ready { S.ready server.old }
    requires unbroken { (W.out writer.old).broken ≡ false }
    ensures { Closes (frames framing) S.ends last.now result why (W.out writer.old) (W.out writer.new) server.old server.new }
{
    match server.flush_held(framing, writer) {
        Ok(()) => hand_on(framing, last, writer, why),
        Err(_) => End::WriteFault,
    }
}
