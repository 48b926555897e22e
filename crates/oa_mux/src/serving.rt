//! Sessions of many clients over a reader and a writer.
ghost use Rattle.std.specs.Prelude.{◌≡◌, ◌<◌, ◌≤◌, ◌∷◌, [], false, length, true};
ghost use Rattle.oa_frame.specs.Beginnings.{AreUnbroken};
ghost use Rattle.oa_mux.specs.promise.Marks.{Flush, Of};
ghost use Rattle.oa_mux.specs.promise.Readers.{Body, Ends};
ghost use Rattle.oa_mux.specs.Shared.{BringsRecord, arrived};
ghost use Rattle.oa_mux.specs.promise.Shared.{Rises, reads_nothing, starting};
ghost use Rattle.oa_mux.specs.Talking.{AnswersAsked, AnswersEnds, AnswersSingle, ClosesAll, EndsNext, MakesNow};
ghost use Rattle.oa_mux.specs.Talking.{Progresses};
ghost use Rattle.oa_mux.specs.promise.Talking.{ServesClients, ends_at, ends_in, parted};
ghost use Rattle.oa_mux.specs.declared.session_end.SessionEnd.TheVariants as over;
ghost use Rattle.oa_stream.specs.BufferedSource.{ahead, read_ahead};

use crate::{Demux, DemuxItem, DemuxStep, SessionEnd, SharedResponder};
use oa_frame::{End, Loss};
use oa_model::MAX_RECORDS;
use oa_stream::{BufferedSource, More, Sink, Source, Unwritten};
use std::alloc::Global;

/// The result of one step of a session.
#[derive(Clone, Copy)]
pub(crate) enum Progress {
    /// It was answered, or contained nothing whole.
    Goes,
    /// The reading has ended.
    Over(SessionEnd),
    /// The writer has failed.
    Unwritten,
}

/// Serves many clients: reads their requests from frames, and answers by frames on a writer. The
/// writer is flushed before each wait for more input, at each *now*, before a body that comes alone
/// is answered, and at the end. Returns why the session ended.
///
/// The session ends with the input; at an invalid head; if an allocation for a part of a record
/// fails; if the reader or the writer fails. In the first two cases each present client ends, the
/// lowest number first. Unless the writer has failed, held requests are then committed and
/// answered, and the writer is flushed; if it has failed, they are committed. No byte is consumed
/// after an invalid head. A steady reader is called at most once more than bytes were consumed.
pub fn serve_clients<S: SharedResponder, R: Source + Drop, W: Sink>(
    server: &mut S,
    alloc: Global,
    reader: &mut BufferedSource<R>,
    writer: &mut W,
) -> SessionEnd
    requires ready { S.ready server.old }
    requires unbroken { AreUnbroken (ahead R.input reader.old) (W.out writer.old) }
    ensures serves { ServesClients S.barrier S.turn starting (ahead R.input reader.old) (ahead R.input reader.new)
        (W.out writer.old) (W.out writer.new) server.old server.new result }
    ensures ready { S.ready server.new }
{
    let mut streams = Demux::new(alloc);
    'parts: for _ in 0..MAX_RECORDS {
        match part(server, &mut streams, reader, writer) {
            Progress::Goes => {}
            Progress::Over(why) => return close(server, &mut streams, writer, why),
            Progress::Unwritten => return SessionEnd::WriteFault,
        }
    }
    close(server, &mut streams, writer, SessionEnd::ReadFault)
}

/// Waits for more input if nothing is read ahead; otherwise consumes the first item of it, and
/// answers that.
fn part<S: SharedResponder, R: Source + Drop, W: Sink>(
    server: &mut S,
    streams: &mut Demux,
    reader: &mut BufferedSource<R>,
    writer: &mut W,
) -> Progress
    requires ready { S.ready server.old }
    requires unbroken { AreUnbroken (ahead R.input reader.old) (W.out writer.old) }
    ensures progresses { Progresses S.barrier S.turn result streams.old streams.new (read_ahead reader.old) (read_ahead reader.new)
        (ahead R.input reader.old) (ahead R.input reader.new) (W.out writer.old) (W.out writer.new) server.old server.new }
    ensures ready { S.ready server.new }
{
    if streams.reads_nothing() {
        return Progress::Over(SessionEnd::Unknown);
    }
    if reader.buffered().is_empty() {
        return wait(server, streams, reader, writer);
    }
    match streams.whole_record(reader.buffered()) {
        Some((client, count)) => answer_record(server, streams, client, count, reader, writer),
        None => take_part(server, streams, reader, writer),
    }
}

/// Flushes, and waits for more input. If the writer fails, the open group is committed, and nothing
/// is read.
fn wait<S: SharedResponder, R: Source + Drop, W: Sink>(
    server: &mut S,
    streams: &Demux,
    reader: &mut BufferedSource<R>,
    writer: &mut W,
) -> Progress
    requires ready { S.ready server.old }
    requires open { reads_nothing streams.now.place ≡ false }
    requires none { read_ahead reader.old ≡ [] }
    requires unbroken { AreUnbroken (ahead R.input reader.old) (W.out writer.old) }
    ensures progresses { Progresses S.barrier S.turn result streams.now streams.now (read_ahead reader.old) (read_ahead reader.new)
        (ahead R.input reader.old) (ahead R.input reader.new) (W.out writer.old) (W.out writer.new) server.old server.new }
    ensures ready { S.ready server.new }
{
    if let Err(_) = writer.deliver() {
        server.abandon_clients();
        return Progress::Unwritten;
    }
    match reader.more(writer) {
        More::Some | More::Again => Progress::Goes,
        More::End => Progress::Over(streams.end_of_input()),
        More::Fault => Progress::Over(SessionEnd::ReadFault),
    }
}

/// Answers, in place, the record of `client` in the frame at the front of the read-ahead buffer.
/// The frame has `count` bytes with its head. If the writer failed before the answer, it is not
/// consumed.
fn answer_record<S: SharedResponder, R: Source + Drop, W: Sink>(
    server: &mut S,
    streams: &Demux,
    client: u32,
    count: usize,
    reader: &mut BufferedSource<R>,
    writer: &mut W,
) -> Progress
    requires ready { S.ready server.old }
    requires brings { BringsRecord streams.now (read_ahead reader.old) client count }
    requires unbroken { AreUnbroken (ahead R.input reader.old) (W.out writer.old) }
    ensures progresses { Progresses S.barrier S.turn result streams.now streams.now (read_ahead reader.old) (read_ahead reader.new)
        (ahead R.input reader.old) (ahead R.input reader.new) (W.out writer.old) (W.out writer.new) server.old server.new }
    ensures ready { S.ready server.new }
{
    let body = &reader.buffered()[12..count];
    match answer_body(server, client, body, writer) {
        Ok(()) => {
            reader.advance(count);
            Progress::Goes
        }
        Err(Loss::Answered) => {
            reader.advance(count);
            Progress::Unwritten
        }
        Err(Loss::Undone) => Progress::Unwritten,
    }
}

/// Consumes the first item of the read-ahead buffer, and answers it. If the writer failed before
/// the answer, the item is not consumed.
fn take_part<S: SharedResponder, R: Source + Drop, W: Sink>(
    server: &mut S,
    streams: &mut Demux,
    reader: &mut BufferedSource<R>,
    writer: &mut W,
) -> Progress
    requires ready { S.ready server.old }
    requires open { reads_nothing streams.old.place ≡ false }
    requires some { 0 < length (read_ahead reader.old) }
    requires unbroken { AreUnbroken (ahead R.input reader.old) (W.out writer.old) }
    ensures progresses { Progresses S.barrier S.turn result streams.old streams.new (read_ahead reader.old) (read_ahead reader.new)
        (ahead R.input reader.old) (ahead R.input reader.new) (W.out writer.old) (W.out writer.new) server.old server.new }
    ensures ready { S.ready server.new }
{
    let Ok(portion) = streams.take(reader.buffered()) else {
        return Progress::Over(SessionEnd::Memory);
    };
    let DemuxStep { count, arrived } = portion;
    match answer(server, arrived, writer) {
        Ok(()) => {
            reader.advance(count);
            Progress::Goes
        }
        Err(Loss::Answered) => {
            reader.advance(count);
            Progress::Unwritten
        }
        Err(Loss::Undone) => Progress::Unwritten,
    }
}

/// Answers one item. Errors: `Undone` if the writer failed before it was executed, otherwise
/// `Answered`.
fn answer<S: SharedResponder, W: Sink>(
    server: &mut S,
    arrival: DemuxItem<'_>,
    writer: &mut W,
) -> Result<(), Loss>
    requires ready { S.ready server.old }
    requires unbroken { (W.out writer.old).broken ≡ false }
    ensures answers { AnswersAsked S.turn result (parted S.barrier (arrived arrival.entry)) (W.out writer.old) (W.out writer.new) server.old server.new }
    ensures ready { S.ready server.new }
{
    match arrival {
        DemuxItem::Nothing | DemuxItem::Unknown => Ok(()),
        DemuxItem::Body(client, record) => answer_body(server, client, record.body(), writer),
        DemuxItem::Ends(client, why) => match answer_end(server, client, why, writer) {
            Ok(()) => Ok(()),
            Err(_) => Err(Loss::Answered),
        },
        DemuxItem::Flush => match make_now(server, writer) {
            Ok(()) => Ok(()),
            Err(_) => Err(Loss::Undone),
        },
    }
}

/// Answers a body; if it comes alone, after a *now*. If the writer fails after it was executed,
/// held replies are lost, and the error is `Answered`; before it, `Undone`.
fn answer_body<S: SharedResponder, W: Sink>(
    server: &mut S,
    client: u32,
    body: &[u8],
    writer: &mut W,
) -> Result<(), Loss>
    requires ready { S.ready server.old }
    requires unbroken { (W.out writer.old).broken ≡ false }
    ensures answers { AnswersAsked S.turn result (parted S.barrier (Of client (Body body.now) ∷ [])) (W.out writer.old) (W.out writer.new) server.old server.new }
    ensures ready { S.ready server.new }
{
    if server.is_alone(body) {
        return answer_alone(server, client, body, writer);
    }
    if let Err(_) = server.answer_client(client, body, writer) {
        server.abandon_clients();
        return Err(Loss::Answered);
    }
    Ok(())
}

/// Answers a body that comes alone, after a *now*. Errors are those of `answer_body`.
fn answer_alone<S: SharedResponder, W: Sink>(
    server: &mut S,
    client: u32,
    body: &[u8],
    writer: &mut W,
) -> Result<(), Loss>
    requires ready { S.ready server.old }
    requires barrier { S.barrier body.now ≡ true }
    requires unbroken { (W.out writer.old).broken ≡ false }
    ensures answers { AnswersAsked S.turn result (Flush ∷ Of client (Body body.now) ∷ []) (W.out writer.old) (W.out writer.new) server.old server.new }
    ensures ready { S.ready server.new }
{
    if let Err(_) = make_now(server, writer) {
        return Err(Loss::Undone);
    }
    if let Err(_) = server.answer_client_alone(client, body, writer) {
        server.abandon_clients();
        return Err(Loss::Answered);
    }
    Ok(())
}

/// Answers the end of a client's stream. Err: the writer failed, and held replies are lost.
fn answer_end<S: SharedResponder, W: Sink>(
    server: &mut S,
    client: u32,
    why: End,
    writer: &mut W,
) -> Result<(), Unwritten>
    requires ready { S.ready server.old }
    requires unbroken { (W.out writer.old).broken ≡ false }
    ensures answers { AnswersSingle S.turn result (Of client (Ends why)) (W.out writer.old) (W.out writer.new) server.old server.new }
    ensures ready { S.ready server.new }
{
    if let Err(fault) = server.end_client(client, why, writer) {
        server.abandon_clients();
        return Err(fault);
    }
    Ok(())
}

/// Commits the open group, writes held replies, and flushes. Err: the writer failed.
fn make_now<S: SharedResponder, W: Sink>(server: &mut S, writer: &mut W) -> Result<(), Unwritten>
    requires ready { S.ready server.old }
    requires unbroken { (W.out writer.old).broken ≡ false }
    ensures now { MakesNow S.turn result (W.out writer.old) (W.out writer.new) server.old server.new }
    ensures ready { S.ready server.new }
{
    server.commit_now(writer)?;
    writer.deliver()
}

/// Ends the session: first the present clients, if they end with it, then a *now*. Returns why the
/// session ended: `WriteFault` if the writer fails.
fn close<S: SharedResponder, W: Sink>(
    server: &mut S,
    streams: &mut Demux,
    writer: &mut W,
    why: SessionEnd,
) -> SessionEnd
    requires ready { S.ready server.old }
    requires unbroken { (W.out writer.old).broken ≡ false }
    ensures closes { ClosesAll S.turn result why streams.old.clients (W.out writer.old) (W.out writer.new) server.old server.new }
    ensures rise { Rises streams.old.clients }
    ensures ready { S.ready server.new }
{
    streams.numbers_rise();
    if let Err(_) = end_clients(server, streams, writer, why) {
        return SessionEnd::WriteFault;
    }
    match make_now(server, writer) {
        Ok(()) => why,
        Err(_) => SessionEnd::WriteFault,
    }
}

/// Ends the present clients if the session ends with the input or at an invalid head. Err: the
/// writer failed.
fn end_clients<S: SharedResponder, W: Sink>(
    server: &mut S,
    streams: &mut Demux,
    writer: &mut W,
    why: SessionEnd,
) -> Result<(), Unwritten>
    requires ready { S.ready server.old }
    requires unbroken { (W.out writer.old).broken ≡ false }
    ensures ends { AnswersEnds S.turn result (ends_at why streams.old.clients) (ends_in streams.old.clients) (W.out writer.old) (W.out writer.new) server.old server.new }
    ensures ready { S.ready server.new }
{
    match why {
        SessionEnd::Closed | SessionEnd::Cut | SessionEnd::Unknown => {
            end_all(server, streams, writer)
        }
        SessionEnd::Memory | SessionEnd::ReadFault | SessionEnd::WriteFault => Ok(()),
    }
}

/// Ends all present clients, the lowest number first. Err: the writer failed.
fn end_all<S: SharedResponder, W: Sink>(
    server: &mut S,
    streams: &mut Demux,
    writer: &mut W,
) -> Result<(), Unwritten>
    requires ready { S.ready server.old }
    requires unbroken { (W.out writer.old).broken ≡ false }
    ensures ends { AnswersEnds S.turn result (ends_in streams.old.clients) (ends_in streams.old.clients) (W.out writer.old) (W.out writer.new) server.old server.new }
    ensures ready { S.ready server.new }
{
    let count = streams.count();
    'ends: for _ in 0..count {
        end_next(server, streams, writer)?;
    }
    Ok(())
}

/// Ends the client with the lowest number. Err: the writer failed.
fn end_next<S: SharedResponder, W: Sink>(
    server: &mut S,
    streams: &mut Demux,
    writer: &mut W,
) -> Result<(), Unwritten>
    requires ready { S.ready server.old }
    requires some { 0 < length streams.old.clients }
    requires unbroken { (W.out writer.old).broken ≡ false }
    ensures ends { EndsNext S.turn result streams.old.clients streams.new.clients (W.out writer.old) (W.out writer.new) server.old server.new }
    ensures ready { S.ready server.new }
{
    let Some((client, last)) = streams.last() else {
        return Ok(());
    };
    match last {
        Some(why) => answer_end(server, client, why, writer),
        None => Ok(()),
    }
}
