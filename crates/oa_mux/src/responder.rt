//! Servers of many clients.
ghost use Rattle.std.specs.Prelude.{◌≡◌, ℕ, Bool, List, false, true};
ghost use Rattle.oa_mux.specs.Answering.{AnswersClient, GivesUp, IsBehindNow};
ghost use Rattle.oa_mux.specs.promise.Marks.{Flush, Of, Tagged};
ghost use Rattle.oa_mux.specs.promise.Readers.{Body, Brought, Ends};
ghost use Rattle.oa_stream.specs.promise.Sink.{IsHandedOn};

use oa_frame::End;
use oa_stream::{Sink, Unwritten};

/// A server of many clients. It may hold replies back, and send those to many requests, of any
/// clients, at once. A body that *comes alone* (REPLACE LIBRARY) is a barrier: a *now* comes before
/// it.
///
/// Contracts see what is sent as a list. Each entry is a client's number and the bytes of a reply
/// without a length, or no bytes after the client's last reply.
pub trait SharedResponder {
    /// The invariant between two turns.
    ghost ready: { Self → Type 0 };

    /// A turn: the state before, the request, what is sent then, the state after.
    ghost turn: { Self → Tagged Brought → List (ℕ × List ℕ) → Self → Type 0 };

    /// The bodies that come alone (barriers): a *now* is made, and the writer flushed, before such
    /// a body is answered.
    ghost barrier: { List ℕ → Bool };

    /// Returns whether a body comes alone, so that held replies have to leave before it.
    fn is_alone(&self, body: &[u8]) -> bool
        ensures { result ≡ barrier body.now };

    /// Answers a body of the client with this number; the body does not come alone. Writes the
    /// replies that are then ready, which may be none. Err: the writer failed.
    fn answer_client<W: Sink>(
        &mut self,
        client: u32,
        body: &[u8],
        writer: &mut W,
    ) -> Result<(), Unwritten>
        requires ready { ready self.old }
        requires unbroken { (W.out writer.old).broken ≡ false }
        requires together { barrier body.now ≡ false }
        ensures answers { AnswersClient turn result (Of client (Body body.now)) (W.out writer.old) (W.out writer.new) self.old self.new }
        ensures ready { ready self.new };

    /// Answers a body of the client with this number that comes alone, after a *now* whose replies
    /// have all left the writer. Writes the reply. Err: the writer failed.
    fn answer_client_alone<W: Sink>(
        &mut self,
        client: u32,
        body: &[u8],
        writer: &mut W,
    ) -> Result<(), Unwritten>
        requires ready { ready self.old }
        requires unbroken { (W.out writer.old).broken ≡ false }
        requires barrier { barrier body.now ≡ true }
        requires now { IsBehindNow turn self.old }
        requires apart { IsHandedOn (W.out writer.old) }
        ensures answers { AnswersClient turn result (Of client (Body body.now)) (W.out writer.old) (W.out writer.new) self.old self.new }
        ensures ready { ready self.new };

    /// Ends the stream of the client with this number: `Closed`, `Cut` or `TooLong`. Writes the
    /// replies that are then ready. Err: the writer failed.
    fn end_client<W: Sink>(
        &mut self,
        client: u32,
        why: End,
        writer: &mut W,
    ) -> Result<(), Unwritten>
        requires ready { ready self.old }
        requires unbroken { (W.out writer.old).broken ≡ false }
        ensures answers { AnswersClient turn result (Of client (Ends why)) (W.out writer.old) (W.out writer.new) self.old self.new }
        ensures ready { ready self.new };

    /// *Now*: commits the open group, and writes all held replies. Err: the writer failed.
    fn commit_now<W: Sink>(&mut self, writer: &mut W) -> Result<(), Unwritten>
        requires ready { ready self.old }
        requires unbroken { (W.out writer.old).broken ≡ false }
        ensures answers { AnswersClient turn result Flush (W.out writer.old) (W.out writer.new) self.old self.new }
        ensures ready { ready self.new };

    /// Commits the open group after the writer has failed: held replies are lost.
    fn abandon_clients(&mut self)
        requires ready { ready self.old }
        ensures gives_up { GivesUp turn self.old self.new }
        ensures ready { ready self.new };
}
