//! The decisions of oa_gateway as a static library for C: `clients/gateway` calls it.
//!
//! C lends bytes and places, and every call accepts any contents of them. They must be valid memory
//! of the given lengths, and no two arguments may share any. Nothing is allocated or kept between
//! calls. `clients/gateway/gateway.h` declares these functions for C.
#![tactic(auto)]

ghost use Rattle.std.specs.Prelude.{◌≡◌, ◌<◌, ◌≤◌, ◌∷◌, ◌++◌, [], ℕ, List, Bool, true, false, length, take, slice_get, slice_index, Some, None};
ghost use Rattle.oa_mux.specs.promise.Frames.{InHead, pieces_in};
ghost use Rattle.oa_mux.specs.promise.Marks.{Flush, Last, Of};
ghost use Rattle.oa_gateway.specs.Beginnings.{begins};
ghost use Rattle.oa_gateway.specs.Disconnects.{AllHaveRead, IsHeaviest, gives_way, judged};
ghost use Rattle.oa_gateway.specs.Exclusive.{behind_batch, behind_holder, waiting_in, whose};
ghost use Rattle.oa_gateway.specs.Frames.{PutsDeed, gateway_number, room_for};
ghost use Rattle.oa_gateway.specs.Hearing.{Hearing};
ghost use Rattle.oa_gateway.specs.Places.{AllRestarted, Closes, Leaves, MayDo, Sends, place_number};
ghost use Rattle.oa_gateway.specs.Queues.{HasQueueRoom, IsQueue, IsWithout, begun_queue, enqueued, next_batch, next_turn, queue_of, turn_of};
ghost use Rattle.oa_gateway.specs.WholeRequests.{CutsAt};
ghost use Rattle.oa_gateway.specs.Turns.{behind_taking, taking};
ghost use Rattle.oa_gateway.specs.declared.hearing.Heard.{Heard};
ghost use Rattle.oa_gateway_c.specs.Heard.{c_frame};
ghost use Rattle.oa_gateway_c.specs.Taken.{taking_code};
ghost use Rattle.oa_gateway_c.specs.Judged.{verdict_code};
ghost use Rattle.oa_gateway_c.specs.Begun.{whose_code};

use oa_gateway::{
    BatchLimits, Conduct, Exclusion, Heard, Moment, NumberState, Patience, Queue, Taking, Verdict,
    Whose, waiting_in,
};

/// `Frame::what` of a frame that has not come whole.
pub const PART: u32 = 0;
/// `Frame::what` of the gateway's own end: all earlier requests are answered.
pub const ALL_ANSWERED: u32 = 1;
/// `Frame::what` of replies, which go to the client of `Frame::client`.
pub const GIVEN: u32 = 2;
/// `Frame::what` of the end of that client.
pub const ENDED: u32 = 3;
/// `Frame::what` of a frame for a client that had this number before and has gone.
pub const DROPPED: u32 = 4;
/// `Frame::what` of a frame for no client that there is or was.
pub const WRONG: u32 = 5;

/// The decision on a frame of the server.
#[repr(C)]
#[derive(Clone, Copy, Debug, PartialEq, Eq)]
pub struct Frame {
    /// `PART`, `ALL_ANSWERED`, `GIVEN`, `ENDED`, `DROPPED` or `WRONG`.
    pub what: u32,
    /// The client's number if the frame is given, ended or dropped, otherwise 0.
    pub client: u32,
    /// The number of bytes after the frame's head if it is given or dropped, otherwise 0.
    pub count: usize,
}

/// Finds the whole requests at the beginning of a client's bytes, and returns the number of their
/// bytes. `ends` is whether the four bytes after them are no length of a request, so that none
/// follows.
#[unsafe(no_mangle)]
pub extern "C" fn oa_find_requests(bytes: &[u8], ends: &mut bool) -> usize
    ensures { CutsAt bytes.now result ends.new }
{
    let found = oa_gateway::find_requests(bytes);
    *ends = found.ends;
    found.whole
}

/// Sends bytes of the client with this number: their frames are the first `count` bytes of `out`.
/// Returns `false`, and nothing is done, in three cases: the client has had its end, the number is
/// not one of a client, or `out` may be too short.
#[unsafe(no_mangle)]
pub extern "C" fn oa_send(
    place: &mut NumberState,
    number: u32,
    bytes: &[u8],
    out: &mut [u8],
    count: &mut usize,
) -> bool
    ensures done { result ≡ true → PutsDeed (Sends bytes.now) number count.new out.new (place_number place.old) (place_number place.new) }
    ensures not { result ≡ false → place.new ≡ place.old }
    ensures succeeds { MayDo (place_number place.old) (Sends bytes.now) → number < gateway_number → room_for (length bytes.now) ≤ length out.old
        → result ≡ true }
{
    let Some(sent) = place.send(number, bytes, out) else {
        return false;
    };
    *count = sent;
    true
}

/// Ends the stream of the client with this number. Its end, if the server has to have one, is the
/// first `count` bytes of `out`, 8 or 0. Returns `false`, and nothing is done, if the number is not
/// one of a client, or if `out` is too short.
#[unsafe(no_mangle)]
pub extern "C" fn oa_close(
    place: &mut NumberState,
    number: u32,
    out: &mut [u8],
    count: &mut usize,
) -> bool
    ensures done { result ≡ true → PutsDeed Closes number count.new out.new (place_number place.old) (place_number place.new) }
    ensures not { result ≡ false → place.new ≡ place.old }
    ensures succeeds { number < gateway_number → 8 ≤ length out.old → result ≡ true }
{
    let Some(end) = place.close(number, out) else {
        return false;
    };
    *count = end;
    true
}

/// Notes that the client with this number has gone: the number is the next client's. Its end, if
/// the server has to have one, is the first `count` bytes of `out`, 8 or 0. Returns `false`, and
/// nothing is done, in three cases: the number is not one of a client, `out` is too short, or the
/// server owes 2^32 - 1 ends.
#[unsafe(no_mangle)]
pub extern "C" fn oa_leave(
    place: &mut NumberState,
    number: u32,
    out: &mut [u8],
    count: &mut usize,
) -> bool
    ensures done { result ≡ true → PutsDeed Leaves number count.new out.new (place_number place.old) (place_number place.new) }
    ensures not { result ≡ false → place.new ≡ place.old }
    ensures succeeds { number < gateway_number → 8 ≤ length out.old → place.old.owed < 4294967295 → result ≡ true }
{
    let Some(last) = place.leave(number, out) else {
        return false;
    };
    *count = last;
    true
}

/// Ends a batch: the gateway's own end and a *now* are the first `count` bytes of `out`, 16 of
/// them. Returns `false` if `out` is shorter.
#[unsafe(no_mangle)]
pub extern "C" fn oa_put_now(out: &mut [u8], count: &mut usize) -> bool
    ensures within { result ≡ true → count.new ≤ length out.new }
    ensures done { result ≡ true → (rest : List ℕ)
        → pieces_in (InHead []) (take count.new out.new ++ rest) ≡ Of gateway_number Last ∷ Flush ∷ pieces_in (InHead []) rest }
    ensures not { result ≡ false → length out.old < 16 }
{
    let Some(put) = oa_gateway::put_now(out) else {
        return false;
    };
    *count = put;
    true
}

/// Decides on the first frame of the server's bytes, and updates the state of its number.
/// `places[n]` is the state of number n. The decision is `frame`.
#[unsafe(no_mangle)]
pub extern "C" fn oa_hear(places: &mut [NumberState], bytes: &[u8], frame: &mut Frame)
    ensures { (heard : Heard) × (frame.new ≡ c_frame heard) × Hearing heard bytes.now places.old places.new }
{
    let heard = oa_gateway::hear(places, bytes);
    *frame = told(heard);
}

/// Returns the decision on a frame as C gets it.
fn told(heard: Heard) -> Frame
    ensures { result ≡ c_frame heard }
{
    match heard {
        Heard::More => Frame {
            what: PART,
            client: 0,
            count: 0,
        },
        Heard::Answered => Frame {
            what: ALL_ANSWERED,
            client: 0,
            count: 0,
        },
        Heard::Given { client, count } => Frame {
            what: GIVEN,
            client,
            count,
        },
        Heard::Ended(client) => Frame {
            what: ENDED,
            client,
            count: 0,
        },
        Heard::Dropped { client, count } => Frame {
            what: DROPPED,
            client,
            count,
        },
        Heard::Wrong => Frame {
            what: WRONG,
            client: 0,
            count: 0,
        },
    }
}

/// Notes that the server has ended, and that another one was started or will be. The new server
/// owes nothing. It receives nothing of the clients that were there.
#[unsafe(no_mangle)]
pub extern "C" fn oa_restart(places: &mut [NumberState])
    ensures { AllRestarted places.old places.new }
{
    oa_gateway::restart(places);
}

/// Result of `oa_take`: the request is in the batch.
pub const TAKEN: u32 = 0;
/// Result of `oa_take`: the turn has all its requests, or the batch all its bytes.
pub const FULL: u32 = 1;
/// Result of `oa_take`: the request asks for something, and the turn has all its requests that do.
pub const OFTEN: u32 = 2;
/// Result of `oa_take`: the reply would be too much for the batch.
pub const MUCH: u32 = 3;
/// Result of `oa_take`: there is no memory for the reply.
pub const LACKS: u32 = 4;

/// Takes the next request of a client, with this body, into the batch, if the limits allow it.
/// Returns the decision: `TAKEN`, `FULL`, `OFTEN`, `MUCH` or `LACKS`.
#[unsafe(no_mangle)]
pub extern "C" fn oa_take(turn: &mut BatchLimits, body: &[u8]) -> u32
    ensures decides { result ≡ taking_code (taking turn.old body.now) }
    ensures goes { turn.new ≡ behind_taking (taking turn.old body.now) turn.old body.now }
{
    number_of_taking(turn.take(body))
}

/// Returns the number of a decision for C.
fn number_of_taking(taking: Taking) -> u32
    ensures { result ≡ taking_code taking }
{
    match taking {
        Taking::Taken => TAKEN,
        Taking::Full => FULL,
        Taking::Often => OFTEN,
        Taking::Much => MUCH,
        Taking::Lacks => LACKS,
    }
}

/// Adds a client with this number, which waits for its turn after all others. Returns `false`, and
/// nothing is done, if the array has no place for it, or if this is no queue in the array.
#[unsafe(no_mangle)]
pub extern "C" fn oa_join(queue: &mut Queue, places: &mut [u32], client: u32) -> bool
    ensures done { result ≡ true → queue_of queue.new places.new ≡ enqueued client (queue_of queue.old places.old) }
    ensures not { result ≡ false → (queue.new ≡ queue.old) × (places.new ≡ places.old) }
    ensures succeeds { HasQueueRoom queue.old (length places.old) → result ≡ true }
    ensures sound { result ≡ true → IsQueue queue.new (length places.new) }
{
    queue.join(places, client)
}

/// Sets `client` to the number of the client that has the next turn of this batch. Returns `false`
/// if nobody waits for one.
#[unsafe(no_mangle)]
pub extern "C" fn oa_first(queue: &Queue, places: &[u32], client: &mut u32) -> bool
    ensures some { result ≡ true → slice_get (queue_of queue.now places.now).waiting 0 ≡ Some client.new }
    ensures none { result ≡ false → slice_get (queue_of queue.now places.now).waiting 0 ≡ None }
{
    let Some(first) = queue.first(places) else {
        return false;
    };
    *client = first;
    true
}

/// Notes that the first client has had its turn. `waits` is whether it has more requests, and
/// `took` whether the batch took some of them. Returns `false`, and nothing is done, if this is no
/// queue in the array.
#[unsafe(no_mangle)]
pub extern "C" fn oa_had_turn(
    queue: &mut Queue,
    places: &mut [u32],
    waits: bool,
    took: bool,
) -> bool
    ensures done { result ≡ true → queue_of queue.new places.new ≡ turn_of (queue_of queue.old places.old) (next_turn waits took) }
    ensures not { result ≡ false → (queue.new ≡ queue.old) × (places.new ≡ places.old) }
    ensures succeeds { IsQueue queue.old (length places.old) → result ≡ true }
    ensures sound { result ≡ true → IsQueue queue.new (length places.new) }
{
    queue.had_turn(places, waits, took)
}

/// Ends a batch: all clients wait for turns in the next one. Returns `false`, and nothing is done,
/// if this is no queue in the array.
#[unsafe(no_mangle)]
pub extern "C" fn oa_renew(queue: &mut Queue, places: &mut [u32]) -> bool
    ensures done { result ≡ true → queue_of queue.new places.new ≡ begun_queue (next_batch (queue_of queue.old places.old)) }
    ensures not { result ≡ false → (queue.new ≡ queue.old) × (places.new ≡ places.old) }
    ensures succeeds { IsQueue queue.old (length places.old) → result ≡ true }
    ensures sound { result ≡ true → IsQueue queue.new (length places.new) }
{
    queue.renew(places)
}

/// Removes the client with this number, which has gone. Returns `false`, and nothing is done, if it
/// waits for no turn in this batch, or if this is no queue in the array.
#[unsafe(no_mangle)]
pub extern "C" fn oa_remove(queue: &mut Queue, places: &mut [u32], client: u32) -> bool
    ensures done { result ≡ true → IsWithout client (queue_of queue.old places.old) (queue_of queue.new places.new) }
    ensures not { result ≡ false → (queue.new ≡ queue.old) × (places.new ≡ places.old) }
    ensures none { result ≡ false → IsQueue queue.old (length places.old)
        → (at : ℕ) → queue.old.next ≤ at → at < queue.old.end → slice_index places.old at ≡ client → ⊥ }
    ensures sound { result ≡ true → IsQueue queue.new (length places.new) }
{
    queue.remove(places, client)
}

/// Result of `oa_begin`: the batch has no requests.
pub const NOBODYS: u32 = 0;
/// Result of `oa_begin`: the batch is that of the exclusive client that has the server to itself.
pub const HOLDERS: u32 = 1;
/// Result of `oa_begin`: the batch is that of the first exclusive client that waits, which has the
/// server to itself from now on.
pub const NEXT_HOLDERS: u32 = 2;
/// Result of `oa_begin`: the batch is that of shared clients.
pub const SHARED_ONES: u32 = 3;

/// Begins a batch, and returns whose requests are in it: `NOBODYS`, `HOLDERS`, `NEXT_HOLDERS` or
/// `SHARED_ONES`. The queue `own` is that of the exclusive client that has the server to itself.
/// `exclusive` is that of the other exclusive clients, and `shared` that of shared ones.
#[unsafe(no_mangle)]
pub extern "C" fn oa_begin(
    exclusion: &mut Exclusion,
    own: &Queue,
    exclusive: &Queue,
    shared: &Queue,
) -> u32
    ensures decides { result ≡ whose_code (whose exclusion.old (waiting_in own.now exclusive.now shared.now)) }
    ensures goes { exclusion.new ≡ behind_batch (whose exclusion.old (waiting_in own.now exclusive.now shared.now)) exclusion.old }
{
    match exclusion.begin(&waiting_in(own, exclusive, shared)) {
        Whose::Nobody => NOBODYS,
        Whose::Holder => HOLDERS,
        Whose::NextHolder => NEXT_HOLDERS,
        Whose::Shared => SHARED_ONES,
    }
}

/// Notes that the exclusive client that had the server to itself has gone.
#[unsafe(no_mangle)]
pub extern "C" fn oa_let_go(exclusion: &mut Exclusion)
    ensures { exclusion.new ≡ behind_holder exclusion.old }
{
    exclusion.let_go();
}

/// Returns whether a batch begins if nothing else happens before. If so, it begins `after` this
/// many nanoseconds. The queues are those of `oa_begin`.
#[unsafe(no_mangle)]
pub extern "C" fn oa_begins(
    moment: &Moment,
    exclusion: &Exclusion,
    own: &Queue,
    exclusive: &Queue,
    shared: &Queue,
    after: &mut u64,
) -> bool
    ensures some { result ≡ true → begins moment.now (whose exclusion.now (waiting_in own.now exclusive.now shared.now)) ≡ Some after.new }
    ensures none { result ≡ false → begins moment.now (whose exclusion.now (waiting_in own.now exclusive.now shared.now)) ≡ None }
{
    let whose = exclusion.whose(&waiting_in(own, exclusive, shared));
    let Some(pause) = moment.begins_in(whose) else {
        return false;
    };
    *after = pause;
    true
}

/// Result of `oa_judge`: the client stays connected.
pub const STAYS: u32 = 0;
/// Result of `oa_judge`: the client does not read its replies.
pub const UNREAD: u32 = 1;
/// Result of `oa_judge`: the client does not complete its request.
pub const INCOMPLETE: u32 = 2;
/// Result of `oa_judge`: the client sends no request.
pub const IDLE: u32 = 3;

/// Returns whether a client that behaves so stays connected, and if not, why: `STAYS`, `UNREAD`,
/// `INCOMPLETE` or `IDLE`.
#[unsafe(no_mangle)]
pub extern "C" fn oa_judge(conduct: &Conduct, patience: &Patience) -> u32
    ensures { result ≡ verdict_code (judged conduct.now patience.now) }
{
    match oa_gateway::judge(conduct, patience) {
        Verdict::Stays => STAYS,
        Verdict::Unread => UNREAD,
        Verdict::Incomplete => INCOMPLETE,
        Verdict::Idle => IDLE,
    }
}

/// Returns whether a client is disconnected because replies need its memory. `lacks` is whether a
/// request waits for such memory. Replies have `used` bytes of the `memory` bytes that they may
/// have.
#[unsafe(no_mangle)]
pub extern "C" fn oa_gives_way(conduct: &Conduct, used: usize, memory: usize, lacks: bool) -> bool
    ensures { result ≡ gives_way conduct.now used memory lacks }
{
    oa_gateway::must_give_way(conduct, used, memory, lacks)
}

/// Returns the number of the client with the most unread replies. `unread[n]` is the number of
/// bytes that client n has not read. If all have read theirs, it returns the number of clients.
#[unsafe(no_mangle)]
pub extern "C" fn oa_heaviest(unread: &[usize]) -> usize
    ensures some { result < length unread.now → IsHeaviest unread.now result }
    ensures none { length unread.now ≤ result → AllHaveRead unread.now }
{
    match oa_gateway::heaviest(unread) {
        Some(client) => client,
        None => unread.len(),
    }
}
