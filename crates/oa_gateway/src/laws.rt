//! The theorems, each the contract of a function with an empty body. A list of deeds is any that
//! the calls of this crate may do, one after another, with one number or with all.
ghost use Rattle.std.specs.Prelude.{◌≡◌, ◌≢◌, ◌⊎◌, ◌↔◌, ◌<◌, ◌≤◌, ℕ, ◌/◌, Bool, ◌+◌, ◌∷◌, ◌++◌, List, [], None, length, map, true, false};
ghost use Rattle.oa_frame.specs.declared.ends.End.TheVariants.{Closed};
ghost use Rattle.oa_mux.specs.promise.Marks.{Last, States, StreamPiece, Tagged};
ghost use Rattle.oa_mux.specs.Marks.{own, pieces};
ghost use Rattle.oa_mux.specs.promise.Readers.{Body, Ends, records_of};
ghost use Rattle.oa_mux.specs.Readers.{brought_in};
ghost use Rattle.oa_gateway.specs.Beginnings.{BeginsSoon, IsFree};
ghost use Rattle.oa_gateway.specs.Disconnects.{gives_way, judged};
ghost use Rattle.oa_gateway.specs.Exclusive.{AllAreHolders, HasNext, WaitsFor, behind_batch, behind_holder, waits, whose};
ghost use Rattle.oa_gateway.specs.Frames.{gateway_number};
ghost use Rattle.oa_gateway.specs.Places.{Deed, Leaves, Number};
ghost use Rattle.oa_gateway.specs.Queues.{ClientQueue, IsNotOvertaken, IsQueue, IsQueuedBehind, IsWithout, WaitsInQueue, after_turns, begun_queue, count_kept, enqueued, next_batch, next_turn, queue_of};
ghost use Rattle.oa_gateway.specs.WholeRequests.{AreRequests};
ghost use Rattle.oa_gateway.specs.Traces.{AllMayBeDone, IsItsStream, IsSound, IsWholeStream, Says, StaysThere, after_deeds, all_owed, ends_heard, ends_sent, given_bytes, said_behind, sent, stream, streams};
ghost use Rattle.oa_gateway.specs.Turns.{AllTaken, AreTurns, AreWithin, Batch, IsBatchBounded, IsBounded, OneTurn, asks, taking};
ghost use Rattle.oa_gateway.specs.declared.beginning.Moment.{Moment};
ghost use Rattle.oa_gateway.specs.declared.disconnects.Conduct.{Conduct};
ghost use Rattle.oa_gateway.specs.declared.disconnects.Patience.{Patience};
ghost use Rattle.oa_gateway.specs.declared.disconnects.Verdict.TheVariants.{Stays, Unread};
ghost use Rattle.oa_gateway.specs.declared.exclusive.Exclusion.{Exclusion};
ghost use Rattle.oa_gateway.specs.declared.exclusive.Waiting.{Waiting};
ghost use Rattle.oa_gateway.specs.declared.exclusive.Whose.TheVariants.{NextHolder, Shared};
ghost use Rattle.oa_gateway.specs.declared.place.Standing.TheVariants.{Absent};
ghost use Rattle.oa_gateway.specs.declared.queue.NextTurn.{NextTurn};
ghost use Rattle.oa_gateway.specs.declared.queue.NextTurn.TheVariants.{Kept, Never};
ghost use Rattle.oa_gateway.specs.declared.queue.Queue.{Queue};
ghost use Rattle.oa_gateway.specs.declared.turns.Taking.TheVariants.{Taken};
ghost use Rattle.oa_gateway.specs.declared.turns.BatchLimits.{BatchLimits};

use oa_mux::laws::each_is_a_session;

/// The bytes that go to the server for one number depend on the calls for that number alone,
/// whatever calls come between.
pub fn each_number_has_its_own()
    ensures { (numbers : States Number) (deeds : List (Tagged Deed)) (number : ℕ) → number ≢ gateway_number
        → own number (streams numbers deeds) ≡ stream (numbers number) (own number deeds) }
{}

/// The items of bytes that were put one after another are those of each, in order.
pub fn bytes_are_read_in_turn()
    ensures { (front back : List ℕ) (before after : List (Tagged StreamPiece)) → Says front before → Says back after
        → Says (front ++ back) (before ++ after) }
{}

/// As long as a client has a number, its stream is what was sent of it, in order, and at most one
/// end.
pub fn each_stream_is_its_own()
    ensures there { (n : Number) (deeds : List Deed) → n.standing ≡ Absent → StaysThere deeds → AllMayBeDone n deeds
        → IsItsStream (after_deeds n deeds).standing (sent deeds) (stream n deeds) }
    // And once it has gone, one end if anything was sent.
    ensures gone { (n : Number) (deeds : List Deed) → n.standing ≡ Absent → StaysThere deeds → AllMayBeDone n deeds
        → IsWholeStream (sent deeds) (stream n (deeds ++ Leaves ∷ [])) }
{}

/// The server first sends the ends that it owes to earlier clients of a number. A client with the
/// number gets the replies after these, up to the next end, and nothing else.
pub fn each_is_given_its_own()
    ensures { (n : Number) (deeds : List Deed) → IsSound n deeds → given_bytes n deeds ≡ said_behind n.owed deeds }
{}

/// The ends that the server owes are those that were sent and have not come.
pub fn ends_are_counted()
    ensures { (n : Number) (deeds : List Deed) → IsSound n deeds
        → ends_sent (stream n deeds) + all_owed n ≡ ends_heard deeds + all_owed (after_deeds n deeds) }
{}

/// Whole requests, followed by an end, ask the server for exactly their bodies, in order, and then
/// that the stream is closed.
pub fn requests_ask_their_bodies()
    ensures { (bytes : List ℕ) (bodies : List (List ℕ)) → AreRequests bytes bodies
        → brought_in records_of None (pieces bytes ++ Last ∷ []) ≡ map Body bodies ++ Ends Closed ∷ [] }
{
    each_is_a_session();
}

/// A turn puts no more into a batch than its limits: requests, requests that ask for something, and
/// bytes of their replies.
pub fn a_turn_is_bounded()
    ensures { (t : BatchLimits) (bodies : List (List ℕ)) → AllTaken t bodies → IsBounded t bodies }
{}

/// A batch of turns, of any clients, has at most its greatest number of requests. It has at most
/// its bytes of requests, except for the last request. It has at most its bytes of replies, except
/// for a single reply.
pub fn a_batch_is_bounded()
    ensures { (most heaviest longest : ℕ) (b : Batch) (turns : List OneTurn) → b.expected ≡ 0 → AreTurns most b turns → AreWithin heaviest longest turns
        → IsBatchBounded most heaviest longest b turns }
{}

/// A turn takes each request that asks for nothing, as long as it and the batch may take any.
pub fn a_turn_goes_on()
    ensures other { (t : BatchLimits) (body : List ℕ) → 0 < t.requests → 0 < t.bytes → asks body ≡ false → taking t body ≡ Taken }
    // And the first one of a batch that asks for something, if it may take one of these and the
    // memory for replies is not in use.
    ensures first { (t : BatchLimits) (body : List ℕ) → 0 < t.requests → 0 < t.bytes → 0 < t.asks → t.expected ≡ 0 → t.first ≡ true → taking t body ≡ Taken }
{}

/// A client that reads some of its replies, completes its requests and asks in time stays
/// connected. Its replies stay in memory as long as it reads some of them each second. They also
/// stay as long as replies have half of the memory or less and no request waits for some.
pub fn readers_stay()
    ensures times { (c : Conduct) (p : Patience) → (c.unread ≡ 0) ⊎ (c.unread_for ≤ p.stalled) → c.incomplete_for ≤ p.stalled → c.silent ≤ p.idle
        → judged c p ≡ Stays }
    ensures memory { (c : Conduct) (used memory : ℕ) (lacks : Bool) → (c.unread ≡ 0) ⊎ (c.unread_for ≤ 1000) → gives_way c used memory lacks ≡ false }
    ensures half { (c : Conduct) (used memory : ℕ) → used ≤ memory / 2 → gives_way c used memory false ≡ false }
{}

/// A client that reads none of its replies in time is disconnected.
pub fn stalled_clients_go()
    ensures { (c : Conduct) (p : Patience) → 0 < c.unread → p.stalled < c.unread_for → judged c p ≡ Unread }
{}

/// A client that waits has its turn after those that are before it, one turn each. If a batch ends
/// before that, only those of them that had a turn and got nothing are before it when the next
/// batch begins. The same is true if it had a turn itself, and got nothing.
pub fn no_client_is_overtaken()
    ensures turns { (client before : ℕ) (clients : List ℕ) (turns : List NextTurn) → IsQueuedBehind client before clients → length turns ≤ before
        → WaitsInQueue client before clients turns }
    ensures batches { (client before : ℕ) (clients : List ℕ) (turns : List NextTurn) → IsQueuedBehind client before clients → length turns ≤ before
        → IsNotOvertaken client before clients turns }
    ensures nothing { (client before : ℕ) (clients : List ℕ) (turns more : List NextTurn) → IsQueuedBehind client before clients → length turns ≡ before
        → IsQueuedBehind client (count_kept turns) (next_batch (after_turns (begun_queue clients) (turns ++ Kept ∷ more))) }
    // A client with requests waits on; it got nothing if it is kept.
    ensures stays { (took : Bool) → next_turn true took ≢ Never }
    ensures kept { (waits took : Bool) → next_turn waits took ≡ Kept → took ≡ false }
    // Nobody comes before it by joining; by leaving one may come nearer.
    ensures joins { (client other before : ℕ) (q : ClientQueue) → IsQueuedBehind client before q.waiting → IsQueuedBehind client before (enqueued other q).waiting }
    ensures leaves { (client other before : ℕ) (old new : ClientQueue) → IsQueuedBehind client before old.waiting → client ≢ other → IsWithout other old new
        → (left : ℕ) × (left ≤ before) × IsQueuedBehind client left new.waiting }
    // A client waits in an array if the list that the array has is not empty.
    ensures places { (q : Queue) (places : List ℕ) → IsQueue q (length places) → (waits q ≡ false) ↔ ((queue_of q places).waiting ≡ []) }
{}

/// From its first batch on, as long as an exclusive client has the server to itself, all batches
/// with requests are its own.
pub fn an_exclusive_client_is_alone()
    ensures begins { (e : Exclusion) (w : Waiting) (batches : List Waiting) → whose e w ≡ NextHolder → AllAreHolders (behind_batch (whose e w) e) batches }
    ensures alone { (e : Exclusion) (batches : List Waiting) → e.is_held ≡ true → AllAreHolders e batches }
{}

/// After it has gone, shared clients that wait have a batch before the next exclusive client. That
/// one has the next batch, or the one after theirs.
pub fn exclusive_clients_take_turns()
    ensures gone { (e : Exclusion) → ((behind_holder e).is_held ≡ false) × ((behind_holder e).others_first ≡ true) }
    ensures shared { (e : Exclusion) (w : Waiting) → e.is_held ≡ false → e.others_first ≡ true → w.shared ≡ true → whose e w ≡ Shared }
    // Until they have had it, batches without requests change nothing.
    ensures stays { (e : Exclusion) (w : Waiting) → whose e w ≢ Shared → (behind_batch (whose e w) e).others_first ≡ e.others_first }
    // A batch is that of clients that wait.
    ensures they_wait { (e : Exclusion) (w : Waiting) → WaitsFor (whose e w) w }
    ensures exclusive { (e : Exclusion) (w later : Waiting) → e.is_held ≡ false → w.exclusive ≡ true → later.exclusive ≡ true → HasNext e w later }
{}

/// While the server is free, a batch begins soon after the last one was answered: within 2 ms, and
/// within a quarter of what a batch takes. It begins at once if no client was just answered. It
/// begins for a shared or exclusive client that waits, unless another one has the server to itself.
pub fn a_batch_begins()
    ensures waits { (m : Moment) (e : Exclusion) (w : Waiting) → IsFree m → e.is_held ≡ false → (w.shared ≡ true) ⊎ (w.exclusive ≡ true)
        → BeginsSoon m (whose e w) }
    // For the one that has it.
    ensures alone { (m : Moment) (e : Exclusion) (w : Waiting) → IsFree m → e.is_held ≡ true → w.holder ≡ true → BeginsSoon m (whose e w) }
    // And for the end of a client.
    ensures ends { (m : Moment) (e : Exclusion) (w : Waiting) → IsFree m → m.ends_wait ≡ true → BeginsSoon m (whose e w) }
{}
