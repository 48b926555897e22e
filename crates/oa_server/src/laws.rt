//! Theorems about groups and sessions over a store, each the contract of a function with an empty
//! body.
ghost use Rattle.std.specs.Prelude.{◌≡◌, ◌<◌, ◌≤◌, ℕ, false, List, [], ◌++◌, length};
ghost use Rattle.oa_group_commit.specs.Laws.{CallCounts, CallGoesOn, EndCountsAll, HistoryKeepsAcknowledged, LateCallCounts, OneFault};
ghost use Rattle.oa_group_commit.specs.Laws.{CrashKeepsAcknowledged, OpeningBegins, OthersAreRun, StopIsLink};
ghost use Rattle.oa_group_commit.specs.promise.Groups.{MakesEvent, Trace, Exchange};
ghost use Rattle.oa_record.specs.declared.request.Request.{Request as ARequest};
ghost use Rattle.oa_record.specs.promise.Asks.{Asks};
ghost use Rattle.oa_record.specs.promise.Replacement.{is_replacement};
ghost use Rattle.oa_record.specs.promise.Replies.{ReplyValue};
ghost use Rattle.oa_server.specs.Ledgers.{ClientsKeepLedger, EndUnlocksAll, IsRunOfOne, IsTurnOfOne, OpeningHasLedger, RunsKeepLedger, TurnsKeepLedger};
ghost use Rattle.oa_server.specs.Laws.{AnsweredAreRun, FoundIsKept, OpenedBegins, OpenedJoins, PartsCount, PartsGoOn};
ghost use Rattle.oa_turn.specs.promise.Beginnings.{CanBegin};
ghost use Rattle.oa_turn.specs.promise.Events.{change_bytes};
ghost use Rattle.oa_turn.specs.Limits.{least_bank};
ghost use Rattle.oa_server.specs.OneClient.{OneClientInMemory, OneClientOverStore};
ghost use Rattle.oa_server.specs.promise.ServerMachine.{opened, server_machine};
ghost use Rattle.oa_server.specs.SharedCalls.{SessionsAreCalls, StretchesCount, StretchesGoOn};
ghost use Rattle.oa_server.specs.promise.SharedMachine.{shared_machine, shared};
ghost use Rattle.oa_server.specs.SharedSessions.{StretchesAreServed};
ghost use Rattle.oa_decision.specs.promise.States.{State, state_of};
ghost use Rattle.oa_turn.specs.promise.Steps.{outcome};
ghost use Rattle.oa_turn.specs.promise.Turns.{Turn};
ghost use Rattle.oa_idl.specs.promise.Trees.{TreeValue};
ghost use Rattle.oa_table.specs.Tables.{first_table};
ghost use Rattle.oa_typelib.specs.promise.Checked.{IsChecked};

use oa_compat::laws::changes_that_fit;
use oa_disk::Disk;
use oa_idl::laws::one_tree;
use oa_printer::laws::marked_is_read;
use oa_record::laws::{a_replacement_is_no_request, one_request, refused_asks_nothing};
pub use oa_turn::laws::{kept_library_fits, no_trace};

/// A state that was served can be served again, whatever its sessions were and wherever they
/// crashed. A server can begin with the state of a new store. If it can begin with a state, it can
/// begin with the state after each turn and after each group. It can also begin with what an
/// opening finds: that state without locks.
pub fn what_was_served_is_served_again()
    ensures turn { (old new : State) (body : List ℕ) (reply : ReplyValue) → CanBegin old → Turn old body reply new → CanBegin new }
    ensures groups { (old new : State) (entries : List (Exchange ReplyValue)) → CanBegin old → Trace server_machine old entries new
        → CanBegin new }
    ensures opened { (state : State) → CanBegin state → CanBegin (opened state) }
    ensures first { (bank : ℕ) (library : TreeValue) → IsChecked library → least_bank ≤ bank → CanBegin (state_of bank library first_table) }
{
    changes_that_fit();
}

/// If images are stores of the state after a prefix of a run of groups, the other groups are a run
/// from that state.
pub fn rest_of_a_run()
    ensures { (old mid new : State) (front back : List (Exchange ReplyValue))
        → Trace server_machine old (front ++ back) new → Trace server_machine old front mid → Trace server_machine mid back new }
{
    one_request();
    one_tree();
}

/// A request needs the device if it makes an event, even if an allocation for the event fails: some
/// turn of the body makes an event only if the decided request does.
pub fn events_call_for_the_device()
    ensures { (state : State) (body : List ℕ) → is_replacement body ≡ false → MakesEvent server_machine state body
        → (request : ARequest) × Asks body request × (0 < length (change_bytes (outcome state request).event)) }
{}

/// A refused request leaves no trace in a run of groups: the requests that were answered with S_OK
/// alone are a run with the same replies and events.
pub fn no_trace_of_groups()
    ensures { OthersAreRun server_machine }
{}

/// The crash theorem for sessions of calls. Take any list of sessions on a store. Each has any
/// calls, with any group sizes, and crashes anywhere; the next is opened, without locks, on what
/// the crash has left. Then the last crash leaves a store of the state after runs of the requests
/// that were kept, one run for each session: a prefix of its requests that contains every
/// acknowledged one. Requests that were not answered with S_OK may be left out.
pub fn headline<D: Disk>()
    ensures { HistoryKeepsAcknowledged server_machine D.Disk }
{}

/// What recovery finds after a crash is the state with which the history of the store continues,
/// without locks. If a crash may leave only the contents, as of a new disk, an opening begins a
/// session from there. So the sessions of the crash theorem are those of servers that were opened
/// one after the other, for one client and for many.
pub fn an_opening_finds_what_was_kept<D: Disk>()
    ensures begins { OpenedBegins server_machine (λ state. state) D.Disk }
    ensures begins_for_many { OpenedBegins shared_machine (λ state. shared state []) D.Disk }
    // (also if something was pending)
    ensures joins { OpenedJoins D.Disk }
    ensures kept { FoundIsKept }
{
    one_tree();
    marked_is_read();
}

/// The replies of a call over a store are those of one run of turns, group after group, up to a
/// fault of the device.
pub fn groups_are_one_run<D: Disk>()
    ensures { AnsweredAreRun D.Disk }
{}

/// A session over a store is an opening, and calls one after another. It begins with an opening
/// that writes nothing. Each call that is served, also `answer`, belongs to it: from the call's
/// start on, everything answered before it counts. If the device has not failed, another call may
/// follow.
pub fn sessions_go_on<D: Disk>()
    ensures opened { OpeningBegins server_machine D.Disk }
    ensures called { CallCounts server_machine D.Disk }
    ensures goes_on { CallGoesOn server_machine D.Disk }
    // (after a failure of the device a call does nothing, so the device fails in at most one group
    // of a session)
    ensures late { LateCallCounts server_machine D.Disk }
    ensures one { OneFault server_machine D.Disk }
{}

/// The parts of a session over streams, each of which was sent before the next body was read, are
/// calls of the session. So after any number of them the session may crash as after these calls,
/// also if the device has failed in one of them; if it has not, the session may continue.
pub fn parts_go_on<D: Disk>()
    ensures goes_on { PartsGoOn D.Disk }
    ensures counts { PartsCount D.Disk }
{}

/// A crash at any point in time of a session leaves a store of the state after some number of
/// groups. These are all groups that were answered by then, and possibly more. At the end of the
/// session they are all groups. This is also true of many clients (`stopped` of `many_clients`).
pub fn a_crash_keeps_what_was_acknowledged<D: Disk>()
    ensures stopped { CrashKeepsAcknowledged server_machine D.Disk }
    ensures all { EndCountsAll server_machine D.Disk }
    // (so the session is a step of a crash history)
    ensures link { StopIsLink server_machine D.Disk }
    ensures all_of_many { EndCountsAll shared_machine D.Disk }
    ensures link_of_many { StopIsLink shared_machine D.Disk }
{}

/// The theorems about sessions, crashes, crash histories and refused requests are also true of the
/// requests of many clients. These requests have one order, which includes the ends of the clients.
pub fn many_clients<D: Disk>()
    ensures headline { HistoryKeepsAcknowledged shared_machine D.Disk }
    ensures others { OthersAreRun shared_machine }
    ensures opened { OpeningBegins shared_machine D.Disk }
    ensures called { CallCounts shared_machine D.Disk }
    ensures goes_on { CallGoesOn shared_machine D.Disk }
    ensures late { LateCallCounts shared_machine D.Disk }
    ensures one { OneFault shared_machine D.Disk }
    ensures stopped { CrashKeepsAcknowledged shared_machine D.Disk }
{}

/// The requests of many clients from one *now* to the next are a call that was served, in groups of
/// the session's size. Each client's frames are those of the replies to its own requests, in order.
pub fn stretches_are_served<D: Disk>()
    ensures { StretchesAreServed D.Disk }
{}

/// A session of many clients over a store consists of calls of a session over that store: one from
/// each *now* to the next, and one up to its end. So the theorems about sessions, crashes and crash
/// histories apply to it, and to each client in it.
pub fn shared_sessions_are_calls<D: Disk>()
    ensures calls { SessionsAreCalls D.Disk }
    ensures goes_on { StretchesGoOn D.Disk }
    // (also if the device fails in one of them)
    ensures counts { StretchesCount D.Disk }
{}

/// The locks of the table are those of the clients, each with its owner. This is true from the
/// start of a session on, when there are no locks; after its end no array is locked. So if only one
/// client has locks, it gets the replies of a server of one client. Both refuse an UNLOCK of an
/// array that it has not locked.
pub fn locks_have_owners()
    ensures opened { OpeningHasLedger }
    ensures client { ClientsKeepLedger }
    ensures turn { TurnsKeepLedger }
    ensures run { RunsKeepLedger }
    ensures ended { EndUnlocksAll }
    ensures one_turn { IsTurnOfOne }
    ensures one_run { IsRunOfOne }
{
    one_request();
    a_replacement_is_no_request();
    refused_asks_nothing();
}

/// A session of many clients in which only one makes requests is answered as by a server of one
/// client. Its bodies have the replies of one run of turns. Each reply is a frame, with the bytes
/// that `serve` writes after the length. This is true in memory, and over a store if no call of the
/// device fails.
pub fn one_client_is_served<D: Disk>()
    ensures memory { OneClientInMemory D.Disk }
    ensures store { OneClientOverStore D.Disk }
{
    one_request();
    a_replacement_is_no_request();
    refused_asks_nothing();
}
