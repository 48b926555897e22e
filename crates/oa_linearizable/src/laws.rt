//! Theorems about sessions of many clients, in terms of linearizability. Each is the contract of a
//! function with an empty body.
ghost use Rattle.oa_linearizable.specs.Clients.{FramesOutAreFrames};
ghost use Rattle.oa_linearizable.specs.Crashes.{EachEraIsLinearizable};
ghost use Rattle.oa_linearizable.specs.promise.Crashes.{ServersAreDurable};
ghost use Rattle.oa_linearizable.specs.Mutexes.{LockIsAMutex};
ghost use Rattle.oa_linearizable.specs.Sessions.{EachIsServedInMemory, EachIsServedOverStore, EachRunInMemoryIsLinearizable, SessionsRunUntilCrash};
ghost use Rattle.oa_linearizable.specs.Syncs.{OneSyncIsTooFew};
ghost use Rattle.oa_linearizable.specs.promise.Tables.{SeenHistoriesAreLinearizable};

use oa_disk::Disk;
use oa_record::laws::{a_replacement_is_no_request, one_request, refused_asks_nothing};
use oa_server::laws::{
    an_opening_finds_what_was_kept, locks_have_owners, what_was_served_is_served_again,
};

/// However often a server of many clients crashes over a store, each history of its clients'
/// requests and replies is durably linearizable. The disk is a store of the last state. A crash may
/// come at any point in time of the disk's clock, also within a turn. In a history the replies come
/// in the order in which they were written; `seen_histories_are_linearizable` is about clients that
/// receive them in another order.
pub fn durably_linearizable<D: Disk>()
    ensures { ServersAreDurable D.Disk }
{
    each_era_is_linearizable::<D>();
    what_was_served_is_served_again();
    an_opening_finds_what_was_kept::<D>();
}

/// What the clients see of durably linearizable histories is durably linearizable: over
/// connections, each client sends its requests at any time before they arrive, and receives its
/// replies at any time after they were written.
pub fn seen_histories_are_linearizable()
    ensures { SeenHistoriesAreLinearizable }
{}

/// From an opening to a crash, each history of the clients' requests and replies is linearizable,
/// by one order of their operations. The crash leaves a store of the state after that order.
pub fn each_era_is_linearizable<D: Disk>()
    ensures { EachEraIsLinearizable D.Disk }
{}

/// In memory, each history of the clients' requests and replies is linearizable, by one order of
/// their operations.
pub fn linearizable_in_memory<D: Disk>()
    ensures { EachRunInMemoryIsLinearizable D.Disk }
{}

/// A session of `serve_shared` over a store may crash within any of its turns and between any two.
/// It is then an era.
pub fn sessions_run_until_a_crash<D: Disk>()
    ensures { SessionsRunUntilCrash D.Disk }
{}

/// The frames with a client's number are those of the replies to its own requests, in their order.
/// These are the replies by one legal order of the requests of all clients.
pub fn each_client_is_served<D: Disk>()
    ensures memory { EachIsServedInMemory D.Disk }
    ensures store { EachIsServedOverStore D.Disk }
{
    linearizable_in_memory::<D>();
    each_era_is_linearizable::<D>();
}

/// The written bytes are one list of frames: no two lists have the same bytes, if their numbers and
/// lengths fit into four bytes each.
pub fn frames_out_are_frames()
    ensures { FramesOutAreFrames }
{}

/// LOCK is a mutex. After a client has locked an array, no LOCK of that array is answered 1, for
/// any client. This lasts until the client's UNLOCK of that array or its end.
pub fn lock_is_a_mutex()
    ensures { LockIsAMutex }
{
    one_request();
    a_replacement_is_no_request();
    refused_asks_nothing();
    locks_have_owners();
}

/// A commit needs two syncs. Suppose that one sync follows everything that a commit writes. A crash
/// before it may leave any bytes in a written range. If some bytes of that range mean a third
/// state, the crash may leave it: neither the state before the commit nor the one after it.
pub fn one_sync_is_too_few<D: Disk>()
    ensures { OneSyncIsTooFew D.Disk }
{}
