//! Theorems that relate calls with groups, and with the turns of many clients.
ghost use Rattle.oa_history.specs.Framed.{RepliesGoToClients, TurnsAreCalls};
ghost use Rattle.oa_history.specs.OneGroup.{FewAreOneGroup};
ghost use Rattle.oa_server.specs.promise.ServerMachine.{server_machine};

use oa_disk::Disk;

/// Take a call with at most a group's number of requests, none of which comes alone. It is one
/// group, unless its events fill one before its end. If each call of a session is such a call,
/// statements about calls that have returned by a crash are true of groups. These are the groups
/// whose last call of the disk has ended by then.
pub fn a_call_of_few_is_one_group()
    ensures { FewAreOneGroup server_machine }
{}

/// The requests of many clients over a store, up to a *now*, are calls that were served, one after
/// another: each ends when frames are sent, or at a *now*, and these are the frames of its replies.
/// So everything that was sent by some point in time belongs to calls that had ended by then.
pub fn turns_are_calls<D: Disk>()
    ensures { TurnsAreCalls D.Disk }
{}

/// Each reply of such a call goes to the client of its request, in the order of the requests, also
/// if the device fails.
pub fn replies_go_to_their_clients<D: Disk>()
    ensures { RepliesGoToClients D.Disk }
{}
