//! Theorems about groups of requests, each the contract of a function with an empty body. They are
//! stated for the simplest requests, groups of events that are done or refused. The proofs are
//! about requests of any kind.
ghost use Rattle.oa_group_commit.specs.Laws.{CallCounts, CallGoesOn, EndCountsAll, LateCallCounts, OneFault, OpeningBegins, StopIsLink};
ghost use Rattle.oa_group_commit.specs.Laws.{CrashKeepsAcknowledged, EndIsServed, HistoryKeepsAcknowledged, OthersAreRun, StartIsUnderway, TakenIsUnderway};
ghost use Rattle.oa_group_commit.specs.Simple.{toy_machine};

use oa_disk::Disk;

/// A session is an opening, and calls one after another. It begins with an opening that writes
/// nothing. Each call that is served belongs to it: from the call's start on, everything answered
/// before it counts. If the device has not failed, another call may follow.
pub fn group_sessions_continue<D: Disk>()
    ensures opened { OpeningBegins toy_machine D.Disk }
    ensures called { CallCounts toy_machine D.Disk }
    ensures goes_on { CallGoesOn toy_machine D.Disk }
    // (after a failure of the device a call does nothing, so the device fails in at most one group
    // of a session)
    ensures late { LateCallCounts toy_machine D.Disk }
    ensures one { OneFault toy_machine D.Disk }
{}

/// A crash at any point in time of a session leaves a store of the state after some number of
/// groups. These are all groups that were answered by then, and possibly more. At the end of the
/// session they are all groups.
pub fn a_crash_keeps_answered_groups<D: Disk>()
    ensures stopped { CrashKeepsAcknowledged toy_machine D.Disk }
    ensures all { EndCountsAll toy_machine D.Disk }
    // (so the session is a step of a crash history)
    ensures link { StopIsLink toy_machine D.Disk }
{}

/// Requests that are admitted one by one are served when the input ends. Their replies are those of
/// a run, group for group. At some point in time a number of groups was answered: each image since
/// then is a store of the state after that many groups or more. If a call of the device fails, its
/// group is kept or not. All of it is answered with the fault, and later requests are refused.
pub fn admitted_are_served<D: Disk>()
    ensures start { StartIsUnderway toy_machine D.Disk }
    ensures taken { TakenIsUnderway toy_machine D.Disk }
    ensures ended { EndIsServed toy_machine D.Disk }
{}

/// A refused request leaves no trace: the other requests alone are a run with the same replies.
pub fn refused_groups_leave_no_trace()
    ensures { OthersAreRun toy_machine }
{}

/// The crash theorem for groups: sessions run and crash at any points in time, each opened on what
/// the crash before it left. The last crash leaves a store of the state after a run of the requests
/// that were kept: of each session a prefix of its groups that contains all answered ones. Refused
/// requests may be left out of the run.
pub fn crash_histories_keep_groups<D: Disk>()
    ensures { HistoryKeepsAcknowledged toy_machine D.Disk }
{}
