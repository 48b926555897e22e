//! One session, and its crash.
ghost use Rattle.std.specs.Prelude.{◌≡◌, min, IfOk, IfErr, length};
ghost use Rattle.oa_disk.specs.promise.Memory.{IsTornAt, memory_contents, moments_of};
ghost use Rattle.oa_decision.specs.promise.States.{State};
ghost use Rattle.oa_history.specs.Kept.{IsRecoverable, IsWanting};
ghost use Rattle.oa_history.specs.promise.CrashHistories.{IsFreshDisk, IsTranscriptUntilCrash, made_calls};
ghost use Rattle.oa_history.specs.promise.DurablePrefixes.{CallSequence};
ghost use Rattle.oa_server.specs.promise.Storages.{Serves};
ghost use Rattle.oa_history.specs.declared.fault.HistoryFault.TheVariants.{Memory};

use crate::reopening::reopened;
use crate::streaming::{framed, written};
use crate::{Answer, Asked, CrashedSession, HistoryFault, Opened, Replies, ServerCall, Transcript};
use oa_disk::{Disk, MemoryDisk};
use oa_server::Server;
use oa_server::laws::{
    a_crash_keeps_what_was_acknowledged, many_clients, no_trace_of_groups, sessions_go_on,
    what_was_served_is_served_again,
};
use std::alloc::Global;

/// Makes the calls of a server, one after another. Err: an allocation failed.
fn answered(
    alloc: Global,
    server: &mut Server<MemoryDisk>,
    calls: &[ServerCall],
) -> Result<Vec<Answer>, HistoryFault>
    ensures all { IfOk result (λ answers. length answers.items ≡ length calls.now) }
    ensures made { IfOk result (λ answers. CallSequence Serves server.old.engine.storage server.old.engine.host (made_calls calls.now answers.items)
        server.new.engine.storage server.new.engine.host) }
    ensures wanting { IfErr result (λ fault. fault ≡ Memory) }
{
    let mut answers = Vec::new(alloc);
    'calls: for call in calls {
        let replies = server.run(call.bodies.as_slice(), call.group)?;
        let moment = server.disk().moments();
        answers.push(Answer { replies, moment })?;
    }
    Ok(answers)
}

/// Returns the result of a session whose server has returned this disk, and the disk that its crash
/// has left. Err: an allocation failed.
fn cut(
    session: &CrashedSession,
    replies: Replies,
    disk: MemoryDisk,
) -> Result<(Transcript, MemoryDisk), HistoryFault>
    ensures heard { IfOk result (λ r. (r.0.replies ≡ replies) × (r.0.disk ≡ disk)) }
    ensures settled { IfOk result (λ r. IsFreshDisk r.1) }
    ensures torn { IfOk result (λ r. IsTornAt disk session.now.tear (min session.now.moment (moments_of disk)) (memory_contents r.1)) }
    ensures left { IfOk result (λ r. ⟦<MemoryDisk as Disk>⟧.image_since disk (min session.now.moment (moments_of disk)) (memory_contents r.1)) }
    ensures wanting { IfErr result (λ fault. fault ≡ Memory) }
{
    let left = disk.crash(session.moment.min(disk.moments()), session.tear)?;
    Ok((Transcript { replies, disk }, left))
}

/// Runs one session, of one client or of many: opens the store on the disk with its own library,
/// makes its requests, and crashes. Returns its result, and the disk that the crash has left. Err:
/// an allocation failed, or the log of the disk was full.
pub fn stopped(
    alloc: Global,
    disk: MemoryDisk,
    session: &CrashedSession,
) -> Result<(Transcript, MemoryDisk), HistoryFault>
    requires { IsFreshDisk disk }
    ensures settled { IfOk result (λ r. IsFreshDisk r.1) }
    ensures stopped { IfOk result (λ r. (before : State) → IsRecoverable disk before → (after : State)
        × IsTranscriptUntilCrash session.now r.0 (memory_contents disk) before (memory_contents r.1) after × IsRecoverable r.1 after) }
    ensures wanting { IfErr result (λ fault. (before : State) → IsRecoverable disk before → IsWanting fault) }
{
    no_trace_of_groups();
    what_was_served_is_served_again();
    sessions_go_on::<MemoryDisk>();
    a_crash_keeps_what_was_acknowledged::<MemoryDisk>();
    many_clients::<MemoryDisk>();
    let Opened { mut server } = reopened(alloc, disk)?;
    match &session.asked {
        Asked::Calls(calls) => {
            let answers = answered(alloc, &mut server, calls.as_slice())?;
            cut(session, Replies::Calls(answers), server.into_disk())
        }
        Asked::Stream(input) => {
            let written = written(alloc, &mut server, input)?;
            cut(session, Replies::Stream(written), server.into_disk())
        }
        Asked::Frames(input) => {
            let written = framed(alloc, &mut server, input)?;
            cut(session, Replies::Frames(written), server.into_disk())
        }
    }
}
