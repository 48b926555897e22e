//! Calls of a server over a disk that fails from some call on.
ghost use Rattle.std.specs.Prelude.{◌≡◌, IfOk, IfErr};
ghost use Rattle.oa_decision.specs.promise.States.{State};
ghost use Rattle.oa_history.specs.Kept.{IsRecoverable, IsWanting};
ghost use Rattle.oa_history.specs.promise.CrashHistories.{IsFreshDisk};
ghost use Rattle.oa_history.specs.promise.FaultHistories.{AnsweredBy, BeginsOver, HoldsAlone, IsUnopened, IsWithstood};
ghost use Rattle.oa_history.specs.declared.fault.HistoryFault.TheVariants.{Memory};

use crate::reopening::library_on;
use crate::{HistoryFault, ServerCall};
use oa_disk::{DeviceFault, Disk, FuseDisk, MemoryDisk};
use oa_record::Reply;
use oa_server::Server;
use oa_server::laws::{
    a_crash_keeps_what_was_acknowledged, an_opening_finds_what_was_kept, sessions_go_on,
};
use oa_store::OpenFault;
use std::alloc::Global;

/// The replies of a call, and the number of calls of the disk that had failed when it returned.
#[derive(Drop)]
pub struct CallOutcome {
    /// The replies to its requests, in order.
    pub replies: Vec<Reply>,
    /// The number of calls of the disk that had failed when it returned.
    pub failures: u64,
}

/// A server over a disk that fails from some call on, above a disk in memory.
#[derive(Drop)]
pub struct FaultyServer {
    /// The server.
    pub server: Server<FuseDisk<MemoryDisk>>,
}

/// Opens a server over the disk, whose calls from number `first_failing` on fail. Returns the fault
/// of the device and the disk if the opening met it. Err: the opening failed otherwise.
fn opened_through(
    alloc: Global,
    disk: MemoryDisk,
    first_failing: u64,
) -> Result<Result<FaultyServer, (MemoryDisk, DeviceFault)>, HistoryFault>
    requires { IsFreshDisk disk }
    ensures begins { IfOk result (λ outcome. IfOk outcome (λ fused. (state : State) → IsRecoverable disk state
        → BeginsOver disk first_failing fused.server state)) }
    ensures refused { IfOk result (λ outcome. IfErr outcome (λ e. (state : State) → IsRecoverable disk state → HoldsAlone e.0 state)) }
    ensures tells { IfOk result (λ outcome. IfErr outcome (λ e. (state : State) → IsRecoverable disk state
        → IsUnopened ⟦<FuseDisk<MemoryDisk> as Disk>⟧ disk first_failing state.library e.1 e.0)) }
    ensures wanting { IfErr result (λ fault. (state : State) → IsRecoverable disk state → IsWanting fault) }
{
    an_opening_finds_what_was_kept::<FuseDisk<MemoryDisk>>();
    let library = library_on(alloc, &disk)?;
    let fuse = FuseDisk::new(disk, first_failing);
    match Server::open(alloc, fuse, library) {
        Ok(server) => Ok(Ok(FaultyServer { server })),
        Err((back, fault)) => match fault {
            OpenFault::Device(device) => Ok(Err((back.into_inner(), device))),
            _ => Err(HistoryFault::Open(fault)),
        },
    }
}

/// Makes the calls of a server, one after another. Err: an allocation failed.
fn told_by(
    alloc: Global,
    server: &mut Server<FuseDisk<MemoryDisk>>,
    calls: &[ServerCall],
) -> Result<Vec<CallOutcome>, HistoryFault>
    ensures answered { IfOk result (λ told. AnsweredBy server.old calls.now told.items server.new) }
    ensures wanting { IfErr result (λ fault. fault ≡ Memory) }
{
    let mut told = Vec::new(alloc);
    'calls: for call in calls {
        let replies = server.run(call.bodies.as_slice(), call.group)?;
        let failures = server.disk().failures();
        told.push(CallOutcome { replies, failures })?;
    }
    Ok(told)
}

/// Opens the store on the disk with its own library, makes the calls, and returns the disk. Each
/// call of the disk from number `first_failing` on fails, counted from 1. Returns the replies of
/// each call of the server, or the fault of the device that the opening met. Err: an allocation
/// failed.
pub fn session_with_faults(
    alloc: Global,
    disk: MemoryDisk,
    calls: &[ServerCall],
    first_failing: u64,
) -> Result<(Result<Vec<CallOutcome>, DeviceFault>, MemoryDisk), HistoryFault>
    requires { IsFreshDisk disk }
    ensures session_with_faults { IfOk result (λ r. (before : State) → IsRecoverable disk before
        → IsWithstood ⟦<FuseDisk<MemoryDisk> as Disk>⟧ disk first_failing calls.now r.0 before r.1) }
    ensures wanting { IfErr result (λ fault. (before : State) → IsRecoverable disk before → IsWanting fault) }
{
    sessions_go_on::<FuseDisk<MemoryDisk>>();
    a_crash_keeps_what_was_acknowledged::<FuseDisk<MemoryDisk>>();
    match opened_through(alloc, disk, first_failing)? {
        Ok(fused) => {
            let FaultyServer { mut server } = fused;
            let told = told_by(alloc, &mut server, calls)?;
            let back = server.into_disk().into_inner();
            Ok((Ok(told), back))
        }
        Err((back, fault)) => Ok((Err(fault), back)),
    }
}
