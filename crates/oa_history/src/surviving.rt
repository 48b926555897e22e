//! A session over a disk that fails, and what is found after it.
ghost use Rattle.std.specs.Prelude.{◌≤◌, IfOk, IfErr};
ghost use Rattle.oa_disk.specs.promise.Memory.{memory_contents};
ghost use Rattle.oa_group_commit.specs.promise.Groups.{HoldsState};
ghost use Rattle.oa_journal.specs.promise.Bank.{least_bank_bytes, most_bank_bytes};
ghost use Rattle.oa_turn.specs.promise.Beginnings.{CanBegin};
ghost use Rattle.oa_server.specs.promise.ServerMachine.{opened, server_machine};
ghost use Rattle.oa_decision.specs.promise.States.{State, state_of};
ghost use Rattle.oa_table.specs.Tables.{first_table};
ghost use Rattle.oa_history.specs.promise.CrashHistories.{IsFreshDisk};
ghost use Rattle.oa_history.specs.Kept.{IsRecoverable, IsUnmade, IsWanting};
ghost use Rattle.oa_history.specs.promise.FaultHistories.{IsFaultHistory, IsSurvivedOn, IsTakenUp};

use crate::reopening::{begun, library_on, shown};
use crate::{CallOutcome, HistoryFault, Opened, ServerCall, session_with_faults};
use oa_disk::{DeviceFault, Disk, FuseDisk, MemoryDisk};
use oa_idl::laws::one_tree;
use oa_printer::laws::marked_is_read;
use oa_server::Server;
use oa_server::laws::{an_opening_finds_what_was_kept, what_was_served_is_served_again};
use oa_table::Table;
use oa_typelib::Library;
use std::alloc::Global;

/// The replies of calls over a disk that fails from some call on, and what was found on it
/// afterwards.
#[derive(Drop)]
pub struct FaultHistory {
    /// The replies of each call of the server, or the fault of the device that its opening met.
    pub told: Result<Vec<CallOutcome>, DeviceFault>,
    /// The canonical text of the library that was found.
    pub library: Vec<u8>,
    /// The table of objects that was found.
    pub table: Table,
    /// A server that was opened on the returned disk.
    pub opened: Opened,
}

/// Opens the store on the disk with its own library, whatever is pending. Errors: those of
/// `library_on`; `Open`.
fn taken_up(alloc: Global, disk: MemoryDisk) -> Result<Opened, HistoryFault>
    ensures taken { IfOk result (λ r. (state : State) → HoldsState server_machine state (memory_contents disk) → CanBegin state
        → IsTakenUp disk r.server (opened state)) }
    ensures wanting { IfErr result (λ fault. (state : State) → HoldsState server_machine state (memory_contents disk) → CanBegin state
        → IsWanting fault) }
{
    one_tree();
    marked_is_read();
    an_opening_finds_what_was_kept::<MemoryDisk>();
    let library = library_on(alloc, &disk)?;
    match Server::open(alloc, disk, library) {
        Ok(server) => Ok(Opened { server }),
        Err((_, fault)) => Err(HistoryFault::Open(fault)),
    }
}

/// Opens a server on the disk, makes the calls, and takes the disk back. Each call of the disk from
/// number `first_failing` on, counted from the opening's first, fails. Then it opens the returned
/// disk, without failures.
///
/// The replies are those of a run, group for group, up to the group in which the device fails. That
/// group gets STG_E_WRITEFAULT, and later requests E_FAIL, without a call of the disk. The
/// recovered state is the one after all answered groups, with the group in which the device failed
/// or without it. If the opening met the fault, it is the old state.
///
/// The disk must be a store, as for `run_history_on`. Errors are those of `run_history_on`.
pub fn run_with_faults_on(
    alloc: Global,
    disk: MemoryDisk,
    calls: &[ServerCall],
    first_failing: u64,
) -> Result<FaultHistory, HistoryFault>
    requires { IsFreshDisk disk }
    ensures survived { IfOk result (λ survived. (state : State) → IsRecoverable disk state
        → IsSurvivedOn ⟦<FuseDisk<MemoryDisk> as Disk>⟧ disk state calls.now first_failing survived) }
    ensures wanting { IfErr result (λ fault. (state : State) → IsRecoverable disk state → IsWanting fault) }
{
    what_was_served_is_served_again();
    let (told, back) = session_with_faults(alloc, disk, calls, first_failing)?;
    let (text, table) = shown(alloc, &back)?;
    let opened = taken_up(alloc, back)?;
    Ok(FaultHistory {
        told,
        library: text,
        table,
        opened,
    })
}

/// Formats the disk with `library` and bodies of `bank` bytes, and then does what `run_with_faults_on`
/// does, and returns the same. Errors are those of `run_history`.
pub fn run_with_faults(
    alloc: Global,
    library: &Library,
    bank: u32,
    disk: MemoryDisk,
    calls: &[ServerCall],
    first_failing: u64,
) -> Result<FaultHistory, HistoryFault>
    requires least { least_bank_bytes ≤ bank }
    requires most { bank ≤ most_bank_bytes }
    ensures survived { IfOk result (IsFaultHistory ⟦<FuseDisk<MemoryDisk> as Disk>⟧ disk.first.size
        (state_of bank library.now first_table) calls.now first_failing) }
    ensures wanting { IfErr result (IsUnmade bank disk.first.size) }
{
    let disk = begun(alloc, disk, library, bank)?;
    run_with_faults_on(alloc, disk, calls, first_failing)
}
