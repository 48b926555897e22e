//! Sessions, and checkpoints between them, one after another.
ghost use Rattle.std.specs.Prelude.{◌≤◌, IfOk, IfErr};
ghost use Rattle.oa_disk.specs.promise.Memory.{memory_contents};
ghost use Rattle.oa_journal.specs.promise.Bank.{least_bank_bytes, most_bank_bytes};
ghost use Rattle.oa_decision.specs.promise.States.{State, state_of};
ghost use Rattle.oa_table.specs.Tables.{first_table};
ghost use Rattle.oa_history.specs.Kept.{IsRecoverable, IsUnmade, IsWanting};
ghost use Rattle.oa_history.specs.promise.CrashHistories.{IsFreshDisk, IsCrashHistory, IsCrashHistoryOn, IsStepped};

use crate::reopening::{begun, reopened, shown};
use crate::{HistoryFault, Opened, Replies, Step, Transcript, checkpointed, stopped};
use oa_disk::MemoryDisk;
use oa_table::Table;
use oa_typelib::Library;
use std::alloc::Global;

/// The results of all steps, and what is left.
#[derive(Drop)]
pub struct CrashHistory {
    /// The result of each step.
    pub heard: Vec<Transcript>,
    /// The canonical text of the library.
    pub library: Vec<u8>,
    /// The table of objects.
    pub table: Table,
    /// A server that was opened on what is left.
    pub opened: Opened,
}

/// Runs a session, or makes a checkpoint, and crashes. Returns its result, and the disk that the
/// crash has left. Err: an allocation or a call of the disk failed.
pub(crate) fn stepped(
    alloc: Global,
    disk: MemoryDisk,
    step: &Step,
) -> Result<(Transcript, MemoryDisk), HistoryFault>
    requires { IsFreshDisk disk }
    ensures settled { IfOk result (λ r. IsFreshDisk r.1) }
    ensures stepped { IfOk result (λ r. (before : State) → IsRecoverable disk before → (after : State)
        × IsStepped step.now r.0 (memory_contents disk) before (memory_contents r.1) after × IsRecoverable r.1 after) }
    ensures wanting { IfErr result (λ fault. (before : State) → IsRecoverable disk before → IsWanting fault) }
{
    match step {
        Step::CrashedSession(session) => stopped(alloc, disk, session),
        Step::Checkpoint(stop) => {
            let (disk, left) = checkpointed(alloc, disk, *stop)?;
            let replies = Replies::Calls(Vec::new(alloc));
            Ok((Transcript { replies, disk }, left))
        }
    }
}

/// Runs a crash history: the sessions and checkpoints on the disk, one after another, each up to
/// its crash. Then it opens the disk once more. Returns the result of each step, and what is left.
///
/// Each session opens what the crash before it has left. Its replies are those of a run from the
/// recovered state, a library and a table of objects, group for group. Its own crash keeps a prefix
/// of its groups, each whole, that contains all answered ones; over a stream, all those whose
/// replies had been sent. A checkpoint keeps the state. The state that is returned at the end is
/// the one that the last crash has kept. A request that was not answered with S_OK leaves no trace
/// in it.
///
/// In a session of many clients, the requests of all clients have one order, that in which their
/// last bytes came. The ends of these clients are among them. The run is one over these, and each
/// reply goes to the client that made the request, in a frame of its own.
///
/// The disk must be a store with banks of any size, new or with objects: one that `formatted` or
/// `upgraded` has left, or a history.
///
/// Memory is allocated for each disk's calls and for what they write. Err: an allocation failed, or
/// the log of a disk was full. No recovery fails otherwise.
pub fn run_history_on(
    alloc: Global,
    disk: MemoryDisk,
    steps: &[Step],
) -> Result<CrashHistory, HistoryFault>
    requires { IsFreshDisk disk }
    ensures lived { IfOk result (λ lived. (state : State) → IsRecoverable disk state
        → IsCrashHistoryOn (memory_contents disk) state steps.now lived) }
    ensures wanting { IfErr result (λ fault. (state : State) → IsRecoverable disk state → IsWanting fault) }
{
    let mut disk = disk;
    let mut heard = Vec::new(alloc);
    'steps: for step in steps {
        let (told, left) = stepped(alloc, disk, step)?;
        heard.push(told)?;
        disk = left;
    }
    let (text, table) = shown(alloc, &disk)?;
    let opened = reopened(alloc, disk)?;
    Ok(CrashHistory {
        heard,
        library: text,
        table,
        opened,
    })
}

/// Formats the disk with `library` and bodies of `bank` bytes, and then runs a crash history and
/// returns its results, as `run_history_on` does. The first state is that of the library without
/// objects.
///
/// Errors: those of `run_history_on`; `Format` if the disk was not formatted, also because it is too
/// small for a store.
pub fn run_history(
    alloc: Global,
    library: &Library,
    bank: u32,
    disk: MemoryDisk,
    steps: &[Step],
) -> Result<CrashHistory, HistoryFault>
    requires least { least_bank_bytes ≤ bank }
    requires most { bank ≤ most_bank_bytes }
    ensures lived { IfOk result (IsCrashHistory disk.first.size (state_of bank library.now first_table) steps.now) }
    ensures wanting { IfErr result (IsUnmade bank disk.first.size) }
{
    let disk = begun(alloc, disk, library, bank)?;
    run_history_on(alloc, disk, steps)
}
