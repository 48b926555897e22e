//! REPLACE LIBRARY over a store.
ghost use Rattle.std.specs.Prelude.{◌≡◌, false, true, IfOk, OnErr, OnOk};
ghost use Rattle.oa_record.specs.promise.Replies.{ReplyValue};
ghost use Rattle.oa_server.specs.promise.ServerMachine.{ReplacesInStore};
ghost use Rattle.oa_server.specs.OpenGroups.{HasBanks};
ghost use Rattle.oa_turn.specs.promise.Events.{is_done};
ghost use Rattle.oa_turn.specs.promise.Replacing.{Replacement};

use crate::open_group::bare_reply;
use crate::starting::text_of;
use oa_disk::Disk;
use oa_model::HResult;
use oa_record::Reply;
use oa_store::{DeviceFailed, Store, WriteFault};
use oa_turn::{Machine, ReplacementPlan};
use std::alloc::Global;

/// Executes a body of opcode 12 over a store as a group of its own, while no group is open, and
/// returns the reply. The store switches to its other bank with the new library. If the body is
/// refused, the device is not called.
///
/// Err: the device has failed, and the store may have either library. The state in memory is the
/// one after the turn.
pub(crate) fn replace_over<D: Disk>(
    alloc: Global,
    host: &mut Machine,
    store: &mut Store<D>,
    body: &[u8],
) -> Result<Reply, DeviceFailed>
    requires goes_on { store.old.stopped ≡ false }
    requires banks { HasBanks store.old host.old }
    ensures turn { IfOk result (λ reply. Replacement host.old body.now reply host.new) }
    ensures failed { OnErr result ((reply : ReplyValue) × Replacement host.old body.now reply host.new × (is_done reply ≡ true)) }
    ensures replaced { ReplacesInStore store.old store.new host.old host.new }
    // (a refused body makes no call of the device)
    ensures quiet { IfOk result (λ reply. is_done reply ≡ false → store.new.disk ≡ store.old.disk) }
    ensures going { OnOk result (store.new.stopped ≡ false) }
    ensures stops { OnErr result (store.new.stopped ≡ true) }
    ensures banks { HasBanks store.new host.new }
{
    let library = match host.plan_replacement(body) {
        ReplacementPlan::Answered(reply) => return Ok(reply),
        ReplacementPlan::Replaced(library) => library,
    };
    match store.checkpoint_with(text_of(&library), host.table()) {
        Ok(()) => {
            host.replace_library(library);
            Ok(bare_reply(alloc, body, HResult::S_OK))
        }
        Err(WriteFault::Device(_)) => {
            host.replace_library(library);
            Err(DeviceFailed)
        }
        Err(WriteFault::Stopped) => Err(DeviceFailed),
    }
}
