//! The open group of a server over a store.
ghost use Rattle.std.specs.Prelude.{◌≡◌, ◌<◌, ◌≤◌, [], None, IfOk, false, length, map, vec_capacity};
ghost use Rattle.oa_decision.specs.promise.Decided.{refusal};
ghost use Rattle.oa_group_commit.specs.promise.Groups.{fills};
ghost use Rattle.oa_model.specs.promise.Limits.{group_bytes};
ghost use Rattle.oa_record.specs.promise.Asks.{tag_at};
ghost use Rattle.oa_server.specs.promise.ServerMachine.{aborted_reply};

use oa_group_commit::is_full;
use oa_model::HResult;
use oa_record::{Reply, tag_of};
use oa_store::EventBatch;
use std::alloc::{AllocError, Global};

/// The open group: its events, which are not committed yet, and its replies, which are held back.
#[derive(Drop)]
pub(crate) struct OpenGroup {
    /// The events.
    pub batch: EventBatch,
    /// The replies.
    pub replies: Vec<Reply>,
    /// The greatest number of requests of a group.
    pub size: usize,
}

impl OpenGroup {
    /// Makes an empty group of at most `size` requests, with capacity for their replies. Err: the
    /// allocation of that capacity failed.
    pub(crate) fn new(alloc: Global, size: usize) -> Result<OpenGroup, AllocError>
        ensures replies { IfOk result (λ open_group. open_group.replies.items ≡ []) }
        ensures places { IfOk result (λ open_group. size ≤ vec_capacity open_group.replies) }
        ensures batch { IfOk result (λ open_group. open_group.batch ≡ []) }
        ensures size { IfOk result (λ open_group. open_group.size ≡ size) }
    {
        let replies = Vec::with_capacity(alloc, size)?;
        Ok(OpenGroup {
            batch: EventBatch::new(alloc),
            replies,
            size,
        })
    }

    /// Makes a group that accepts no requests. Allocates nothing.
    pub(crate) fn none(alloc: Global) -> OpenGroup
        ensures replies { result.replies.items ≡ [] }
        ensures batch { result.batch ≡ [] }
        ensures size { result.size ≡ 0 }
    {
        OpenGroup {
            batch: EventBatch::new(alloc),
            replies: Vec::new(alloc),
            size: 0,
        }
    }

    /// Returns whether the group is full: by its number of requests, or by the bytes of its events.
    pub(crate) fn is_full(&self) -> bool
        ensures fills { result ≡ fills self.now.size (length self.now.replies.items) (length self.now.batch) }
        ensures few { result ≡ false → length self.now.batch < group_bytes }
        ensures place { result ≡ false → length self.now.replies.items < self.now.size }
    {
        is_full(self.size, self.replies.len(), self.batch.len())
    }
}

/// Returns a reply with the tag of `body`, this code and no fields. Allocates nothing.
pub(crate) fn bare_reply(alloc: Global, body: &[u8], code: HResult) -> Reply
    ensures { result ≡ refusal (tag_at body.now) code None }
{
    Reply::bare(alloc, tag_of(body), code, None)
}

/// Replaces each reply of a group that could not be committed by STG_E_WRITEFAULT, with the same
/// tag. Allocates nothing.
pub(crate) fn fail_replies(alloc: Global, replies: &mut Vec<Reply>)
    ensures items { replies.new.items ≡ map aborted_reply replies.old.items }
    ensures len { length replies.new.items ≡ length replies.old.items }
    ensures places { vec_capacity replies.new ≡ vec_capacity replies.old }
{
    take_back(alloc, replies);
}

/// Replaces each reply by STG_E_WRITEFAULT, with the same tag.
fn take_back(alloc: Global, replies: &mut [Reply])
    ensures { replies.new ≡ map aborted_reply replies.old }
{
    for reply in replies.iter_mut() {
        *reply = Reply::bare(alloc, reply.tag(), HResult::STG_E_WRITEFAULT, None);
    }
}
