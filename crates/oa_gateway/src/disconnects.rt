//! Which clients are disconnected. Times are in milliseconds.
ghost use Rattle.std.specs.Prelude.{◌≡◌, IfSome, IsNone};
ghost use Rattle.oa_gateway.specs.Disconnects.{AllHaveRead, IsHeaviest, gives_way, judged};

/// The time in milliseconds for which a client with unread replies may read nothing when replies
/// use more than half of the memory.
const MOMENT: u64 = 1_000;

/// The unread replies of a client, and the time for which it has been silent. Times are in
/// milliseconds.
#[repr(C)]
#[derive(Clone, Copy, Debug, PartialEq, Eq)]
pub struct Conduct {
    /// The number of bytes of replies that it has not read.
    pub unread: usize,
    /// The time for which it has read none of them.
    pub unread_for: u64,
    /// The time for which it has sent nothing and read nothing.
    pub silent: u64,
    /// The time for which the gateway has been reading a request that is still incomplete; 0 if
    /// there is none.
    pub incomplete_for: u64,
    /// Whether no request of it waits or is with the server.
    pub asks_nothing: bool,
}

/// The time that a client may take, in milliseconds.
#[repr(C)]
#[derive(Clone, Copy, Debug, PartialEq, Eq)]
pub struct Patience {
    /// To read some of its replies, and to complete a request.
    pub stalled: u64,
    /// To send the next request.
    pub idle: u64,
}

/// Whether a client stays connected, and if not, why.
#[derive(Clone, Copy, Debug, PartialEq, Eq)]
pub enum Verdict {
    /// It stays connected.
    Stays,
    /// It does not read its replies.
    Unread,
    /// It does not complete its request.
    Incomplete,
    /// It sends no request.
    Idle,
}

/// Returns whether a client that behaves so stays connected, and if not, why.
pub fn judge(conduct: &Conduct, patience: &Patience) -> Verdict
    ensures { result ≡ judged conduct.now patience.now }
{
    if conduct.unread > 0 {
        if conduct.unread_for > patience.stalled {
            return Verdict::Unread;
        }
    } else if conduct.asks_nothing {
        if conduct.silent > patience.idle {
            return Verdict::Idle;
        }
    }
    if conduct.incomplete_for > patience.stalled {
        return Verdict::Incomplete;
    }
    Verdict::Stays
}

/// Returns whether a client is disconnected because replies need its memory. `lacks` is whether a
/// request waits for such memory. Replies have `used` bytes of the `memory` bytes that they may
/// have.
pub fn must_give_way(conduct: &Conduct, used: usize, memory: usize, lacks: bool) -> bool
    ensures { result ≡ gives_way conduct.now used memory lacks }
{
    if !lacks {
        if used <= memory / 2 {
            return false;
        }
    }
    if conduct.unread == 0 {
        return false;
    }
    conduct.unread_for > MOMENT
}

/// Returns the number of the client with the most unread replies; None if all have read theirs.
/// `unread[n]` is the number of bytes that client n has not read. If several have the most, it is
/// the lowest number.
pub fn heaviest(unread: &[usize]) -> Option<usize>
    ensures some { IfSome result (λ i. IsHeaviest unread.now i) }
    ensures none { IsNone result → AllHaveRead unread.now }
{
    if unread.is_empty() {
        return None;
    }
    let mut found = 0;
    'clients: for at in 0..unread.len() {
        if unread[at] > unread[found] {
            found = at;
        }
    }
    if unread[found] == 0 {
        return None;
    }
    Some(found)
}
