//! When a batch begins. Times are in nanoseconds.
ghost use Rattle.std.specs.Prelude.{◌≡◌};
ghost use Rattle.oa_gateway.specs.Beginnings.{begins, has_turns, is_free, pause};

use crate::exclusive::Whose;

/// The longest pause after a batch, in nanoseconds.
const LONGEST_PAUSE: u64 = 2_000_000;

/// The state of the server, and how long a batch takes. Times are in nanoseconds.
#[repr(C)]
#[derive(Clone, Copy, Debug, PartialEq, Eq)]
pub struct Moment {
    /// Whether the server serves.
    pub is_up: bool,
    /// Whether it has a batch that it has not answered.
    pub in_flight: bool,
    /// Whether it waits for a backup.
    pub is_held: bool,
    /// Whether the end of a client was sent since the last batch.
    pub ends_wait: bool,
    /// The number of clients that were answered by the last batch, and have asked nothing since.
    pub awaited: usize,
    /// The time since the last batch was answered.
    pub since: u64,
    /// The time that a batch takes, about.
    pub took: u64,
}

impl Moment {
    /// Returns whether the server serves, and has answered everything.
    fn is_free(&self) -> bool
        ensures { result ≡ is_free self.now }
    {
        if !self.is_up {
            return false;
        }
        if self.in_flight {
            return false;
        }
        !self.is_held
    }

    /// Returns for how many nanoseconds the next batch still waits for clients that were just
    /// answered.
    fn pause(&self) -> u64
        ensures { result ≡ pause self.now }
    {
        if self.awaited == 0 {
            return 0;
        }
        let quarter = self.took / 4;
        if quarter > LONGEST_PAUSE {
            LONGEST_PAUSE.saturating_sub(self.since)
        } else {
            quarter.saturating_sub(self.since)
        }
    }

    /// Returns the number of nanoseconds after which a batch begins if nothing else happens before;
    /// None if none begins. `whose` are the requests that wait for it.
    pub fn begins_in(&self, whose: Whose) -> Option<u64>
        ensures { result ≡ begins self.now whose }
    {
        if !self.is_free() {
            return None;
        }
        if has_turns(whose) {
            return Some(self.pause());
        }
        if self.ends_wait {
            Some(self.pause())
        } else {
            None
        }
    }
}

/// Returns whether a batch of these clients has requests.
fn has_turns(whose: Whose) -> bool
    ensures { result ≡ has_turns whose }
{
    match whose {
        Whose::Nobody => false,
        Whose::Holder | Whose::NextHolder | Whose::Shared => true,
    }
}
