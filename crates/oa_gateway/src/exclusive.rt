//! Whose requests are in a batch: those of shared clients, or of one exclusive client.
ghost use Rattle.std.specs.Prelude.{◌≡◌};
ghost use Rattle.oa_gateway.specs.Exclusive.{behind_batch, behind_holder, waiting_in, waits, whose};

use crate::queue::Queue;

/// Whether an exclusive client has the server to itself.
#[repr(C)]
#[derive(Clone, Copy, Debug, PartialEq, Eq)]
pub struct Exclusion {
    /// One has the server to itself.
    pub is_held: bool,
    /// One had the server to itself, and since then no batch was that of shared clients.
    pub others_first: bool,
}

/// The kinds of clients with requests that wait.
#[repr(C)]
#[derive(Clone, Copy, Debug, PartialEq, Eq)]
pub struct Waiting {
    /// The exclusive client that has the server to itself.
    pub holder: bool,
    /// Other exclusive clients.
    pub exclusive: bool,
    /// Shared clients.
    pub shared: bool,
}

/// The clients whose requests are in a batch.
#[derive(Clone, Copy, Debug, PartialEq, Eq)]
pub enum Whose {
    /// There are none.
    Nobody,
    /// Those of the exclusive client that has the server to itself.
    Holder,
    /// Those of the first exclusive client that waits, which has the server to itself from now on.
    NextHolder,
    /// Those of shared clients.
    Shared,
}

impl Exclusion {
    /// Returns whose requests are in the next batch.
    pub fn whose(&self, waiting: &Waiting) -> Whose
        ensures { result ≡ whose self.now waiting.now }
    {
        if self.is_held {
            if waiting.holder {
                return Whose::Holder;
            }
            return Whose::Nobody;
        }
        if waiting.exclusive {
            if self.others_first && waiting.shared {
                return Whose::Shared;
            }
            return Whose::NextHolder;
        }
        if waiting.shared {
            Whose::Shared
        } else {
            Whose::Nobody
        }
    }

    /// Begins a batch. Returns whose requests are in it.
    pub fn begin(&mut self, waiting: &Waiting) -> Whose
        ensures decides { result ≡ whose self.old waiting.now }
        ensures goes { self.new ≡ behind_batch result self.old }
    {
        let found = self.whose(waiting);
        match found {
            Whose::Nobody | Whose::Holder => {}
            Whose::NextHolder => self.is_held = true,
            Whose::Shared => self.others_first = false,
        }
        found
    }

    /// Notes that the exclusive client that had the server to itself has gone.
    pub fn let_go(&mut self)
        ensures { self.new ≡ behind_holder self.old }
    {
        self.is_held = false;
        self.others_first = true;
    }
}

/// Returns the kinds of clients that wait. `own` is the queue of the client that has the server to
/// itself, `exclusive` that of other exclusive clients, and `shared` that of shared ones.
pub fn waiting_in(own: &Queue, exclusive: &Queue, shared: &Queue) -> Waiting
    ensures { result ≡ waiting_in own.now exclusive.now shared.now }
{
    Waiting {
        holder: waits(own),
        exclusive: waits(exclusive),
        shared: waits(shared),
    }
}

/// Returns whether a client waits in a queue.
fn waits(queue: &Queue) -> bool
    ensures { result ≡ waits queue.now }
{
    queue.next < queue.end
}
