//! In which order clients have their turns.
ghost use Rattle.std.specs.Prelude.{◌≡◌, ◌<◌, ◌≤◌, ◌+◌, ◌-◌, ℕ, true, false, length, slice_get, slice_index, IfSome, IsNone};
ghost use Rattle.oa_gateway.specs.Queues.{HasQueueRoom, IsQueue, IsWithout, begun_queue, enqueued, next_batch, next_turn, queue_of, turn_of};

/// The queue of clients that wait for turns, by their numbers in an array that the caller lends.
/// Its fields are places in that array.
#[repr(C)]
#[derive(Clone, Copy, Debug, PartialEq, Eq)]
pub struct Queue {
    /// The number of clients at the beginning of the array, which have the first turns of the next
    /// batch.
    pub kept: usize,
    /// The place of the first client that waits for a turn in this batch.
    pub next: usize,
    /// The place after the last such client.
    pub end: usize,
}

/// The next turn of a client.
#[derive(Clone, Copy, Debug, PartialEq, Eq)]
pub enum NextTurn {
    /// It has no request that waits.
    Never,
    /// After all that wait, perhaps in the same batch.
    Last,
    /// In the next batch, before all that wait for one in this batch.
    Kept,
}

/// Returns the next turn of a client after one. `waits` is whether it has more requests, and `took`
/// whether the batch took some of them in this turn.
fn next_turn_of(waits: bool, took: bool) -> NextTurn
    ensures { result ≡ next_turn waits took }
{
    if !waits {
        NextTurn::Never
    } else if took {
        NextTurn::Last
    } else {
        NextTurn::Kept
    }
}

impl Queue {
    /// Returns whether this is a queue in an array of `places` places.
    fn is_in(&self, places: usize) -> bool
        ensures yes { result ≡ true → IsQueue self.now places }
        ensures no { result ≡ false → IsQueue self.now places → ⊥ }
    {
        if self.kept > self.next {
            return false;
        }
        if self.next > self.end {
            return false;
        }
        self.end <= places
    }

    /// Moves the clients that wait for turns in this batch down, to those that have the first turns
    /// of the next one.
    fn close_up(&mut self, places: &mut [u32])
        requires { IsQueue self.old (length places.old) }
        ensures same { queue_of self.new places.new ≡ queue_of self.old places.old }
        ensures queue { IsQueue self.new (length places.new) }
        ensures length { length places.new ≡ length places.old }
        ensures kept { (self.new.kept ≡ self.old.kept) × (self.new.next ≡ self.old.kept) }
        ensures end { self.new.end + self.old.next ≡ self.old.end + self.old.kept }
    {
        let gap = self.next - self.kept;
        places[self.kept..self.end].rotate_left(gap);
        self.next -= gap;
        self.end -= gap;
    }

    /// Adds a client with this number, which waits for its turn after all others. Returns `false`,
    /// and nothing is done, if the array has no place for it, or if this is no queue in the array.
    pub fn join(&mut self, places: &mut [u32], client: u32) -> bool
        ensures done { result ≡ true → queue_of self.new places.new ≡ enqueued client (queue_of self.old places.old) }
        ensures not { result ≡ false → (self.new ≡ self.old) × (places.new ≡ places.old) }
        ensures succeeds { HasQueueRoom self.old (length places.old) → result ≡ true }
        ensures queue { result ≡ true → IsQueue self.new (length places.new) }
    {
        if !self.is_in(places.len()) {
            return false;
        }
        if self.end == places.len() {
            if self.kept == self.next {
                return false;
            }
            self.close_up(places);
        }
        self.add(places, client);
        true
    }

    /// Adds a client after all others, at a place that is free.
    fn add(&mut self, places: &mut [u32], client: u32)
        requires queue { IsQueue self.old (length places.old) }
        requires room { self.old.end < length places.old }
        ensures done { queue_of self.new places.new ≡ enqueued client (queue_of self.old places.old) }
        ensures queue { IsQueue self.new (length places.new) }
    {
        places[self.end] = client;
        self.end += 1;
    }

    /// Returns the number of the client that has the next turn of this batch; None if nobody waits
    /// for one.
    pub fn first(&self, places: &[u32]) -> Option<u32>
        ensures { result ≡ slice_get (queue_of self.now places.now).waiting 0 }
    {
        if self.next < self.end && self.next < places.len() {
            Some(places[self.next])
        } else {
            None
        }
    }

    /// Notes that the first client has had its turn. `waits` is whether it has more requests, and
    /// `took` whether the batch took some of them. Returns `false`, and nothing is done, if this is
    /// no queue in the array.
    pub fn had_turn(&mut self, places: &mut [u32], waits: bool, took: bool) -> bool
        ensures done { result ≡ true → queue_of self.new places.new ≡ turn_of (queue_of self.old places.old) (next_turn waits took) }
        ensures not { result ≡ false → (self.new ≡ self.old) × (places.new ≡ places.old) }
        ensures succeeds { IsQueue self.old (length places.old) → result ≡ true }
        ensures queue { result ≡ true → IsQueue self.new (length places.new) }
    {
        if !self.is_in(places.len()) {
            return false;
        }
        if self.next < self.end {
            self.go_on(places, next_turn_of(waits, took));
        }
        true
    }

    /// Ends the turn of the first client, whose next one is `turn`.
    fn go_on(&mut self, places: &mut [u32], turn: NextTurn)
        requires queue { IsQueue self.old (length places.old) }
        requires some { self.old.next < self.old.end }
        ensures done { queue_of self.new places.new ≡ turn_of (queue_of self.old places.old) turn }
        ensures queue { IsQueue self.new (length places.new) }
    {
        let client = places[self.next];
        self.next += 1;
        match turn {
            NextTurn::Never => {}
            NextTurn::Last => {
                self.join(places, client);
            }
            NextTurn::Kept => {
                places[self.kept] = client;
                self.kept += 1;
            }
        }
    }

    /// Ends a batch: all clients wait for turns in the next one. Returns `false`, and nothing is
    /// done, if this is no queue in the array.
    pub fn renew(&mut self, places: &mut [u32]) -> bool
        ensures done { result ≡ true → queue_of self.new places.new ≡ begun_queue (next_batch (queue_of self.old places.old)) }
        ensures not { result ≡ false → (self.new ≡ self.old) × (places.new ≡ places.old) }
        ensures succeeds { IsQueue self.old (length places.old) → result ≡ true }
        ensures queue { result ≡ true → IsQueue self.new (length places.new) }
    {
        if !self.is_in(places.len()) {
            return false;
        }
        if self.kept > 0 || self.next == self.end {
            self.close_up(places);
            self.kept = 0;
            self.next = 0;
        }
        true
    }

    /// Removes the client with this number, which has gone. Returns `false`, and nothing is done,
    /// if it waits for no turn in this batch, or if this is no queue in the array.
    pub fn remove(&mut self, places: &mut [u32], client: u32) -> bool
        ensures done { result ≡ true → IsWithout client (queue_of self.old places.old) (queue_of self.new places.new) }
        ensures not { result ≡ false → (self.new ≡ self.old) × (places.new ≡ places.old) }
        ensures none { result ≡ false → IsQueue self.old (length places.old)
            → (at : ℕ) → self.old.next ≤ at → at < self.old.end → slice_index places.old at ≡ client → ⊥ }
        ensures queue { result ≡ true → IsQueue self.new (length places.new) }
    {
        if !self.is_in(places.len()) {
            return false;
        }
        let Some(at) = self.find(places, client) else {
            return false;
        };
        places[at..self.end].rotate_left(1);
        self.end -= 1;
        true
    }

    /// Returns the place in the array of a client that waits for a turn in this batch; None if it
    /// does not.
    fn find(&self, places: &[u32], client: u32) -> Option<usize>
        requires { IsQueue self.now (length places.now) }
        ensures some { IfSome result (λ at. (self.now.next ≤ at) × (at < self.now.end) × (slice_index places.now at ≡ client)) }
        ensures none { IsNone result → (at : ℕ) → self.now.next ≤ at → at < self.now.end → slice_index places.now at ≡ client → ⊥ }
    {
        'places: for at in self.next..self.end {
            if places[at] == client {
                return Some(at);
            }
        }
        None
    }
}
