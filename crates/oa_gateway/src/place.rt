//! A number of the server, which serves one client of the gateway after another.
ghost use Rattle.std.specs.Prelude.{◌≡◌, ◌<◌, ◌≤◌, length, IfSome, IsNone, IsSome};
ghost use Rattle.oa_gateway.specs.Frames.{PutsDeed, gateway_number, room_for};
ghost use Rattle.oa_gateway.specs.Places.{Closes, HearsEnd, Leaves, MayDo, Sends, after_deed, place_number, restarted};
ghost use Rattle.oa_gateway.specs.Hearing.{Becomes, EndBecomes};
ghost use Rattle.oa_gateway.specs.declared.place.Fate.TheVariants as fate;

use crate::frames::{GATEWAY, put_bytes, put_last};

/// `Place::presence` of a client of which no bytes were sent to the server.
pub const ABSENT: u32 = 0;
/// `Place::presence` of a client of which some bytes were sent.
pub const PRESENT: u32 = 1;
/// `Place::presence` of a client whose end was sent, too.
pub const ENDING: u32 = 2;
/// `Place::presence` of a client that sends and receives nothing more.
pub const OVER: u32 = 3;

/// The state of a number's client at the server.
#[derive(Clone, Copy, PartialEq, Eq)]
pub enum Standing {
    /// Nothing of it was sent.
    Absent,
    /// Some of its bytes were sent.
    Present,
    /// Its end was sent, too.
    Ending,
    /// It sends and receives nothing more.
    Over,
}

/// The decision on a frame of the server.
#[derive(Clone, Copy)]
pub enum Fate {
    /// Its replies go to the client that has the number.
    Given,
    /// It is that client's end.
    Ended,
    /// It is for a client that has gone.
    Dropped,
    /// It is for no client that ever had the number.
    Wrong,
}

/// The state of a number.
#[repr(C)]
#[derive(Clone, Copy, Debug, PartialEq, Eq)]
pub struct NumberState {
    /// The state of its present client: `ABSENT`, `PRESENT`, `ENDING`, and `OVER` or any other
    /// number.
    pub presence: u32,
    /// The number of ends that the server owes to clients that had the number before and have gone.
    pub owed: u32,
}

impl NumberState {
    /// Returns the state of the number's present client.
    pub fn standing(&self) -> Standing
        ensures { result ≡ (place_number self.now).standing }
    {
        match self.presence {
            0 => Standing::Absent,
            1 => Standing::Present,
            2 => Standing::Ending,
            _ => Standing::Over,
        }
    }

    /// Sends bytes of the client: puts their frames at the beginning of `out`, and returns the
    /// number of bytes of these. None, and nothing is done, in three cases: the client has had its
    /// end, `number` is not one of a client, or `out` may be too short.
    pub fn send(&mut self, number: u32, bytes: &[u8], out: &mut [u8]) -> Option<usize>
        ensures some { IfSome result (λ n. PutsDeed (Sends bytes.now) number n out.new (place_number self.old) (place_number self.new)) }
        ensures none { IsNone result → self.new ≡ self.old }
        ensures succeeds { MayDo (place_number self.old) (Sends bytes.now) → number < gateway_number → room_for (length bytes.now) ≤ length out.old → IsSome result }
    {
        if number >= GATEWAY {
            return None;
        }
        match self.standing() {
            Standing::Absent => self.put(number, bytes, out),
            Standing::Present => self.put(number, bytes, out),
            Standing::Ending => None,
            Standing::Over => None,
        }
    }

    /// Sends bytes of a client that has not had its end. Returns the number of bytes of the frames;
    /// None if `out` may be too short.
    fn put(&mut self, number: u32, bytes: &[u8], out: &mut [u8]) -> Option<usize>
        requires client { number < gateway_number }
        requires may { MayDo (place_number self.old) (Sends bytes.now) }
        ensures some { IfSome result (λ n. PutsDeed (Sends bytes.now) number n out.new (place_number self.old) (place_number self.new)) }
        ensures none { IsNone result → (self.new ≡ self.old) × (length out.old < room_for (length bytes.now)) }
    {
        let count = put_bytes(number, bytes, out)?;
        self.presence = PRESENT;
        Some(count)
    }

    /// Ends the client's stream. If some of its bytes were sent, its end is put at the beginning of
    /// `out`. Returns the number of bytes for the server, 8 or 0. None, and nothing is done, if
    /// `number` is not one of a client, or if `out` is too short.
    pub fn close(&mut self, number: u32, out: &mut [u8]) -> Option<usize>
        ensures some { IfSome result (λ n. PutsDeed Closes number n out.new (place_number self.old) (place_number self.new)) }
        ensures none { IsNone result → self.new ≡ self.old }
        ensures succeeds { number < gateway_number → 8 ≤ length out.old → IsSome result }
    {
        if number >= GATEWAY {
            return None;
        }
        match self.standing() {
            Standing::Absent => {
                self.presence = OVER;
                Some(0)
            }
            Standing::Present => {
                let count = put_last(number, out)?;
                self.presence = ENDING;
                Some(count)
            }
            Standing::Ending => Some(0),
            Standing::Over => Some(0),
        }
    }

    /// Notes that the client has gone: the number is the next client's. If some of its bytes were
    /// sent, and its end was not, that is put at the beginning of `out`. Returns the number of
    /// bytes for the server, 8 or 0.
    ///
    /// None, and nothing is done, in three cases: `number` is not one of a client, `out` is too
    /// short, or the server owes 2^32 - 1 ends.
    pub fn leave(&mut self, number: u32, out: &mut [u8]) -> Option<usize>
        ensures some { IfSome result (λ n. PutsDeed Leaves number n out.new (place_number self.old) (place_number self.new)) }
        ensures none { IsNone result → self.new ≡ self.old }
        ensures succeeds { number < gateway_number → 8 ≤ length out.old → self.old.owed < 4294967295 → IsSome result }
    {
        if number >= GATEWAY || self.owed == u32::MAX {
            return None;
        }
        match self.standing() {
            Standing::Absent => Some(0),
            Standing::Present => {
                let end = put_last(number, out)?;
                *self = NumberState {
                    presence: ABSENT,
                    owed: self.owed + 1,
                };
                Some(end)
            }
            Standing::Ending => {
                self.presence = ABSENT;
                self.owed += 1;
                Some(0)
            }
            Standing::Over => {
                self.presence = ABSENT;
                Some(0)
            }
        }
    }

    /// Decides on replies of the server for the number.
    pub(crate) fn hear(&self) -> Fate
        ensures { Becomes result (place_number self.now) }
    {
        if self.owed != 0 {
            return Fate::Dropped;
        }
        match self.standing() {
            Standing::Present | Standing::Ending => Fate::Given,
            Standing::Absent | Standing::Over => Fate::Wrong,
        }
    }

    /// Decides on an end that the server has sent for the number, and updates the state.
    pub(crate) fn hear_end(&mut self) -> Fate
        ensures told { EndBecomes result (place_number self.old) }
        ensures goes { place_number self.new ≡ after_deed (place_number self.old) HearsEnd }
        ensures wrong { result ≡ fate.Wrong → self.new ≡ self.old }
    {
        if self.owed > 0 {
            self.owed -= 1;
            Fate::Dropped
        } else if self.standing() == Standing::Ending {
            self.presence = OVER;
            Fate::Ended
        } else {
            Fate::Wrong
        }
    }

    /// Notes that another server was started: it owes no ends, and a present client is over.
    pub(crate) fn restart(&mut self)
        ensures { place_number self.new ≡ restarted (place_number self.old) }
    {
        let presence = if self.presence == ABSENT {
            ABSENT
        } else {
            OVER
        };
        *self = NumberState { presence, owed: 0 };
    }
}
