//! The server's frames.
ghost use Rattle.std.specs.Prelude.{◌≡◌, ◌<◌, ◌≤◌, ◌+◌, ℕ, List, [], length, slice_range, IfSome, IsNone};
ghost use Rattle.oa_gateway.specs.Hearing.{FirstFrame, HeardEnd, HeardReplies, Hearing, IsPartFrame};
ghost use Rattle.oa_gateway.specs.Frames.{gateway_number};
ghost use Rattle.oa_gateway.specs.Places.{AllRestarted};

use crate::frames::GATEWAY;
use crate::place::{Fate, NumberState};

/// The decision on the first frame of the server's bytes.
#[derive(Clone, Copy, Debug, PartialEq, Eq)]
pub enum Heard {
    /// It has not come whole.
    More,
    /// It is the gateway's own end: all earlier requests are answered.
    Answered,
    /// Its replies, `count` bytes after its head, go to this client.
    Given { client: u32, count: usize },
    /// It is the end of this client, which receives nothing more.
    Ended(u32),
    /// It has `count` bytes after its head, and is for a client that had this number before and has
    /// gone.
    Dropped { client: u32, count: usize },
    /// It is for no client that there is or was.
    Wrong,
}

/// A frame that has come whole.
#[derive(Clone, Copy)]
struct Frame {
    number: u32,
    count: usize,
}

/// Decides on the first frame of the server's bytes, and updates the state of its number.
/// `places[n]` is the state of number n.
pub fn hear(places: &mut [NumberState], bytes: &[u8]) -> Heard
    ensures { Hearing result bytes.now places.old places.new }
{
    let Some(frame) = first_frame(bytes) else {
        return Heard::More;
    };
    if frame.number == GATEWAY && frame.count == 0 {
        return Heard::Answered;
    }
    if frame.number as usize >= places.len() {
        return Heard::Wrong;
    }
    if frame.count == 0 {
        hear_end(places, frame.number)
    } else {
        hear_replies(places, frame.number, frame.count)
    }
}

/// Decides on `count` bytes of replies for a number.
fn hear_replies(places: &[NumberState], client: u32, count: usize) -> Heard
    requires { client < length places.now }
    ensures { (inside : List ℕ) → length inside ≡ count → HeardReplies result client inside places.now }
{
    match places[client as usize].hear() {
        Fate::Given => Heard::Given { client, count },
        Fate::Dropped => Heard::Dropped { client, count },
        Fate::Ended | Fate::Wrong => Heard::Wrong,
    }
}

/// Decides on an end for a number, and updates the state of the number.
fn hear_end(places: &mut [NumberState], client: u32) -> Heard
    requires { client < length places.old }
    ensures { HeardEnd result client places.old places.new }
{
    match places[client as usize].hear_end() {
        Fate::Ended => Heard::Ended(client),
        Fate::Dropped => Heard::Dropped { client, count: 0 },
        Fate::Given | Fate::Wrong => Heard::Wrong,
    }
}

/// Returns the first frame of some bytes; None if it has not come whole.
fn first_frame(bytes: &[u8]) -> Option<Frame>
    ensures none { IsNone result → IsPartFrame bytes.now }
    ensures some { IfSome result (λ f. (8 + f.count ≤ length bytes.now) × FirstFrame bytes.now f.number (slice_range bytes.now 8 (8 + f.count))) }
    ensures own { IfSome result (λ f. FirstFrame bytes.now gateway_number [] → (f.number ≡ gateway_number) × (f.count ≡ 0)) }
{
    let (number, rest) = bytes.split_first_chunk::<4>()?;
    let (length, inside) = rest.split_first_chunk::<4>()?;
    let number = u32::from_le_bytes(*number);
    let count = u32::from_le_bytes(*length) as usize;
    if inside.len() < count {
        return None;
    }
    Some(Frame { number, count })
}

/// Notes that the server has ended, and that another one was started. The new server owes nothing.
/// It receives nothing of the clients that were there.
pub fn restart(places: &mut [NumberState])
    ensures { AllRestarted places.old places.new }
{
    for at in 0..places.len() {
        let mut place = places[at];
        place.restart();
        places[at] = place;
    }
}
