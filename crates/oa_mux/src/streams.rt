//! Demultiplexing the frames of many clients.
ghost use Rattle.std.specs.Prelude.{◌≡◌, ◌<◌, ◌≤◌, ◌+◌, ◌++◌, [], false, length, take, IfOk, IfSome, OnErr};
ghost use Rattle.oa_mux.specs.promise.Frames.{InHead, begun};
ghost use Rattle.oa_mux.specs.Frames.{SaysSome};
ghost use Rattle.oa_mux.specs.promise.Marks.{tag_all};
ghost use Rattle.oa_mux.specs.Shared.{Begins, BringsRecord, IsHeads, IsRecordFrame, TakesSome, TellsUnknown, arrived};
ghost use Rattle.oa_mux.specs.Shared.{is_unknown};
ghost use Rattle.oa_mux.specs.promise.Shared.{Demultiplexes, IsClients, Rises, reads_nothing, starting};
ghost use Rattle.oa_mux.specs.Steps.{EndsLowest, brought, brought_last};
ghost use Rattle.oa_mux.specs.promise.Talking.{input_end};

use crate::{ClientItem, ClientStep, Clients, FrameHead, SessionEnd, WholeRecord};
use oa_frame::End;
use std::alloc::{AllocError, Global};
use std::marker::Model;

/// The first item in some frames.
#[derive(Drop)]
pub enum DemuxItem<'a> {
    /// Nothing whole.
    Nothing,
    /// A body of this client.
    Body(u32, WholeRecord<'a>),
    /// The end of this client's stream.
    Ends(u32, End),
    /// *Now*: held requests of all clients are to be committed and answered.
    Flush,
    /// An invalid head: everything after it is ignored.
    Unknown,
}

/// The consumed first bytes of some frames.
#[derive(Drop)]
pub struct DemuxStep<'a> {
    /// The number of bytes that were consumed.
    pub count: usize,
    /// The item that the last of them completes.
    pub arrived: DemuxItem<'a>,
}

/// One stream of the frames of many clients, demultiplexed as its bytes come.
#[derive(Drop)]
pub struct Demux {
    clients: Clients,
    /// The bytes of an incomplete head.
    head: [u8; 8],
    have: usize,
    /// The client of a frame, and the number of its bytes that are still to come.
    client: u32,
    left: u32,
    broken: bool,
}

impl Model for Demux {
    ghost use Rattle.std.specs.Prelude.{◌<◌, ◌≤◌};
    ghost use Rattle.oa_mux.specs.promise.Shared.{SharedState};
    ghost use Rattle.oa_mux.specs.Shared.{frame_place};

    ghost Value = { SharedState };

    ghost view = { λ s. record { place = frame_place s.broken s.left s.client s.have s.head; clients = s.clients } };

    ghost invariant = { λ s. s.have < 8 };
}

impl Demux {
    /// Makes a stream before its first byte. Allocates nothing.
    pub fn new(alloc: Global) -> Demux
        ensures { result ≡ starting }
    {
        Demux {
            clients: Clients::new(alloc),
            head: [0; 8],
            have: 0,
            client: 0,
            left: 0,
            broken: false,
        }
    }

    /// Consumes a prefix of `bytes` up to the end of the first item, or all bytes. Returns the
    /// number of consumed bytes and the item. An item is a record, a client's end, a *now* or an
    /// invalid head. After an invalid head everything is ignored. Err: an allocation for a client's
    /// bytes failed; nothing was consumed, and the call may be repeated.
    pub fn take<'a>(&mut self, bytes: &'a [u8]) -> Result<DemuxStep<'a>, AllocError>
        requires { 0 < length bytes.now }
        ensures taken { IfOk result (λ t. TakesSome t.count (length bytes.now)) }
        ensures asks { IfOk result (λ t. Demultiplexes self.old (take t.count bytes.now) (arrived t.arrived) self.new) }
        ensures unknown { IfOk result (λ t. TellsUnknown t.arrived self.old.place (take t.count bytes.now)) }
        ensures err { OnErr result (Demultiplexes self.old [] [] self.new) }
        ensures within { OnErr result (IsClients self.old.place) }
    {
        if self.broken {
            return Ok(DemuxStep {
                count: bytes.len(),
                arrived: DemuxItem::Nothing,
            });
        }
        if self.left != 0 {
            return self.take_within(bytes);
        }
        Ok(self.take_head(bytes))
    }

    /// Returns the client of the frame at the front of `bytes`, and the frame's length in bytes
    /// with its head. The frame must be whole and contain one whole record, and the client be
    /// present and between two records; otherwise None. Such a record can be answered in place: the
    /// stream after it is as it was before it.
    pub fn whole_record(&self, bytes: &[u8]) -> Option<(u32, usize)>
        ensures { IfSome result (λ f. BringsRecord self.now bytes.now f.0 f.1) }
    {
        if self.broken || self.left != 0 || self.have != 0 {
            return None;
        }
        let (client, count) = record_frame(bytes)?;
        if self.clients.is_between(client) {
            Some((client, count))
        } else {
            None
        }
    }

    /// Returns the number of clients.
    pub(crate) fn count(&self) -> usize
        ensures { result ≡ length self.now.clients }
    {
        self.clients.len()
    }

    /// Does nothing; its contract states that the numbers of the clients rise.
    pub(crate) fn numbers_rise(&self)
        ensures { Rises self.now.clients }
    {
        self.clients.numbers_rise();
    }

    /// Removes the client with the lowest number, after the last bytes have come. Returns its
    /// number and how its stream ended: `Closed` between two records, `Cut` inside one, None if it
    /// had ended before. Returns None if there is no client. Allocates nothing.
    pub fn last(&mut self) -> Option<(u32, Option<End>)>
        ensures { EndsLowest result self.old.clients self.new.clients }
    {
        self.clients.end_lowest()
    }

    /// Returns whether an invalid head was read.
    pub(crate) fn reads_nothing(&self) -> bool
        ensures { result ≡ reads_nothing self.now.place }
    {
        self.broken
    }

    /// Returns how the session ends if no more bytes come.
    pub(crate) fn end_of_input(&self) -> SessionEnd
        ensures { result ≡ input_end self.now.place }
    {
        if self.broken {
            return SessionEnd::Unknown;
        }
        if self.left != 0 {
            return SessionEnd::Cut;
        }
        if self.head[..self.have].is_empty() {
            SessionEnd::Closed
        } else {
            SessionEnd::Cut
        }
    }

    /// Consumes bytes of the frame whose head was read. Err: an allocation failed, and nothing was
    /// consumed.
    fn take_within<'a>(&mut self, bytes: &'a [u8]) -> Result<DemuxStep<'a>, AllocError>
        requires some { 0 < length bytes.now }
        requires within { IsClients self.old.place }
        ensures taken { IfOk result (λ t. TakesSome t.count (length bytes.now)) }
        ensures asks { IfOk result (λ t. Demultiplexes self.old (take t.count bytes.now) (arrived t.arrived) self.new) }
        ensures unknown { IfOk result (λ t. TellsUnknown t.arrived self.old.place (take t.count bytes.now)) }
        ensures err { OnErr result (Demultiplexes self.old [] [] self.new) }
    {
        let client = self.client;
        let most = bytes.len().min(self.left as usize);
        let ClientStep { taken, what } = self.clients.step(client, &bytes[..most])?;
        self.left -= taken as u32;
        self.have = 0;
        Ok(DemuxStep {
            count: taken,
            arrived: of_client(client, what),
        })
    }

    /// Consumes bytes of a frame's head. If they complete it, returns its item.
    fn take_head<'a>(&mut self, bytes: &'a [u8]) -> DemuxStep<'a>
        requires some { 0 < length bytes.now }
        requires head { IsHeads self.old.place }
        ensures taken { TakesSome result.count (length bytes.now) }
        ensures asks { Demultiplexes self.old (take result.count bytes.now) (arrived result.arrived) self.new }
        ensures unknown { TellsUnknown result.arrived self.old.place (take result.count bytes.now) }
    {
        let have = self.have;
        let count = bytes.len().min(8 - have);
        let head = filled(self.head, have, &bytes[..count]);
        if have + count < 8 {
            self.head = head;
            self.have = have + count;
            return DemuxStep {
                count,
                arrived: DemuxItem::Nothing,
            };
        }
        self.have = 0;
        let arrived = self.begin(FrameHead::from_bytes(&head));
        DemuxStep { count, arrived }
    }

    /// Returns the item of a whole head, and sets the client and the length of the frame that
    /// follows.
    fn begin<'a>(&mut self, head: FrameHead) -> DemuxItem<'a>
        requires some { SaysSome head }
        requires head { self.old.place ≡ InHead [] }
        ensures begins { Begins head self.old (arrived result) self.new }
        ensures unknown { is_unknown result ≡ reads_nothing (begun head).1 }
    {
        match head {
            FrameHead::Bytes { client, count } => {
                self.client = client;
                self.left = count;
                DemuxItem::Nothing
            }
            FrameHead::Last(client) => last_of(client, self.clients.end(client)),
            FrameHead::Flush => DemuxItem::Flush,
            FrameHead::Unknown => {
                self.broken = true;
                DemuxItem::Unknown
            }
        }
    }
}

/// Returns the client of the frame at the front of `bytes`, and the frame's length in bytes with
/// its head. None unless the frame is whole and contains exactly one record.
fn record_frame(bytes: &[u8]) -> Option<(u32, usize)>
    ensures { IfSome result (λ f. IsRecordFrame bytes.now f.0 f.1) }
{
    let (head, rest) = bytes.split_first_chunk::<8>()?;
    let FrameHead::Bytes { client, count } = FrameHead::from_bytes(head) else {
        return None;
    };
    let (length, _) = rest.split_first_chunk::<4>()?;
    let count = count as usize;
    let n = u32::from_le_bytes(*length) as usize;
    if n == 0 || count != 4 + n || rest.len() < count {
        return None;
    }
    Some((client, 8 + count))
}

/// Returns the item with its client's number.
#[tactic(auto, unfolding(crate::specs::promise::Marks::tag_all))]
fn of_client<'a>(client: u32, what: ClientItem<'a>) -> DemuxItem<'a>
    ensures brings { arrived result ≡ tag_all client (brought what.entry) }
    ensures known { is_unknown result ≡ false }
{
    match what {
        ClientItem::Nothing => DemuxItem::Nothing,
        ClientItem::Body(record) => DemuxItem::Body(client, record),
        ClientItem::Ends(why) => DemuxItem::Ends(client, why),
    }
}

/// Returns the end of a client's stream with its number.
#[tactic(auto, unfolding(crate::specs::promise::Marks::tag_all))]
fn last_of<'a>(client: u32, why: Option<End>) -> DemuxItem<'a>
    ensures brings { arrived result ≡ tag_all client (brought_last why) }
    ensures known { is_unknown result ≡ false }
{
    match why {
        Some(why) => DemuxItem::Ends(client, why),
        None => DemuxItem::Nothing,
    }
}

/// Returns a head, of which `have` bytes had come, with `part` after these.
fn filled(mut head: [u8; 8], have: usize, part: &[u8]) -> [u8; 8]
    requires { have + length part.now ≤ 8 }
    ensures head { take (have + length part.now) result ≡ take have head ++ part.now }
    ensures len { length result ≡ 8 }
{
    head[have..have + part.len()].copy_from_slice(part);
    head
}
