//! Which requests of a client go into a batch.
ghost use Rattle.std.specs.Prelude.{◌≡◌, ◌<◌, ◌+◌};
ghost use Rattle.oa_gateway.specs.Turns.{asked, asks, behind_other, behind_taking, body_opcode, invoke_asks, taking};
ghost use Rattle.oa_gateway.specs.declared.turns.Taking.TheVariants.{Taken};

/// The opcode of INVOKE, which asks for something if it is a method or a get.
const INVOKE: u16 = 4;

/// The opcode of GETELEM, which asks for something.
const GET_ELEMENT: u16 = 5;

/// The opcode of TYPEINFO, which asks for something.
const TYPE_INFO: u16 = 10;

/// The opcode of LIST, which asks for something.
const LIST: u16 = 11;

/// The limits of a client's further requests in a batch, and of the replies to the batch.
#[repr(C)]
#[derive(Clone, Copy, Debug, PartialEq, Eq)]
pub struct BatchLimits {
    /// The number of further requests that it may put in.
    pub requests: u32,
    /// The number of further requests that ask for something, so that their replies may be long.
    pub asks: u32,
    /// The number of further bytes of requests in the batch. One request may exceed them.
    pub bytes: usize,
    /// The number of bytes of the reply to such a request, about; 0 if they are not counted.
    pub weight: usize,
    /// The number of bytes of replies to the requests of the batch, about.
    pub expected: usize,
    /// The greatest number of such bytes.
    pub most: usize,
    /// The number of such bytes for which there is memory.
    pub room: usize,
    /// Whether there is memory for the first reply of a batch, however long it is.
    pub first: bool,
}

/// The decision on a request.
#[derive(Clone, Copy, Debug, PartialEq, Eq)]
pub enum Taking {
    /// It is in the batch.
    Taken,
    /// The turn has all its requests, or the batch all its bytes.
    Full,
    /// It asks for something, and the turn has all its requests that do.
    Often,
    /// Its reply would be too much for the batch.
    Much,
    /// There is no memory for its reply.
    Lacks,
}

impl BatchLimits {
    /// Takes the next request of a client, with this body, into the batch, if the limits allow it.
    /// Returns the decision.
    pub fn take(&mut self, body: &[u8]) -> Taking
        ensures decides { result ≡ taking self.old body.now }
        ensures goes { self.new ≡ behind_taking result self.old body.now }
    {
        if self.requests == 0 {
            return Taking::Full;
        }
        if self.bytes == 0 {
            return Taking::Full;
        }
        if !asks_for_something(body) {
            self.count(body);
            return Taking::Taken;
        }
        let found = self.ask();
        if found == Taking::Taken {
            self.asks -= 1;
            if self.weight > 0 {
                self.expected += self.weight;
            }
            self.count(body);
        }
        found
    }

    /// Counts a request with this body, which is in the batch. It has four bytes more, its length.
    fn count(&mut self, body: &[u8])
        requires { 0 < self.old.requests }
        ensures { self.new ≡ behind_other self.old body.now }
    {
        self.requests -= 1;
        self.bytes = self.bytes.saturating_sub(body.len()).saturating_sub(4);
    }

    /// Decides on a request that asks for something.
    fn ask(&self) -> Taking
        ensures decides { result ≡ asked self.now }
        ensures asks { result ≡ Taken → 0 < self.now.asks }
        ensures fits { result ≡ Taken → 0 < self.now.weight → self.now.expected + self.now.weight < 18446744073709551616 }
    {
        if self.asks == 0 {
            return Taking::Often;
        }
        if self.weight == 0 {
            return Taking::Taken;
        }
        if self.expected > 0 && self.weight > self.most.saturating_sub(self.expected) {
            return Taking::Much;
        }
        if self.weight <= self.room && self.expected <= self.room - self.weight {
            return Taking::Taken;
        }
        if self.expected == 0 && self.first {
            return Taking::Taken;
        }
        Taking::Lacks
    }
}

/// Returns whether the request with this body asks for something.
fn asks_for_something(body: &[u8]) -> bool
    ensures { result ≡ asks body.now }
{
    match opcode(body) {
        INVOKE => invoke_asks_for_something(body),
        GET_ELEMENT => true,
        TYPE_INFO => true,
        LIST => true,
        _ => false,
    }
}

/// Returns the opcode in a request's body, 0 if it has none.
fn opcode(body: &[u8]) -> u16
    ensures { result ≡ body_opcode body.now }
{
    if body.len() < 8 {
        return 0;
    }
    let found = &body[4..6];
    u16::from_le_bytes([found[0], found[1]])
}

/// Returns whether an INVOKE is that of a method or a get.
fn invoke_asks_for_something(body: &[u8]) -> bool
    ensures { result ≡ invoke_asks body.now }
{
    if body.len() < 56 {
        return false;
    }
    let found = &body[52..56];
    u32::from_le_bytes([found[0], found[1], found[2], found[3]]) % 4 != 0
}
