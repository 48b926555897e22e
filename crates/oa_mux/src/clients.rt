//! The present clients.
ghost use Rattle.std.specs.Prelude.{◌≡◌, ◌<◌, [], length, take, true, IfOk, OnErr, None, Some};
ghost use Rattle.oa_mux.specs.Readers.{ClientBrings};
ghost use Rattle.oa_mux.specs.promise.Readers.ClientState.{Held};
ghost use Rattle.oa_mux.specs.promise.Shared.{Rises};
ghost use Rattle.oa_mux.specs.Steps.{EndsLowest, EndsWith, OthersStay, Takes, brought, first_client};
ghost use Rattle.oa_mux.specs.promise.Steps.{client_state};

use crate::ClientStep;
use crate::client::Client;
use oa_frame::End;
use oa_ordered::OrderedMap;
use std::alloc::{AllocError, Global};
use std::marker::Model;

/// The present clients by their numbers, each with the bytes of its incomplete record.
///
/// A client is present from its first bytes to its end. For each, at most the bytes of one record
/// are kept: 4 bytes for the length, which is at most `MAX_REQUEST_BYTES`, and fewer bytes than
/// that.
#[derive(Drop)]
pub struct Clients {
    alloc: Global,
    clients: OrderedMap<u32, Client>,
}

impl Model for Clients {
    ghost use Rattle.std.specs.Prelude.{ℕ, List};
    ghost use Rattle.oa_mux.specs.promise.Readers.{ClientState};

    ghost Value = { List (ℕ × ClientState) };

    ghost view = { λ c. c.clients };
}

impl Clients {
    /// Makes a list of no clients. Allocates nothing.
    pub fn new(alloc: Global) -> Clients
        ensures { result ≡ [] }
    {
        Clients {
            alloc,
            clients: OrderedMap::new(alloc),
        }
    }

    /// Returns the client with the lowest number; None if there is none.
    pub fn first(&self) -> Option<u32>
        ensures { result ≡ first_client self.now }
    {
        match self.clients.iter().next() {
            Some((client, _)) => Some(*client),
            None => None,
        }
    }

    /// Returns whether the client with this number is present, between two records, and has not
    /// ended.
    pub(crate) fn is_between(&self, client: u32) -> bool
        ensures { result ≡ true → client_state self.now client ≡ Some (Held []) }
    {
        match self.clients.get_near(&client, client as usize) {
            Some(found) => found.is_between(),
            None => false,
        }
    }

    /// Returns the number of clients.
    pub(crate) fn len(&self) -> usize
        ensures { result ≡ length self.now }
    {
        self.clients.len()
    }

    /// Consumes bytes of the client with this number: up to the end of its next record, or of the
    /// length that ends its stream. It consumes all bytes if they complete neither, or if the
    /// stream ended before. Returns the number of consumed bytes and the item. A record that is
    /// whole in these bytes is borrowed; one that came in parts is returned by value.
    ///
    /// Err: an allocation failed, for a new client or for a part of a record. Nothing was consumed,
    /// and the call may be repeated.
    pub fn step<'a>(&mut self, client: u32, bytes: &'a [u8]) -> Result<ClientStep<'a>, AllocError>
        requires { 0 < length bytes.now }
        ensures taken { IfOk result (λ s. Takes s.taken s.what (length bytes.now)) }
        ensures brings { IfOk result (λ s. ClientBrings (client_state self.old client) (take s.taken bytes.now) (brought s.what) (client_state self.new client)) }
        ensures others { OthersStay client self.old self.new }
        ensures err { OnErr result (client_state self.new client ≡ client_state self.old client) }
    {
        let Some(found) = self.clients.get_mut(&client) else {
            return self.enter(client, bytes);
        };
        found.advance(bytes)
    }

    /// Consumes bytes of a client that is not present, and adds it. Err: an allocation failed, and
    /// nothing changed.
    fn enter<'a>(&mut self, client: u32, bytes: &'a [u8]) -> Result<ClientStep<'a>, AllocError>
        requires some { 0 < length bytes.now }
        requires absent { client_state self.old client ≡ None }
        ensures taken { IfOk result (λ s. Takes s.taken s.what (length bytes.now)) }
        ensures brings { IfOk result (λ s. ClientBrings (client_state self.old client) (take s.taken bytes.now) (brought s.what) (client_state self.new client)) }
        ensures others { OthersStay client self.old self.new }
        ensures err { OnErr result (self.new ≡ self.old) }
    {
        let mut found = Client::new(self.alloc);
        let step = found.advance(bytes)?;
        match self.clients.insert(client, found) {
            Ok(_) => Ok(step),
            Err(_) => Err(AllocError),
        }
    }

    /// Ends the stream of the client with this number, and removes the client. Returns `Closed`
    /// between two records, `Cut` inside one, None if the stream had ended before. A client that is
    /// not present has an empty stream. Allocates nothing.
    pub fn end(&mut self, client: u32) -> Option<End>
        ensures brings { EndsWith result (client_state self.old client) (client_state self.new client) }
        ensures others { OthersStay client self.old self.new }
    {
        self.numbers_rise();
        match self.clients.remove(&client) {
            Some(found) => found.end(),
            None => Some(End::Closed),
        }
    }

    /// Ends and removes the client with the lowest number. Returns the number, and the end as `end`
    /// does; None if there is no client.
    pub fn end_lowest(&mut self) -> Option<(u32, Option<End>)>
        ensures { EndsLowest result self.old self.new }
    {
        let Some(lowest) = self.first() else {
            return None;
        };
        match self.clients.remove(&lowest) {
            Some(found) => Some((lowest, found.end())),
            None => None,
        }
    }

    /// Does nothing; its contract states that the numbers of the clients rise.
    pub(crate) fn numbers_rise(&self)
        ensures { Rises self.now }
    {
        // For the prover: the clause `ordered` of `len`.
        let _count = self.clients.len();
    }
}
