//! A client of a shared session.
ghost use Rattle.std.specs.Prelude.{◌≡◌, ◌<◌, ◌≤◌, [], length, take, true, IfOk, OnErr, Some, None};
ghost use Rattle.oa_mux.specs.Readers.{ClientBrings, IsWholeRecord};
ghost use Rattle.oa_mux.specs.promise.Readers.ClientState.{Held, Over};
ghost use Rattle.oa_mux.specs.Steps.{EndsWith, IsWholeBehind, Takes, brought};
ghost use Rattle.oa_mux.specs.declared.step.ClientItem.TheVariants as what;

use crate::found::{Found, find};
use crate::{ClientItem, ClientStep, WholeRecord};
use oa_frame::End;
use std::alloc::{AllocError, Global};
use std::marker::Model;
use std::mem::replace;

/// The state of a client's stream: the bytes of an incomplete record, or that the stream has ended
/// and its further bytes are ignored.
#[derive(Drop)]
pub(crate) struct Client {
    alloc: Global,
    part: Vec<u8>,
    over: bool,
}

impl Model for Client {
    ghost use Rattle.std.specs.Prelude.{◌≡◌, false};
    ghost use Rattle.oa_mux.specs.promise.Readers.{ClientState};
    ghost use Rattle.oa_mux.specs.Readers.{IsPartRecord, kept};

    ghost Value = { ClientState };

    ghost view = { λ c. kept c.over c.part.items };

    ghost invariant = { λ c. c.over ≡ false → IsPartRecord c.part.items };
}

impl Client {
    /// Makes a client between two records. Allocates nothing.
    pub(crate) fn new(alloc: Global) -> Client
        ensures { result ≡ Held [] }
    {
        Client {
            alloc,
            part: Vec::new(alloc),
            over: false,
        }
    }

    /// Returns whether the client is between two records.
    pub(crate) fn is_between(&self) -> bool
        ensures { result ≡ true → self.now ≡ Held [] }
    {
        !self.over && self.part.is_empty()
    }

    /// Consumes bytes up to the end of the first whole item, and returns the item. Err: an
    /// allocation for a part of a record failed, and nothing was consumed.
    pub(crate) fn advance<'a>(&mut self, bytes: &'a [u8]) -> Result<ClientStep<'a>, AllocError>
        requires { 0 < length bytes.now }
        ensures taken { IfOk result (λ s. Takes s.taken s.what (length bytes.now)) }
        ensures brings { IfOk result (λ s. ClientBrings (Some self.old) (take s.taken bytes.now) (brought s.what) (Some self.new)) }
        ensures err { OnErr result (self.new ≡ self.old) }
    {
        let taken = bytes.len();
        if self.over {
            return Ok(ClientStep {
                taken,
                what: ClientItem::Nothing,
            });
        }
        match find(&self.part, bytes) {
            Found::Part => {
                self.part.extend_from_slice(bytes)?;
                Ok(ClientStep {
                    taken,
                    what: ClientItem::Nothing,
                })
            }
            Found::Whole(taken) => {
                let what = ClientItem::Body(self.gather(&bytes[..taken])?);
                Ok(ClientStep { taken, what })
            }
            Found::Ends(why, taken) => {
                self.part = Vec::new(self.alloc);
                self.over = true;
                Ok(ClientStep {
                    taken,
                    what: ClientItem::Ends(why),
                })
            }
        }
    }

    /// Returns the record that `bytes` complete. If it begins with them, nothing is copied. Err: an
    /// allocation failed, and nothing changed.
    fn gather<'a>(&mut self, bytes: &'a [u8]) -> Result<WholeRecord<'a>, AllocError>
        requires { IsWholeBehind bytes.now self.old }
        ensures record { IfOk result (λ r. ClientBrings (Some self.old) bytes.now (brought (what.Body r)) (Some self.new)) }
        ensures err { OnErr result (self.new ≡ self.old) }
    {
        if self.part.is_empty() {
            return Ok(WholeRecord::Here(bytes));
        }
        self.part.extend_from_slice(bytes)?;
        let gathered = replace(&mut self.part, Vec::new(self.alloc));
        Ok(WholeRecord::Gathered(gathered))
    }

    /// Returns how the client's stream ends; None if it had ended before.
    pub(crate) fn end(self) -> Option<End>
        ensures { EndsWith result (Some self) None }
    {
        if self.over {
            return None;
        }
        if self.part.is_empty() {
            Some(End::Closed)
        } else {
            Some(End::Cut)
        }
    }
}
