//! REPLACE LIBRARY.
ghost use Rattle.std.specs.Prelude.{◌≡◌, true};
ghost use Rattle.oa_record.specs.promise.Replacement.{is_replacement};
ghost use Rattle.oa_turn.specs.ReplacementPlans.{IsLibraryOf, RefusesLoss, PlansReplacement, text_code};
ghost use Rattle.oa_turn.specs.promise.Turns.{Turn};

use super::Machine;
use oa_compat::{Incompatibility, TextError, keeps, read_library};
use oa_model::HResult;
use oa_record::{Reply, lost_field, replacement_text, tag_of};
use oa_typelib::Library;
use std::alloc::Global;

/// The plan for a request to replace the library.
#[derive(Drop)]
pub enum ReplacementPlan {
    /// It is refused.
    Answered(Reply),
    /// This library is to replace the present one.
    Replaced(Library),
}

/// Returns the library whose text is in the body. Err: the code of the refusal, BAD_STUB_DATA or
/// E_OUTOFMEMORY.
fn library_of(alloc: Global, body: &[u8]) -> Result<Library, HResult>
    ensures { IsLibraryOf body.now result }
{
    let Some(text) = replacement_text(body) else {
        return Err(HResult::BAD_STUB_DATA);
    };
    read_library(alloc, text).map_err(text_code)
}

/// Returns the code for a text that is no library.
fn text_code(fault: TextError) -> HResult
    ensures { result ≡ text_code fault }
{
    match fault {
        TextError::NoLibrary => HResult::BAD_STUB_DATA,
        TextError::Memory => HResult::E_OUTOFMEMORY,
    }
}

/// Returns the reply E_INVALIDARG with the first incompatibility; E_OUTOFMEMORY if an allocation
/// fails.
fn refuse_loss(alloc: Global, tag: u32, lost: Incompatibility) -> Reply
    ensures { RefusesLoss tag lost result }
{
    match lost_field(alloc, &lost.guid(), lost.dispid()) {
        Ok(fields) => Reply::new(tag, HResult::E_INVALIDARG, None, fields),
        Err(_) => Reply::bare(alloc, tag, HResult::E_OUTOFMEMORY, None),
    }
}

impl Machine {
    /// Plans a request to replace the library: its text has to be a library that is compatible with
    /// the present one. It only reads. If an allocation fails, the reply is E_OUTOFMEMORY.
    pub fn plan_replacement(&self, body: &[u8]) -> ReplacementPlan
        ensures { PlansReplacement self.now body.now result }
    {
        let tag = tag_of(body);
        let library = match library_of(self.alloc, body) {
            Ok(library) => library,
            Err(code) => return ReplacementPlan::Answered(Reply::bare(self.alloc, tag, code, None)),
        };
        match keeps(&library, &self.library) {
            None => ReplacementPlan::Replaced(library),
            Some(lost) => ReplacementPlan::Answered(refuse_loss(self.alloc, tag, lost)),
        }
    }

    /// Returns the reply to a request with opcode 12, and replaces the library if it is not
    /// refused. If an allocation fails, the reply is E_OUTOFMEMORY. After any refusal nothing has
    /// changed.
    pub fn replace(&mut self, body: &[u8]) -> Reply
        requires kind { is_replacement body.now ≡ true }
        ensures turn { Turn self.old body.now result self.new }
        ensures bank { self.new.bank ≡ self.old.bank }
    {
        match self.plan_replacement(body) {
            ReplacementPlan::Answered(reply) => reply,
            ReplacementPlan::Replaced(library) => {
                self.library = library;
                Reply::bare(self.alloc, tag_of(body), HResult::S_OK, None)
            }
        }
    }
}
