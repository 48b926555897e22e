//! The interface of an object that a call addresses.
ghost use Rattle.std.specs.Prelude.{◌≡◌, ℕ, IfErr, IfOk, None, Some};
ghost use Rattle.oa_model.specs.promise.Codes.{rpc_e_disconnected};
ghost use Rattle.oa_decision.specs.promise.Interfaces.{interface_found};
ghost use Rattle.oa_table.specs.promise.Tables.{object_at};

use super::Decider;
use crate::refusal::Refusal;
use oa_model::HResult;
use oa_sema::is_zero_guid;
use oa_table::LiveObject;
use oa_typelib::Dispinterface;
use uuid::Uuid;

impl Decider<'_> {
    /// Returns the object with this number. Err: RPC_E_DISCONNECTED if there is none.
    pub(super) fn find_object(&self, number: u32) -> Result<&LiveObject, Refusal>
        ensures live { IfOk result (λ object. object_at number self.now.table ≡ Some object.now) }
        ensures refused { IfErr result (λ refusal. (object_at number self.now.table ≡ None)
            × (refusal ≡ record { code = rpc_e_disconnected; index = None })) }
    {
        match self.table.object(number) {
            Some(object) => Ok(object),
            None => Err(Refusal::of(HResult::RPC_E_DISCONNECTED)),
        }
    }

    /// Returns the interface that a call addresses, of the object with this number. Errors, in this
    /// order: RPC_E_DISCONNECTED, and those of `find_interface_of`.
    #[tactic(auto, unfolding(crate::specs::promise::Interfaces::interface_found))]
    pub(super) fn find_interface(
        &self,
        number: u32,
        interface: &Uuid,
        riid: &Uuid,
    ) -> Result<Dispinterface<'_>, Refusal>
        ensures { result ≡ interface_found self.now number interface.now riid.now }
    {
        let object = self.find_object(number)?;
        self.find_interface_of(object, interface, riid)
    }

    /// Returns the interface that a call addresses, of an object that was found. Errors:
    /// E_NOINTERFACE if its coclass has no such interface; then DISP_E_UNKNOWNINTERFACE if `riid`
    /// is not zero.
    #[inline(always)]
    #[tactic(auto, unfolding(crate::specs::promise::Interfaces::interface_found))]
    pub(super) fn find_interface_of(
        &self,
        object: &LiveObject,
        interface: &Uuid,
        riid: &Uuid,
    ) -> Result<Dispinterface<'_>, Refusal>
        ensures { (number : ℕ) → object_at number self.now.table ≡ Some object.now
            → result ≡ interface_found self.now number interface.now riid.now }
    {
        let Some(found) = self.library.select(&object.class(), interface) else {
            return Err(Refusal::of(HResult::E_NOINTERFACE));
        };
        if !is_zero_guid(riid) {
            return Err(Refusal::of(HResult::DISP_E_UNKNOWNINTERFACE));
        }
        Ok(found)
    }
}
