//! The cell of a property that a call names.
ghost use Rattle.std.specs.Prelude.{◌≡◌, ◌≤◌, length, IfOk, Ok, Some};
ghost use Rattle.oa_model.specs.Limits.{max_key_scalars};
ghost use Rattle.oa_bind.specs.promise.Bindings.{BindingTakesMemory, bound_to};
ghost use Rattle.oa_decision.specs.promise.Cells.{FindingTakesMemory, bound_as, call_found, cell_called, member_found};
ghost use Rattle.oa_decision.specs.Cells.{FindsDue};
ghost use Rattle.oa_decision.specs.promise.Interfaces.{interface_found};
ghost use Rattle.oa_table.specs.promise.Tables.{object_at};
ghost use Rattle.oa_typelib.specs.Bindable.{IsBindable};
ghost use Rattle.oa_typelib.specs.promise.Members.{member_in};
ghost use Rattle.oa_variant.specs.Variants.{HasZero};

use super::Decider;
use crate::decision::DecideError;
use crate::refusal::Refusal;
use oa_bind::bind;
use oa_model::ValueType;
use oa_record::{Arguments, Call, Dispids};
use oa_table::{CellName, LiveObject, Place};
use oa_typelib::{Access, Dispinterface, Kind, Member};
use oa_variant::Variant;

/// The cell of a property that a call addresses, and the call's new value for it. Public for the
/// definitions that use it.
#[derive(Drop)]
pub struct BoundCell {
    /// The cell.
    pub name: CellName,
    /// The declared type of the property's values.
    pub declared: ValueType,
    /// The new value of a put, of the declared type.
    pub value: Option<Variant>,
}

impl Decider<'_> {
    /// Finds the cell of a property that a call addresses. Arguments are bound in the form that an
    /// INVOKE's flags ask for, and as those of a get for any other access.
    ///
    /// Errors: `OutOfMemory`; and `Refused`, in this order: for the object, its interface and riid;
    /// for the member, if it does not have the form that `access` requires; for the arguments.
    #[tactic(auto, unfolding(crate::specs::promise::Cells::cell_called))]
    pub(super) fn find_cell(&self, call: Call, access: Access) -> Result<BoundCell, DecideError>
        ensures cell { FindsDue (cell_called self.now call access) (FindingTakesMemory self.now call access) result }
        ensures zero { IfOk result (λ cell. HasZero cell.declared) }
    {
        let object = self.find_object(call.head.object)?;
        self.find_cell_of(object, call, access)
    }

    /// Finds the cell that a call addresses, for an object that was found. Errors are the later
    /// ones of `find_cell`.
    #[tactic(auto, unfolding(crate::specs::promise::Cells::cell_called))]
    pub(super) fn find_cell_of(
        &self,
        object: &LiveObject,
        call: Call,
        access: Access,
    ) -> Result<BoundCell, DecideError>
        requires { object_at call.head.object self.now.table ≡ Some object.now }
        ensures cell { FindsDue (cell_called self.now call access) (FindingTakesMemory self.now call access) result }
        ensures object { IfOk result (λ cell. cell.name.object ≡ call.head.object) }
        ensures zero { IfOk result (λ cell. HasZero cell.declared) }
    {
        let interface = self.find_interface_of(object, &call.head.interface, &call.head.riid)?;
        self.find_cell_in(&interface, call, access)
    }

    /// Finds the cell that a call addresses, for an interface that was found. Errors: `Refused` for
    /// the member or the arguments; `OutOfMemory`.
    #[tactic(auto, unfolding(crate::specs::promise::Cells::cell_called))]
    fn find_cell_in(
        &self,
        interface: &Dispinterface<'_>,
        call: Call,
        access: Access,
    ) -> Result<BoundCell, DecideError>
        requires { interface_found self.now call.head.object call.head.interface call.head.riid ≡ Ok interface.now }
        ensures cell { FindsDue (cell_called self.now call access) (FindingTakesMemory self.now call access) result }
        ensures object { IfOk result (λ cell. cell.name.object ≡ call.head.object) }
        ensures zero { IfOk result (λ cell. HasZero cell.declared) }
    {
        let head = call.head;
        let (member, form) = find_member(interface, head.dispid, access)?;
        let declared = member.value_type;
        let kind = bound_as(access, form);
        let bound = self.bind_call(&member, kind, call.arguments, &call.named)?;
        let guid = interface.interface().guid;
        let name = CellName {
            object: head.object,
            place: Place::new(guid, head.dispid, bound.key),
        };
        Ok(BoundCell {
            name,
            declared,
            value: bound.value,
        })
    }

    /// Binds the arguments of a call to the parameters of a property. Errors: `Refused`,
    /// `OutOfMemory`.
    fn bind_call(
        &self,
        member: &Member<'_>,
        kind: Kind,
        arguments: Arguments,
        named: &Dispids,
    ) -> Result<oa_bind::BoundCall, DecideError>
        requires { IsBindable member.now }
        ensures call { FindsDue (call_found (bound_to member.now kind (record { named = named.now; arguments = arguments })))
            (BindingTakesMemory member.now.parameters member.now.value_type kind (record { named = named.now; arguments = arguments })) result }
        ensures few { IfOk result (λ bound. length bound.key ≤ max_key_scalars) }
    {
        let arguments = arguments.into_vec();
        Ok(bind(self.alloc, member, kind, arguments, named.as_slice())?)
    }
}

/// Finds the member of an interface that a call addresses, in the form that the call asks for.
/// Arguments can be bound to it. Err: there is no such member, or it does not have the form.
fn find_member<'a>(
    interface: &Dispinterface<'a>,
    dispid: i32,
    access: Access,
) -> Result<(Member<'a>, Kind), Refusal>
    ensures found { result ≡ member_found (member_in interface.now dispid access) }
    ensures bindable { IfOk result (λ found. IsBindable found.0) }
{
    Ok(interface.member(dispid, access)?)
}

/// Returns the form in which arguments are bound: `form` for an INVOKE, a get for any other access.
fn bound_as(access: Access, form: Kind) -> Kind
    ensures { result ≡ bound_as access form }
{
    match access {
        Access::Flags(_) => form,
        Access::Get | Access::Put => Kind::Get,
    }
}
