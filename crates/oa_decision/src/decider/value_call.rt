//! The fast path of an INVOKE without arguments except a put's new value, on a property without
//! parameters.
ghost use Rattle.std.specs.Prelude.{◌≡◌, IfSome, Some};
ghost use Rattle.oa_sema.specs.promise.Declarations.{kind_of_property};
ghost use Rattle.oa_coerce.specs.promise.Answers.{coerced};
ghost use Rattle.oa_record.specs.ValueCalls.{bringing};
ghost use Rattle.oa_record.specs.declared.opcode.ByCall.TheVariants.{Invoke};
ghost use Rattle.oa_record.specs.declared.request.Request.TheVariants.{ByCall};
ghost use Rattle.oa_table.specs.promise.Tables.{object_at};
ghost use Rattle.oa_decision.specs.Cells.{IsKeyless};
ghost use Rattle.oa_decision.specs.ValuePlans.{PlansGet, PlansPut, PlansValue, keyless_cell};
ghost use Rattle.oa_typelib.specs.promise.Members.{lets};
ghost use Rattle.oa_variant.specs.Variants.{HasZero};

use super::Decider;
use crate::plan::{ValuePlan, ValuePut};
use oa_coerce::coerce;
use oa_model::{HResult, ValueType};
use oa_record::{CallHead, Reply};
use oa_table::{CellName, LiveObject, Place};
use oa_typelib::{Access, Dispinterface, Kind};
use oa_variant::Variant;
use uuid::Uuid;

impl Decider<'_> {
    /// Decides, by a fast path, an INVOKE on a property of scalars without parameters, with this
    /// new value or none. It only reads. Returns the reply with this tag (E_OUTOFMEMORY if an
    /// allocation failed), or the put to make, which may still be refused.
    ///
    /// None, without a further meaning, if the call is refused, or its member is not a property of
    /// scalars that alone has its DISPID. Then use `decide`.
    pub fn plan_value(&self, tag: u32, head: &CallHead, value: Option<Variant>) -> Option<ValuePlan>
        ensures { IfSome result (PlansValue self.now tag (ByCall Invoke (bringing head.now value))) }
    {
        let object = self.find_object(head.object).ok()?;
        let interface = self
            .find_interface_of(object, &head.interface, &head.riid)
            .ok()?;
        let (declared, form) = find_keyless(&interface, head.dispid, Access::Flags(head.flags))?;
        let guid = interface.interface().guid;
        match form {
            Kind::Get => match value {
                None => {
                    return Some(self.plan_get(
                        tag,
                        object,
                        head.object,
                        guid,
                        head.dispid,
                        declared,
                    ));
                }
                Some(_) => return None,
            },
            Kind::Put => self.plan_put(head.object, guid, head.dispid, value?, declared),
        }
    }

    /// Returns the reply to a get: the value of its cell, or E_OUTOFMEMORY.
    fn plan_get(
        &self,
        tag: u32,
        object: &LiveObject,
        number: u32,
        interface: Uuid,
        dispid: i32,
        declared: ValueType,
    ) -> ValuePlan
        requires object { object_at number self.now.table ≡ Some object.now }
        requires zero { HasZero declared }
        ensures { PlansGet self.now tag (keyless_cell number interface dispid) declared result }
    {
        let place = Place::new(interface, dispid, Vec::new(self.alloc));
        let name = CellName {
            object: number,
            place,
        };
        match self.value_field(object, &name, declared) {
            Ok(fields) => {
                ValuePlan::Answered(Reply::new(tag, HResult::S_OK, None, fields.into_vec()))
            }
            Err(_) => {
                ValuePlan::Answered(Reply::bare(self.alloc, tag, HResult::E_OUTOFMEMORY, None))
            }
        }
    }

    /// Returns the put that sets a cell to the argument, coerced to the declared type, without
    /// locks. None if the coercion fails.
    #[inline(always)]
    #[tactic(auto, using(crate::proofs::Zeros::no_locks))]
    fn plan_put(
        &self,
        object: u32,
        interface: Uuid,
        dispid: i32,
        argument: Variant,
        declared: ValueType,
    ) -> Option<ValuePlan>
        requires { HasZero declared }
        ensures { IfSome result (PlansPut object interface dispid (coerced argument declared)) }
    {
        let Ok(value) = coerce(self.alloc, argument, declared) else {
            return None;
        };
        let value = value.into_unlocked();
        Some(ValuePlan::Put(ValuePut {
            object,
            interface,
            dispid,
            value,
        }))
    }
}

/// Returns the type of a property of `properties:` that alone has a DISPID and has scalars, and the
/// form that a call asks for. Such a property has no parameters, and one declaration, which need
/// not be built. None for any other member, or if it does not have the form.
fn find_keyless(
    interface: &Dispinterface<'_>,
    dispid: i32,
    access: Access,
) -> Option<(ValueType, Kind)>
    ensures found { IfSome result (λ found. IsKeyless interface.now dispid access found.0 found.1) }
    ensures zero { IfSome result (λ found. HasZero found.0) }
{
    let places = interface.places_with(dispid);
    if places.len() != 1 {
        return None;
    }
    let property = interface.interface().properties.get(places[0])?;
    let ValueType::One(_) = property.value_type else {
        return None;
    };
    let form = access.kind()?;
    if lets(form, property.readonly) {
        Some((property.value_type, form))
    } else {
        None
    }
}

/// Returns whether a property has a form: a read-only one has no put.
fn lets(form: Kind, readonly: bool) -> bool
    ensures { result ≡ lets form (kind_of_property readonly) }
{
    match form {
        Kind::Get => true,
        Kind::Put => !readonly,
    }
}
