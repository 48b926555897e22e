//! LIST.
ghost use Rattle.std.specs.Prelude.{◌≡◌, ◌+◌, ◌*◌, ◌++◌, length, IfOk, OnOk};
ghost use Rattle.std.specs.List.{flat_map};
ghost use Rattle.oa_decision.specs.promise.Listing.{entry_of, objects_field};

use super::Decider;
use crate::fields::Fields;
use oa_record::{MAX_FIELDS_BYTES, put_number_field, put_object_field};
use oa_table::Table;
use std::alloc::AllocError;

/// The number of objects that fit into the fields of one reply.
const MAX_LISTED: usize = (MAX_FIELDS_BYTES - 8) / 24;

impl Decider<'_> {
    /// Returns the live objects by rising number, each with its coclass, as the fields of a reply.
    /// Err: the one allocation failed, or there are more objects than fit, which is more than can
    /// be live.
    pub(super) fn objects_field(&self) -> Result<Fields, AllocError>
        ensures { IfOk result (λ fields. fields ≡ objects_field self.now.table) }
    {
        let count = self.table.len();
        if count > MAX_LISTED {
            return Err(AllocError);
        }
        let mut field = Vec::with_capacity(self.alloc, 8 + 24 * count)?;
        put_number_field(&mut field, count as u32)?;
        put_objects(self.table, &mut field)?;
        Ok(Fields::new(field))
    }
}

/// Appends the objects of a table by rising number, each with its coclass. Err: an allocation
/// failed.
#[tactic(auto, using(crate::proofs::Added::goes_on, crate::proofs::Added::is_done))]
fn put_objects(table: &Table, out: &mut Vec<u8>) -> Result<(), AllocError>
    ensures value { OnOk result (out.new.items ≡ out.old.items ++ flat_map entry_of table.now.objects) }
    ensures len { OnOk result (length out.new.items ≡ length out.old.items + 24 * length table.now.objects) }
{
    'objects: for (number, object) in table.objects() {
        put_object_field(out, *number, &object.class())?;
    }
    Ok(())
}
