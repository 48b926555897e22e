//! CREATE.
ghost use Rattle.std.specs.Prelude.{◌≡◌, IfOk, IsOk};
ghost use Rattle.oa_decision.specs.promise.Create.{class_found, creation, fitting};
ghost use Rattle.oa_decision.specs.Decisions.{ChangesNoLocks, Decides};
ghost use Rattle.oa_decision.specs.promise.Limits.{allowed};

use super::Decider;
use crate::decision::{DecideError, Decision};
use crate::fields::Fields;
use crate::limits::limit_violation;
use crate::refusal::Refusal;
use oa_image::SizedEvent;
use oa_model::{GREATEST_OBJECT_NUMBER, HResult, MAX_LIVE_OBJECTS};
use oa_record::number_field;
use oa_table::Event;
use uuid::Uuid;

impl Decider<'_> {
    /// Decides a CREATE: a new object of coclass `class` with the next number. It allocates only if
    /// the object can be made. Errors: `Refused` as of `find_class` and `find_room`; `OutOfMemory`.
    pub(super) fn creation(&self, class: Uuid) -> Result<Decision, DecideError>
        ensures decided { Decides (creation self.now class) (IsOk (creation self.now class)) result }
        ensures unlocked { IfOk result ChangesNoLocks }
    {
        self.find_class(&class)?;
        let number = self.table.next();
        let event = SizedEvent::new(Event::Create { number, class });
        self.find_room(&event)?;
        let fields = Fields::new(number_field(self.alloc, number)?);
        Ok(Decision::Change { event, fields })
    }

    /// Checks that the table may have a new object. Err: the first limit that it would break.
    fn find_room(&self, creation: &SizedEvent) -> Result<(), Refusal>
        ensures { result ≡ fitting (allowed self.now.bank creation.now self.now.table) }
    {
        match limit_violation(self.bank, self.table, creation) {
            Some(code) => Err(Refusal::of(code)),
            None => Ok(()),
        }
    }

    /// Checks that an object of a coclass can be made. Err: REGDB_E_CLASSNOTREG if the library has
    /// no such coclass; E_UNEXPECTED if there are too many live objects or no number is left.
    fn find_class(&self, class: &Uuid) -> Result<(), Refusal>
        ensures { result ≡ class_found self.now class.now }
    {
        if self.library.class(class).is_none() {
            return Err(Refusal::of(HResult::REGDB_E_CLASSNOTREG));
        }
        if self.table.len() >= MAX_LIVE_OBJECTS || self.table.next() > GREATEST_OBJECT_NUMBER {
            return Err(Refusal::of(HResult::E_UNEXPECTED));
        }
        Ok(())
    }
}
