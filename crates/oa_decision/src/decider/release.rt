//! RELEASE.
ghost use Rattle.std.specs.Prelude.{◌≡◌, []};
ghost use Rattle.oa_decision.specs.declared.decision.Decision.TheVariants.{Change};
ghost use Rattle.oa_table.specs.declared.event.Event.TheVariants.{Release};

use super::Decider;
use crate::decision::Decision;
use crate::fields::Fields;
use oa_image::SizedEvent;
use oa_table::Event;

impl Decider<'_> {
    /// Decides a RELEASE of the object with this number, which is removed. The table checks whether
    /// there is one, and whether it may be removed. Allocates nothing.
    pub(super) fn ending(&self, number: u32) -> Decision
        ensures { result ≡ Change (Release number) [] }
    {
        let event = SizedEvent::new(Event::Release { number });
        let fields = Fields::none(self.alloc);
        Decision::Change { event, fields }
    }
}
