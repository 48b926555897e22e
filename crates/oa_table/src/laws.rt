//! Theorems about the definitions, each the contract of a function with an empty body.
ghost use Rattle.std.specs.Prelude.{◌≡◌, Ok, IfOk};
ghost use Rattle.oa_table.specs.declared.event.Event.{Event as AnEvent};
ghost use Rattle.oa_table.specs.Events.{BringsNoLocks};
ghost use Rattle.oa_table.specs.promise.Events.{applied};
ghost use Rattle.oa_table.specs.promise.Tables.{TableValue, unlocked_table};

/// If an event applies to a table, it also applies to the table without its locks. It then results
/// in the new table without its locks.
pub fn locks_change_no_event()
    ensures { (event : AnEvent) (table : TableValue) → BringsNoLocks event →
        IfOk (applied event table) (λ new. applied event (unlocked_table table) ≡ Ok (unlocked_table new)) }
{}
