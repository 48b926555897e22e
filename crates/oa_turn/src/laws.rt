//! Theorems about the definitions of turns.
ghost use Rattle.std.specs.Prelude.{◌≡◌, ◌↔◌, ℕ, true, Bool, List, None, Ok};
ghost use Rattle.oa_record.specs.declared.request.Request.{Request as ARequest};
ghost use Rattle.oa_record.specs.promise.Replies.{ReplyValue};
ghost use Rattle.oa_compat.specs.promise.Fits.{fits};
ghost use Rattle.oa_turn.specs.Steps.{IsQuiet};
ghost use Rattle.oa_turn.specs.OwnCodes.{is_own};
ghost use Rattle.oa_decision.specs.promise.States.{State};
ghost use Rattle.oa_turn.specs.promise.Steps.{outcome, reply_to};
ghost use Rattle.oa_turn.specs.Traces.{done_bodies, done_replies, kept_bodies, kept_replies};
ghost use Rattle.oa_turn.specs.promise.Turns.{Run, Turn};
ghost use Rattle.oa_idl.specs.promise.Trees.{TreeValue};
ghost use Rattle.oa_table.specs.promise.Locks.{with_lock, without_lock};
ghost use Rattle.oa_table.specs.promise.Tables.{TableValue, unlocked_table};
ghost use Rattle.oa_table.specs.declared.name.CellName.{CellName as AName};
ghost use Rattle.oa_typelib.specs.promise.Checked.{IsChecked};
ghost use Rattle.oa_compat.specs.promise.Keeps.{KeepsLibrary, first_lost};

use oa_compat::laws::changes_that_fit;
use oa_idl::laws::one_tree;
use oa_record::laws::one_request;

/// A request that is answered with another code than S_OK leaves no trace. It makes no event and
/// changes no lock, so its turn does not change the state. The other turns of a run alone are a run
/// with the same replies. The same is true if some of the turns that leave no trace stay in it.
pub fn no_trace()
    ensures outcome { (state : State) (tag : ℕ) (request : ARequest) → ((reply_to state tag request).code.0 ≡ 0 → ⊥)
        → IsQuiet (outcome state request) }
    ensures turn { (old new : State) (body : List ℕ) (reply : ReplyValue) → Turn old body reply new → (reply.code.0 ≡ 0 → ⊥) → new ≡ old }
    ensures others { (old new : State) (bodies : List (List ℕ)) (replies : List ReplyValue) → Run old bodies replies new
        → Run old (done_bodies bodies replies) (done_replies replies) new }
    ensures some { (old new : State) (choices : List Bool) (bodies : List (List ℕ)) (replies : List ReplyValue)
        → Run old bodies replies new → Run old (kept_bodies choices bodies replies) (kept_replies choices replies) new }
{}

/// A table that fits a library fits each library that is compatible with it. Locks do not matter
/// for that. A library may replace another exactly if it is compatible with it.
pub fn kept_library_fits()
    ensures fits { (new old : TreeValue) → IsChecked new → KeepsLibrary new old → (table : TableValue) → fits old table ≡ true
        → fits new table ≡ true }
    ensures keeps { (new old : TreeValue) → IsChecked new → (first_lost new old ≡ None) ↔ KeepsLibrary new old }
{
    oa_compat::laws::kept_fits();
}

/// If a table fits its library, it still does after a turn and after a run, for the library of
/// then.
pub fn fits_stays()
    ensures turn { (old new : State) (body : List ℕ) (reply : ReplyValue) → IsChecked old.library
        → fits old.library old.table ≡ true → Turn old body reply new → IsChecked new.library × (fits new.library new.table ≡ true) }
    ensures run { (old new : State) (bodies : List (List ℕ)) (replies : List ReplyValue) → IsChecked old.library
        → fits old.library old.table ≡ true → Run old bodies replies new → IsChecked new.library × (fits new.library new.table ≡ true) }
{
    changes_that_fit();
}

/// No turn answers STG_E_WRITEFAULT or E_FAIL: these report faults of the device.
pub fn own_codes()
    ensures step { (state : State) (tag : ℕ) (request : ARequest) → is_own (reply_to state tag request).code ≡ true }
    ensures turn { (old : State) (body : List ℕ) (reply : ReplyValue) (new : State) → Turn old body reply new → is_own reply.code ≡ true }
{}

/// A turn with this reply leads to one state, and so does a run with these replies.
pub fn one_state()
    ensures turn { (old a b : State) (body : List ℕ) (reply : ReplyValue) → Turn old body reply a → Turn old body reply b → a ≡ b }
    ensures run { (old a b : State) (bodies : List (List ℕ)) (replies : List ReplyValue)
        → Run old bodies replies a → Run old bodies replies b → a ≡ b }
{
    one_request();
    one_tree();
}

/// A lock more or fewer changes nothing in the image of a table.
pub fn locks_are_in_no_image()
    ensures lock { (name : AName) (old new : TableValue) → with_lock name old ≡ Ok new → unlocked_table new ≡ unlocked_table old }
    ensures unlock { (name : AName) (old new : TableValue) → without_lock name old ≡ Ok new → unlocked_table new ≡ unlocked_table old }
{}
