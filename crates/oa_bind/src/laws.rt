//! Theorems about the definitions, each the contract of a function with an empty body.
ghost use Rattle.std.specs.Prelude.{◌≡◌, ◌≤◌, ℕ, ℤ, List, length, Ok, Some};
ghost use Rattle.oa_idl.specs.declared.parts.Parameter.{Parameter as AParameter};
ghost use Rattle.oa_typelib.specs.declared.access.Kind.{Kind as AKind};
ghost use Rattle.oa_bind.specs.promise.Given.{Given, argument_index};
ghost use Rattle.oa_bind.specs.Given.{IsGiven};
ghost use Rattle.oa_bind.specs.promise.Names.{well_named};

/// The argument that the search for a DISPID finds is given for this DISPID, and no argument is
/// given for two DISPIDs.
pub fn argument_is_given()
    ensures found { (call : Given) (i : ℕ) (id : ℤ) → length call.named ≤ length call.arguments
        → argument_index call.named (length call.arguments) id ≡ Some i → IsGiven call i id }
    ensures alone { (call : Given) (i : ℕ) (id other : ℤ) → IsGiven call i id → IsGiven call i other → id ≡ other }
{}

/// If the names and the number of the arguments are accepted, the search for the DISPID of each
/// argument finds this argument. None is dropped, and no two are given for the same DISPID.
pub fn each_argument_counts()
    ensures { (parameters : List AParameter) (kind : AKind) (call : Given) (i : ℕ) (id : ℤ)
        → well_named parameters kind call.named (length call.arguments) ≡ Ok tt → IsGiven call i id
        → argument_index call.named (length call.arguments) id ≡ Some i }
{}
