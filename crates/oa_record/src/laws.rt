//! Theorems about the definitions, each the contract of a function with nothing to execute.
ghost use Rattle.std.specs.Prelude.{◌≡◌, ◌≤◌, ℕ, true, List, Option, Some, length};
ghost use Rattle.oa_record.specs.promise.Opcodes.{opcode_number, opcode_at, opcode_named};
ghost use Rattle.oa_record.specs.declared.opcode.Opcode.{Opcode as AnOpcode};
ghost use Rattle.oa_record.specs.declared.request.Request.{Request as ARequest};
ghost use Rattle.oa_record.specs.promise.Replacement.{is_replacement};
ghost use Rattle.oa_record.specs.promise.Asks.{Asks, IsStub, IsBadVarType, request_opcode};

/// No body encodes two requests.
pub fn one_request()
    ensures { (body : List ℕ) (p q : ARequest) → Asks body p → Asks body q → p ≡ q }
{
    oa_wire_variant::laws::one_value();
}

/// A body that is refused encodes no request.
pub fn refused_asks_nothing()
    ensures stub { (body : List ℕ) (q : ARequest) → IsStub body → Asks body q → ⊥ }
    ensures bad_type { (body : List ℕ) (index : Option ℕ) (q : ARequest) → IsBadVarType body index → Asks body q → ⊥ }
{}

/// A body has at most one refusal: bad stub data, or a bad type at one index.
pub fn one_refusal()
    ensures code { (body : List ℕ) (index : Option ℕ) → IsStub body → IsBadVarType body index → ⊥ }
    ensures index { (body : List ℕ) (i j : Option ℕ) → IsBadVarType body i → IsBadVarType body j → i ≡ j }
{}

/// A body that encodes a request has at least 8 bytes and contains the opcode of this request at
/// its offset 4.
pub fn opcode_stands()
    ensures { (body : List ℕ) (q : ARequest) → Asks body q → (8 ≤ length body) × (opcode_at body ≡ opcode_number (request_opcode q)) }
{}

/// `read_request` refuses a REPLACE LIBRARY body as bad stub data.
pub fn a_replacement_is_no_request()
    ensures { (body : List ℕ) → is_replacement body ≡ true → IsStub body }
{}

/// Different opcodes have different numbers, and no other number is an opcode.
pub fn one_number()
    ensures back { (opcode : AnOpcode) → opcode_named (opcode_number opcode) ≡ Some opcode }
    ensures only { (n : ℕ) (opcode : AnOpcode) → opcode_named n ≡ Some opcode → n ≡ opcode_number opcode }
{}
