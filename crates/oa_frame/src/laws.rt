//! Theorems about the definitions, each the contract of a function with an empty body.
ghost use Rattle.std.specs.Prelude.{◌≡◌, ℕ, Bool, List, length};
ghost use Rattle.oa_frame.specs.declared.ends.End.{End as AnEnd};
ghost use Rattle.oa_frame.specs.declared.ends.End.TheVariants.{ReadFault};
ghost use Rattle.oa_frame.specs.declared.framing.Framing.{Framing as AFraming};
ghost use Rattle.oa_frame.specs.promise.Framings.{frames};
ghost use Rattle.oa_frame.specs.promise.Lines.{FirstLine};
ghost use Rattle.oa_frame.specs.promise.Sessions.{CanStop, ReadTo};
ghost use Rattle.oa_frame.specs.promise.Sessions.Halt.{At};

/// Bytes have one first line, and one rest after it.
pub fn one_line()
    ensures { (bytes line line' rest rest' : List ℕ)
        → FirstLine bytes line rest → FirstLine bytes line' rest' → (line ≡ line') × (rest ≡ rest') }
{}

/// In a framing, bytes contain one list of bodies and one end of it, unless a fault of the reader
/// ended the reading.
pub fn one_end()
    ensures { (framing : AFraming) (bytes rest rest' : List ℕ) (barrier : List ℕ → Bool) (bodies others : List (List ℕ)) (why other : AnEnd)
        → ReadTo (frames framing) (At why) bodies bytes rest
        → CanStop (frames framing) barrier (length bodies) (At why) → (why ≡ ReadFault → ⊥)
        → ReadTo (frames framing) (At other) others bytes rest'
        → CanStop (frames framing) barrier (length others) (At other) → (other ≡ ReadFault → ⊥)
        → (bodies ≡ others) × (why ≡ other) }
{}
