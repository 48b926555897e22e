//! Theorems about the definitions alone.
ghost use Rattle.std.specs.Prelude.{◌≡◌, ◌+◌, ℕ, List, length};
ghost use Rattle.oa_tokens.specs.declared.lexer.Token.{Token};
ghost use Rattle.oa_tokens.specs.promise.Tokens.{AreTokens};
ghost use Rattle.oa_tokens.specs.Tokens.{AreInOrder};

/// Bytes have at most one list of tokens.
pub fn one_list()
    ensures { (p : ℕ) (bytes : List ℕ) (some others : List Token) → AreTokens p bytes some → AreTokens p bytes others → some ≡ others }
{}

/// The tokens are in order and inside the bytes, and each has at least one byte.
pub fn tokens_in_order()
    ensures { (p : ℕ) (bytes : List ℕ) (all : List Token) → AreTokens p bytes all → AreInOrder p (p + length bytes) all }
{}
