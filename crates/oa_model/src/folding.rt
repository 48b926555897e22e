//! Names compared without regard to case.
ghost use Rattle.std.specs.Prelude.{◌≡◌};
ghost use Rattle.oa_model.specs.promise.Folding.{folded};

/// Returns the character of a name in lower case: A to Z become a to z, every other byte is
/// unchanged. Two names are equal if their folded characters are.
pub fn fold(character: u8) -> u8
    ensures { result ≡ folded character }
{
    character.to_ascii_lowercase()
}
