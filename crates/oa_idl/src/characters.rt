//! The characters of a default string.
ghost use Rattle.std.specs.Prelude.{◌≡◌};

use std::marker::Model;

/// The characters of a default string, without its quotes and escapes. In a tree that was parsed,
/// these are the ASCII characters from the space to the tilde.
#[derive(Drop)]
pub struct Characters {
    bytes: Vec<u8>,
}

impl Model for Characters {
    ghost use Rattle.std.specs.Prelude.{List, ℕ};

    ghost Value = { List ℕ };

    ghost view = { λ c. c.bytes.items };
}

impl Characters {
    /// Makes a string of these characters. They are not checked.
    pub fn from_bytes(bytes: Vec<u8>) -> Characters
        ensures { result ≡ bytes.items }
    {
        Characters { bytes }
    }

    /// Returns the bytes, one for each character.
    pub fn as_bytes(&self) -> &[u8]
        ensures { result.now ≡ self.now }
    {
        self.bytes.as_slice()
    }
}
