//! Names of a library text.
ghost use Rattle.std.specs.Prelude.{◌≡◌};

use std::marker::Model;

/// A name, spelled as in the text. In a tree that was parsed it has 1 to 64 bytes: an ASCII letter
/// or `_`, followed by letters, digits and `_`.
#[derive(Drop)]
pub struct Name {
    bytes: Vec<u8>,
}

impl Model for Name {
    ghost use Rattle.std.specs.Prelude.{List, ℕ};

    ghost Value = { List ℕ };

    ghost view = { λ n. n.bytes.items };
}

impl Name {
    /// Makes a name of these bytes. They are not checked.
    pub fn from_bytes(bytes: Vec<u8>) -> Name
        ensures { result ≡ bytes.items }
    {
        Name { bytes }
    }

    /// Returns the bytes.
    pub fn as_bytes(&self) -> &[u8]
        ensures { result.now ≡ self.now }
    {
        self.bytes.as_slice()
    }

    /// Returns the bytes as an owned `Vec`.
    pub fn into_bytes(self) -> Vec<u8>
        ensures { result.items ≡ self }
    {
        let bytes = self.bytes;
        bytes
    }
}
