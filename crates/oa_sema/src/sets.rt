//! Names and GUIDs by their places in a list.
ghost use Rattle.std.specs.Prelude.{◌≡◌, [], not, OnOk, IfOk, position};
ghost use Rattle.std.specs.List.{list_any};
ghost use Rattle.indexmap.specs.IndexSet.{insert_key};
ghost use Rattle.oa_sema.specs.promise.Libraries.{same};

use indexmap::IndexSet;
use std::alloc::{AllocError, Global};
use std::marker::Model;
use uuid::Uuid;

/// Distinct folded names.
pub struct FoldedNames {
    keys: IndexSet<Vec<u16>>,
}

// An implementation by hand: a function that owns the names drops them in one step.
impl Drop for FoldedNames {
    fn drop(self) {
        let FoldedNames { keys: _keys } = self;
    }
}

impl Model for FoldedNames {
    ghost use Rattle.std.specs.Prelude.{List, ℕ, map};

    ghost Value = { List (List ℕ) };

    ghost view = { λ n. map (λ k. k.items) n.keys.keys };
}

impl FoldedNames {
    /// Makes an empty set.
    pub(crate) fn new(alloc: Global) -> FoldedNames
        ensures { result ≡ [] }
    {
        FoldedNames {
            keys: IndexSet::new(alloc),
        }
    }

    /// Adds a folded name. Returns whether it is new: `false` if it is a member already. Err: an
    /// allocation fails.
    pub(crate) fn insert(&mut self, name: Vec<u16>) -> Result<bool, AllocError>
        ensures added { IfOk result (λ b. b ≡ not (list_any (same name.items) self.old)) }
        ensures keys { OnOk result (self.new ≡ insert_key same self.old name.items) }
    {
        Ok(self.keys.insert(name)?)
    }

    /// Returns the place of a folded name, counted from 0; None if it is no member.
    pub fn place(&self, name: &[u16]) -> Option<usize>
        ensures { result ≡ position (same name.now) self.now }
    {
        self.keys.get_index_of(name)
    }
}

/// The GUIDs of a library's items, in their order.
pub struct Guids {
    keys: IndexSet<Uuid>,
}

// An implementation by hand: a function that owns the GUIDs drops them in one step.
impl Drop for Guids {
    fn drop(self) {
        let Guids { keys: _keys } = self;
    }
}

impl Model for Guids {
    ghost use Rattle.std.specs.Prelude.{List, ℕ};

    ghost Value = { List (List ℕ) };

    ghost view = { λ n. n.keys.keys };
}

impl Guids {
    /// Makes the list of the GUIDs of a set.
    pub(crate) fn from_set(keys: IndexSet<Uuid>) -> Guids
        ensures { result ≡ keys.keys }
    {
        Guids { keys }
    }

    /// Returns the place of the item with a GUID, counted from 0; None if no item has it.
    pub fn place(&self, guid: &Uuid) -> Option<usize>
        ensures { result ≡ position (same guid.now) self.now }
    {
        self.keys.get_index_of(guid)
    }
}
