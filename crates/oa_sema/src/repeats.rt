//! Lists whose keys must differ.
ghost use Rattle.std.specs.Prelude.{◌≡◌, [], IfOk};
ghost use Rattle.oa_sema.specs.Keys.{TellsDistinct, repeat_of};
ghost use Rattle.oa_sema.specs.Repeats.{places_before};

use indexmap::{IndexMap, IndexSet};
use std::alloc::{AllocError, Global};
use std::hash::Hash;

/// The keys of a list by their places, or the first place whose key equals one at an earlier place.
#[derive(Drop)]
pub(crate) enum Distinct<K: Eq + Hash + Drop> {
    /// All keys differ.
    All(IndexSet<K>),
    /// The key at this place, counted from 0, equals an earlier one.
    Repeat(usize),
}

impl<K: Eq + Hash + Drop> Distinct<K> {
    /// Returns the first place of a repeated key, counted from 0; None if there is none.
    pub(crate) fn repeat(self) -> Option<usize>
        ensures { result ≡ repeat_of self }
    {
        match self {
            Distinct::All(_) => None,
            Distinct::Repeat(place) => Some(place),
        }
    }
}

/// Returns the keys as a set, or the first place of a repeated one. Err: an allocation fails.
pub(crate) fn told_apart<K: Eq + Hash + Drop>(
    alloc: Global,
    keys: Vec<K>,
) -> Result<Distinct<K>, AllocError>
    ensures { IfOk result (TellsDistinct K.eq keys.items) }
{
    let mut seen = IndexSet::new(alloc);
    for key in keys {
        let place = seen.len();
        if !seen.insert(key)? {
            return Ok(Distinct::Repeat(place));
        }
    }
    Ok(Distinct::All(seen))
}

/// Returns for each key the last place before it with an equal key; None if there is none. Err: an
/// allocation fails.
pub(crate) fn earlier<K: Eq + Hash + Drop>(
    alloc: Global,
    keys: Vec<K>,
) -> Result<Vec<Option<usize>>, AllocError>
    ensures { IfOk result (λ v. v.items ≡ places_before K.eq [] keys.items) }
{
    let mut last = IndexMap::new(alloc);
    let mut places = Vec::new(alloc);
    for key in keys {
        let place = places.len();
        let before = last.insert(key, place)?;
        places.push(before)?;
    }
    Ok(places)
}
