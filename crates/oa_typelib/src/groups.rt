//! Groups the places of a list by their keys, which are folded names or DISPIDs.
ghost use Rattle.std.specs.Prelude.{◌≡◌, [], IfOk, OnOk, map, position, slice_get};
ghost use Rattle.std.specs.Cmp.{partial_equiv_from_equiv};
ghost use Rattle.std.specs.Cmp.Lexicographic.{nat_list_eq_equiv};
ghost use Rattle.std.specs.Cmp.Rules.{hashing};
ghost use Rattle.std.specs.Hash as fed;
ghost use Rattle.std.specs.List.{position_or_len};
ghost use Rattle.std.specs.Ordering.{int_eq};
ghost use Rattle.std.proofs.Common.{rules};
ghost use Rattle.indexmap.specs.IndexSet.{insert_key};
ghost use Rattle.oa_model.specs.promise.Folding.{folded_name};
ghost use Rattle.oa_sema.specs.promise.Libraries.{same};
ghost use Rattle.oa_typelib.specs.Groups.{keys_with_places, places_in, with_place};

use indexmap::{Equivalent, IndexMap};
use oa_idl::Name;
use oa_sema::{Declaration, folded};
use std::alloc::{AllocError, Global};
use std::hash::{Hash, Hasher};
use std::marker::Model;

/// A folded name as a key.
#[derive(Drop)]
pub(crate) struct FoldedName {
    units: Vec<u16>,
}

impl Model for FoldedName {
    ghost use Rattle.std.specs.Prelude.{List, ℕ};

    ghost Value = { List ℕ };

    ghost view = { λ n. n.units.items };
}

impl PartialEq for FoldedName {
    ghost eq = { same };

    ghost laws = { partial_equiv_from_equiv nat_list_eq_equiv };

    fn eq(&self, other: &FoldedName) -> bool {
        self.units == other.units
    }
}

impl Eq for FoldedName {
    ghost laws = { nat_list_eq_equiv };
}

impl Hash for FoldedName {
    ghost hash_input = { fed.slice fed.u16 };

    ghost respects_eq = { Prim.search (hashing, rules) };

    fn hash<H: Hasher>(&self, state: &mut H) {
        self.units.hash(state);
    }
}

impl Equivalent<FoldedName> for &[u16] {
    ghost equivalent = { λ q. same q.now };

    ghost respects_hash = { Prim.search (hashing, rules) };

    ghost respects_eq = { λ q. nat_list_eq_equiv.congr q.now };

    fn equivalent(&self, key: &FoldedName) -> bool {
        *self == key.units.as_slice()
    }
}

/// The keys of a list in the order in which they first appear, each with the places at which it
/// appears.
pub(crate) struct Groups<K: Eq + Hash> {
    groups: IndexMap<K, Vec<usize>>,
}

// An implementation by hand: a function that owns the groups drops them in one step.
impl<K: Eq + Hash + Drop> Drop for Groups<K> {
    fn drop(self) {
        let Groups { groups: _groups } = self;
    }
}

impl<K: Eq + Hash> Model for Groups<K> {
    ghost use Rattle.std.specs.Prelude.{map};
    ghost use Rattle.indexmap.specs.IndexMap.{keys, values};
    ghost use Rattle.oa_typelib.specs.Groups.{GroupsValue};

    ghost Value = { GroupsValue K };

    ghost view = { λ g. record { keys = keys g.groups; places = map (λ ps. ps.items) (values g.groups) } };
}

impl<K: Eq + Hash> Groups<K> {
    /// Makes an empty collection.
    fn new(alloc: Global) -> Groups<K>
        ensures { result ≡ keys_with_places K.eq [] }
    {
        Groups {
            groups: IndexMap::new(alloc),
        }
    }

    /// Appends a place to the group of a key, or makes a new last group for it. Err: an allocation
    /// fails.
    fn add(&mut self, alloc: Global, key: K, place: usize) -> Result<(), AllocError>
    where
        K: Drop,
        ensures keys { OnOk result (self.new.keys ≡ insert_key K.eq self.old.keys key) }
        ensures places { OnOk result (self.new.places ≡ with_place (position_or_len (K.eq key) self.old.keys) place self.old.places) }
    {
        match self.groups.get_mut(&key) {
            Some(places) => places.push(place)?,
            None => {
                let mut first = Vec::new(alloc);
                first.push(place)?;
                self.groups.insert(key, first)?;
            }
        }
        Ok(())
    }

    /// Returns the places of a key; none if it does not appear.
    pub(crate) fn places<Q: Equivalent<K>>(&self, key: Q) -> &[usize]
        ensures { result.now ≡ places_in (position (Q.equivalent key) self.now.keys) self.now.places }
    {
        match self.groups.get(key) {
            Some(places) => places.as_slice(),
            None => &[],
        }
    }

    /// Returns the first place of a key; None if it does not appear.
    pub(crate) fn first<Q: Equivalent<K>>(&self, key: Q) -> Option<usize>
        ensures { result ≡ slice_get (places_in (position (Q.equivalent key) self.now.keys) self.now.places) 0 }
    {
        self.places(key).first().copied()
    }

    /// Returns the places of each key, in the order in which the keys first appear.
    pub(crate) fn groups(&self) -> &[Vec<usize>]
        ensures { map (λ ps. ps.items) result.now ≡ self.now.places }
    {
        self.groups.values().as_slice()
    }
}

impl Groups<i32> {
    /// Returns the places of a DISPID; none if it does not appear. If the DISPIDs of an interface
    /// are 1, 2, 3 and so on, the group of `id` has the index `id - 1`. No hash is computed then.
    pub(crate) fn places_of(&self, id: i32) -> &[usize]
        ensures { result.now ≡ places_in (position (int_eq id) self.now.keys) self.now.places }
    {
        let near = id.cast_unsigned().wrapping_sub(1) as usize;
        if let Some((key, places)) = self.groups.get_index(near) {
            if *key == id {
                return places.as_slice();
            }
        }
        self.places(&id)
    }
}

/// Returns the places of names, grouped by the folded name. Err: an allocation fails.
pub(crate) fn places_by_name(
    alloc: Global,
    names: &[&Name],
) -> Result<Groups<FoldedName>, AllocError>
    ensures { IfOk result (λ g. g ≡ keys_with_places same (map (λ n. folded_name n.now) names.now)) }
{
    let mut groups = Groups::new(alloc);
    'names: for place in 0..names.len() {
        let units = folded(alloc, names[place])?;
        groups.add(alloc, FoldedName { units }, place)?;
    }
    Ok(groups)
}

/// Returns the places of declarations, grouped by their DISPID. Err: an allocation fails.
pub(crate) fn places_by_id(
    alloc: Global,
    declarations: &[Declaration],
) -> Result<Groups<i32>, AllocError>
    ensures { IfOk result (λ g. g ≡ keys_with_places int_eq (map (λ d. d.id) declarations.now)) }
{
    let mut groups = Groups::new(alloc);
    'ids: for place in 0..declarations.len() {
        let declaration = &declarations[place];
        groups.add(alloc, declaration.id, place)?;
    }
    Ok(groups)
}
