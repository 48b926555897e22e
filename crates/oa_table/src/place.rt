//! Places of cells in an object, and their order.
ghost use Rattle.std.specs.Prelude.{◌≡◌, ◌≤◌, length};
ghost use Rattle.std.specs.Cmp.{partial_order_from_total, partial_equiv_from_equiv, eq_by_cmp_equiv};
ghost use Rattle.std.specs.Cmp.Rules.{comparing};
ghost use Rattle.std.specs.Ordering.{as_partial_cmp, eq_by_cmp, int_cmp, on, then_cmp};
ghost use Rattle.std.proofs.Common.{rules};
ghost use Rattle.oa_model.specs.Limits.{max_key_scalars};
ghost use Rattle.oa_table.specs.Places.{IsPlace, places_total};
ghost use Rattle.oa_table.specs.promise.Places.{key_cmp, place_cmp};
ghost use Rattle.oa_table.specs.Members.{dispid_in, key_in};

use oa_variant::Scalar;
use std::cmp::Ordering;
use std::marker::Model;
use std::slice::from_ref;
use uuid::Uuid;

/// The place of a cell in its object: the member of an interface to which it belongs, and the
/// arguments of the call. A key has at most 65,535 arguments.
///
/// A place has 48 bytes with space for one argument; more are in a block of their own.
#[derive(Drop)]
pub struct Place {
    interface: Uuid,
    member: MemberKey,
}

/// A member with the arguments of a call. The DISPID is in one word with the tag.
#[derive(Drop)]
enum MemberKey {
    /// No argument.
    Bare(i32),
    /// One argument.
    One(i32, Scalar),
    /// Two or more arguments.
    Many(i32, Vec<Scalar>),
}

impl Model for Place {
    ghost use Rattle.oa_table.specs.Places.{IsPlace};
    ghost use Rattle.oa_table.specs.promise.Places.{PlaceValue};
    ghost use Rattle.oa_table.specs.Members.{dispid_in, key_in};

    ghost Value = { PlaceValue };

    ghost view = { λ p. record { interface = p.interface; dispid = dispid_in p.member; key = key_in p.member } };

    ghost invariant = { λ p. IsPlace (record { interface = p.interface; dispid = dispid_in p.member; key = key_in p.member }) };
}

impl MemberKey {
    /// Makes the key of a member with a list of arguments. Allocates nothing.
    fn of_key(dispid: i32, key: Vec<Scalar>) -> MemberKey
        ensures dispid { dispid_in result ≡ dispid }
        ensures key { key_in result ≡ key.items }
    {
        if key.len() > 1 {
            return MemberKey::Many(dispid, key);
        }
        let mut key = key;
        match key.pop() {
            Some(argument) => MemberKey::One(dispid, argument),
            None => MemberKey::Bare(dispid),
        }
    }

    /// Returns the DISPID of the member.
    fn dispid(&self) -> i32
        ensures { result ≡ dispid_in self.now }
    {
        match self {
            MemberKey::Bare(dispid) => *dispid,
            MemberKey::One(dispid, _) => *dispid,
            MemberKey::Many(dispid, _) => *dispid,
        }
    }

    /// Returns the arguments, in the order of the parameters.
    fn key(&self) -> &[Scalar]
        ensures { result.now ≡ key_in self.now }
    {
        match self {
            MemberKey::Bare(_) => &[],
            MemberKey::One(_, argument) => from_ref(argument),
            MemberKey::Many(_, key) => key.as_slice(),
        }
    }

    /// Compares by DISPID, then by arguments. If neither has any, as usual, no lists are compared.
    fn order(&self, other: &MemberKey) -> Ordering
        ensures { result ≡ then_cmp (on dispid_in int_cmp) (on key_in key_cmp) self.now other.now }
    {
        if let MemberKey::Bare(dispid) = self {
            if let MemberKey::Bare(other) = other {
                return dispid.cmp(other);
            }
        }
        let by_key = self.key().cmp(other.key());
        self.dispid().cmp(&other.dispid()).then(by_key)
    }
}

impl Place {
    /// Makes the place of a member of an interface, by its DISPID, for a list of arguments.
    pub fn new(interface: Uuid, dispid: i32, key: Vec<Scalar>) -> Place
        requires { length key.items ≤ max_key_scalars }
        ensures { result ≡ record { interface = interface; dispid = dispid; key = key.items } }
    {
        // For the prover: a GUID has 16 bytes, as the invariant requires.
        let _ = interface.as_bytes();
        Place {
            interface,
            member: MemberKey::of_key(dispid, key),
        }
    }

    /// Returns the GUID of the interface.
    pub fn interface(&self) -> Uuid
        ensures { result ≡ self.now.interface }
    {
        self.interface
    }

    /// Returns the DISPID of the member.
    pub fn dispid(&self) -> i32
        ensures { result ≡ self.now.dispid }
    {
        self.member.dispid()
    }

    /// Returns the arguments, in the order of the parameters.
    pub fn key(&self) -> &[Scalar]
        ensures value { result.now ≡ self.now.key }
        ensures place { IsPlace self.now }
    {
        self.member.key()
    }
}

impl PartialEq for Place {
    ghost eq = { eq_by_cmp place_cmp };

    ghost laws = { partial_equiv_from_equiv (eq_by_cmp_equiv places_total) };

    fn eq(&self, other: &Place) -> bool {
        self.cmp(other) == Ordering::Equal
    }
}

impl Eq for Place {
    ghost laws = { eq_by_cmp_equiv places_total };
}

impl PartialOrd for Place {
    ghost partial_cmp = { as_partial_cmp place_cmp };

    ghost laws = { partial_order_from_total places_total };

    fn partial_cmp(&self, other: &Place) -> Option<Ordering> {
        Some(self.cmp(other))
    }
}

/// Compares by interface, then by DISPID, then by key: see the definition `place_cmp`.
impl Ord for Place {
    ghost cmp = { place_cmp };

    ghost total = { places_total };

    ghost matches_partial_cmp = { Prim.search (comparing, rules) };

    ghost matches_eq = { Prim.search (comparing, rules) };

    fn cmp(&self, other: &Place) -> Ordering {
        let by_member = self.member.order(&other.member);
        self.interface.cmp(&other.interface).then(by_member)
    }
}
