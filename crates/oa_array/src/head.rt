//! The parts of an array other than its elements.
ghost use Rattle.std.specs.Prelude.{◌≡◌, ◌<◌, length, slice_set, IfOk};
ghost use Rattle.oa_array.specs.Heads.{bounds_in};

use oa_model::{Bound, VarType};
use std::alloc::{AllocError, Global};

/// The bounds of an array. A single one is stored in place, without an allocation.
#[derive(Drop)]
pub(crate) enum BoundList {
    /// A single bound.
    One(Bound),
    /// Any number of bounds.
    Many(Box<Vec<Bound>>),
}

impl BoundList {
    /// Makes a list of these bounds. Err: an allocation fails, which happens only if there is not
    /// exactly one bound.
    pub(crate) fn of_slice(alloc: Global, bounds: &[Bound]) -> Result<BoundList, AllocError>
        ensures { IfOk result (λ list. bounds_in list ≡ bounds.now) }
    {
        if let [bound] = bounds {
            return Ok(BoundList::One(*bound));
        }
        let all = bounds.to_vec(alloc)?;
        let boxed = Box::new(alloc, all)?;
        Ok(BoundList::Many(boxed))
    }

    /// Returns the bounds in their order.
    pub(crate) fn as_slice(&self) -> &[Bound]
        ensures { result.now ≡ bounds_in self.now }
    {
        match self {
            BoundList::One(bound) => std::slice::from_ref(bound),
            BoundList::Many(all) => all.as_slice(),
        }
    }

    /// Replaces the first bound.
    pub(crate) fn set_first(&mut self, bound: Bound)
        requires { 0 < length (bounds_in self.old) }
        ensures { bounds_in self.new ≡ slice_set (bounds_in self.old) 0 bound }
    {
        match self {
            BoundList::One(only) => *only = bound,
            BoundList::Many(all) => all[0] = bound,
        }
    }
}

/// The type of the elements, the number of locks and the bounds.
#[derive(Drop)]
pub(crate) struct Head {
    /// The type of the elements.
    pub(crate) elem: VarType,
    /// The number of locks.
    pub(crate) locks: u16,
    /// The bounds, in the listed order.
    pub(crate) bounds: BoundList,
}
