//! The position of an index list among the elements, computed as a sum of products.
ghost use Rattle.std.specs.Prelude.{◌≡◌, ◌<◌, ◌≤◌, ◌∷◌, MatchOption, pos, ◌+ℤ◌};
ghost use Rattle.oa_model.specs.promise.Limits.{max_cells};
ghost use Rattle.oa_array.specs.Boxes.{IsWithin, InBounds};
ghost use Rattle.oa_array.specs.promise.Boxes.{box_size, position_of};

use oa_model::{Bound, MAX_CELLS};

/// Returns the distance of an index from the lowest one of its dimension. None if it is outside the
/// bound.
pub(crate) fn offset(bound: Bound, index: i32) -> Option<u32>
    ensures { MatchOption result (IsWithin bound index → ⊥)
        (λ k. (bound.lower +ℤ pos k ≡ index) × (k < bound.count)) }
{
    let above = i64::from(index) - i64::from(bound.lower);
    u32::try_from(above).ok().filter(|k| *k < bound.count)
}

/// Returns the number of index lists within a first bound and the others. None above 65,536. It is
/// 0 if some bound has the count 0, whatever the others are.
pub(crate) fn size(first: Bound, others: &[Bound]) -> Option<usize>
    ensures { MatchOption result (max_cells < box_size (first ∷ others.now))
        (λ n. (n ≡ box_size (first ∷ others.now)) × (n ≤ max_cells)) }
{
    let past = u64::from(MAX_CELLS) + 1;
    let mut size = u64::from(first.count).min(past);
    let mut left = others;
    'dimensions: while let Some((bound, more)) = left.split_first() {
        size = (size * u64::from(bound.count)).min(past);
        left = more;
    }
    (size < past).then_some(size as usize)
}

/// Returns the position of an index list within the bounds, which contain `size` index lists. None
/// if it is not within them.
pub(crate) fn position(bounds: &[Bound], index: &[i32], size: usize) -> Option<usize>
    requires whole { size ≡ box_size bounds.now }
    requires few { size ≤ max_cells }
    ensures { MatchOption result (InBounds bounds.now index.now → ⊥)
        (λ place. InBounds bounds.now index.now × (place ≡ position_of bounds.now index.now) × (place < size)) }
{
    if size == 0 {
        return None;
    }
    let mut place = 0u64;
    let mut open = bounds;
    let mut given = index;
    'dimensions: while let Some((bound, more)) = open.split_first() {
        let (first, rest) = given.split_first()?;
        let above = offset(*bound, *first)?;
        place = place * u64::from(bound.count) + u64::from(above);
        open = more;
        given = rest;
    }
    given.is_empty().then_some(place as usize)
}
