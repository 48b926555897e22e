//! Theorems about the definitions, each the contract of a function with an empty body.
ghost use Rattle.std.specs.Prelude.{◌≡◌, ℕ, ◌+◌, ◌*◌, ◌<◌, ◌≤◌, ◌↔◌, ℤ, pos, ◌+ℤ◌, List, [], ◌∷◌, length, slice_get, Some};
ghost use Rattle.oa_model.specs.declared.bound.Bound.{Bound};
ghost use Rattle.oa_array.specs.Boxes.{InBounds};
ghost use Rattle.oa_array.specs.promise.Boxes.{index_lists, box_size, position_of};
ghost use Rattle.oa_array.specs.promise.Arrays.{ArrayValue, array_element, with_cell, with_first, redimensioned};

/// The list of all index lists within the bounds contains at each place the one that has this place
/// as its position. It contains each of them once, in increasing order.
pub fn members_stand_at_their_positions()
    ensures { (bounds : List Bound) (index : List ℤ) (place : ℕ) →
        (slice_get (index_lists bounds) place ≡ Some index) ↔ (InBounds bounds index × (position_of bounds index ≡ place)) }
{}

/// The number of index lists within the bounds is the product of the counts.
pub fn size_is_a_product()
    ensures none { box_size [] ≡ 1 }
    ensures more { (bound : Bound) (others : List Bound) → box_size (bound ∷ others) ≡ bound.count * box_size others }
{}

/// A position is a sum of products: the last listed index varies fastest.
pub fn position_is_a_sum_of_products()
    ensures none { position_of [] [] ≡ 0 }
    ensures more { (bound : Bound) (others : List Bound) (above : ℕ) (rest : List ℤ) → above < bound.count →
        position_of (bound ∷ others) ((bound.lower +ℤ pos above) ∷ rest) ≡ above * box_size others + position_of others rest }
{}

/// After a put the element at that index list is the new one. Every other index list within the
/// bounds has the same element as before.
pub fn put_changes_one_cell<T>()
    ensures { (a : ArrayValue T) (index other : List ℤ) (cell : T) → length a.cells ≡ box_size a.bounds →
        InBounds a.bounds index → InBounds a.bounds other →
        (array_element (with_cell a index cell) index ≡ Some cell)
        × ((other ≡ index → ⊥) → array_element (with_cell a index cell) other ≡ array_element a other) }
{}

/// After a redimension, an index list within the new bounds has the old element at the same
/// position. If there was none, it has the zero value.
pub fn redimension_keeps_cells_by_position<T>()
    ensures kept { (a : ArrayValue T) (zero : T) (bound : Bound) (index old : List ℤ) → length a.cells ≡ box_size a.bounds →
        InBounds (with_first bound a.bounds) index → InBounds a.bounds old →
        position_of (with_first bound a.bounds) index ≡ position_of a.bounds old →
        array_element (redimensioned zero bound a) index ≡ array_element a old }
    ensures fresh { (a : ArrayValue T) (zero : T) (bound : Bound) (index : List ℤ) → length a.cells ≡ box_size a.bounds →
        InBounds (with_first bound a.bounds) index → box_size a.bounds ≤ position_of (with_first bound a.bounds) index →
        array_element (redimensioned zero bound a) index ≡ Some zero }
{}
