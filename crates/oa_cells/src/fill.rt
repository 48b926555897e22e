//! Fills the places of a block by a closure, one after another.
ghost use Rattle.std.specs.Prelude.{◌≡◌, ◌+◌, ◌-◌, ◌≤◌, [], length, Ok, IfOk, IfErr};
ghost use Rattle.std.specs.Array.{index_steps};
ghost use Rattle.std.specs.Iterator.{CallableAtEachTurn};
ghost use Rattle.oa_cells.specs.Fills.{IsFilledBy, IsStoppedBy};
ghost use Rattle.oa_cells.specs.Windows.{IsWindow};

use crate::partial::Partial;

/// Fills the places from `from` to `to`, which is the end of the block, and returns the block.
/// `fill` is called with each of these indices in turn. Err: the first error of `fill`; the values
/// made so far are dropped and the block is freed.
pub(crate) fn fill_to_end<T: Drop, E, F: FnMut(usize) -> Result<T, E>>(
    mut part: Partial<T>,
    from: usize,
    to: usize,
    mut fill: F,
) -> Result<Partial<T>, E>
    requires window { IsWindow part from [] (to - from) × (from ≤ to) }
    requires callable { CallableAtEachTurn (index_steps to) (λ p i q. (x : T) × F.step p i (Ok x) q) F.pre from fill }
    ensures filled { IfOk result (λ p. IsFilledBy (λ f i r g. F.step f i r g) fill from p.items × (p.before ≡ from) × (p.after ≡ 0)
        × (from + length p.items ≡ to)) }
    ensures stopped { IfErr result (λ e. IsStoppedBy (λ f i r g. F.step f i r g) fill from to e) }
{
    let mut index = from;
    'turns: while index < to {
        match fill(index) {
            Ok(item) => part.push_back(item),
            Err(error) => {
                part.clear();
                return Err(error);
            }
        }
        index += 1;
    }
    Ok(part)
}
