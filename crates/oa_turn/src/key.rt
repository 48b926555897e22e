//! Names of cells as keys.
ghost use Rattle.std.specs.Prelude.{◌≡◌};
ghost use Rattle.std.specs.Cmp.{partial_order_from_total, partial_equiv_from_equiv, eq_by_cmp_equiv};
ghost use Rattle.std.specs.Cmp.Rules.{comparing};
ghost use Rattle.std.specs.Ordering.{as_partial_cmp, eq_by_cmp};
ghost use Rattle.std.proofs.Common.{rules};
ghost use Rattle.oa_turn.specs.promise.ClientLocks.{cell_cmp};
ghost use Rattle.oa_turn.specs.ClientLocks.{cells_total};

use oa_table::CellName;
use std::cmp::Ordering;
use std::marker::Model;

/// The name of a cell, ordered by the object's number, then by the place in it.
#[derive(Drop)]
pub struct CellKey {
    name: CellName,
}

impl Model for CellKey {
    ghost use Rattle.oa_table.specs.declared.name.CellName.{CellName};

    ghost Value = { CellName };

    ghost view = { λ k. k.name };
}

impl CellKey {
    /// Makes the key of a cell.
    pub fn new(name: CellName) -> CellKey
        ensures { result ≡ name }
    {
        CellKey { name }
    }

    /// Returns the cell's name.
    pub fn name(&self) -> &CellName
        ensures { result.now ≡ self.now }
    {
        &self.name
    }
}

impl PartialEq for CellKey {
    ghost eq = { eq_by_cmp cell_cmp };

    ghost laws = { partial_equiv_from_equiv (eq_by_cmp_equiv cells_total) };

    fn eq(&self, other: &CellKey) -> bool {
        self.cmp(other) == Ordering::Equal
    }
}

impl Eq for CellKey {
    ghost laws = { eq_by_cmp_equiv cells_total };
}

impl PartialOrd for CellKey {
    ghost partial_cmp = { as_partial_cmp cell_cmp };

    ghost laws = { partial_order_from_total cells_total };

    fn partial_cmp(&self, other: &CellKey) -> Option<Ordering> {
        Some(self.cmp(other))
    }
}

/// Compares by the object's number, then by the place in it: see the definition `cell_cmp`.
impl Ord for CellKey {
    ghost cmp = { cell_cmp };

    ghost total = { cells_total };

    ghost matches_partial_cmp = { Prim.search (comparing, rules) };

    ghost matches_eq = { Prim.search (comparing, rules) };

    fn cmp(&self, other: &CellKey) -> Ordering {
        match self.name.object.cmp(&other.name.object) {
            Ordering::Equal => self.name.place.cmp(&other.name.place),
            unequal => unequal,
        }
    }
}
