//! Names of cells.
use crate::Place;

/// The name of a cell: an object, and a place in it.
#[derive(Drop)]
pub struct CellName {
    /// The number of the object.
    pub object: u32,
    /// The cell's place in it.
    pub place: Place,
}
