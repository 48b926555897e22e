//! Changes of a table.
use crate::CellName;
use oa_array::Indices;
use oa_model::Bound;
use oa_variant::{Scalar, Variant};
use uuid::Uuid;

/// A change of a table.
#[derive(Drop)]
pub enum Event {
    /// Adds an object of a coclass, without cells.
    Create {
        /// The object's number: the table's next one.
        number: u32,
        /// The GUID of the coclass.
        class: Uuid,
    },
    /// Removes an object with all its cells.
    Release {
        /// The object's number.
        number: u32,
    },
    /// Sets a cell.
    Put {
        /// The object, and the place of the cell in it.
        name: CellName,
        /// The new value of the cell; it has no locks.
        value: Variant,
    },
    /// Sets an element of the array in a cell.
    PutElement {
        /// The object, and the place of the cell in it.
        name: CellName,
        /// An index for each bound of the array, in the order of the bounds.
        index: Indices,
        /// The element, of the type of the array's elements; any scalar in an array of VARIANT.
        value: Scalar,
    },
    /// Replaces the first bound of the array in a cell; elements keep their positions.
    Redim {
        /// The object, and the place of the cell in it.
        name: CellName,
        /// The count and the lowest index that replace those of the first bound.
        bound: Bound,
    },
}
