//! Formats, each described once with its reader and its theorems; and the images of values, with
//! their lengths.
//!
//! Contract: a format reads exactly what it writes, and no bytes encode two values (the theorems of
//! each format). The image of a value is one of its format.
//!
//! Used by oa_table for the length of a value's image; by oa_image for events and tables, and
//! through it by the storage crates.
#![tactic(auto)]

mod array;
mod fault;
mod image;
pub mod laws;
mod reading;
mod scalar;
mod variant;
mod window;
mod writing;

pub use array::{BoundFormat, element_len, elements_len, put_array_head, put_element};
pub use fault::{ImageFault, ReadFault};
pub use image::{PutImage, ReadImage, append_image, put_each, read_exactly, read_row, read_times};
pub use reading::{read_guid, read_i32, read_u8, read_u16, read_u32};
pub use scalar::{ScalarFormat, scalar_image_len};
pub use variant::{VariantFormat, value_image_len};
pub use window::OutputCursor;
pub use writing::{put_guid, put_i32, put_u8, put_u16, put_u32};
