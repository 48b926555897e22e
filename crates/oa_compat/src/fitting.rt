//! Whether a table fits a library.
ghost use Rattle.std.specs.Prelude.{◌≡◌};
ghost use Rattle.oa_compat.specs.promise.Fits.{cell_fits, fits, key_fits, object_fits};
ghost use Rattle.oa_variant.specs.declared.variant.Variant.TheVariants.{One};
ghost use Rattle.oa_variant.specs.promise.Variants.{fits_declared};

use oa_array::Cell;
use oa_idl::Parameter;
use oa_model::ValueType;
use oa_table::{LiveObject, Place, Table};
use oa_typelib::Library;
use oa_variant::{Scalar, Variant};
use uuid::Uuid;

/// Returns whether a table fits a library. The coclass of each object is in the library. Each cell
/// is one of a property of an interface of that coclass. It has a value for each of the property's
/// parameters, and a value of its own, of the declared types. Allocates nothing.
pub fn fits(library: &Library, table: &Table) -> bool
    ensures { result ≡ fits library.now table.now }
{
    'objects: for (_number, object) in table.objects() {
        if !object_fits(library, object) {
            return false;
        }
    }
    true
}

/// Returns whether an object fits a library.
fn object_fits(library: &Library, object: &LiveObject) -> bool
    ensures { result ≡ object_fits library.now object.now }
{
    let class = object.class();
    if library.class(&class).is_none() {
        return false;
    }
    'cells: for (place, value) in object.cells() {
        if !cell_fits(library, &class, place, value) {
            return false;
        }
    }
    true
}

/// Returns whether a cell with this place and value fits a library, in an object of this coclass.
fn cell_fits(library: &Library, class: &Uuid, place: &Place, value: &Variant) -> bool
    ensures { result ≡ cell_fits library.now class.now (place.now, value.now) }
{
    let Some(interface) = library.entered(class, &place.interface()) else {
        return false;
    };
    let Some(property) = interface.property(place.dispid()) else {
        return false;
    };
    key_fits(property.parameters, place.key()) && value.fits(property.value_type)
}

/// Returns whether a key has one value for each parameter, of the parameter's type.
fn key_fits(parameters: &[Parameter], key: &[Scalar]) -> bool
    ensures { result ≡ key_fits parameters.now key.now }
{
    let mut more = parameters;
    let mut rest = key;
    'values: while let Some((parameter, parameters)) = more.split_first() {
        let Some((value, values)) = rest.split_first() else {
            return false;
        };
        if !value_fits(value, parameter.value_type) {
            return false;
        }
        more = parameters;
        rest = values;
    }
    rest.is_empty()
}

/// Returns whether a value of a key is of the declared type of its parameter, which is no array.
fn value_fits(value: &Scalar, declared: ValueType) -> bool
    ensures { result ≡ fits_declared (One value.now) declared }
{
    match declared {
        ValueType::One(one) => value.fits(one),
        ValueType::Array(_) => false,
    }
}
