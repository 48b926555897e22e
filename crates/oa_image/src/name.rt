//! The images of names of cells.
ghost use Rattle.std.specs.Prelude.{◌≡◌, ◌≤◌, ◌+◌, IfOk, length};
ghost use Rattle.oa_formats.specs.Answers.{ReadsImageBy};
ghost use Rattle.oa_formats.specs.Lengths.{max_value_image};
ghost use Rattle.oa_formats.specs.Windows.{Adds};
ghost use Rattle.oa_model.specs.Limits.{max_key_scalars};
ghost use Rattle.oa_table.specs.promise.Sizes.{place_size};
ghost use Rattle.oa_image.specs.promise.Names as names;

use oa_formats::{
    OutputCursor, PutImage, ReadFault, ReadImage, ScalarFormat, put_each, put_guid, put_i32,
    put_u16, put_u32, read_guid, read_i32, read_times, read_u16, read_u32,
};
use oa_ndr::Ndr;
use oa_table::{CellName, Place, place_size};
use oa_variant::Scalar;
use std::alloc::Global;

/// Reads the key of a place: the number of scalars as u16, and the scalars. Errors: `Broken`,
/// `Memory`.
#[tactic(auto, unfolding(oa_formats::specs::Formats::combinators, crate::specs::promise::Names::key))]
fn read_key(alloc: Global, r: &mut Ndr<'_>) -> Result<Vec<Scalar>, ReadFault>
    ensures read { ReadsImageBy (λ v. v.items) result r.new (names.key.read r.old) }
    ensures few { IfOk result (λ v. length v.items ≤ max_key_scalars) }
{
    let count = read_u16(r)?;
    read_times::<ScalarFormat>(alloc, count as usize, r)
}

/// Writes the key of a place: the number of scalars as u16, and the scalars.
#[tactic(auto, unfolding(oa_formats::specs::Formats::combinators, crate::specs::promise::Names::key), using(oa_formats::specs::Windows::added_added))]
fn put_key(key: &[Scalar], w: &mut OutputCursor, out: &mut [u8])
    requires { length key.now ≤ max_key_scalars }
    ensures { Adds (names.key.image key.now) w.old w.new out.old out.new }
{
    put_u16(key.len() as u16, w, out);
    put_each::<ScalarFormat>(key, w, out)
}

/// The format of places: the interface in wire order, the DISPID as i32, the number of scalars in
/// the key as u16, the scalars.
pub(crate) struct PlaceFormat;

impl ReadImage for PlaceFormat {
    type Value = Place;

    ghost format = { names.place };

    #[tactic(auto, unfolding(oa_formats::specs::Formats::combinators, crate::specs::promise::Names::place))]
    fn read(alloc: Global, r: &mut Ndr<'_>) -> Result<Place, ReadFault> {
        let interface = read_guid(r)?;
        let dispid = read_i32(r)?;
        let key = read_key(alloc, r)?;
        Ok(Place::new(interface, dispid, key))
    }
}

impl PutImage for PlaceFormat {
    #[tactic(auto, unfolding(oa_formats::specs::Formats::combinators, crate::specs::promise::Names::place), using(oa_formats::specs::Windows::added_added))]
    fn put(value: &Place, w: &mut OutputCursor, out: &mut [u8]) {
        let key = value.key();
        put_guid(&value.interface(), w, out);
        put_i32(value.dispid(), w, out);
        put_key(key, w, out)
    }
}

/// The format of names of cells: the object as u32, and the place.
pub(crate) struct NameFormat;

impl ReadImage for NameFormat {
    type Value = CellName;

    ghost format = { names.name };

    #[tactic(auto, unfolding(oa_formats::specs::Formats::combinators, crate::specs::promise::Names::name))]
    fn read(alloc: Global, r: &mut Ndr<'_>) -> Result<CellName, ReadFault> {
        let object = read_u32(r)?;
        let place = PlaceFormat::read(alloc, r)?;
        Ok(CellName { object, place })
    }
}

impl PutImage for NameFormat {
    #[tactic(auto, unfolding(oa_formats::specs::Formats::combinators, crate::specs::promise::Names::name), using(oa_formats::specs::Windows::added_added))]
    fn put(value: &CellName, w: &mut OutputCursor, out: &mut [u8]) {
        put_u32(value.object, w, out);
        PlaceFormat::put(&value.place, w, out)
    }
}

/// Returns the length in bytes of a name's image: 4 for the object, and the place.
pub(crate) fn name_len(name: &CellName) -> usize
    ensures value { result ≡ 4 + place_size name.now.place }
    ensures small { result ≤ 4 + max_value_image }
{
    4 + place_size(&name.place) as usize
}
