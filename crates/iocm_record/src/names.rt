ghost use Rattle.std.specs.Prelude.{◌≡◌, ℕ, [], ◌++◌, length, map, slice_get, unwrap_or};
ghost use Rattle.std.specs.Option.{option_copied};
ghost use Rattle.iocm_model.specs.Machine.Naming as names;

use iocm_types::{CssPath, Key, List, Name, Named, UnitNo};
use std::alloc::Allocator;

// The images of these names, as what a record names.
fn image_at(list: &[Name], place: usize) -> Option<Named>
    ensures { result ≡ slice_get (map names.image_named list.now) place }
{
    let name = list.get(place)?;
    Some(Named::Image(*name))
}

/// What a path names: the images of its access list, then those of its candidate list.
#[tactic(auto, using(crate::proofs::Rows::rows))]
pub fn path_names(access: &[Name], candidates: &[Name], place: usize) -> Option<Named>
    ensures { result ≡ slice_get (map names.image_named access.now ++ map names.image_named candidates.now) place }
{
    if place < access.len() {
        return image_at(access, place);
    }
    image_at(candidates, place - access.len())
}

/// What a unit names: its paths.
pub fn unit_names(paths: &[CssPath], place: usize) -> Option<Named>
    ensures { result ≡ slice_get (map names.path_named paths.now) place }
{
    let path = paths.get(place)?;
    Some(Named::Record(Key::Path(path.css, path.path)))
}

fn unit_at(units: &[UnitNo], place: usize) -> Option<Named>
    ensures { result ≡ slice_get (map names.unit_named units.now) place }
{
    let unit = units.get(place)?;
    Some(Named::Record(Key::Unit(*unit)))
}

fn candidate_at<A: Allocator>(candidates: Option<&List<Name, A>>, place: usize) -> Option<Named>
    ensures { result ≡ slice_get (map names.image_named (unwrap_or (option_copied candidates.entry) [])) place }
{
    match candidates {
        Some(list) => image_at(list.as_slice(), place),
        None => None,
    }
}

fn address_at(address: u8, units: &[UnitNo], place: usize) -> Option<Named>
    ensures { result ≡ slice_get (map (names.address_named address) units.now) place }
{
    let unit = units.get(place)?;
    Some(Named::Address(*unit, address))
}

/// What a device of this unit address names: its units, then the address at each of these, then the
/// images of its candidates.
#[tactic(auto, using(crate::proofs::Rows::rows))]
pub fn device_names<A: Allocator>(
    units: &[UnitNo],
    address: u8,
    candidates: Option<&List<Name, A>>,
    place: usize,
) -> Option<Named>
    ensures { result ≡ slice_get (map names.unit_named units.now ++ map (names.address_named address) units.now
        ++ map names.image_named (unwrap_or (option_copied candidates.entry) [])) place }
{
    if place < units.len() {
        return unit_at(units, place);
    }
    behind_units(units, address, candidates, place - units.len())
}

// What a device names behind its units: its unit address at each of these, then the images of its
// candidates.
#[tactic(auto, using(crate::proofs::Rows::rows))]
fn behind_units<A: Allocator>(
    units: &[UnitNo],
    address: u8,
    candidates: Option<&List<Name, A>>,
    place: usize,
) -> Option<Named>
    ensures { result ≡ slice_get (map (names.address_named address) units.now
        ++ map names.image_named (unwrap_or (option_copied candidates.entry) [])) place }
{
    if place < units.len() {
        return address_at(address, units, place);
    }
    candidate_at(candidates, place - units.len())
}

/// How many images a path names.
pub fn path_names_len(access: &[Name], candidates: &[Name]) -> usize
    ensures { result ≡ length (map names.image_named access.now ++ map names.image_named candidates.now) }
{
    access.len() + candidates.len()
}

/// How many paths a unit names.
pub fn unit_names_len(paths: &[CssPath]) -> usize
    ensures { result ≡ length (map names.path_named paths.now) }
{
    paths.len()
}

/// How many units, unit addresses and images a device names.
pub fn device_names_len<A: Allocator>(units: &[UnitNo], candidates: Option<&List<Name, A>>) -> usize
    ensures { (address : ℕ) → result ≡ length
        (map names.unit_named units.now ++ map (names.address_named address) units.now
        ++ map names.image_named (unwrap_or (option_copied candidates.entry) [])) }
{
    match candidates {
        Some(list) => units.len() + units.len() + list.as_slice().len(),
        None => units.len() + units.len(),
    }
}
