ghost use Rattle.std.specs.Prelude.{◌≡◌, true};
ghost use Rattle.std.specs.Option.{option_copied, option_map};
ghost use Rattle.iocm_types.specs.declared.key.Key.TheVariants as key;
ghost use Rattle.iocm_model.specs.Machine.Configuration.{lookup_of, as_device};
ghost use Rattle.iocm_model.specs.Machine.Mask.{is_online};
ghost use Rattle.iocm_model.specs.Machine.Record.{path};
ghost use Rattle.iocm_model.specs.Machine.Sight.{has_name, reaches, record_lists};
ghost use Rattle.iocm_model.specs.Machine.View.{device_record};
ghost use Rattle.iocm_record.specs.Meaning as meaning;
ghost use Rattle.iocm_derive.specs.Derived.{all_paths, image_name, name_at};

use crate::sight::has_name;
use iocm_config::Config;
use iocm_record::{DeviceFields, PathFields, Record, RecordBody};
use iocm_types::{Chpid, Css, CssPath, DevNo, Image, Key, Name, SetNo, UnitNo};
use std::alloc::Allocator;

/// The device of a number in a set, if there is one.
pub fn find_device<A: Allocator>(
    config: &Config<A>,
    set: SetNo,
    device: DevNo,
) -> Option<&DeviceFields<A>>
    ensures { option_map meaning.device_of (option_copied result)
        ≡ device_record (lookup_of config.now.records) set device }
{
    device_fields(config.get(&Key::Device(set, device))?)
}

/// The device of a record, if it is that of one.
pub fn device_fields<A: Allocator>(entry: &Record<A>) -> Option<&DeviceFields<A>>
    ensures { option_map meaning.device_of (option_copied result) ≡ as_device entry.now }
{
    match entry.body() {
        RecordBody::Device(fields) => Some(fields),
        _ => None,
    }
}

/// The channel subsystem and the name in an image's record, if there is one.
pub fn find_image<A: Allocator>(config: &Config<A>, image: Image) -> Option<(Css, Name)>
    ensures { result ≡ image_name (lookup_of config.now.records) image }
{
    match config.get(&Key::Image(image.css, image.mif))?.body() {
        RecordBody::Image(css, _, name) => Some((*css, *name)),
        _ => None,
    }
}

/// The name of an image, if it is there.
pub fn name_of_image<A: Allocator>(config: &Config<A>, image: Image) -> Option<Name>
    ensures { result ≡ name_at (lookup_of config.now.records) image }
{
    match config.get(&Key::Image(image.css, image.mif))?.body() {
        RecordBody::Image(_, _, name) => Some(*name),
        _ => None,
    }
}

/// The paths of a control unit in all channel subsystems; a unit that isn't there has none.
pub fn find_paths<A: Allocator>(config: &Config<A>, unit: UnitNo) -> &[CssPath]
    ensures { result.now ≡ all_paths (lookup_of config.now.records (key.Unit unit)) }
{
    paths_in(config.get(&Key::Unit(unit)))
}

/// The paths of a control unit, if the record is there and that of one; else none.
pub fn paths_in<A: Allocator>(found: Option<&Record<A>>) -> &[CssPath]
    ensures { result.now ≡ all_paths (option_copied found.entry) }
{
    let Some(entry) = found else {
        return &[];
    };
    match entry.body() {
        RecordBody::Unit(fields) => fields.paths.as_slice(),
        _ => &[],
    }
}

/// Whether the image of a name reaches a path of its channel subsystem.
pub fn reaches_path<A: Allocator>(config: &Config<A>, css: Css, name: Name, path: Chpid) -> bool
    ensures { result ≡ reaches (lookup_of config.now.records) css name path }
{
    match config.get(&Key::Path(css, path)) {
        Some(entry) => lists_image(entry, name),
        None => false,
    }
}

/// Whether a record is of a path that has a name in its access or its candidate list.
pub fn lists_image<A: Allocator>(entry: &Record<A>, name: Name) -> bool
    ensures { result ≡ record_lists name (Some entry.now) }
{
    match entry.body() {
        RecordBody::Path(fields) => lists_name(fields, name),
        _ => false,
    }
}

/// Whether a path has a name in its access or its candidate list.
pub fn lists_name<A: Allocator>(fields: &PathFields<A>, name: Name) -> bool
    ensures { result ≡ record_lists name (Some (path (meaning.path_of fields.now))) }
{
    has_name(fields.access.as_slice(), name) || has_name(fields.candidates.as_slice(), name)
}

/// Whether a path is online to the image of a name.
pub fn is_path_online<A: Allocator>(config: &Config<A>, css: Css, name: Name, path: Chpid) -> bool
    ensures { result ≡ is_online (lookup_of config.now.records) css name path }
{
    config.get(&Key::Online(css, path, name)).is_some()
}
