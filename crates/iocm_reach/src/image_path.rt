ghost use Rattle.std.specs.Prelude.{◌≡◌, true, Some};
ghost use Rattle.std.specs.Option.{option_copied};
ghost use Rattle.iocm_types.specs.declared.key.Key.TheVariants as key;
ghost use Rattle.iocm_model.specs.Machine.Configuration.{lookup_of};
ghost use Rattle.iocm_model.specs.Machine.Sight.{has_name, record_lists};
ghost use Rattle.iocm_reach.specs.Reached.{path_as};

use iocm_config::RecordWalk;
use iocm_derive::lists_image;
use iocm_record::{Record, RecordBody};
use iocm_types::{CssPath, Key, Name};
use std::alloc::Allocator;

/// What an image has of a path of its channel subsystem.
#[derive(Clone, Copy, PartialEq, Eq)]
pub struct ImagePath {
    /// Whether the image is in the path's access or candidate list.
    pub reached: bool,
    /// Whether the path is online to the image.
    pub online: bool,
}

impl ImagePath {
    /// What an image that isn't there has of each path.
    pub const NEITHER: ImagePath = ImagePath {
        reached: false,
        online: false,
    };
}

/// What the image of a name has of a path with this record. Without a name it has neither. The
/// name mostly stands at the place `near` of the access list, and the online record after the one
/// that was found last.
pub fn image_path<A: Allocator>(
    records: &mut RecordWalk<'_, A>,
    at: &CssPath,
    entry: Option<&Record<A>>,
    name: Option<Name>,
    near: usize,
) -> ImagePath
    requires { option_copied entry ≡ lookup_of records.old (key.Path at.now.css at.now.path) }
    ensures path { result ≡ path_as (lookup_of records.old) at.now.css at.now.path name }
    ensures same { records.new ≡ records.old }
{
    let Some(name) = name else {
        return ImagePath::NEITHER;
    };
    let online = records.find(&Key::Online(at.css, at.path, name));
    ImagePath {
        reached: is_listed(entry, name, near),
        online: online.is_some(),
    }
}

/// Whether there is a record, and it is of a path that has a name in its access or its candidate
/// list. The name is first looked for at this place of the access list.
fn is_listed<A: Allocator>(entry: Option<&Record<A>>, name: Name, near: usize) -> bool
    ensures { result ≡ record_lists name (option_copied entry.entry) }
{
    match entry {
        Some(found) => is_listed_near(found, name, near),
        None => false,
    }
}

/// Whether a record is of a path that has a name in its access or its candidate list. The name is
/// first looked for at this place of the access list.
pub fn is_listed_near<A: Allocator>(entry: &Record<A>, name: Name, near: usize) -> bool
    ensures { result ≡ record_lists name (Some entry.now) }
{
    is_at(entry, name, near) || lists_image(entry, name)
}

/// Whether a record is of a path that has a name at this place of its access list.
fn is_at<A: Allocator>(entry: &Record<A>, name: Name, near: usize) -> bool
    ensures { result ≡ true → record_lists name (Some entry.now) ≡ true }
{
    match entry.body() {
        RecordBody::Path(fields) => has_at(fields.access.as_slice(), name, near),
        _ => false,
    }
}

/// Whether a name stands at a place of a list.
fn has_at(names: &[Name], name: Name, place: usize) -> bool
    ensures { result ≡ true → has_name name names.now ≡ true }
{
    match names.get(place) {
        Some(other) => name == *other,
        None => false,
    }
}
