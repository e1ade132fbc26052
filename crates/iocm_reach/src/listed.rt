ghost use Rattle.std.specs.Prelude.{◌≡◌, ◌<◌, Some};
ghost use Rattle.iocm_types.specs.declared.key.Key.TheVariants as keys;
ghost use Rattle.iocm_model.specs.Machine.Configuration.{lookup_of};
ghost use Rattle.iocm_model.specs.Machine.Sight.{record_lists};
ghost use Rattle.iocm_reach.specs.Ranges.{path_within};
ghost use Rattle.iocm_reach.specs.Reached.{is_named, reached_by};
ghost use Rattle.iocm_reach.specs.Marking.{AreMarksOf, IsRowMarked};
ghost use Rattle.iocm_reach.specs.Writing.{AreNamesOf};

use crate::image_path::is_listed_near;
use crate::range::PathRange;
use iocm_config::Config;
use iocm_record::Record;
use iocm_types::{Chpid, Key, Name};
use std::alloc::Allocator;

/// Which images of a channel subsystem reach the paths of a range: by one walk over the records of
/// those paths.
pub fn listed_images<A: Allocator>(
    config: &Config<A>,
    names: &[Option<Name>; 16],
    range: &PathRange,
) -> [bool; 4096]
    requires { AreNamesOf (lookup_of config.now.records) range.now.css names.now }
    ensures { AreMarksOf (reached_by (lookup_of config.now.records) range.now.css) range.now result }
{
    let mut listed = [false; 4096];
    for (key, entry) in config.walk_from(&first_path(range)) {
        let Some(path) = path_within(key, range) else {
            return listed;
        };
        mark_listed(&mut listed, names, path, entry);
    }
    listed
}

/// Marks the images in the lists of a path. A name mostly stands in the access list after the one
/// that was found last.
fn mark_listed<A: Allocator>(
    listed: &mut [bool; 4096],
    names: &[Option<Name>; 16],
    path: Chpid,
    entry: &Record<A>,
)
    ensures { IsRowMarked path (λ n. record_lists n (Some entry.now)) names.now listed.old listed.new }
{
    let first = usize::from(path.number()) * 16;
    let mut near = 0usize;
    for mif in 1usize..16 {
        let is_listed = is_image_listed(entry, &names[mif], near);
        listed[first + mif] |= is_listed;
        near += usize::from(is_listed);
    }
}

/// Whether there is an image, and a record is of a path that has its name in a list.
fn is_image_listed<A: Allocator>(entry: &Record<A>, image: &Option<Name>, near: usize) -> bool
    ensures { result ≡ is_named (λ n. record_lists n (Some entry.now)) image.now }
{
    match image {
        Some(name) => is_listed_near(entry, *name, near),
        None => false,
    }
}

/// The path whose key this is, if it is that of a path of the channel subsystem up to the last of a
/// range.
fn path_within(key: &Key, range: &PathRange) -> Option<Chpid>
    ensures { result ≡ path_within range.now key.now }
{
    match key {
        Key::Path(css, path) if *css == range.css && path.number() <= range.last.number() => {
            Some(*path)
        }
        _ => None,
    }
}

/// The first key that a record can have that is of a path of a range.
fn first_path(range: &PathRange) -> Key
    ensures key { result ≡ keys.Path range.now.css range.now.first }
    ensures last { range.now.last < 256 }
{
    // For the proof alone: it is the number of a path.
    let _ = range.last.number();
    Key::Path(range.css, range.first)
}
