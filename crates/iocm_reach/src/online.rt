ghost use Rattle.std.specs.Prelude.{◌≡◌, ◌<◌, nat_eq};
ghost use Rattle.std.specs.Cmp.Lexicographic.{pointwise};
ghost use Rattle.iocm_types.specs.declared.key.Key.TheVariants as keys;
ghost use Rattle.iocm_model.specs.Machine.Configuration.{lookup_of};
ghost use Rattle.iocm_reach.specs.Ranges.{least, online_within};
ghost use Rattle.iocm_reach.specs.Reached.{is_named, online_to};
ghost use Rattle.iocm_reach.specs.Marking.{AreMarksOf, IsRowMarked};
ghost use Rattle.iocm_reach.specs.Writing.{AreNamesOf};

use crate::range::PathRange;
use iocm_config::Config;
use iocm_types::{Chpid, Key, Name};
use std::alloc::Allocator;

/// A path, and the name of an image to which it is online.
#[derive(Clone, Copy)]
struct OnlinePath {
    path: Chpid,
    name: Name,
}

/// To which images of a channel subsystem the paths of a range are online: by one walk over the
/// records that say so. These may name others, too.
pub fn online_images<A: Allocator>(
    config: &Config<A>,
    names: &[Option<Name>; 16],
    range: &PathRange,
) -> [bool; 4096]
    requires { AreNamesOf (lookup_of config.now.records) range.now.css names.now }
    ensures { AreMarksOf (online_to (lookup_of config.now.records) range.now.css) range.now result }
{
    let mut online = [false; 4096];
    for (key, _) in config.walk_from(&first_online(range)) {
        let Some(row) = online_within(key, range) else {
            return online;
        };
        mark_online(&mut online, names, &row);
    }
    online
}

/// Marks the images of a name at a path.
fn mark_online(online: &mut [bool; 4096], names: &[Option<Name>; 16], row: &OnlinePath)
    ensures { IsRowMarked row.now.path (λ n. pointwise nat_eq n row.now.name) names.now online.old online.new }
{
    let first = usize::from(row.path.number()) * 16;
    for mif in 1usize..16 {
        online[first + mif] |= is_called(&names[mif], &row.name);
    }
}

/// Whether there is an image, and it has this name.
fn is_called(image: &Option<Name>, name: &Name) -> bool
    ensures { result ≡ is_named (λ n. pointwise nat_eq n name.now) image.now }
{
    match image {
        Some(other) => *other == *name,
        None => false,
    }
}

/// The path whose key this is, with the image to which it is online, if it is that of an online
/// path of the channel subsystem up to the last of a range.
fn online_within(key: &Key, range: &PathRange) -> Option<OnlinePath>
    ensures { result ≡ online_within range.now key.now }
{
    match key {
        Key::Online(css, path, name) if *css == range.css && path.number() <= range.last.number() =>
            {
                Some(OnlinePath {
                    path: *path,
                    name: *name,
                })
            }
        _ => None,
    }
}

/// The first key that a record can have by which a path of a range is online.
fn first_online(range: &PathRange) -> Key
    ensures key { result ≡ keys.Online range.now.css range.now.first least }
    ensures last { range.now.last < 256 }
{
    // For the proof alone: it is the number of a path.
    let _ = range.last.number();
    Key::Online(range.css, range.first, least_name())
}

/// The name that is before all others.
fn least_name() -> Name
    ensures { result ≡ least }
{
    match Name::new(b"A") {
        Some(name) => name,
        None => unreachable!(),
    }
}
