ghost use Rattle.std.specs.Prelude.{◌≡◌};
ghost use Rattle.iocm_model.specs.Machine.Configuration.{lookup_of};
ghost use Rattle.iocm_model.specs.Machine.Mask as mask;
ghost use Rattle.iocm_model.specs.Machine.Sight as sight;
ghost use Rattle.iocm_derive.specs.PathTables.{IsTableOf, path_under, online_under};

use crate::lookup::lists_image;
use iocm_config::Config;
use iocm_types::{Chpid, Css, Key, Name};
use std::alloc::Allocator;

/// The paths of a channel subsystem by their numbers: which of them the image of a name reaches,
/// and which are online to it.
#[derive(Drop)]
pub struct PathTables {
    pub reached: [bool; 256],
    pub online: [bool; 256],
}

/// A path, and the name of an image to which it is online.
#[derive(Clone, Copy)]
struct OnlinePath {
    path: Chpid,
    name: Name,
}

/// The tables of an image. The time is that of two searches, and in proportion to the paths that
/// the channel subsystem has and to how many are online to its images.
pub fn path_tables<A: Allocator>(config: &Config<A>, css: Css, name: Name) -> PathTables
    ensures reached { IsTableOf (sight.reaches (lookup_of config.now.records) css name) result.reached }
    ensures online { IsTableOf (mask.is_online (lookup_of config.now.records) css name) result.online }
{
    PathTables {
        reached: reached_paths(config, css, name),
        online: online_paths(config, css, name),
    }
}

/// Which paths the image of a name reaches, from the records of those that are there.
fn reached_paths<A: Allocator>(config: &Config<A>, css: Css, name: Name) -> [bool; 256]
    ensures { IsTableOf (sight.reaches (lookup_of config.now.records) css name) result }
{
    let mut reached = [false; 256];
    for (key, entry) in config.walk_from(&Key::Path(css, Chpid::new(0))) {
        let Some(path) = path_of(key, css) else {
            return reached;
        };
        reached[usize::from(path.number())] |= lists_image(entry, name);
    }
    reached
}

/// The path whose key this is, if it is that of a path of the channel subsystem.
fn path_of(key: &Key, css: Css) -> Option<Chpid>
    ensures { result ≡ path_under css key.now }
{
    match key {
        Key::Path(of, path) if *of == css => Some(*path),
        _ => None,
    }
}

/// Which paths are online to the image of a name, from the records of those that are online to any.
fn online_paths<A: Allocator>(config: &Config<A>, css: Css, name: Name) -> [bool; 256]
    ensures { IsTableOf (mask.is_online (lookup_of config.now.records) css name) result }
{
    let mut online = [false; 256];
    for (key, _) in config.walk_from(&Key::Online(css, Chpid::new(0), name)) {
        let Some(row) = online_of(key, css) else {
            return online;
        };
        online[usize::from(row.path.number())] |= name == row.name;
    }
    online
}

/// The path whose key this is, with the image to which it is online, if it is that of an online
/// path of the channel subsystem.
fn online_of(key: &Key, css: Css) -> Option<OnlinePath>
    ensures { result ≡ online_under css key.now }
{
    match key {
        Key::Online(of, path, name) if *of == css => Some(OnlinePath {
            path: *path,
            name: *name,
        }),
        _ => None,
    }
}
