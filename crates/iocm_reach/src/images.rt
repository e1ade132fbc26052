ghost use Rattle.std.specs.Prelude.{◌≡◌, ◌+◌, ◌*◌, ◌<◌, length, slice_set};
ghost use Rattle.iocm_model.specs.Machine.Configuration.{lookup_of};
ghost use Rattle.iocm_reach.specs.Reached.{path_as};
ghost use Rattle.iocm_reach.specs.Tabled.{row_of};
ghost use Rattle.iocm_reach.specs.Writing.{IsImageSet};

use crate::image_path::{ImagePath, image_path};
use crate::rows::row_of;
use iocm_config::{Config, RecordWalk};
use iocm_derive::name_of_image;
use iocm_types::{Chpid, Css, CssPath, Image, Key, Mif, Name};
use std::alloc::Allocator;

/// Writes what an image has of each path of its channel subsystem.
pub fn set_image<A: Allocator>(table: &mut [ImagePath], config: &Config<A>, css: Css, mif: Mif)
    requires { length table.old ≡ 24576 }
    ensures { IsImageSet (lookup_of config.now.records) css mif table.old table.new }
{
    let name = name_of_image(config, Image { css, mif });
    let place = usize::from(mif.number());
    let mut paths = RecordWalk::new(config);
    let mut online = RecordWalk::new(config);
    for number in 0u16..256 {
        let at = CssPath {
            css,
            path: Chpid::new(number as u8),
        };
        set_place(table, &mut paths, &mut online, &at, &name, place);
    }
}

/// Writes what the image of a name has of a path, at the place of its MIF image ID.
fn set_place<A: Allocator>(
    table: &mut [ImagePath],
    paths: &mut RecordWalk<'_, A>,
    online: &mut RecordWalk<'_, A>,
    at: &CssPath,
    name: &Option<Name>,
    mif: usize,
)
    requires alike { online.old ≡ paths.old }
    requires above { 0 < mif }
    requires below { mif < 16 }
    requires long { length table.old ≡ 24576 }
    ensures table { table.new ≡ slice_set table.old (row_of at.now.css at.now.path * 16 + mif)
        (path_as (lookup_of paths.old) at.now.css at.now.path name.now) }
    ensures paths { paths.new ≡ paths.old }
    ensures online { online.new ≡ online.old }
{
    let entry = paths.find(&Key::Path(at.css, at.path));
    let place = row_of(at) * 16 + mif;
    table[place] = image_path(online, at, entry, *name, mif - 1);
}
