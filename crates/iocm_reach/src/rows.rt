ghost use Rattle.std.specs.Prelude.{◌≡◌, ◌<◌, length};
ghost use Rattle.iocm_model.specs.Machine.Configuration.{lookup_of};
ghost use Rattle.iocm_reach.specs.Tabled.{row_of};
ghost use Rattle.iocm_reach.specs.Writing.{AreRowsSet, AreRowsWritten};

use crate::image_path::ImagePath;
use crate::listed::listed_images;
use crate::names::names_of;
use crate::online::online_images;
use crate::range::PathRange;
use iocm_config::Config;
use iocm_types::CssPath;
use std::alloc::Allocator;

/// How many places a table has: 16 for each of 256 paths of six channel subsystems.
pub const PLACES: usize = 6 * 256 * 16;

/// Writes the rows of a range of paths, by a walk over their records and one over those by which
/// they are online. The names of images are looked up once.
pub fn set_rows<A: Allocator>(table: &mut [ImagePath], config: &Config<A>, range: &PathRange)
    requires { length table.old ≡ 24576 }
    ensures { AreRowsSet (lookup_of config.now.records) range.now table.old table.new }
{
    let names = names_of(config, range.css);
    let listed = listed_images(config, &names, range);
    let online = online_images(config, &names, range);
    write_rows(table, range, &listed, &online);
}

/// Writes which images reach the paths of a range, and to which these are online, at the places of
/// a channel subsystem.
fn write_rows(
    table: &mut [ImagePath],
    range: &PathRange,
    listed: &[bool; 4096],
    online: &[bool; 4096],
)
    requires { length table.old ≡ 24576 }
    ensures { AreRowsWritten range.now listed.now online.now table.old table.new }
{
    let start = usize::from(range.css.number()) * 4096;
    let first = usize::from(range.first.number()) * 16;
    let end = usize::from(range.last.number()) * 16 + 16;
    for place in first..end {
        table[start + place] = ImagePath {
            reached: listed[place],
            online: online[place],
        };
    }
}

/// The row of a path.
pub fn row_of(at: &CssPath) -> usize
    ensures row { result ≡ row_of at.now.css at.now.path }
    ensures within { result < 1536 }
    ensures css { at.now.css < 6 }
    ensures path { at.now.path < 256 }
{
    usize::from(at.css.number()) * 256 + usize::from(at.path.number())
}
