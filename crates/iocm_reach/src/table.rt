ghost use Rattle.std.specs.Prelude.{◌≡◌, IfOk, length};
ghost use Rattle.iocm_model.specs.Machine.Configuration.{Configuration, lookup_of};
ghost use Rattle.iocm_reach.specs.Reached.{path_to};
ghost use Rattle.iocm_reach.specs.Tabled.{IsReachOf, WasReach};

use crate::image_path::ImagePath;
use crate::images::set_image;
use crate::range::PathRange;
use crate::rows::{PLACES, row_of, set_rows};
use iocm_config::Config;
use iocm_types::{Chpid, Css, CssPath, Key, Mif};
use std::alloc::{AllocError, Allocator, Global};
use std::marker::Model;

/// What each image of a configuration has of each path of its channel subsystem. Contracts see the
/// table's places.
#[derive(Drop)]
pub struct ReachTable<A: Allocator = Global> {
    table: Vec<ImagePath, A>,
}

impl<A: Allocator> Model for ReachTable<A> {
    ghost use Rattle.std.specs.Prelude.{◌≡◌, List, length};
    ghost use Rattle.iocm_reach.specs.declared.image_path.ImagePath.{ImagePath};

    ghost Value = { List ImagePath };

    ghost view = { λ t. t.table.items };

    ghost invariant = { λ t. length t.table.items ≡ 24576 };
}

impl<A: Allocator> ReachTable<A> {
    /// The table of a configuration. It has 24,576 entries, which are all written. Beyond that the
    /// time is in proportion to the configuration's paths and to the records by which these are
    /// online, each with 15 images.
    ///
    /// `AllocError` (M1): memory ran out.
    pub fn new<B: Allocator>(alloc: A, config: &Config<B>) -> Result<Self, AllocError>
        ensures { IfOk result (λ table. IsReachOf config.now.records table) }
    {
        let mut table = blank(alloc, PLACES)?;
        set_all(table.as_mut_slice(), config);
        Ok(ReachTable { table })
    }

    /// What the image of a MIF image ID has of a path of its channel subsystem, in the configuration
    /// whose table it is.
    pub fn get(&self, path: &CssPath, mif: Mif) -> ImagePath
        ensures { (m : Configuration) → IsReachOf m self.now
            → result ≡ path_to (lookup_of m) path.now.css path.now.path mif }
    {
        self.table[row_of(path) * 16 + usize::from(mif.number())]
    }

    /// Makes the table that of a configuration, where it was that before the record of a key was
    /// put, changed or taken away. Only the records of images, paths and online paths matter. Can't
    /// run out of memory.
    pub fn renew<B: Allocator>(&mut self, config: &Config<B>, key: &Key)
        requires { WasReach key.now config.now.records self.old }
        ensures { IsReachOf config.now.records self.new }
    {
        follow_key(self.table.as_mut_slice(), config, key);
    }
}

/// Writes what the record of a key may have changed.
fn follow_key<B: Allocator>(table: &mut [ImagePath], config: &Config<B>, key: &Key)
    requires was { WasReach key.now config.now.records table.old }
    requires long { length table.old ≡ 24576 }
    ensures reach { IsReachOf config.now.records table.new }
    ensures long { length table.new ≡ length table.old }
{
    match key {
        Key::Image(css, mif) => set_image(table, config, *css, *mif),
        Key::Path(css, path) | Key::Online(css, path, _) => {
            let range = PathRange {
                css: *css,
                first: *path,
                last: *path,
            };
            set_rows(table, config, &range);
        }
        _ => {}
    }
}

/// A table of so many places, of an image that isn't there.
///
/// `AllocError` (M1): memory ran out.
fn blank<A: Allocator>(alloc: A, places: usize) -> Result<Vec<ImagePath, A>, AllocError>
    ensures { IfOk result (λ table. length table.items ≡ places) }
{
    Ok(vec![in alloc; ImagePath::NEITHER; places]?)
}

/// Writes the rows of all paths of all channel subsystems.
fn set_all<B: Allocator>(table: &mut [ImagePath], config: &Config<B>)
    requires { length table.old ≡ 24576 }
    ensures reach { IsReachOf config.now.records table.new }
    ensures long { length table.new ≡ length table.old }
{
    for number in 0u8..6 {
        let Some(css) = Css::new(number) else {
            unreachable!()
        };
        let range = PathRange {
            css,
            first: Chpid::new(0),
            last: Chpid::new(255),
        };
        set_rows(table, config, &range);
    }
}
