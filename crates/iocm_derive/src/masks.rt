ghost use Rattle.std.specs.Prelude.{◌≡◌, if◌then◌else◌};
ghost use Rattle.iocm_model.specs.Machine.Configuration.{lookup_of};
ghost use Rattle.iocm_model.specs.Machine.Mask.{installed, available};

use crate::reach::{ImageRecords, Reach};
use iocm_config::Config;
use iocm_types::{Css, Mask, Name, Paths};
use std::alloc::Allocator;

/// The path-installed mask of an image over a path list: the paths that it reaches.
pub fn pim<A: Allocator>(config: &Config<A>, css: Css, name: Name, paths: &Paths) -> Mask
    ensures { result ≡ installed (lookup_of config.now.records) css name paths.now }
{
    installed_paths(&ImageRecords::new(config, css, name), paths)
}

/// The path-available mask of an image over a path list: the paths that are online to it.
pub fn pam<A: Allocator>(config: &Config<A>, css: Css, name: Name, paths: &Paths) -> Mask
    ensures { result ≡ available (lookup_of config.now.records) css name paths.now }
{
    available_paths(&ImageRecords::new(config, css, name), paths)
}

/// The mask of the paths that an image reaches.
pub fn installed_paths<A: Allocator, R: Reach<A>>(reach: &R, paths: &Paths) -> Mask
    ensures { result
        ≡ installed (lookup_of (R.records reach.now)) (R.subsystem reach.now) (R.called reach.now) paths.now }
{
    let mut bit = 128u8;
    let mut bits = 0u8;
    for path in paths.as_slice() {
        bits += bit_if(reach.reaches(*path), bit);
        bit /= 2;
    }
    Mask::from_bits(bits)
}

/// The mask of the paths that are online to an image.
pub fn available_paths<A: Allocator, R: Reach<A>>(reach: &R, paths: &Paths) -> Mask
    ensures { result
        ≡ available (lookup_of (R.records reach.now)) (R.subsystem reach.now) (R.called reach.now) paths.now }
{
    let mut bit = 128u8;
    let mut bits = 0u8;
    for path in paths.as_slice() {
        bits += bit_if(reach.is_online(*path), bit);
        bit /= 2;
    }
    Mask::from_bits(bits)
}

/// The bit, or nothing.
fn bit_if(set: bool, bit: u8) -> u8
    ensures { result ≡ (if set then bit else 0) }
{
    if set { bit } else { 0 }
}
