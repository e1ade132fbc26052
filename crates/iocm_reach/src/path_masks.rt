ghost use Rattle.std.specs.Prelude.{◌≡◌, if◌then◌else◌};
ghost use Rattle.iocm_model.specs.Machine.Configuration.{lookup_of};
ghost use Rattle.iocm_model.specs.Machine.Mask.{installed, available};

use crate::ReachedImage;
use iocm_types::{Mask, Paths};
use std::alloc::Allocator;

/// The masks of an image over a path list.
#[derive(Clone, Copy)]
pub struct PathMasks {
    /// The paths that the image reaches.
    pub pim: Mask,
    /// The paths that are online to it.
    pub pam: Mask,
}

/// The path-installed and the path-available mask of an image over a path list, by one walk.
pub fn masks_over<A: Allocator, B: Allocator>(
    image: &ReachedImage<'_, A, B>,
    paths: &Paths,
) -> PathMasks
    ensures pim { result.pim
        ≡ installed (lookup_of image.now.records) image.now.image.css image.now.image.name paths.now }
    ensures pam { result.pam
        ≡ available (lookup_of image.now.records) image.now.image.css image.now.image.name paths.now }
{
    let mut bit = 128u8;
    let mut pim = 0u8;
    let mut pam = 0u8;
    for path in paths.as_slice() {
        let found = image.path(*path);
        pim += bit_if(found.reached, bit);
        pam += bit_if(found.online, bit);
        bit /= 2;
    }
    PathMasks {
        pim: Mask::from_bits(pim),
        pam: Mask::from_bits(pam),
    }
}

/// The bit, or nothing.
fn bit_if(set: bool, bit: u8) -> u8
    ensures { result ≡ (if set then bit else 0) }
{
    if set { bit } else { 0 }
}
