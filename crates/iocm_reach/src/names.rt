ghost use Rattle.std.specs.Prelude.{◌≡◌, ◌<◌, IfSome, IsTrue};
ghost use Rattle.iocm_types.specs.Name.{is_name};
ghost use Rattle.iocm_model.specs.Machine.Configuration.{lookup_of};
ghost use Rattle.iocm_derive.specs.Derived.{name_at};
ghost use Rattle.iocm_reach.specs.Reached.{image_in};
ghost use Rattle.iocm_reach.specs.Writing.{AreNamesOf};

use iocm_config::Config;
use iocm_derive::ImageNames;
use iocm_types::{Css, Image, Mif, Name};
use std::alloc::Allocator;

/// The names of the images of a channel subsystem, by MIF image ID. None where there is no image.
pub fn names_of<A: Allocator>(config: &Config<A>, css: Css) -> [Option<Name>; 16]
    ensures { AreNamesOf (lookup_of config.now.records) css result }
{
    let none: Option<Name> = None;
    let mut names = [none; 16];
    let mut images = ImageNames::new(config);
    for number in 1u8..16 {
        names[usize::from(number)] = name_of(&mut images, css, number);
    }
    names
}

/// The name of an image by the number of its MIF image ID, if it is there.
fn name_of<A: Allocator>(images: &mut ImageNames<'_, A>, css: Css, number: u8) -> Option<Name>
    requires above { 0 < number }
    requires below { number < 16 }
    ensures name { result ≡ name_at (lookup_of images.old) (image_in css number) }
    ensures valid { IfSome result (λ name. IsTrue (is_name name)) }
    ensures same { images.new ≡ images.old }
{
    let Some(mif) = Mif::new(number) else {
        unreachable!()
    };
    let name = images.name(&Image { css, mif })?;
    // For the proof alone: it is a name.
    let _ = name.as_bytes();
    Some(name)
}
