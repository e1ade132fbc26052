ghost use Rattle.std.specs.Prelude.{◌≡◌};
ghost use Rattle.std.specs.List.{list_any};
ghost use Rattle.iocm_model.specs.Machine.Configuration.{lookup_of};
ghost use Rattle.iocm_plan_filter.specs.Connected as meaning;

use crate::steps::{paths_of, reaches, reaches_any};
use iocm_config::Config;
use iocm_derive::sees;
use iocm_sight::NamedSight;
use iocm_types::{Image, Key, Name};

/// Whether an object is connected with one of these images.
pub(crate) fn is_of_any(config: &Config, images: &[NamedSight<'_>], key: &Key) -> bool
    ensures { result ≡ list_any (λ s. meaning.is_of_image (lookup_of config.entry.now.records) s.image key.entry.now)
        images.entry.now }
{
    images.iter().any(|image| is_of_image(config, image.image(), image.name(), key))
}

/// Whether an object is connected with the image of a name at a place.
fn is_of_image(config: &Config, image: Image, name: Name, key: &Key) -> bool
    ensures { result ≡ meaning.is_of_image (lookup_of config.now.records)
        (record { css = image.css; mif = image.mif; name = name }) key.now }
{
    let Image { css, mif } = image;
    match key {
        Key::Image(own, place) => css == *own && mif == *place,
        Key::Path(own, path) => css == *own && reaches(config, css, name, *path),
        Key::Unit(unit) => reaches_any(config, css, name, paths_of(config, *unit)),
        Key::Device(set, number) => sees(config, Image { css, mif }, *set, *number),
        _ => false,
    }
}
