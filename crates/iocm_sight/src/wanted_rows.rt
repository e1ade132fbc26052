ghost use Rattle.std.specs.Prelude.{◌≡◌};
ghost use Rattle.iocm_sight.specs.WantedRows as meaning;

use crate::asked::is_meant;
use iocm_filter::Filters;
use iocm_types::{Image, Name};

/// Whether an image is asked for, by its place or by its name, or none is.
pub fn wants_image(filters: &Filters, image: Image, name: Name) -> bool
    ensures { result ≡ meaning.wants_image filters.now
        (record { css = image.css; mif = image.mif; name = name }) }
{
    let words = filters.images();
    words.is_empty() || is_meant(words, image, name)
}
