ghost use Rattle.std.specs.Prelude.{◌≡◌};
ghost use Rattle.iocm_seats.specs.Listing.{is_past_images};

use iocm_types::Key;

/// Whether a key is past those of all images, before which are ID and RESOURCE alone.
pub(crate) fn is_past_images(key: &Key) -> bool
    ensures { result ≡ is_past_images key.now }
{
    !matches!(key, Key::Id | Key::Resource | Key::Image(_, _))
}
