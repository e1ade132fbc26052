ghost use Rattle.iocm_model.specs.Laws.Masks.{InstalledBits, AvailableBits};

/// Each bit of a mask, from the left, is that of the path at its place in the list: it is set
/// exactly where there is such a path and, in the path-installed mask, the image reaches it, in the
/// path-available mask, it is online to the image.
///
/// Promise: each bit of PIM and of PAM is that of its path.
pub fn each_bit_is_of_its_path()
    ensures installed { InstalledBits }
    ensures available { AvailableBits }
{}
