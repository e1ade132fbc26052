ghost use Rattle.iocm_index.specs.Namings.{AreTheirNamings};

/// Sets in which the same namings are, are the same set. So what `Index::link` and `Index::unlink`
/// say of each naming determines the set, and what is linked and unlinked again leaves the set as
/// it was, where it had none of these namings.
pub fn sets_are_their_namings()
    ensures { AreTheirNamings }
{}
