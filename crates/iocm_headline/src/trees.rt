ghost use Rattle.iocm_headline.specs.KeptInverses.{KeptInversesTakeBack, ToldInversesTakeBack};

/// Each change that a journal keeps has an inverse tree that takes it back, whether the change
/// stands, is undone, or is past. It does so at every state with the configuration and the numbers
/// that the change left in which the subchannels that it altered are quiet.
///
/// Promise: each inverse that the journal keeps takes its change back.
pub fn kept_inverses_take_back()
    ensures { KeptInversesTakeBack }
{}

/// The inverse tree that is told of a staged change, as by its commit, takes it back.
pub fn told_inverses_take_back()
    ensures { ToldInversesTakeBack }
{}
