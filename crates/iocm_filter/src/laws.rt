//! What holds of the definitions themselves. Each law is the contract of a function that does
//! nothing.
ghost use Rattle.std.specs.FinMap.{entries};
ghost use Rattle.iocm_filter.specs.Examples.{WordsAreRead};
ghost use Rattle.iocm_filter.specs.RowExamples.{RowsAsWorked, some_configuration};
ghost use Rattle.iocm_filter.specs.Sieves.{PassesWanted};
ghost use Rattle.iocm_filter.specs.Wanted.{NothingIsAll};

/// Words of each form are read as they are stated by hand, and others aren't.
pub fn words_are_read()
    ensures { WordsAreRead }
{}

/// In a small configuration the images, the devices, the views and the rows that are wanted are as
/// it is worked by hand.
#[tactic(auto, using(crate::proofs::WorkedRows::rows_as_worked))]
pub fn rows_are_wanted_as_worked()
    ensures { RowsAsWorked (entries some_configuration) }
{}

/// Where nothing is asked for, each subchannel is wanted; and just those that are wanted pass the
/// sieve of a configuration.
///
/// Promise: just the subchannels that filters ask for are listed; without filters, all.
#[tactic(auto, using(crate::proofs::WantedLaws::laws))]
pub fn nothing_asked_for_is_all()
    ensures all { NothingIsAll }
    ensures wanted { PassesWanted }
{}
