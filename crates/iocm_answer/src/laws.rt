//! What holds of the definitions themselves. Each law is the contract of a function that does
//! nothing.
ghost use Rattle.iocm_answer.specs.Commands.Check.{BeginsAsCheck};
ghost use Rattle.iocm_answer.specs.Examples.{AlteredAsWorked};
ghost use Rattle.iocm_answer.specs.Commands.Write.{PrintsTheSame};

/// What `write` writes of a deck that it doesn't refuse is read again: `check`, `show` and `write`
/// print of it what they print of the deck. So the canonical deck is accepted, has the same records
/// and subchannels, and is its own canonical deck.
///
/// Promise: `check`, `show` and `write` print of a written deck what they print of the deck.
pub fn what_is_written_is_read_again()
    ensures { PrintsTheSame }
{}

/// What `check --all` prints of a deck begins with what `check` prints of it, and ends with the same
/// status.
pub fn all_breaches_begin_with_the_first()
    ensures { BeginsAsCheck }
{}

/// An altered subchannel is asked for by the names of images before the change if something was seen
/// there, and by those afterwards if something is seen; one of both is enough.
pub fn altered_rows_are_asked_for_as_worked()
    ensures { AlteredAsWorked }
{}
