//! What holds of the definitions themselves. Each law is the contract of a function that does
//! nothing.
ghost use Rattle.iocm_difference_writer.specs.Again.{DifferenceIsReadAgain};

/// The text of actions is read, from the bytes of its change deck, as a tree whose edits are these,
/// one after the other: of actions such as decks and change decks give, no more than a tree may
/// have. What was there of a configuration of a deck stands in comments, which don't count.
///
/// Promise: what `diff` prints is read again as the same edits in their order, if at most 4,096.
pub fn differences_are_read_again()
    ensures { DifferenceIsReadAgain }
{}
