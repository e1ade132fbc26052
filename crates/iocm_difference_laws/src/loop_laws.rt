ghost use Rattle.iocm_difference_laws.specs.Accepted.{AcceptedDecksAreConfigurationsOfDecks, CheckAcceptsThem};
ghost use Rattle.iocm_difference_laws.specs.Loop.{DiffPrintsTheDifference, TheLoopCloses};
ghost use Rattle.iocm_difference_laws.specs.Online.{AreOnlineByTheirLists, DeckOfADeckSaysAll};
ghost use Rattle.iocm_difference_laws.specs.LoopRoom.{NoRoomIsRefused, RoomClosesTheLoop};

/// `check` ends as done exactly where a configuration is read that keeps the rules when it is
/// opened. Such a configuration is one that a deck gives.
pub fn accepted_decks_are_of_decks()
    ensures accepted { CheckAcceptsThem }
    ensures given { AcceptedDecksAreConfigurationsOfDecks }
{}

/// In the configuration of such a deck exactly the pairs of the access lists are online. So the deck
/// that `apply` prints of it has no comments.
pub fn a_deck_says_all()
    ensures lists { AreOnlineByTheirLists }
    ensures all { DeckOfADeckSaysAll }
{}

/// `diff` prints the text of the difference of two such decks. Of the old deck and of this text
/// `apply --deck` prints what `write` prints of the new deck, if a change may have so many edits.
/// Where a device has no room, it prints the refusal with V13.
///
/// Promise: of at most 4,096 edits, `apply --deck` of `diff` is `write` of the new deck, or V13.
pub fn the_loop_closes()
    ensures told { DiffPrintsTheDifference }
    ensures closes { TheLoopCloses }
{}

/// Where a device has no room after the change, `apply --deck` prints the refusal with V13 and the
/// key of the first. Where each limit of the new deck is at least the number of devices of its set,
/// in the old deck and in the new one, it prints what `write` prints of the new deck.
///
/// Promise: with limits that are high enough V13 doesn't come.
pub fn room_closes_the_loop()
    ensures refused { NoRoomIsRefused }
    ensures closes { RoomClosesTheLoop }
{}
