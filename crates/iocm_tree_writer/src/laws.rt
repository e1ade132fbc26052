//! What holds of the definitions themselves. Each law is the contract of a function that does
//! nothing.
ghost use Rattle.iocm_tree_writer.specs.Again.{GivesActions, GivesTrees, ReadsLeafAgain};
ghost use Rattle.iocm_tree_writer.specs.Again.{ReadsReadTreeAgain, ReadsTreeAgain};

/// The line of a leaf is read as its edit alone: of each kind of record that is added or modified,
/// and of each kind of key that is deleted. Each record of a configuration deck may be added,
/// deleted and, unless it is an Online record, modified.
pub fn leaves_are_read_again()
    ensures leaf { ReadsLeafAgain }
    ensures given { GivesActions }
{}

/// What is written of a tree is read as the same tree, from the bytes of its deck, if the tree is
/// within the limits and its edits are such as decks and change decks give: nothing comes along
/// with them, and none modifies an Online record. Each tree that is read from a change deck is
/// such; so what is written of it is read as the same tree.
///
/// Promise: a change such as decks can say is written so that it is read as the same change.
pub fn trees_are_read_again()
    ensures given { GivesTrees }
    ensures tree { ReadsTreeAgain }
    ensures same { ReadsReadTreeAgain }
{}
