ghost use Rattle.iocm_history.specs.JournalLaws.{
  EachChangeIsThere,
  OnlyTheseAreThere,
  ChangesStayThere,
  ActivationsAreThere,
  CommitsAreThere,
  TheGreatestIsFound,
  LaterStandOnIt,
  OthersStandOnIt,
  UndoMeansTheUndo,
  RedoMeansTheRedo,
  ChangesAreEntries,
  StandingWereAccepted,
  UndoneWereAccepted,
  OneLessStands,
  OneLessIsUndone,
  ChangesWereMade,
  StagesAreReady,
};

/// Each change that was accepted is there, by its number: they are numbered from 1 as they came.
pub fn each_change_is_there()
    ensures { EachChangeIsThere }
{}

/// And no other change is there.
pub fn only_these_are_there()
    ensures { OnlyTheseAreThere }
{}

/// A change that is there stays there as it is, whatever entry comes.
pub fn changes_stay_there()
    ensures { ChangesStayThere }
{}

/// An accepted activation is there as the change that its tree means in the state now.
pub fn activations_are_there()
    ensures { ActivationsAreThere }
{}

/// An accepted Commit is there as the staged change.
pub fn commits_are_there()
    ensures { CommitsAreThere }
{}

/// The greatest of some numbers is the one that is among them and that none of them exceeds; of
/// none there is none.
pub fn the_greatest_is_found()
    ensures { TheGreatestIsFound }
{}

/// On a change that fits stand the later changes that stand and wrote a cell that it wrote.
pub fn later_stand_on_it()
    ensures { LaterStandOnIt }
{}

/// On a change that does not fit stand the later changes that stand, and the earlier ones that do
/// not and were undone since it was accepted.
pub fn others_stand_on_it()
    ensures { OthersStandOnIt }
{}

/// Where nothing is staged, a change stands, nothing stands on it and its subchannels are quiet,
/// its undo is accepted, and does what its inverse tree means in the state now.
pub fn undo_means_the_undo()
    ensures { UndoMeansTheUndo }
{}

/// Where nothing is staged, a change is the last one undone and its subchannels are quiet, its redo
/// is accepted. If the change was not undone or redone since its last undo, the redo does what any
/// tree means that takes back what the undo did.
pub fn redo_means_the_redo()
    ensures { RedoMeansTheRedo }
{}

/// No more changes were accepted than entries came.
pub fn changes_are_entries()
    ensures { ChangesAreEntries }
{}

/// A change that stands has the number of one that was accepted.
pub fn standing_were_accepted()
    ensures { StandingWereAccepted }
{}

/// So has a change that is undone, and it does not stand.
pub fn undone_were_accepted()
    ensures { UndoneWereAccepted }
{}

/// Without one of the changes that stand, one less stands: none is there twice.
pub fn one_less_stands()
    ensures { OneLessStands }
{}

/// Without one of the changes that are undone, one less is undone.
pub fn one_less_is_undone()
    ensures { OneLessIsUndone }
{}

/// Each change that is there was made in a state in use, where its edits were accepted, of which
/// there are no more than a change tree may have leaves; and they left a state in which the rules
/// hold.
pub fn changes_were_made()
    ensures { ChangesWereMade }
{}

/// While a change is staged, the configuration, the numbers and the live records of the subchannels
/// that it alters are those of the state where it was made.
pub fn stages_are_ready()
    ensures { StagesAreReady }
{}
