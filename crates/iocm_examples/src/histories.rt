ghost use Rattle.iocm_examples.specs.Histories.{
  GivesItsAnswers,
  LatestFirst,
  three_changes,
  empty_changes,
  AChooseUndone,
  StepsElsewhere,
  PendingStatus,
  a_path_comes_online,
  APathUndone,
  a_path_in_use,
  ABusyUndo,
  ABusyRedo,
  UndoneInTurn,
};
ghost use Rattle.iocm_examples.specs.SelectiveUndo.{
  CellsApart,
  paths_turned,
  an_address_taken,
  an_earlier_undone,
  stood_on_and_busy,
  not_last_and_busy,
  nothing_in_common,
  a_past_one,
  a_later_undone,
  put_back_at_once,
  a_number_in_common,
  TwoNumbersForAWhile,
};
ghost use Rattle.iocm_examples.specs.Stages.{
  held_and_aborted,
  decided_at_begin,
  CountedDown,
  LeftStaged,
  held_before_they_are_there,
  AbortedAtEachStage,
  PastByACommit,
};
ghost use Rattle.iocm_examples.specs.Starts.{taken_back, ended_before_it_began, in_the_way, held_when_staged};

/// Undo and redo of changes that stand on each other, that aren't there or that are past, and what
/// the refusals name: runs on the example deck, computed from the definitions.
pub fn undo_and_redo_are_as_worked()
    ensures latest_first { LatestFirst }
    ensures three { GivesItsAnswers three_changes }
    ensures empty { GivesItsAnswers empty_changes }
{}

/// Steps that stand in the way of a change, and steps on subchannels that a change doesn't alter,
/// which stay through its undo: computed.
pub fn steps_elsewhere_are_as_worked()
    ensures chosen { AChooseUndone }
    ensures elsewhere { StepsElsewhere }
    ensures pending { PendingStatus }
{}

/// Steps on subchannels that a change altered: the undo waits until they are quiet and strikes the
/// steps since the change, and the redo brings these back: computed.
pub fn steps_on_altered_subchannels_are_as_worked()
    ensures online { GivesItsAnswers a_path_comes_online }
    ensures undone { APathUndone }
    ensures in_use { GivesItsAnswers a_path_in_use }
    ensures busy { ABusyUndo }
    ensures busy_redo { ABusyRedo }
    ensures in_turn { UndoneInTurn }
{}

/// Changes that are undone under later ones, and those that are not: because a later change has a
/// cell in common, because the undo would not take back what the change did, or because an earlier
/// one is undone; and which refusal comes first: computed.
pub fn undo_under_later_changes_is_as_worked()
    ensures apart { CellsApart }
    ensures turned { GivesItsAnswers paths_turned }
    ensures address { GivesItsAnswers an_address_taken }
    ensures earlier { GivesItsAnswers an_earlier_undone }
    ensures stood_on { GivesItsAnswers stood_on_and_busy }
    ensures not_last { GivesItsAnswers not_last_and_busy }
    ensures nothing { GivesItsAnswers nothing_in_common }
{}

/// What is in the way of an undo: an earlier change that was undone also once it is past, a later
/// one only while it stands, one that wrote a cell that the change put back itself, and one that
/// has a number alone in common. And a history in which a device has two numbers for a while once a
/// change is undone: computed.
pub fn what_is_in_the_way_is_as_worked()
    ensures past { GivesItsAnswers a_past_one }
    ensures later { GivesItsAnswers a_later_undone }
    ensures put_back { GivesItsAnswers put_back_at_once }
    ensures number { GivesItsAnswers a_number_in_common }
    ensures two_numbers { TwoNumbersForAWhile }
{}

/// Changes in stages: what is held, what is left, what a Commit and an Abort do, and what waits for
/// them: computed.
pub fn stages_are_as_worked()
    ensures aborted { GivesItsAnswers held_and_aborted }
    ensures decided { GivesItsAnswers decided_at_begin }
    ensures counted { CountedDown }
    ensures left_staged { LeftStaged }
    ensures to_come { GivesItsAnswers held_before_they_are_there }
    ensures each_stage { AbortedAtEachStage }
    ensures past { PastByACommit }
{}

/// Starts that are pending: CANCEL takes them back, a device begin makes them active, and until
/// then they stand in the way of changes: computed.
pub fn pending_starts_are_as_worked()
    ensures taken_back { GivesItsAnswers taken_back }
    ensures ended { GivesItsAnswers ended_before_it_began }
    ensures in_the_way { GivesItsAnswers in_the_way }
    ensures staged { GivesItsAnswers held_when_staged }
{}
