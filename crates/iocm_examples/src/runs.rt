ghost use Rattle.iocm_examples.specs.Histories.{GivesItsAnswers};
ghost use Rattle.iocm_examples.specs.Fitting.{FromAnotherValue, NotThereToDelete, ThereToAdd};
ghost use Rattle.iocm_examples.specs.InTheWay.{put_back_by_a_later, numbers_from_one};
ghost use Rattle.iocm_examples.specs.Premises.{
  ADeletionUndone,
  APathRedone,
  ADeletionRedone,
  ADeletionInStages,
  ADeletionGivenUp,
  UnderALaterChange,
  NoRunWithoutTheFirst,
};
ghost use Rattle.iocm_examples.specs.WithoutAChange.{NumbersAnew, seen_meanwhile, seen_without};

/// The run without an undone change, under later changes, need not be legal with the same answers:
/// a device that came later has another number in it, and a step is answered otherwise: computed.
pub fn runs_without_a_change_are_as_worked()
    ensures numbers { NumbersAnew }
    ensures no_run { NoRunWithoutTheFirst }
    ensures seen { GivesItsAnswers seen_meanwhile }
    ensures without { GivesItsAnswers seen_without }
{}

/// An undo under a later change that put a subchannel back, and changes of number 0: computed.
pub fn what_blocks_is_as_worked()
    ensures put_back { GivesItsAnswers put_back_by_a_later }
    ensures from_one { GivesItsAnswers numbers_from_one }
{}

/// Changes that don't fit a state because an inverse would come from another value, or is refused
/// by its key: computed.
pub fn changes_fit_as_worked()
    ensures another { FromAnotherValue }
    ensures not_there { NotThereToDelete }
    ensures there { ThereToAdd }
{}

/// Runs that meet the premises of the laws of `iocm_runs` and of changes in stages, computed. They
/// are an undo and a redo with steps between, and a redo with another undo and redo between. Others
/// are the undo of a change in stages, one that is given up, and an undo under a later change.
pub fn premises_are_met()
    ensures undone { ADeletionUndone }
    ensures redone { APathRedone }
    ensures among { ADeletionRedone }
    ensures in_stages { ADeletionInStages }
    ensures given_up { ADeletionGivenUp }
    ensures later { UnderALaterChange }
{}
