ghost use Rattle.iocm_runs.specs.Inverses.{
  InversesOfEditsTakeBack,
  InversesOfChangesTakeBack,
  InversesOfStagesTakeBack,
};

/// The inverse tree of accepted edits takes them back. It is accepted in each state with the
/// configuration and the numbers that they left in which their subchannels are quiet. Then each
/// cell that they wrote is as before them.
pub fn inverses_of_edits_take_back()
    ensures { InversesOfEditsTakeBack }
{}

/// The inverse tree of each change of a legal history takes it back, whether the change stands, is
/// undone, or is past.
pub fn inverses_of_changes_take_back()
    ensures { InversesOfChangesTakeBack }
{}

/// The inverse tree of a staged change takes it back once it is committed.
pub fn inverses_of_stages_take_back()
    ensures { InversesOfStagesTakeBack }
{}
