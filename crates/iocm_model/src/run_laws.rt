ghost use Rattle.iocm_model.specs.Laws.Runs.{
  OpeningIsSound,
  StaysSound,
  AcceptedCarryFreeNumbers,
  WritesItsEffect,
  PutsBack,
  GoesBack,
  RunGoesBack,
  InversesAreAccepted,
  InversesWriteTheSame,
};
ghost use Rattle.iocm_model.specs.Laws.Steps.{StepsStaySound};

/// The state at opening is sound where each record is under its own key. Edits whose carried
/// numbers are free, as those of accepted edits are, and steps leave a sound state.
pub fn states_stay_sound()
    ensures opening { OpeningIsSound }
    ensures edits { StaysSound }
    ensures accepted { AcceptedCarryFreeNumbers }
    ensures steps { StepsStaySound }
{}

/// What edits whose carried numbers are free do to a sound state is to overwrite the cells of their
/// effect; and to overwrite these cells as they were gives back the state.
pub fn edits_write_their_effect()
    ensures forth { WritesItsEffect }
    ensures back { PutsBack }
{}

/// There and back: the inverse of an edit gives back the cells that it wrote, at every state with
/// the configuration and the numbers after it, and with the live records that are kept. So do the
/// inverses of a run of edits, the last first; each is accepted where the altered subchannels are
/// quiet, and they write the same cells.
pub fn edits_go_back()
    ensures edit { GoesBack }
    ensures run { RunGoesBack }
    ensures accepted { InversesAreAccepted }
    ensures cells { InversesWriteTheSame }
{}
