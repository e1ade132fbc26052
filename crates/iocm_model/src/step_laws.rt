ghost use Rattle.iocm_model.specs.Laws.Steps.{StepsElsewherePass, StepsElsewherePassBack, OverwrittenStepsVanish};

/// A step on a subchannel that a change of a sound state doesn't alter, and the effect of the
/// change, give the same state and the same answer in either order, as long as configuration and
/// numbers are those before it; and so do such a step and the taking back, as long as they are
/// those after it. A step on a subchannel that is overwritten leaves no trace.
pub fn steps_elsewhere_pass()
    ensures forth { StepsElsewherePass }
    ensures back { StepsElsewherePassBack }
    ensures vanish { OverwrittenStepsVanish }
{}
