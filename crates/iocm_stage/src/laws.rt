ghost use Rattle.iocm_stage.specs.StageLaws.{StepsElsewherePassAStage};

use iocm_plant::what_happens_between;

/// A step on a subchannel that isn't held leaves a stage one, and is answered as if no edit had
/// been advanced: what is left does still what it did when the change was begun, and an abort
/// leaves the state with the step alone.
pub fn steps_elsewhere_pass_a_stage()
    ensures { StepsElsewherePassAStage }
{
    // For the proof alone: what takes an edit back can do so still.
    what_happens_between();
}
