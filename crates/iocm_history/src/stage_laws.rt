ghost use Rattle.iocm_history.specs.StageLaws.{
  AbortLeavesTheOtherSteps,
  CommitDoesTheEdits,
};

/// Where a change was begun and later aborted, and no answer between was that a change was accepted
/// or aborted, the state is that of the run that goes on from before the Begin with only the steps
/// between that were done. That run is legal: these steps are answered in it as they were. The
/// steps that were held and all other calls between are no part of it.
///
/// Promise: an abort leaves what the steps between would leave alone, if no change was made there.
pub fn abort_leaves_the_other_steps()
    ensures { AbortLeavesTheOtherSteps }
{}

/// A Commit does the edits that its tree performed at the Begin, in the state that the other steps
/// leave, and these are answered as in the run that makes them alone.
///
/// Promise: a commit does the edits that the change had at its begin.
pub fn commit_does_the_edits()
    ensures { CommitDoesTheEdits }
{}
