ghost use Rattle.iocm_runs.specs.LaterChanges.{LegalRunsWithoutLeadThere};
ghost use Rattle.iocm_runs.specs.RedoneAmong.{RunsThatCountAreRuns};
ghost use Rattle.iocm_runs.specs.RedoneRun.{RedoneRunsAreRuns};
ghost use Rattle.iocm_runs.specs.StagedRun.{StagedRunsAreRuns};
ghost use Rattle.iocm_runs.specs.UndoneRun.{UndoneRunsAreRuns};

/// A change is undone, and no change was accepted, undone or redone since it came. Then what is
/// left without the change, without the undo, and without the steps on its subchannels is legal.
/// The steps that are left are answered in it as they were, and it leads to the state after the
/// undo.
///
/// Promise: if only steps came since a change, the run without it is a legal run of its own.
pub fn undone_runs_are_runs()
    ensures { UndoneRunsAreRuns }
{}

/// The same where the change was made in stages. The history without its Begin, its Commit and the
/// undo is legal, and leads to the state after the undo. It has the steps that were done until the
/// Commit, and those since then off its subchannels.
pub fn staged_runs_are_runs()
    ensures { StagedRunsAreRuns }
{}

/// Where a change is undone under later changes, the run without it makes these with the numbers
/// before their own. That run need not be legal: a later change may get other device numbers in it,
/// and a step another answer. Where it is legal, it leads to the state after the undo.
///
/// Promise: under later changes, a legal run without the change leads to what its undo leaves.
pub fn legal_runs_without_lead_there()
    ensures { LegalRunsWithoutLeadThere }
{}

/// A change is undone and redone, and no change was accepted, undone or redone between. Then what
/// is left without the undo, without the redo, and without the steps between on its subchannels is
/// legal. The other steps are answered in it as they were. It leads to the state after the redo,
/// and the same changes stand and are undone.
pub fn redone_runs_are_runs()
    ensures { RedoneRunsAreRuns }
{}

/// Where a change is undone and redone, with no undo or redo of it between, other changes may have
/// been undone and redone between. The history without all of these, with the steps between that
/// count after the redo, is legal: they are answered in it as they were. It leads to the state
/// after the redo. What was before the undo is marked after the redo as it was then.
pub fn runs_that_count_are_runs()
    ensures { RunsThatCountAreRuns }
{}
