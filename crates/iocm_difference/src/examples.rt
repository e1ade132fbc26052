ghost use Rattle.iocm_difference.specs.Examples.{OneRecord, ARenamedImage, AllPasses, EndsOfEachKind, PassOfEachAction};

/// Differences of small configurations: one record, a renamed image, and all five passes.
pub fn differences_are_as_worked()
    ensures one { OneRecord }
    ensures renamed { ARenamedImage }
    ensures all { AllPasses }
{}

/// The ends, and the pass of each action.
pub fn passes_are_as_worked()
    ensures ends { EndsOfEachKind }
    ensures passes { PassOfEachAction }
{}
