ghost use Rattle.iocm_history.specs.HistoryLaws.{
  RunsAreLegal,
  StatesStayInUse,
  StepsStep,
  ActivationsDoWhatTheyMean,
  OtherCallsLeaveTheState,
  TreesOverALimitWantNoMemory,
};

/// Runs of calls are legal histories.
pub fn runs_are_legal()
    ensures { RunsAreLegal }
{}

/// From a state in use, one that is sound and in which the rules hold, every legal history leads to
/// one, also while a change is staged.
pub fn states_stay_in_use()
    ensures { StatesStayInUse }
{}

/// An order, a device begin or a device end that is not held is done in the state now.
pub fn steps_step()
    ensures { StepsStep }
{}

/// An accepted activation leaves what its change tree means in the state now.
pub fn activations_do_what_they_mean()
    ensures { ActivationsDoWhatTheyMean }
{}

/// A change tree that is too deep or has too many leaves is refused for that, or since a change is
/// staged, and never for lack of memory.
pub fn trees_over_a_limit_want_no_memory()
    ensures { TreesOverALimitWantNoMemory }
{}

/// Every call that is refused or held leaves the state, and so do those that begin, advance or
/// abort a change in stages, and the call that shows counts.
pub fn other_calls_leave_the_state()
    ensures { OtherCallsLeaveTheState }
{}
